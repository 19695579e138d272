ghost use Rattle.std.specs.Prelude.{◌≡◌, ℕ, ◌+◌, ◌<◌, ◌≤◌, ◌^◌, List, [], Option, IfSome, length};
ghost use Rattle.std.specs.Option.{ForSome, option_copied};
ghost use Rattle.engine_types.specs.declared.Engine.{Engine};
ghost use Rattle.outside_api.specs.Clock.{new_clock};
ghost use Rattle.outside_api.specs.declared.dial.Dial.{Dial};
ghost use Rattle.outside_api.specs.declared.plug.Target.{Target};
ghost use Rattle.outside_files.specs.Counts.{Rose};
ghost use Rattle.outside_api.specs.Hands.{BeginsWith, HeardNothing};
ghost use Rattle.outside_api.specs.Doors.{GrewByDoor, IsNewDoor, Received};
ghost use Rattle.outside_api.specs.Pipes.{Talk, silence};
ghost use Rattle.outside_api.specs.Plugs.{Adds, AddsDial, CountsDial, dial_of};
ghost use Rattle.outside_api.specs.Wires.{Dials, GrewByTalk, RoseBy};

use crate::door::Door;
use crate::hand::Hand;
use crate::pipe::Pipe;
use crate::wire::DialAnswer;
use std::alloc::Global;
use tree_base::{Memory, Text, TryCopy};

/// The Engine that hands are to speak with.
#[derive(Drop)]
pub enum Target {
    /// The one behind a socket at a path.
    Socket(Text),
    InMemory,
}

impl TryCopy for Target {
    fn copy(&self, alloc: Global) -> Result<Target, Memory> {
        match self {
            Target::Socket(path) => Ok(Target::Socket(path.copy(alloc)?)),
            Target::InMemory => Ok(Target::InMemory),
        }
    }
}

/// Makes hands, and opens streams and doors.
pub trait Plug: Drop {
    type Hand: Hand;

    type Stream: Pipe;

    type Door: Door;

    /// The Engine that new hands begin with, where it is told.
    ghost engine: { Self → Option Engine };

    /// The dials that it was asked for, in order, whatever came of them.
    ghost dials: { Self → List Dial };

    /// How many hands were made, where it is told.
    ghost dialled: { Self → Option ℕ };

    /// The Engines to which it was asked for streams, in order, whatever came of them.
    ghost streams: { Self → List Target };

    /// How many streams were opened.
    ghost opened: { Self → ℕ };

    /// What was said on the streams that were taken back, where it is told.
    ghost talks: { Self → Option (List Talk) };

    /// The paths at which it was asked for doors, in order, whatever came of them.
    ghost doors: { Self → List (List ℕ) };

    /// How many doors were opened.
    ghost doors_opened: { Self → ℕ };

    /// What the doors that were taken back received, where it is told.
    ghost received: { Self → Option (List Received) };

    /// How many dials failed, how many streams and doors couldn't be opened, and how many with a fault were taken back.
    ghost faults: { Self → ℕ };

    /// Makes the hand of a worker, by its number. The hand's log is empty, it heard nothing and counted no
    /// fault, and its clock was never used.
    fn dial(
        &mut self,
        alloc: Global,
        target: &Target,
        stop_file: Option<&Text>,
        number: u32,
    ) -> DialAnswer<Self::Hand>
        requires { ForSome (dialled self.old) (λ n. n < 2 ^ 62) }
        ensures counted { faults self.old ≤ faults self.new }
        ensures failed { result ≡ DialAnswer.Failed → Rose (faults self.old) (faults self.new) }
        ensures dials { AddsDial (dials self.old)
            (dial_of target.now (option_copied stop_file.entry) number) (dials self.new) result }
        ensures dialled { CountsDial (dialled self.old) (dialled self.new) result }
        ensures log { (hand : Self.Hand) → result ≡ DialAnswer.Dialled hand
            → Self.Hand.log hand ≡ [] }
        ensures heard { (hand : Self.Hand) → result ≡ DialAnswer.Dialled hand
            → HeardNothing (Self.Hand.heard hand) }
        ensures clock { (hand : Self.Hand) → result ≡ DialAnswer.Dialled hand
            → Self.Hand.clock hand ≡ new_clock }
        ensures faults { (hand : Self.Hand) → result ≡ DialAnswer.Dialled hand
            → Self.Hand.faults hand ≡ 0 }
        ensures engine { (hand : Self.Hand) → result ≡ DialAnswer.Dialled hand
            → BeginsWith (engine self.old) (Self.Hand.engine hand) }
        ensures streams { streams self.new ≡ streams self.old }
        ensures opened { opened self.new ≡ opened self.old }
        ensures talks { talks self.new ≡ talks self.old }
        ensures doors { doors self.new ≡ doors self.old }
        ensures doors_opened { doors_opened self.new ≡ doors_opened self.old }
        ensures received { received self.new ≡ received self.old };

    /// Opens a stream to an Engine, on which nothing was said yet.
    fn stream(&mut self, alloc: Global, target: &Target) -> DialAnswer<Self::Stream>
        requires { opened self.old < 2 ^ 62 }
        ensures counted { faults self.old ≤ faults self.new }
        ensures answer { Dials (faults self.old) (faults self.new) (opened self.old)
            (opened self.new) result }
        ensures streams { Adds (streams self.old) target.now (streams self.new) result }
        ensures fresh { (pipe : Self.Stream) → result ≡ DialAnswer.Dialled pipe
            → IfSome (Self.Stream.talk pipe) (λ talk. talk ≡ silence)
            × (Self.Stream.faults pipe ≡ 0) }
        ensures talks { talks self.new ≡ talks self.old }
        ensures doors { doors self.new ≡ doors self.old }
        ensures doors_opened { doors_opened self.new ≡ doors_opened self.old }
        ensures received { received self.new ≡ received self.old }
        ensures dials { dials self.new ≡ dials self.old }
        ensures dialled { dialled self.new ≡ dialled self.old }
        ensures engine { engine self.new ≡ engine self.old };

    /// Takes a stream back, with what was said on it. No memory.
    fn close_stream(&mut self, stream: Self::Stream)
        requires { IfSome (talks self.old) (λ talks. length talks < opened self.old) }
        ensures told { GrewByTalk (talks self.old) (Self.Stream.talk stream) (talks self.new) }
        ensures counted { faults self.old ≤ faults self.new }
        ensures faulty { RoseBy (Self.Stream.faults stream) (faults self.old) (faults self.new) }
        ensures streams { streams self.new ≡ streams self.old }
        ensures opened { opened self.new ≡ opened self.old }
        ensures doors { doors self.new ≡ doors self.old }
        ensures doors_opened { doors_opened self.new ≡ doors_opened self.old }
        ensures received { received self.new ≡ received self.old }
        ensures dials { dials self.new ≡ dials self.old }
        ensures dialled { dialled self.new ≡ dialled self.old }
        ensures engine { engine self.new ≡ engine self.old };

    /// Opens a door at a path, which took no connection yet.
    fn door(&mut self, alloc: Global, path: &Text) -> DialAnswer<Self::Door>
        requires { doors_opened self.old < 2 ^ 62 }
        ensures counted { faults self.old ≤ faults self.new }
        ensures answer { Dials (faults self.old) (faults self.new) (doors_opened self.old)
            (doors_opened self.new) result }
        ensures doors { Adds (doors self.old) path.now (doors self.new) result }
        ensures fresh { (door : Self.Door) → result ≡ DialAnswer.Dialled door
            → IsNewDoor (Self.Door.past door) (Self.Door.dialled door) (Self.Door.torn door)
            (Self.Door.faults door) }
        ensures received { received self.new ≡ received self.old }
        ensures streams { streams self.new ≡ streams self.old }
        ensures opened { opened self.new ≡ opened self.old }
        ensures talks { talks self.new ≡ talks self.old }
        ensures dials { dials self.new ≡ dials self.old }
        ensures dialled { dialled self.new ≡ dialled self.old }
        ensures engine { engine self.new ≡ engine self.old };

    /// Takes a door back, with what it received. No memory.
    fn close_door(&mut self, door: Self::Door)
        requires { IfSome (received self.old) (λ all. length all < doors_opened self.old) }
        ensures told { GrewByDoor (received self.old) (Self.Door.past door) (Self.Door.torn door)
            (received self.new) }
        ensures counted { faults self.old ≤ faults self.new }
        ensures faulty { RoseBy (Self.Door.faults door) (faults self.old) (faults self.new) }
        ensures doors { doors self.new ≡ doors self.old }
        ensures doors_opened { doors_opened self.new ≡ doors_opened self.old }
        ensures streams { streams self.new ≡ streams self.old }
        ensures opened { opened self.new ≡ opened self.old }
        ensures talks { talks self.new ≡ talks self.old }
        ensures dials { dials self.new ≡ dials self.old }
        ensures dialled { dialled self.new ≡ dialled self.old }
        ensures engine { engine self.new ≡ engine self.old };
}
