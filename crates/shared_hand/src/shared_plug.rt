ghost use Rattle.std.specs.Prelude.{◌≡◌, ◌⊎◌, ◌<◌, ◌≤◌, [], Some, None, IfErr, IfOk};
ghost use Rattle.std.specs.Option.{option_copied};
ghost use Rattle.outside_api.specs.Clock.{new_clock};
ghost use Rattle.outside_api.specs.Plugs.{AddsDial, CountsDial, dial_of};
ghost use Rattle.outside_files.specs.Counts.{Rose};
ghost use Rattle.tree_base.specs.Limits.{most_workers};

use crate::shared_engine::SharedEngine;
use crate::shared_hand::SharedHand;
use memory_engine::MemoryEngine;
use memory_wire::{MemoryDoor, MemoryDoors, MemoryPipe, MemoryStreams};
use outside_api::{Dial, DialAnswer, Hand, Plug, Target, note_dial};
use std::alloc::Global;
use std::sync::{Arc, Mutex, Wait};
use tree_base::{List, Memory, Text};

/// A plug of hands that share one Engine in memory. It makes as many hands as it was told, whatever their target; a further dial
/// fails. It tells no Engine, since each of the hands may change it, and has neither streams nor doors.
#[derive(Drop)]
pub struct SharedPlug<'r, R> {
    rt: &'r R,
    pub shared: Arc<Mutex<SharedEngine>>,
    hands: u32,
    dials: List<Dial>,
    dialled: u32,
    streams: MemoryStreams,
    doors: MemoryDoors,
    failed: u64,
}

impl<'r, R> SharedPlug<'r, R> {
    ghost use Rattle.shared_hand.specs.SharedPlugs.{dialled_of, dials_of, faults_of, hands_of};

    /// A plug of 1 to 16 hands for this Engine, whose hands' clock stands at 0.
    pub fn new(
        alloc: Global,
        rt: &'r R,
        engine: MemoryEngine,
        hands: u32,
    ) -> Result<SharedPlug<'r, R>, Memory>
        requires some { 0 < hands }
        requires few { hands ≤ most_workers }
        ensures hands { IfOk result (λ plug. hands_of plug ≡ hands) }
        ensures dials { IfOk result (λ plug. dials_of plug ≡ []) }
        ensures dialled { IfOk result (λ plug. dialled_of plug ≡ 0) }
        ensures faults { IfOk result (λ plug. faults_of plug ≡ 0) }
    {
        let shared = Arc::new(alloc, Mutex::new(SharedEngine::new(engine)))?;
        Ok(SharedPlug {
            rt,
            shared,
            hands,
            dials: List::new(alloc),
            dialled: 0,
            streams: MemoryStreams::none(alloc),
            doors: MemoryDoors::none(alloc),
            failed: 0,
        })
    }

    /// The Engine, where none of the hands is left; else the plug as it was. No memory.
    pub fn into_engine(self) -> Result<MemoryEngine, SharedPlug<'r, R>>
        ensures { IfErr result (λ plug. plug ≡ self.entry) }
    {
        let SharedPlug {
            rt,
            shared,
            hands,
            dials,
            dialled,
            streams,
            doors,
            failed,
        } = self;
        match Arc::try_unwrap(shared) {
            Ok(alone) => Ok(alone.into_inner().engine),
            Err(shared) => Err(SharedPlug {
                rt,
                shared,
                hands,
                dials,
                dialled,
                streams,
                doors,
                failed,
            }),
        }
    }
}

impl<'r, R: Wait + Sync> Plug for SharedPlug<'r, R> {
    type Hand = SharedHand<'r, R>;

    type Stream = MemoryPipe;

    type Door = MemoryDoor;

    ghost use Rattle.shared_hand.specs.SharedPlugs.{dialled_of, dials_of, doors_of, doors_opened_by, faults_of, hands_of, opened_by, received_by, streams_of, talks_by};
    ghost use Rattle.shared_hand.specs.SharedHands.{clock_of, log_of};

    ghost engine = { λ _. None };

    ghost dials = { λ plug. plug.dials };

    ghost dialled = { λ plug. Some plug.dialled };

    ghost streams = { λ plug. streams_of plug };

    ghost opened = { λ plug. opened_by plug };

    ghost talks = { λ plug. talks_by plug };

    ghost doors = { λ plug. doors_of plug };

    ghost doors_opened = { λ plug. doors_opened_by plug };

    ghost received = { λ plug. received_by plug };

    ghost faults = { λ plug. plug.failed };

    /// Makes a hand, as long as fewer than it was told were made. Memory only where there is none for the dial.
    fn dial(
        &mut self,
        alloc: Global,
        target: &Target,
        stop_file: Option<&Text>,
        number: u32,
    ) -> DialAnswer<SharedHand<'r, R>>
        ensures counted { faults_of self.old ≤ faults_of self.new }
        ensures failed { result ≡ DialAnswer.Failed
            → Rose (faults_of self.old) (faults_of self.new) }
        ensures dials { AddsDial (dials_of self.old)
            (dial_of target.now (option_copied stop_file.entry) number) (dials_of self.new) result }
        ensures failed_only { result ≡ DialAnswer.Failed
            → hands_of self.old ≤ dialled_of self.old }
        ensures unmade { hands_of self.old ≤ dialled_of self.old
            → (result ≡ DialAnswer.Failed) ⊎ (result ≡ DialAnswer.Memory) }
        ensures dialled { CountsDial (Some (dialled_of self.old)) (Some (dialled_of self.new))
            result }
        ensures log { (hand : _) → result ≡ DialAnswer.Dialled hand → log_of hand ≡ [] }
        ensures clock { (hand : _) → result ≡ DialAnswer.Dialled hand
            → clock_of hand ≡ new_clock }
        ensures hands { hands_of self.new ≡ hands_of self.old }
        ensures shared { self.new.shared ≡ self.old.shared }
        ensures streams { streams_of self.new ≡ streams_of self.old }
        ensures opened { opened_by self.new ≡ opened_by self.old }
        ensures talks { talks_by self.new ≡ talks_by self.old }
        ensures doors { doors_of self.new ≡ doors_of self.old }
        ensures doors_opened { doors_opened_by self.new ≡ doors_opened_by self.old }
        ensures received { received_by self.new ≡ received_by self.old }
    {
        if note_dial(alloc, &mut self.dials, target, stop_file, number).is_err() {
            return DialAnswer::Memory;
        }
        if self.dialled >= self.hands {
            self.failed = self.failed.saturating_add(1);
            return DialAnswer::Failed;
        }
        match Arc::try_clone(&self.shared) {
            Ok(shared) => {
                self.dialled += 1;
                DialAnswer::Dialled(SharedHand::new(alloc, self.rt, shared))
            }
            Err(_) => DialAnswer::Memory,
        }
    }

    fn stream(&mut self, alloc: Global, target: &Target) -> DialAnswer<MemoryPipe> {
        self.streams.open(alloc, target, &mut self.failed)
    }

    fn close_stream(&mut self, stream: MemoryPipe) {
        self.streams.close(stream, &mut self.failed);
    }

    fn door(&mut self, alloc: Global, path: &Text) -> DialAnswer<MemoryDoor> {
        self.doors.open(alloc, path, &mut self.failed)
    }

    fn close_door(&mut self, door: MemoryDoor) {
        self.doors.close(door, &mut self.failed);
    }
}
