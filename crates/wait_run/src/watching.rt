ghost use Rattle.std.specs.Prelude.{◌≡◌, ◌≤◌, ◌++◌, ◌∷◌, ℕ, false, None, List, [], Option, length};
ghost use Rattle.engine_types.specs.declared.Declared.{Declared};
ghost use Rattle.engine_types.specs.declared.Listed.{Listed};
ghost use Rattle.event_watch.specs.Events.{events};
ghost use Rattle.event_watch.specs.Reading.{HasRead};
ghost use Rattle.event_watch.specs.declared.Event.{Event};
ghost use Rattle.event_watch.specs.declared.EventReader.{EventReader};
ghost use Rattle.outside_api.specs.Pipes.{Talk};
ghost use Rattle.outside_api.specs.Standings.{Standing, standing};
ghost use Rattle.wait_run.specs.Goals.{is_settled_now};
ghost use Rattle.wait_run.specs.Streams.{ReadsTo};
ghost use Rattle.wait_run.specs.Watching.{Feeds, LooksAfter, LooksBehind, LooksOn, Watches, fed_as, over};
ghost use Rattle.wait_run.specs.Ways.{Way};

use crate::goals::Goals;
use crate::looking::look;
use crate::refusal::WaitRefusal;
use engine_types::{StreamFault, WireEnd};
use event_watch::{Event, EventReader, EventRefusal};
use http_response::{OpenBody, ResponseEnd};
use outside_api::{Hand, Pipe};
use std::alloc::Global;
use tree_base::List;
use tree_base::limits::MOST_STREAM_BYTES;

/// Reads events, and looks at the container of each behind it, until all goals are met or one has failed, or the stream ends. Each
/// slot was looked at once.
pub(crate) fn watch<H: Hand, P: Pipe>(
    alloc: Global,
    hand: &mut H,
    stream: &mut P,
    body: &mut OpenBody,
    goals: &mut Goals,
) -> Result<(), WaitRefusal>
    ensures counted { P.faults stream.old ≤ P.faults stream.new }
    ensures watches { (declared : Declared) (rows : List Listed) (from : Standing)
        (talk : Option Talk) (faults : ℕ)
        → Way declared rows [] (length declared.slots) from
        (standing (H.log hand.old) (H.engine hand.old) (H.heard hand.old)
        (H.faults hand.old) (H.clock hand.old)) goals.old
        → ReadsTo body.old [] talk (P.talk stream.old) → faults ≤ P.faults stream.old
        → Watches declared rows from
        (standing (H.log hand.new) (H.engine hand.new) (H.heard hand.new)
        (H.faults hand.new) (H.clock hand.new)) talk (P.talk stream.new) faults
        (P.faults stream.new) goals.new result }
{
    let mut reader = EventReader::new(alloc)?;
    watch_with(alloc, hand, stream, body, &mut reader, goals)
}

/// The same, with a reader that has read nothing.
fn watch_with<H: Hand, P: Pipe>(
    alloc: Global,
    hand: &mut H,
    stream: &mut P,
    body: &mut OpenBody,
    reader: &mut EventReader,
    goals: &mut Goals,
) -> Result<(), WaitRefusal>
    ensures counted { P.faults stream.old ≤ P.faults stream.new }
    ensures watches { (declared : Declared) (rows : List Listed) (from : Standing)
        (talk : Option Talk) (faults : ℕ)
        → Way declared rows [] (length declared.slots) from
        (standing (H.log hand.old) (H.engine hand.old) (H.heard hand.old)
        (H.faults hand.old) (H.clock hand.old)) goals.old
        → ReadsTo body.old [] talk (P.talk stream.old) → faults ≤ P.faults stream.old
        → HasRead reader.old [] []
        → Watches declared rows from
        (standing (H.log hand.new) (H.engine hand.new) (H.heard hand.new)
        (H.faults hand.new) (H.clock hand.new)) talk (P.talk stream.new) faults
        (P.faults stream.new) goals.new result }
{
    // A body has so many bytes at most, and each piece one at least.
    'reading: for _pieces in 0..MOST_STREAM_BYTES + 1 {
        if goals.is_settled() {
            return Ok(());
        }
        let fed = feed(alloc, stream, body, reader)?;
        look_at_events(alloc, hand, reader, goals)?;
        if let Some(fault) = fed {
            return over(goals.is_settled(), fault);
        }
    }
    Err(WaitRefusal::Stream(StreamFault::Wire(WireEnd::TooLarge)))
}

/// What the end of a stream comes to behind which nothing is read: it refuses the wait, unless goals are settled.
fn over(settled: bool, fault: StreamFault) -> Result<(), WaitRefusal>
    ensures { result ≡ over settled fault }
{
    if settled {
        Ok(())
    } else {
        Err(WaitRefusal::Stream(fault))
    }
}

/// Reads the next piece of the stream, and what ends it, if anything does: its own end, or a line that is no event.
fn feed<P: Pipe>(
    alloc: Global,
    stream: &mut P,
    body: &mut OpenBody,
    reader: &mut EventReader,
) -> Result<Option<StreamFault>, WaitRefusal>
    ensures counted { P.faults stream.old ≤ P.faults stream.new }
    ensures feeds { (given : List ℕ) (taken : List Event) (talk : Option Talk) (faults : ℕ)
        → ReadsTo body.old given talk (P.talk stream.old) → faults ≤ P.faults stream.old
        → HasRead reader.old given taken → (events given).fault ≡ None
        → Feeds body.new reader.new given taken talk (P.talk stream.new) faults
        (P.faults stream.new) result }
{
    let mut piece = List::new(alloc);
    match body.more(alloc, stream, &mut piece) {
        Ok(true) => fed(reader.feed(alloc, piece.as_slice())),
        Ok(false) => Ok(Some(StreamFault::Closed)),
        Err(ResponseEnd::Wire(cause)) => Ok(Some(StreamFault::Wire(cause))),
        Err(ResponseEnd::Memory) => Err(WaitRefusal::Memory),
    }
}

/// What a reader's answer means for the stream.
fn fed(answer: Result<(), EventRefusal>) -> Result<Option<StreamFault>, WaitRefusal>
    ensures { result ≡ fed_as answer }
{
    match answer {
        Ok(()) => Ok(None),
        Err(EventRefusal::BadEvent { at }) => Ok(Some(StreamFault::BadEvent { at })),
        Err(EventRefusal::TooLong { at }) => Ok(Some(StreamFault::TooLong { at })),
        Err(EventRefusal::Memory) => Err(WaitRefusal::Memory),
    }
}

/// Looks behind each event that waits at the container that it names, where that is a slot's, as long as goals are open.
fn look_at_events<H: Hand>(
    alloc: Global,
    hand: &mut H,
    reader: &mut EventReader,
    goals: &mut Goals,
) -> Result<(), WaitRefusal>
    ensures { (declared : Declared) (rows : List Listed) (body : List ℕ)
        (taken : List Event) (from : Standing)
        → LooksAfter declared rows body taken from
        (standing (H.log hand.old) (H.engine hand.old) (H.heard hand.old)
        (H.faults hand.old) (H.clock hand.old)) reader.old goals.old
        → LooksOn declared rows body from
        (standing (H.log hand.new) (H.engine hand.new) (H.heard hand.new)
        (H.faults hand.new) (H.clock hand.new)) reader.new goals.new result }
{
    'events: while !goals.is_settled() {
        let Some(event) = reader.take() else {
            return Ok(());
        };
        look_behind(alloc, hand, goals, &event)?;
    }
    Ok(())
}

/// Looks behind an event at the container that it names, where that is a slot's. Goals are open.
fn look_behind<H: Hand>(
    alloc: Global,
    hand: &mut H,
    goals: &mut Goals,
    event: &Event,
) -> Result<(), WaitRefusal>
    ensures { (declared : Declared) (rows : List Listed) (body : List ℕ)
        (taken : List Event) (from : Standing) (reader behind : EventReader)
        → LooksAfter declared rows body taken from
        (standing (H.log hand.old) (H.engine hand.old) (H.heard hand.old)
        (H.faults hand.old) (H.clock hand.old)) reader goals.old
        → HasRead behind body (taken ++ event.now ∷ []) → is_settled_now goals.old ≡ false
        → LooksBehind declared rows body (taken ++ event.now ∷ []) from
        (standing (H.log hand.new) (H.engine hand.new) (H.heard hand.new)
        (H.faults hand.new) (H.clock hand.new)) behind goals.new result }
{
    match goals.slot_with(&event.id) {
        Some(s) => look(alloc, hand, goals, s),
        None => Ok(()),
    }
}
