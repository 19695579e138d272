ghost use Rattle.std.specs.Prelude.{◌≡◌, ◌⊎◌, ◌≤◌, ℕ, List, [], Option, Some, Err};
ghost use Rattle.std.specs.Option.{option_map};
ghost use Rattle.engine_types.specs.declared.Declared.{Declared};
ghost use Rattle.engine_types.specs.declared.Listed.{Listed};
ghost use Rattle.outside_api.specs.Accounts.{account};
ghost use Rattle.outside_api.specs.Pipes.{Talk};
ghost use Rattle.outside_api.specs.Standings.{Standing, standing};
ghost use Rattle.http_response.specs.Hearing.{Hears};
ghost use Rattle.wait_run.specs.Comes.{Waits};
ghost use Rattle.wait_run.specs.Ends.{CameTo, failed_by};
ghost use Rattle.wait_run.specs.Goals.{failing_report};
ghost use Rattle.wait_run.specs.Reports.{goal_at};
ghost use Rattle.wait_run.specs.Streams.{ReadsTo};
ghost use Rattle.wait_run.specs.Taking.{goes_first};
ghost use Rattle.wait_run.specs.Watching.{EndsFrom, Watches};
ghost use Rattle.wait_run.specs.Ways.{Way};
ghost use Rattle.wait_run.specs.declared.refusal.WaitRefusal.{WaitRefusal};

use crate::goals::{Failing, Goals};
use crate::lines::name_at;
use crate::listing::list;
use crate::looking::look_at_all;
use crate::refusal::WaitRefusal;
use crate::stream::{open, send};
use crate::waited::Waited;
use crate::watching::watch;
use engine_types::{Condition, Declared};
use http_response::OpenBody;
use outside_api::{Hand, Pipe};
use std::alloc::Global;
use tree_base::{List, Memory, Text};

/// Waits until every slot of a declared set has reached its goal, or one has failed. It asks for the events of the project's
/// containers on a stream, which it reads to its head; lists the containers; looks at each slot's own once, in order; and then at
/// the one of each event, for as long as a goal is open and none has failed.
///
/// NotThere where a slot, the first, has no container in the listing. Stream where the head has another status than 200; where the
/// stream isn't one of HTTP, fails or ends; and where a line of it is no event or too long: behind the looks for the events before that,
/// and only where a goal is open still. Condition at the first report that fails a goal, and Request at an exchange that isn't
/// answered as asked, before which no report did. Else all goals are met.
pub fn wait_run<H: Hand, P: Pipe>(
    alloc: Global,
    declared: &Declared,
    hand: &mut H,
    stream: &mut P,
) -> Waited
    ensures counted { P.faults stream.old ≤ P.faults stream.new }
    ensures clock { H.clock hand.new ≡ H.clock hand.old }
    ensures waits { Waits declared.now
        (account (H.log hand.old) (H.heard hand.old) (H.faults hand.old))
        (account (H.log hand.new) (H.heard hand.new) (H.faults hand.new))
        (H.engine hand.old) (H.engine hand.new) (P.talk stream.old) (P.talk stream.new)
        (P.faults stream.old) (P.faults stream.new) result }
{
    match send(alloc, &declared.project, stream) {
        Ok(()) => wait_asked(alloc, declared, hand, stream),
        Err(refusal) => unmet(alloc, refusal),
    }
}

/// Waits on a stream on which the events were asked for.
fn wait_asked<H: Hand, P: Pipe>(
    alloc: Global,
    declared: &Declared,
    hand: &mut H,
    stream: &mut P,
) -> Waited
    ensures counted { P.faults stream.old ≤ P.faults stream.new }
    ensures ends { (faults : ℕ) → faults ≤ P.faults stream.old
        → Hears (P.talk stream.old) (P.talk stream.new) (EndsFrom declared.now
        (standing (H.log hand.old) (H.engine hand.old) (H.heard hand.old)
        (H.faults hand.old) (H.clock hand.old))
        (standing (H.log hand.new) (H.engine hand.new) (H.heard hand.new)
        (H.faults hand.new) (H.clock hand.new)) faults (P.faults stream.new) result) }
{
    match open(alloc, stream) {
        Ok(mut body) => wait_open(alloc, declared, hand, stream, &mut body),
        Err(refusal) => unmet(alloc, refusal),
    }
}

/// Waits on a stream whose head was read.
fn wait_open<H: Hand, P: Pipe>(
    alloc: Global,
    declared: &Declared,
    hand: &mut H,
    stream: &mut P,
    body: &mut OpenBody,
) -> Waited
    ensures counted { P.faults stream.old ≤ P.faults stream.new }
    ensures ends { (talk : Option Talk) (faults : ℕ)
        → ReadsTo body.old [] talk (P.talk stream.old) → faults ≤ P.faults stream.old
        → Hears talk (P.talk stream.new) (EndsFrom declared.now
        (standing (H.log hand.old) (H.engine hand.old) (H.heard hand.old)
        (H.faults hand.old) (H.clock hand.old))
        (standing (H.log hand.new) (H.engine hand.new) (H.heard hand.new)
        (H.faults hand.new) (H.clock hand.new)) faults (P.faults stream.new) result) }
{
    match list(alloc, declared, hand) {
        Ok(mut goals) => {
            let end = look_and_watch(alloc, hand, stream, body, &mut goals);
            waited(alloc, declared, goals, end)
        }
        Err(refusal) => unmet(alloc, refusal),
    }
}

/// Looks at each slot, and then behind each event.
fn look_and_watch<H: Hand, P: Pipe>(
    alloc: Global,
    hand: &mut H,
    stream: &mut P,
    body: &mut OpenBody,
    goals: &mut Goals,
) -> Result<(), WaitRefusal>
    ensures counted { P.faults stream.old ≤ P.faults stream.new }
    ensures watches { (declared : Declared) (rows : List Listed) (from : Standing)
        (talk : Option Talk) (faults : ℕ)
        → Way declared rows [] 0 from
        (standing (H.log hand.old) (H.engine hand.old) (H.heard hand.old)
        (H.faults hand.old) (H.clock hand.old)) goals.old
        → ReadsTo body.old [] talk (P.talk stream.old) → faults ≤ P.faults stream.old
        → Watches declared rows from
        (standing (H.log hand.new) (H.engine hand.new) (H.heard hand.new)
        (H.faults hand.new) (H.clock hand.new)) talk (P.talk stream.new) faults
        (P.faults stream.new) goals.new result }
{
    look_at_all(alloc, hand, goals)?;
    watch(alloc, hand, stream, body, goals)
}

/// What a wait came to that looked at no slot. No memory.
fn unmet(alloc: Global, refusal: WaitRefusal) -> Waited
    ensures refusal { result.refusal ≡ Some refusal }
    ensures met { result.met ≡ [] }
{
    Waited {
        refusal: Some(refusal),
        met: List::new(alloc),
    }
}

/// What a wait came to, by what ended it and by its goals.
fn waited(alloc: Global, declared: &Declared, goals: Goals, end: Result<(), WaitRefusal>) -> Waited
    ensures met { result.met ≡ goals.met }
    ensures refusal { CameTo declared.now (option_map failing_report goals.failed) end
        result.refusal }
{
    Waited {
        refusal: came_to(alloc, declared, goals.failed, end),
        met: goals.met,
    }
}

/// Why a wait ended, by the first report that failed a goal and by its last step: want of memory, that report, or what the step says.
fn came_to(
    alloc: Global,
    declared: &Declared,
    failed: Option<Failing>,
    end: Result<(), WaitRefusal>,
) -> Option<WaitRefusal>
    ensures { CameTo declared.now (option_map failing_report failed) end result }
{
    match end {
        Ok(()) => match failed {
            Some(failing) => Some(failed_by(alloc, declared, failing)),
            None => None,
        },
        Err(refusal) => Some(refused(alloc, declared, failed, refusal)),
    }
}

/// Why a wait ended whose last step was refused: want of memory, the first report that failed a goal, or what the step says.
fn refused(
    alloc: Global,
    declared: &Declared,
    failed: Option<Failing>,
    refusal: WaitRefusal,
) -> WaitRefusal
    ensures { CameTo declared.now (option_map failing_report failed) (Err refusal) (Some result) }
{
    match goes_first(failed, &refusal) {
        Some(failing) => {
            // By a call, since the drop of each variant of a refusal would be proved at this place.
            drop(refusal);
            failed_by(alloc, declared, failing)
        }
        None => refusal,
    }
}

/// The report that goes before a refusal: the first that failed a goal, unless memory was wanted. No memory.
fn goes_first(failed: Option<Failing>, refusal: &WaitRefusal) -> Option<Failing>
    ensures { result ≡ goes_first failed refusal.now }
{
    match refusal {
        WaitRefusal::Memory => None,
        _ => failed,
    }
}

/// The refusal by a report that failed its slot's goal, or want of memory.
fn failed_by(alloc: Global, declared: &Declared, failing: Failing) -> WaitRefusal
    ensures { (result ≡ WaitRefusal.Memory)
        ⊎ (result ≡ failed_by declared.now (failing_report failing)) }
{
    match Text::from_str(alloc, name_at(declared, failing.slot)) {
        Ok(slot) => WaitRefusal::Condition {
            slot,
            condition: goal_at(declared, failing.slot),
            report: failing.report,
        },
        Err(Memory) => WaitRefusal::Memory,
    }
}

/// The goal of the slot at a place. No memory.
fn goal_at(declared: &Declared, s: u32) -> Condition
    ensures { result ≡ goal_at declared.now s }
{
    match declared.slots.get(s as usize) {
        Some(slot) => slot.goal,
        None => Condition::Running,
    }
}
