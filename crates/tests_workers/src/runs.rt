//! Runs of two workers over what a plug tells, without the call around them.

ghost use Rattle.std.specs.Prelude.{◌≡◌, ◌+◌, All, Some, IfOk, length};
ghost use Rattle.outside_api.specs.Clock.{new_clock};

use crate::declared::two_of;
use crate::journals::{Tally, tally_of};
use engine_types::{Aim, Purpose, RunOptions};
use outside_api::{DialAnswer, Hand, Plug, Target};
use parallel_run::run_parallel;
use std::alloc::Global;
use std::sync::Wait;
use std::thread::Threads;
use tree_base::{List, Memory};

/// What is asked for: an `up` that waits for nothing.
const AIM: Aim = Aim {
    purpose: Purpose::Up,
    orphans: false,
    volumes: false,
};

const OPTIONS: RunOptions = RunOptions {
    wait: false,
    wait_seconds: None,
    stop_seconds: None,
};

/// Brings two containers of a service up that don't need each other, with the first two hands of a plug: what came of it.
pub(crate) fn ran_up<R: Threads + Wait + Sync, P: Plug>(
    alloc: Global,
    rt: &R,
    plug: &mut P,
) -> Result<Tally, Memory>
where
    P::Hand: Send,
    requires { P.dialled plug.old ≡ Some 0 }
{
    let hands = two_hands(alloc, plug)?;
    let declared = two_of(alloc, "web")?;
    let together = run_parallel(alloc, rt, hands, declared, AIM, OPTIONS);
    let tally = tally_of(&together.ran);
    drop(together);
    Ok(tally)
}

/// The hands of two workers, in their order.
fn two_hands<P: Plug>(alloc: Global, plug: &mut P) -> Result<List<P::Hand>, Memory>
    requires { P.dialled plug.old ≡ Some 0 }
    ensures two { IfOk result (λ hands. length hands ≡ 2) }
    ensures unused { IfOk result (λ hands. All (λ h. P.Hand.clock h ≡ new_clock) hands) }
{
    let mut hands = List::new(alloc);
    hands.push(hand_of(alloc, plug, 0)?)?;
    hands.push(hand_of(alloc, plug, 1)?)?;
    Ok(hands)
}

/// The hand of the worker with a number, where the plug made those of the workers before. `Memory` too where the dial fails.
fn hand_of<P: Plug>(alloc: Global, plug: &mut P, number: u32) -> Result<P::Hand, Memory>
    requires { P.dialled plug.old ≡ Some number }
    ensures dialled { IfOk result (λ _. P.dialled plug.new ≡ Some (number + 1)) }
    ensures clock { IfOk result (λ hand. P.Hand.clock hand ≡ new_clock) }
{
    match plug.dial(alloc, &Target::InMemory, None, number) {
        DialAnswer::Dialled(hand) => Ok(hand),
        DialAnswer::Failed | DialAnswer::Memory => Err(Memory),
    }
}
