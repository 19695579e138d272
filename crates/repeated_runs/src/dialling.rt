ghost use Rattle.std.specs.Prelude.{◌≡◌, ◌+◌, ◌<◌, ◌≤◌, ◌^◌, [], Err, IfErr, IfOk, length, vec_capacity};
ghost use Rattle.std.specs.Option.{ForSome};
ghost use Rattle.compose_cli.specs.Dialling.{Dials};
ghost use Rattle.compose_cli.specs.Ends.{CountsHands};
ghost use Rattle.ledger_run.specs.Tellings.{telling};
ghost use Rattle.outside_api.specs.Plugs.{dial_of};
ghost use Rattle.outside_files.specs.Counts.{Rose};
ghost use Rattle.repeated_runs.specs.Dials.{AddsDialOf, IsDialHere, refusal_by};
ghost use Rattle.repeated_runs.specs.Hands.{AreNew, IsNew};
ghost use Rattle.tree_base.specs.Limits.{most_workers};

use compose_cli::Place;
use outside_api::{DialAnswer, Plug};
use std::alloc::Global;

/// Why a hand isn't made.
#[derive(Clone, Copy)]
pub(crate) enum DialFault {
    Plug,
    Memory,
}

/// Dials the hands of so many workers, in their order and with the numbers from 0 on, and puts them into a vector that has room for
/// all of them. Where a dial fails, there is none after it, and the vector has the hands that were made before.
pub(crate) fn dial_all<P: Plug>(
    alloc: Global,
    place: &Place,
    workers: u32,
    plug: &mut P,
    hands: &mut Vec<P::Hand>,
) -> Result<(), DialFault>
    requires told { ForSome (P.dialled plug.old) (λ n. n < 2 ^ 61 + 2 ^ 60) }
    requires few { workers ≤ most_workers }
    requires empty { hands.old.items ≡ [] }
    requires room { workers ≤ vec_capacity hands.old }
    ensures all { IfOk result (λ done. length hands.new.items ≡ workers) }
    ensures made { AreNew (λ h. telling (P.Hand.log h) (P.Hand.heard h) (P.Hand.faults h)
        (P.Hand.clock h) (P.Hand.engine h)) hands.new.items }
    ensures dials { Dials (IsDialHere place.now) workers (P.dials plug.old)
        (P.dials plug.new) (length hands.new.items) (refusal_by result) }
    ensures dialled { CountsHands (P.dialled plug.old) (P.dialled plug.new)
        (length hands.new.items) }
    ensures fault { result ≡ Err DialFault.Plug → Rose (P.faults plug.old) (P.faults plug.new) }
{
    for number in 0..workers {
        let hand = dial(alloc, place, number, plug)?;
        hands.push_reserved(hand);
    }
    Ok(())
}

/// Dials the hand of a worker, by its number.
pub(crate) fn dial<P: Plug>(
    alloc: Global,
    place: &Place,
    number: u32,
    plug: &mut P,
) -> Result<P::Hand, DialFault>
    requires { ForSome (P.dialled plug.old) (λ n. n < 2 ^ 62) }
    ensures made { IfOk result (λ h. IsNew (telling (P.Hand.log h) (P.Hand.heard h)
        (P.Hand.faults h) (P.Hand.clock h) (P.Hand.engine h))) }
    ensures dials { AddsDialOf (P.dials plug.old)
        (dial_of place.now.target place.now.stop_file number) (P.dials plug.new)
        (refusal_by result) }
    ensures dialled { IfOk result (λ h.
        CountsHands (P.dialled plug.old) (P.dialled plug.new) 1) }
    ensures undialled { IfErr result (λ fault. P.dialled plug.new ≡ P.dialled plug.old) }
    ensures counted { P.faults plug.old ≤ P.faults plug.new }
    ensures fault { result ≡ Err DialFault.Plug → Rose (P.faults plug.old) (P.faults plug.new) }
{
    match plug.dial(alloc, &place.target, place.stop_file.as_ref(), number) {
        DialAnswer::Dialled(hand) => Ok(hand),
        DialAnswer::Failed => Err(DialFault::Plug),
        DialAnswer::Memory => Err(DialFault::Memory),
    }
}
