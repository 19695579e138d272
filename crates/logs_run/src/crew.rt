ghost use Rattle.std.specs.Prelude.{◌≡◌, ◌+◌, ◌<◌, ◌≤◌, List, [], ◌++◌, Some, map, vec_capacity, vec_len};
ghost use mathlib.Core.List.{IsPrefix};
ghost use Rattle.log_book.specs.declared.entries.LogEntry.{LogEntry};
ghost use Rattle.turn_ledger.specs.Own.{Each};
ghost use Rattle.turn_ledger.specs.Seats.{IsOf};
ghost use Rattle.logs_run.specs.Crew.{AreCalm, AreFresh, AreLined, HaveEnded, IsPlain, both, calls_of, calm, lesser, met_by, met_with};

use crate::fetching::{Fault, Fetcher, Met};
use log_book::LogBook;
use outside_api::Hand;
use turn_ledger::{TurnSeat, Turns};

/// Gives each hand a seat, in their order: the hand at place w gets the seat with number w. No memory.
pub(crate) fn seat_all<H: Hand>(
    turns: &Turns<LogBook>,
    mut first: TurnSeat<LogBook>,
    hands: &mut Vec<H>,
    crew: &mut Vec<Fetcher<H>>,
)
    requires own { IsOf turns.now first }
    requires first { (first.view.number ≡ 0) × (first.view.mine ≡ []) × (first.view.joined ≡ []) }
    requires left { first.view.left + 1 ≡ vec_len hands.old }
    requires seats { turns.now.seats ≡ vec_len hands.old }
    requires empty { crew.old.items ≡ [] }
    requires room { vec_len crew.old + vec_len hands.old ≤ vec_capacity crew.old }
    ensures hands { map (λ m. m.hand) crew.new.items ≡ hands.old.items }
    ensures seats { AreLined turns.now 0 (map (λ m. m.seat) crew.new.items) }
    ensures fresh { AreFresh (map (λ m. m.seat) crew.new.items) }
    ensures calm { AreCalm (map (λ m. m.met) crew.new.items) }
    ensures emptied { hands.new.items ≡ [] }
    ensures capacity { vec_capacity hands.new ≡ vec_capacity hands.old }
{
    let hand = hands.remove(0);
    seat_others(turns, &mut first, hands, crew);
    crew.insert(0, fetcher(first, hand)).unwrap();
}

/// Gives each of the other hands a seat that the first one makes.
fn seat_others<H: Hand>(
    turns: &Turns<LogBook>,
    first: &mut TurnSeat<LogBook>,
    hands: &mut Vec<H>,
    crew: &mut Vec<Fetcher<H>>,
)
    requires own { IsOf turns.now first.old }
    requires left { first.old.view.left ≡ vec_len hands.old }
    requires seats { turns.now.seats ≡ vec_len hands.old + 1 }
    requires empty { crew.old.items ≡ [] }
    requires room { vec_len crew.old + vec_len hands.old < vec_capacity crew.old }
    ensures own { IsOf turns.now first.new }
    ensures first { (first.new.view.number ≡ first.old.view.number)
        × (first.new.view.mine ≡ first.old.view.mine)
        × (first.new.view.joined ≡ first.old.view.joined) × (first.new.view.left ≡ 0) }
    ensures hands { map (λ m. m.hand) crew.new.items ≡ hands.old.items }
    ensures seats { AreLined turns.now 1 (map (λ m. m.seat) crew.new.items) }
    ensures fresh { AreFresh (map (λ m. m.seat) crew.new.items) }
    ensures calm { AreCalm (map (λ m. m.met) crew.new.items) }
    ensures emptied { hands.new.items ≡ [] }
    ensures capacity { vec_capacity hands.new ≡ vec_capacity hands.old }
    ensures room { vec_len crew.new < vec_capacity crew.new }
{
    while !hands.is_empty() {
        let hand = hands.remove(0);
        let seat = turns.split(first);
        crew.push_reserved(fetcher(seat, hand));
    }
}

/// A worker that has met nothing.
fn fetcher<H: Hand>(seat: TurnSeat<LogBook>, hand: H) -> Fetcher<H>
    ensures seat { result.seat ≡ seat }
    ensures hand { result.hand ≡ hand }
    ensures met { result.met ≡ calm }
{
    Fetcher {
        seat,
        hand,
        met: Met {
            short: false,
            fault: None,
        },
    }
}

/// Ends the turns of a crew, and gives the book back, and what all met; the hands go back to their list, in their order. No memory.
pub(crate) fn end_all<H: Hand>(
    turns: Turns<LogBook>,
    mut crew: Vec<Fetcher<H>>,
    hands: &mut Vec<H>,
) -> (LogBook, Met)
    requires some { 0 < vec_len crew }
    requires seats { AreLined turns 0 (map (λ m. m.seat) crew.items) }
    requires all { turns.seats ≡ vec_len crew }
    requires empty { hands.old.items ≡ [] }
    requires room { vec_len hands.old + vec_len crew ≤ vec_capacity hands.old }
    ensures hands { hands.new.items ≡ map (λ m. m.hand) crew.items }
    ensures ended { HaveEnded turns.object (map (λ m. m.seat) crew.items) result.0 }
    ensures met { result.1 ≡ met_by (map (λ m. m.met) crew.items) }
{
    let Fetcher {
        mut seat,
        hand,
        mut met,
    } = crew.remove(0);
    hands.push_reserved(hand);
    join_all(&turns, &mut seat, &mut met, crew, hands);
    (turns.close(seat), met)
}

/// Takes the seats of the other members in, and what they met.
fn join_all<H: Hand>(
    turns: &Turns<LogBook>,
    first: &mut TurnSeat<LogBook>,
    met: &mut Met,
    mut crew: Vec<Fetcher<H>>,
    hands: &mut Vec<H>,
)
    requires own { IsOf turns.now first.old }
    requires plain { Each (λ s. IsPlain turns.now s) (map (λ m. m.seat) crew.items) }
    requires room { vec_len hands.old + vec_len crew ≤ vec_capacity hands.old }
    ensures own { IsOf turns.now first.new }
    ensures first { (first.new.view.number ≡ first.old.view.number)
        × (first.new.view.mine ≡ first.old.view.mine)
        × (first.new.view.left ≡ first.old.view.left) }
    ensures joined { first.new.view.joined
        ≡ first.old.view.joined ++ map calls_of (map (λ m. m.seat) crew.items) }
    ensures begins { (h : List LogEntry) → IsPrefix first.new.view.seen h
        → IsPrefix first.old.view.seen h
        × Each (λ s. IsPrefix s.view.seen h) (map (λ m. m.seat) crew.items) }
    ensures hands { hands.new.items ≡ hands.old.items ++ map (λ m. m.hand) crew.items }
    ensures met { met.new ≡ met_with met.old (map (λ m. m.met) crew.items) }
{
    while !crew.is_empty() {
        let Fetcher {
            seat,
            hand,
            met: other,
        } = crew.remove(0);
        turns.join(first, seat);
        hands.push_reserved(hand);
        add_met(met, other);
    }
}

/// Adds what another worker met: of two faults that of the lesser slot stays.
fn add_met(met: &mut Met, other: Met)
    ensures { met.new ≡ both met.old other }
{
    if other.short {
        met.short = true;
    }
    if let Some(fault) = other.fault {
        add_fault(&mut met.fault, fault);
    }
}

/// Keeps of two faults that of the lesser slot.
fn add_fault(known: &mut Option<Fault>, fault: Fault)
    ensures { known.new ≡ lesser known.old (Some fault) }
{
    let stays = match known {
        Some(first) => first.slot <= fault.slot,
        None => false,
    };
    if !stays {
        *known = Some(fault);
    }
}
