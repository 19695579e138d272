ghost use Rattle.std.specs.Prelude.{◌≡◌, ◌+◌, ◌<◌, ◌≤◌, List, [], ◌++◌, length, map, vec_capacity, vec_len};
ghost use mathlib.Core.List.{IsPrefix};
ghost use Rattle.engine_types.specs.declared.Entry.{Entry};
ghost use Rattle.turn_ledger.specs.Own.{Each};
ghost use Rattle.turn_ledger.specs.Seats.{IsOf};
ghost use Rattle.worker_pool.specs.Crew.{AreFresh, AreLined, HaveEnded, IsPlain, calls_of};

use crate::members::Member;
use ledger_turns::SharedLedger;
use outside_api::Hand;
use turn_ledger::{TurnSeat, Turns};

/// Gives each hand a seat, in their order: the hand at place w gets the seat with number w. No memory.
pub(crate) fn seat_all<H: Hand>(
    turns: &Turns<SharedLedger>,
    mut first: TurnSeat<SharedLedger>,
    hands: &mut Vec<H>,
    crew: &mut Vec<Member<H>>,
)
    requires own { IsOf turns.now first }
    requires first { (first.view.number ≡ 0) × (first.view.mine ≡ []) × (first.view.joined ≡ []) }
    requires left { first.view.left + 1 ≡ vec_len hands.old }
    requires seats { turns.now.seats ≡ vec_len hands.old }
    requires empty { crew.old.items ≡ [] }
    requires room { vec_len crew.old + vec_len hands.old ≤ vec_capacity crew.old }
    ensures hands { map (λ m. m.hand) crew.new.items ≡ hands.old.items }
    ensures seats { AreLined turns.now 0 (map (λ m. m.seat) crew.new.items) }
    ensures fresh { AreFresh (map (λ m. m.seat) crew.new.items) }
    ensures emptied { hands.new.items ≡ [] }
    ensures capacity { vec_capacity hands.new ≡ vec_capacity hands.old }
{
    let hand = hands.remove(0);
    seat_others(turns, &mut first, hands, crew);
    crew.insert(0, Member { seat: first, hand }).unwrap();
}

/// Gives each of the other hands a seat that the first one makes.
fn seat_others<H: Hand>(
    turns: &Turns<SharedLedger>,
    first: &mut TurnSeat<SharedLedger>,
    hands: &mut Vec<H>,
    crew: &mut Vec<Member<H>>,
)
    requires own { IsOf turns.now first.old }
    requires left { first.old.view.left ≡ vec_len hands.old }
    requires seats { turns.now.seats ≡ vec_len hands.old + 1 }
    requires empty { crew.old.items ≡ [] }
    requires room { vec_len crew.old + vec_len hands.old < vec_capacity crew.old }
    ensures own { IsOf turns.now first.new }
    ensures first { (first.new.view.number ≡ first.old.view.number)
        × (first.new.view.mine ≡ first.old.view.mine)
        × (first.new.view.joined ≡ first.old.view.joined) × (first.new.view.left ≡ 0) }
    ensures hands { map (λ m. m.hand) crew.new.items ≡ hands.old.items }
    ensures seats { AreLined turns.now 1 (map (λ m. m.seat) crew.new.items) }
    ensures fresh { AreFresh (map (λ m. m.seat) crew.new.items) }
    ensures emptied { hands.new.items ≡ [] }
    ensures capacity { vec_capacity hands.new ≡ vec_capacity hands.old }
    ensures room { vec_len crew.new < vec_capacity crew.new }
{
    while !hands.is_empty() {
        let hand = hands.remove(0);
        let seat = turns.split(first);
        crew.push_reserved(Member { seat, hand });
    }
}

/// Ends the turns of a crew, and gives the ledger back; the hands go back to their list, in their order. No memory.
pub(crate) fn end_all<H: Hand>(
    turns: Turns<SharedLedger>,
    mut crew: Vec<Member<H>>,
    hands: &mut Vec<H>,
) -> SharedLedger
    requires some { 0 < vec_len crew }
    requires seats { AreLined turns 0 (map (λ m. m.seat) crew.items) }
    requires all { turns.seats ≡ vec_len crew }
    requires empty { hands.old.items ≡ [] }
    requires room { vec_len hands.old + vec_len crew ≤ vec_capacity hands.old }
    ensures hands { hands.new.items ≡ map (λ m. m.hand) crew.items }
    ensures ended { HaveEnded turns.object (map (λ m. m.seat) crew.items) result }
{
    let Member { mut seat, hand } = crew.remove(0);
    hands.push_reserved(hand);
    join_all(&turns, &mut seat, crew, hands);
    turns.close(seat)
}

/// Takes the seats of the other members in.
fn join_all<H: Hand>(
    turns: &Turns<SharedLedger>,
    first: &mut TurnSeat<SharedLedger>,
    mut crew: Vec<Member<H>>,
    hands: &mut Vec<H>,
)
    requires own { IsOf turns.now first.old }
    requires plain { Each (λ s. IsPlain turns.now s) (map (λ m. m.seat) crew.items) }
    requires room { vec_len hands.old + vec_len crew ≤ vec_capacity hands.old }
    ensures own { IsOf turns.now first.new }
    ensures first { (first.new.view.number ≡ first.old.view.number)
        × (first.new.view.mine ≡ first.old.view.mine)
        × (first.new.view.left ≡ first.old.view.left) }
    ensures joined { first.new.view.joined
        ≡ first.old.view.joined ++ map calls_of (map (λ m. m.seat) crew.items) }
    ensures begins { (h : List Entry) → IsPrefix first.new.view.seen h
        → IsPrefix first.old.view.seen h
        × Each (λ s. IsPrefix s.view.seen h) (map (λ m. m.seat) crew.items) }
    ensures hands { hands.new.items ≡ hands.old.items ++ map (λ m. m.hand) crew.items }
{
    while !crew.is_empty() {
        let Member { seat, hand } = crew.remove(0);
        turns.join(first, seat);
        hands.push_reserved(hand);
    }
}
