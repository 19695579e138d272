ghost use Rattle.std.specs.Prelude.{◌≡◌, ℕ, ◌+◌, ◌-◌, ◌<◌, ◌≤◌, List, [], ◌∷◌, ◌++◌, length, ◌^◌, Some, None, IfOk, IfErr, OnOk, OnErr};
ghost use mathlib.Core.List.{IsPrefix};
ghost use Rattle.turn_ledger.specs.declared.view.Stage.TheVariants.{Idle, Waiting, Turn, Done};
ghost use Rattle.turn_ledger.specs.Own.{own, Each};
ghost use Rattle.turn_ledger.specs.Seats.{IsOf, IsFirst, Covers};
ghost use Rattle.turn_ledger.specs.Turning.{Acts, Stands, Sees, IsNext, added, adds, at_stage, spared, forked, both};

use crate::plays::{Draw, End, Fork, Learn, Look, Mark, Rule, TakeIn};
use crate::serial::Serial;
use crate::view::{Opening, View};
use atomic_table::{Refused, Seat, Shared, Table};
use crossbeam_utils::Backoff;
use std::alloc::Global;
use std::marker::Model;
use std::snapshot::Snapshot;
use std::sync::Wait;

/// The word that counts the tickets that were drawn.
const NEXT: usize = 0;

/// The word that counts the turns that ended: the ticket that is served.
const SERVING: usize = 1;

/// A seat's place in the table.
pub type Place<Q> = Seat<Option<Q>, View<Q, <Q as Serial>::Entry>>;

/// An object that threads share, one turn at a time. Contracts see the object as it was opened, and the number of seats.
#[derive(Drop)]
pub struct Turns<Q: Serial> {
    table: Table<Option<Q>, View<Q, Q::Entry>, Opening<Q>, Rule<Q>, Global>,
    seats: u32,
}

impl<Q: Serial> Model for Turns<Q> {
    ghost use Rattle.std.specs.Prelude.{◌≡◌};
    ghost use Rattle.turn_ledger.specs.Seats.{Opened};

    ghost Value = { Opened Q };

    ghost view = { λ t. record {
      table = t.table.shared.table_id;
      object = t.table.shared.key.object.value;
      seats = t.table.shared.key.seats;
    } };

    ghost invariant = { λ t. (t.table.shared.table_id.words ≡ 2)
        × (t.table.shared.table_id.slots ≡ 1) × (t.seats ≡ t.table.shared.key.seats) };
}

/// A seat in the turns: who has it may make calls under its number. Contracts see what it knows.
#[derive(Drop)]
pub struct TurnSeat<Q: Serial> {
    number: u32,
    left: u32,
    place: Place<Q>,
}

impl<Q: Serial> Model for TurnSeat<Q> {
    ghost use Rattle.std.specs.Prelude.{◌≡◌, ◌<◌, []};
    ghost use Rattle.turn_ledger.specs.declared.view.Stage.TheVariants.{Idle};
    ghost use Rattle.turn_ledger.specs.Seats.{Sitting};

    ghost Value = { Sitting Q Q.Entry };

    ghost view = { λ s. record { table = s.place.table_id; view = s.place.me.0 } };

    ghost invariant = { λ s. (s.place.me.1 ≡ []) × (s.place.me.0.stage ≡ Idle)
        × (s.number ≡ s.place.me.0.number) × (s.left ≡ s.place.me.0.left)
        × (s.left < s.place.me.0.seats) };
}

type Shares<Q> = Shared<Option<Q>, View<Q, <Q as Serial>::Entry>, Opening<Q>, Rule<Q>>;

/// Draws a ticket.
fn draw<Q: Serial>(table: &Shares<Q>, place: &mut Place<Q>) -> u64
    requires own { (place.old.table_id ≡ table.now.table_id) × (table.now.table_id.words ≡ 2)
        × (table.now.table_id.slots ≡ 1) }
    requires idle { place.old.me.0.stage ≡ Idle }
    ensures own { (place.new.table_id ≡ place.old.table_id) × (place.new.id ≡ place.old.id) }
    ensures view { place.new.me ≡ (at_stage place.old.me.0 (Waiting result), place.old.me.1) }
{
    table.fetch_add::<Draw>(place, NEXT, 1)
}

/// Waits until the ticket is served, and takes the object.
fn wait<Q: Serial, R: Wait>(table: &Shares<Q>, rt: &R, place: &mut Place<Q>, ticket: u64) -> Q
    requires own { (place.old.table_id ≡ table.now.table_id) × (table.now.table_id.words ≡ 2)
        × (table.now.table_id.slots ≡ 1) }
    requires waiting { place.old.me.0.stage ≡ Waiting ticket }
    requires empty { place.old.me.1 ≡ [] }
    ensures own { (place.new.table_id ≡ place.old.table_id) × (place.new.id ≡ place.old.id) }
    ensures view { Sees Q.journal Q.origin Q.by ticket place.old.me.0 place.new.me.0 result }
    ensures held { place.new.me.1 ≡ (0, None) ∷ [] }
{
    let backoff = Backoff::new();
    for _ in rt.forever() {
        let serving = table.load::<Look<Q>>(place, SERVING);
        if serving == ticket {
            return match table.exchange(place, 0, None) {
                Some(object) => object,
                None => unreachable!(),
            };
        }
        backoff.snooze();
    }
    unreachable!()
}

/// Puts the object back, marks the turn as done and ends it.
fn finish<Q: Serial>(table: &Shares<Q>, place: &mut Place<Q>, ticket: u64, object: Q)
    requires own { (place.old.table_id ≡ table.now.table_id) × (table.now.table_id.words ≡ 2)
        × (table.now.table_id.slots ≡ 1) }
    requires turn { (place.old.me.0.stage ≡ Turn ticket) × (place.old.me.1 ≡ (0, None) ∷ []) }
    requires next { (e : Q.Entry) × IsNext Q.journal Q.origin Q.by Q.most place.old.me.0 e object }
    ensures own { (place.new.table_id ≡ place.old.table_id) × (place.new.id ≡ place.old.id) }
    ensures view { place.new.me ≡ (
      adds place.old.me.0 Idle
          (added Q.journal (place.old.me.0, (0, Some object) ∷ [])),
      [],
    ) }
{
    match table.exchange(place, 0, Some(object)) {
        None => {}
        Some(_) => unreachable!(),
    }
    table.load::<Mark<Q>>(place, SERVING);
    table.fetch_add::<End>(place, SERVING, 1);
}

impl<Q: Serial> Turns<Q> {
    /// Waits for a turn, and makes the call in it under the seat's number. It is answered as the object answers it at its place
    /// in the history, which begins with all that the seat had seen.
    pub fn act<R: Wait>(&self, rt: &R, seat: &mut TurnSeat<Q>, call: Q::Call) -> Q::Answer
        requires own { IsOf self.now seat.old }
        requires may { Q.allows (Q.origin self.now.object) seat.old.view.number
            (own Q.by seat.old.view.number (Q.journal self.now.object) ++ seat.old.view.mine) call }
        ensures own { IsOf self.now seat.new }
        ensures acts { Acts Q.journal Q.origin Q.by Q.gives self.now.object
            seat.old.view call result seat.new.view }
    {
        let table = &self.table.shared;
        let number = seat.number;
        let ticket = draw(table, &mut seat.place);
        let mut object = wait(table, rt, &mut seat.place, ticket);
        let answer = object.turn(number, call);
        finish(table, &mut seat.place, ticket, object);
        answer
    }

    /// Makes a seat with the next number, which has seen what this one has, and may make none. No memory.
    pub fn split(&self, seat: &mut TurnSeat<Q>) -> TurnSeat<Q>
        requires own { IsOf self.now seat.old }
        requires left { 0 < seat.old.view.left }
        ensures own { (seat.new.table ≡ seat.old.table) × (result.table ≡ seat.old.table) }
        ensures old { seat.new.view ≡ spared seat.old.view }
        ensures new { result.view ≡ forked seat.old.view }
    {
        let place = self.table.shared.split_seat::<Fork>(&mut seat.place);
        let number = self.seats - seat.left;
        seat.left -= 1;
        TurnSeat {
            number,
            left: 0,
            place,
        }
    }

    /// Takes another seat in, with its number, its entries, what it has seen, and the seats that it may still make.
    pub fn join(&self, seat: &mut TurnSeat<Q>, other: TurnSeat<Q>)
        requires own { IsOf self.now seat.old × IsOf self.now other }
        ensures own { seat.new.table ≡ seat.old.table }
        ensures view { seat.new.view ≡ both seat.old.view other.view }
        ensures begins { IsPrefix seat.old.view.seen seat.new.view.seen
            × IsPrefix other.view.seen seat.new.view.seen }
    {
        let TurnSeat {
            number: _,
            left,
            place,
        } = other;
        self.table
            .shared
            .join_seat::<TakeIn>(&mut seat.place, place);
        self.table.shared.load::<Learn>(&mut seat.place, SERVING);
        seat.left += left;
    }

    /// Gives the object back, where this seat has taken in all others: the object has the opening's entries and then what the seat
    /// has seen, and of these each number's are those of its seat.
    pub fn close(self, seat: TurnSeat<Q>) -> Q
        requires own { IsOf self seat }
        requires all { Covers seat.view }
        ensures stands { Stands Q.journal Q.origin self.object seat.view.seen result }
        ensures mine { seat.view.mine ≡ own Q.by seat.view.number seat.view.seen }
        ensures joined { Each (λ j. j.1 ≡ own Q.by j.0 seat.view.seen) seat.view.joined }
    {
        let Turns { table, seats: _ } = self;
        let TurnSeat {
            number: _,
            left: _,
            place,
        } = seat;
        let mut closed = table.close_with(place);
        let object = closed.take(0);
        closed.free();
        match object {
            Some(object) => object,
            None => unreachable!(),
        }
    }
}

impl<Q: Serial + Drop> Turns<Q> {
    /// Turns for so many seats, 1 to 16, with the first of them, whose number is 0. Where there is no memory for them, the object
    /// comes back.
    pub fn new(alloc: Global, object: Q, seats: u32) -> Result<(Turns<Q>, TurnSeat<Q>), Q>
        requires { (0 < seats) × (seats ≤ 16) }
        ensures turns { IfOk result (λ r. (r.0.object ≡ object) × (r.0.seats ≡ seats)) }
        ensures seat { IfOk result (λ r. IsOf r.0 r.1 × IsFirst object seats r.1.view) }
        ensures back { IfErr result (λ q. q ≡ object) }
    {
        let about = Opening {
            object: Snapshot::of(&object),
            seats,
        };
        let mut slots = Vec::new(alloc);
        let Ok(()) = slots.reserve(1) else {
            return Err(object);
        };
        slots.push_reserved(Some(object));
        match Table::new(alloc, &[0, 0], slots, &about) {
            Ok((table, place)) => Ok((
                Turns { table, seats },
                TurnSeat {
                    number: 0,
                    left: seats - 1,
                    place,
                },
            )),
            Err(Refused { mut slots }) => match slots.pop() {
                Some(Some(object)) => Err(object),
                _ => unreachable!(),
            },
        }
    }
}
