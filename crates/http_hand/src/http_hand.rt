ghost use Rattle.std.specs.Prelude.{◌≡◌, ◌⊎◌, ◌<◌, ◌≤◌, ◌^◌, IsTrue, [], None};
ghost use Rattle.std.specs.Option.{option_map};
ghost use Rattle.engine_bodies.specs.Requests.{bytes_of};
ghost use Rattle.run_model.specs.EngineRules.{Tells};
ghost use Rattle.outside_api.specs.Clock.{new_clock};
ghost use Rattle.outside_api.specs.Hands.{HasCause, HeardNothing, HearsNext, Logs, logged};
ghost use Rattle.http_hand.specs.Hearing.{closed, connections, heard_in};
ghost use Rattle.http_hand.specs.Speaking.{Speaks};
ghost use Rattle.http_hand.specs.HttpHands.{HasNoPast, at_place, no_engine};

use crate::speaking::speak;
use engine_types::{Exchange, Outcome, Request};
use exchange_log::ExchangeLog;
use outside_api::{Hand, Wire, placed};
use std::alloc::Global;
use tree_base::limits::MOST_EXCHANGES;
use tree_base::{ReservedList, TryCopy};
use wires::EvenWire;

/// A hand over a wire. It tells what it heard where its wire tells what was said, and no Engine. Its clock and its count of
/// faults are the wire's; it notes itself behind how many exchanges the clock was read first.
#[derive(Drop)]
pub struct HttpHand<W: Wire> {
    wire: W,
    log: ExchangeLog,
    /// For each exchange, whether it opened a connection.
    opened: ReservedList<bool>,
    place: Option<u64>,
    ghost dialled: { W.dialled wire ≡ connections opened.items },
    ghost told: { closed (W.past wire) (connections opened.items) ≡ connections opened.items },
}

impl<W: EvenWire> HttpHand<W> {
    /// A hand over a wire that opened no connection yet. No memory.
    pub fn new(alloc: Global, wire: W) -> HttpHand<W>
        requires dialled { W.dialled wire ≡ 0 }
        requires past { HasNoPast (W.past wire) }
        ensures wire { result.wire ≡ wire }
        ensures log { ⟦<HttpHand<W> as Hand>⟧.log result ≡ [] }
        ensures heard { HeardNothing (⟦<HttpHand<W> as Hand>⟧.heard result) }
        ensures engine { ⟦<HttpHand<W> as Hand>⟧.engine result ≡ None }
        ensures faults { ⟦<HttpHand<W> as Hand>⟧.faults result ≡ W.faults wire }
        ensures clock { ⟦<HttpHand<W> as Hand>⟧.clock result ≡ at_place None (W.clock wire) }
        ensures unread { W.clock wire ≡ new_clock
            → ⟦<HttpHand<W> as Hand>⟧.clock result ≡ new_clock }
    {
        HttpHand {
            wire,
            log: ExchangeLog::new(alloc),
            opened: ReservedList::new(alloc),
            place: None,
        }
    }

    /// Every exchange, in order. No memory.
    pub fn log(&self) -> &ExchangeLog
        ensures { result.now.items ≡ ⟦<HttpHand<W> as Hand>⟧.log self.now }
    {
        &self.log
    }

    /// The wire that it speaks over. No memory.
    pub fn wire(&self) -> &W
        ensures { result.now ≡ self.now.wire }
    {
        &self.wire
    }

    /// Takes room for one exchange more, of this request.
    fn has_room(&mut self, alloc: Global, request: &Request) -> bool
        ensures wire { self.new.wire ≡ self.old.wire }
        ensures log { self.new.log.items ≡ self.old.log.items }
        ensures opened { self.new.opened.items ≡ self.old.opened.items }
        ensures place { self.new.place ≡ self.old.place }
        ensures log_room { IsTrue result → 0 < self.new.log.spare }
        ensures opened_room { IsTrue result → 0 < self.new.opened.spare }
        ensures few { IsTrue result → connections self.new.opened.items < 2 ^ 62 }
    {
        if self.opened.len() >= MOST_EXCHANGES {
            return false;
        }
        self.log.reserve(alloc, request).is_ok() && self.opened.reserve(1).is_ok()
    }
}

impl<W: EvenWire> Hand for HttpHand<W> {
    ghost log = { λ hand. hand.log.items };

    ghost engine = { λ _. None };

    ghost heard = { λ hand. option_map (heard_in hand.opened.items) (W.past hand.wire) };

    ghost faults = { λ hand. W.faults hand.wire };

    ghost clock = { λ hand. at_place hand.place (W.clock hand.wire) };

    /// Makes an exchange on one connection of its own, which is opened for it and closed behind it. Where there is no room in
    /// the log, nothing changes.
    fn exchange(&mut self, alloc: Global, request: Request) -> Outcome
        ensures log { Logs self.old.log.items request result self.new.log.items }
        ensures told { Tells no_engine request result no_engine }
        ensures unsent { self.new.log.items ≡ self.old.log.items → no_engine ≡ no_engine }
        ensures unsent_faults { self.new.log.items ≡ self.old.log.items
            → W.faults self.new.wire ≡ W.faults self.old.wire }
        ensures heard { HearsNext self.old.log.items self.new.log.items
            (option_map (heard_in self.old.opened.items) (W.past self.old.wire))
            (option_map (heard_in self.new.opened.items) (W.past self.new.wire)) }
        ensures counted { W.faults self.old.wire ≤ W.faults self.new.wire }
        ensures cause { HasCause request
            (option_map (heard_in self.new.opened.items) (W.past self.new.wire))
            (W.faults self.old.wire) (W.faults self.new.wire) result }
        ensures clock { at_place self.new.place (W.clock self.new.wire)
            ≡ at_place self.old.place (W.clock self.old.wire) }
        ensures unlogged { self.new.log.items ≡ self.old.log.items
            → self.new.wire ≡ self.old.wire }
        ensures speaks { self.new.log.items ≡ logged self.old.log.items request result
            → Speaks request (bytes_of request) result (W.past self.old.wire)
            (W.past self.new.wire) (W.dialled self.old.wire) (W.dialled self.new.wire)
            (W.faults self.old.wire) (W.faults self.new.wire) }
    {
        if !self.has_room(alloc, &request) {
            drop(request);
            return Outcome::Memory;
        }
        let (outcome, opened) = speak(alloc, &mut self.wire, &request);
        self.opened.push(opened).unwrap();
        let (outcome, kept) = twice(alloc, outcome);
        let exchange = Exchange {
            request,
            outcome: kept,
        };
        self.log.push(exchange);
        outcome
    }

    fn now(&mut self) -> u64 {
        self.place = placed(self.log.len() as u64, self.place);
        self.wire.now()
    }

    fn pause(&mut self, ms: u32) {
        self.wire.pause(ms);
    }

    fn asked(&mut self) -> bool {
        self.wire.asked()
    }
}

/// An outcome twice; where there is no memory for that, it is to have wanted memory.
fn twice(alloc: Global, outcome: Outcome) -> (Outcome, Outcome)
    ensures same { result.0 ≡ result.1 }
    ensures kept { (result.0 ≡ outcome) ⊎ (result.0 ≡ Outcome.Memory) }
{
    match outcome.copy(alloc) {
        Ok(copy) => (outcome, copy),
        Err(_) => {
            drop(outcome);
            (Outcome::Memory, Outcome::Memory)
        }
    }
}
