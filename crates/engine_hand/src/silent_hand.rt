ghost use Rattle.std.specs.Prelude.{◌≡◌, [], None, Some};
ghost use Rattle.outside_api.specs.Clock.{new_clock};

use engine_types::{Exchange, Outcome, Request, WireEnd};
use outside_api::{Hand, MemoryClock};
use std::alloc::Global;
use tree_base::ReservedList;

/// A hand whose peer takes each request and closes the connection without an answer. It tells what it heard, which is
/// no byte and the connection's end: that is no response, so each exchange is lost with the cause Ended, and no fault is
/// counted. It tells no Engine.
#[derive(Drop)]
pub struct SilentHand {
    log: ReservedList<Exchange>,
    /// Whether the connection ended, for each exchange.
    ends: ReservedList<bool>,
    clock: MemoryClock,
}

impl SilentHand {
    /// A hand with an empty log, which heard nothing, and a clock that was never used. No memory.
    pub fn new(alloc: Global) -> SilentHand
        ensures log { ⟦<SilentHand as Hand>⟧.log result ≡ [] }
        ensures heard { ⟦<SilentHand as Hand>⟧.heard result ≡ Some [] }
        ensures faults { ⟦<SilentHand as Hand>⟧.faults result ≡ 0 }
        ensures clock { ⟦<SilentHand as Hand>⟧.clock result ≡ new_clock }
    {
        SilentHand {
            log: ReservedList::new(alloc),
            ends: ReservedList::new(alloc),
            clock: MemoryClock::new(),
        }
    }
}

impl Hand for SilentHand {
    ghost use Rattle.outside_api.specs.ClockCounts.{counts_of};
    ghost use Rattle.engine_hand.specs.SilentHands.{silences};

    ghost log = { λ hand. hand.log.items };

    ghost engine = { λ _. None };

    ghost heard = { λ hand. Some (silences hand.ends.items) };

    ghost faults = { λ _. 0 };

    ghost clock = { λ hand. counts_of hand.clock.counts };

    fn exchange(&mut self, _alloc: Global, request: Request) -> Outcome {
        if self.log.reserve(1).is_err() {
            drop(request);
            return Outcome::Memory;
        }
        if self.ends.reserve(1).is_err() {
            drop(request);
            return Outcome::Memory;
        }
        let cause = WireEnd::Ended;
        let outcome = Outcome::Lost(cause);
        self.log.push(Exchange { request, outcome }).unwrap();
        self.ends.push(true).unwrap();
        Outcome::Lost(cause)
    }

    fn now(&mut self) -> u64 {
        let made = self.log.len() as u64;
        self.clock.now_at(made)
    }

    fn pause(&mut self, ms: u32) {
        self.clock.pause(ms);
    }

    fn asked(&mut self) -> bool {
        self.clock.look(false);
        false
    }
}
