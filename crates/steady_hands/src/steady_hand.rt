ghost use Rattle.std.specs.Prelude.{◌≡◌, ◌<◌, ◌≤◌, ◌^◌, [], None, true, false, length};
ghost use Rattle.steady_hands.specs.Steady.{are_steady};
ghost use Rattle.run_model.specs.EngineRules.{DriftsTold, Tells};
ghost use Rattle.outside_api.specs.Clock.{new_clock, after_pause, after_asked, read_at};
ghost use Rattle.outside_api.specs.Hands.{HasCause, Logs};
ghost use Rattle.shared_hand.specs.SharedHands as shared;

use engine_types::{Outcome, Request};
use exchange_log::ExchangeLog;
use outside_api::Hand;
use shared_hand::SharedHand;
use std::alloc::Global;
use std::sync::Wait;

/// A hand that shares an Engine in memory with others, and whose worker is never asked to stop, whatever that Engine says.
#[derive(Drop)]
pub struct SteadyHand<'r, R> {
    hand: SharedHand<'r, R>,
    pub ghost answered: { are_steady (shared.log_of hand) ≡ true },
}

impl<'r, R> SteadyHand<'r, R> {
    ghost use Rattle.steady_hands.specs.SteadyHands.{clock_of, log_of};

    /// The hand over a new one that shares an Engine. No memory.
    pub fn new(hand: SharedHand<'r, R>) -> SteadyHand<'r, R>
        requires unused { shared.log_of hand ≡ [] }
        requires unread { shared.clock_of hand ≡ new_clock }
        ensures log { log_of result ≡ [] }
        ensures clock { clock_of result ≡ new_clock }
    {
        SteadyHand { hand }
    }

    /// Every exchange of this hand, in order. No memory.
    pub fn log(&self) -> &ExchangeLog
        ensures { result.now.items ≡ log_of self.now }
    {
        self.hand.log()
    }
}

impl<'r, R: Wait + Sync> Hand for SteadyHand<'r, R> {
    ghost use Rattle.shared_hand.specs.SharedHands.{no_engine};
    ghost use Rattle.steady_hands.specs.SteadyHands.{clock_of, log_of};

    ghost log = { λ hand. log_of hand };

    ghost engine = { λ _. None };

    ghost heard = { λ _. None };

    ghost faults = { λ _. 0 };

    ghost clock = { λ hand. clock_of hand };

    /// Makes an exchange on the shared Engine, which answers it or wants memory.
    fn exchange(&mut self, alloc: Global, request: Request) -> Outcome
        ensures log { Logs (log_of self.old) request result (log_of self.new) }
        ensures told { Tells no_engine request result no_engine }
        ensures counted { 0 ≤ 0 }
        ensures cause { HasCause request None 0 0 result }
        ensures clock { clock_of self.new ≡ clock_of self.old }
    {
        self.hand.exchange(alloc, request)
    }

    /// The time in milliseconds, which rises by the pauses of all hands.
    fn now(&mut self) -> u64
        requires { (clock_of self.old).readings < 2 ^ 62 }
        ensures clock { clock_of self.new
            ≡ read_at (length (log_of self.old)) (clock_of self.old) result }
        ensures log { log_of self.new ≡ log_of self.old }
    {
        self.hand.now()
    }

    /// Pauses as the hand does that it is made of.
    fn pause(&mut self, ms: u32)
        requires { (clock_of self.old).paused < 2 ^ 62 }
        ensures clock { clock_of self.new ≡ after_pause (clock_of self.old) ms }
        ensures log { log_of self.new ≡ log_of self.old }
        ensures engine { DriftsTold no_engine no_engine }
    {
        self.hand.pause(ms);
    }

    /// Looks, and never says that the worker is asked to stop.
    fn asked(&mut self) -> bool
        requires { (clock_of self.old).looks < 2 ^ 62 }
        ensures never { result ≡ false }
        ensures clock { clock_of self.new ≡ after_asked (clock_of self.old) result }
        ensures log { log_of self.new ≡ log_of self.old }
    {
        let _whatever = self.hand.asked();
        false
    }
}
