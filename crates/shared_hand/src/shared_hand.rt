ghost use Rattle.std.specs.Prelude.{◌≡◌, ◌<◌, ◌≤◌, ◌^◌, [], None, length};
ghost use Rattle.run_model.specs.EngineRules.{DriftsTold, Tells};
ghost use Rattle.outside_api.specs.Clock.{new_clock, after_pause, after_asked, read_at};
ghost use Rattle.outside_api.specs.Hands.{HasCause, Logs};
ghost use Rattle.shared_hand.specs.Outcomes.{IsOfShared};

use crate::shared_engine::SharedEngine;
use engine_types::{Exchange, Outcome, Request};
use exchange_log::ExchangeLog;
use outside_api::{ClockCounts, Hand};
use std::alloc::Global;
use std::sync::{Arc, Mutex, Wait};
use std::thread;

/// A hand that shares an Engine in memory with others. It tells neither that Engine nor what it heard, loses nothing and counts no
/// fault. It waits for the lock in each exchange, pause, look and reading of the clock, and never holds it in between.
#[derive(Drop)]
pub struct SharedHand<'r, R> {
    rt: &'r R,
    pub shared: Arc<Mutex<SharedEngine>>,
    log: ExchangeLog,
    counts: ClockCounts,
}

impl<'r, R> SharedHand<'r, R> {
    ghost use Rattle.shared_hand.specs.SharedHands.{clock_of, log_of};

    /// A hand with an empty log, which never read the clock that it shares. No memory.
    pub fn new(alloc: Global, rt: &'r R, shared: Arc<Mutex<SharedEngine>>) -> SharedHand<'r, R>
        ensures shared { result.shared ≡ shared }
        ensures log { log_of result ≡ [] }
        ensures clock { clock_of result ≡ new_clock }
    {
        SharedHand {
            rt,
            shared,
            log: ExchangeLog::new(alloc),
            counts: ClockCounts::new(),
        }
    }

    /// Every exchange of this hand, in order. No memory.
    pub fn log(&self) -> &ExchangeLog
        ensures { result.now.items ≡ log_of self.now }
    {
        &self.log
    }
}

impl<'r, R: Wait + Sync> Hand for SharedHand<'r, R> {
    ghost use Rattle.outside_api.specs.ClockCounts.{counts_of};
    ghost use Rattle.shared_hand.specs.SharedHands.{clock_of, log_of, no_engine};

    ghost log = { λ hand. hand.log.items };

    ghost engine = { λ _. None };

    ghost heard = { λ _. None };

    ghost faults = { λ _. 0 };

    ghost clock = { λ hand. counts_of hand.counts };

    /// Makes an exchange on the shared Engine. Where there is no room in the log, none is made.
    fn exchange(&mut self, alloc: Global, request: Request) -> Outcome
        ensures log { Logs (log_of self.old) request result (log_of self.new) }
        ensures told { Tells no_engine request result no_engine }
        ensures counted { 0 ≤ 0 }
        ensures cause { HasCause request None 0 0 result }
        ensures clock { clock_of self.new ≡ clock_of self.old }
        ensures outcome { IsOfShared request result }
        ensures shared { self.new.shared ≡ self.old.shared }
    {
        if self.log.reserve(alloc, &request).is_err() {
            drop(request);
            return Outcome::Memory;
        }
        let (outcome, kept) = self.shared.lock(self.rt).exchange(alloc, &request);
        let exchange = Exchange {
            request,
            outcome: kept,
        };
        self.log.push(exchange);
        outcome
    }

    /// The time in milliseconds, which rises by the pauses of all hands.
    fn now(&mut self) -> u64
        requires { (clock_of self.old).readings < 2 ^ 62 }
        ensures clock { clock_of self.new
            ≡ read_at (length (log_of self.old)) (clock_of self.old) result }
        ensures log { log_of self.new ≡ log_of self.old }
        ensures shared { self.new.shared ≡ self.old.shared }
    {
        let time = self.shared.lock(self.rt).clock;
        let made = self.log.len() as u64;
        self.counts.read_at(made, time);
        time
    }

    /// Pauses, in which the Engine makes the next change of its script. It doesn't sleep: where other threads wait for a processor,
    /// they go on before this one does.
    fn pause(&mut self, ms: u32)
        requires { (clock_of self.old).paused < 2 ^ 62 }
        ensures clock { clock_of self.new ≡ after_pause (clock_of self.old) ms }
        ensures log { log_of self.new ≡ log_of self.old }
        ensures engine { DriftsTold no_engine no_engine }
        ensures shared { self.new.shared ≡ self.old.shared }
    {
        self.shared.lock(self.rt).pause(ms);
        self.counts.pause(ms);
        thread::yield_now();
    }

    /// Whether the worker is asked to stop: once as many exchanges were made by all hands as the Engine's plan of faults says.
    fn asked(&mut self) -> bool
        requires { (clock_of self.old).looks < 2 ^ 62 }
        ensures clock { clock_of self.new ≡ after_asked (clock_of self.old) result }
        ensures log { log_of self.new ≡ log_of self.old }
        ensures shared { self.new.shared ≡ self.old.shared }
    {
        let answer = self.shared.lock(self.rt).is_asked();
        self.counts.look(answer);
        answer
    }
}
