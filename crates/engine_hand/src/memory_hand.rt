ghost use Rattle.std.specs.Prelude.{◌≡◌, ◌+◌, ◌<◌, ◌≤◌, ◌^◌, Some, None, [], length, min};
ghost use Rattle.run_model.specs.EngineRules.{DriftsTold, Tells};
ghost use Rattle.outside_api.specs.Clock.{new_clock, after_pause, after_asked, read_at};
ghost use Rattle.outside_files.specs.Counts.{one_more};
ghost use Rattle.outside_api.specs.Hands.{HasCause, Logs, logged};
ghost use Rattle.memory_engine.specs.Ticking.{later, ticked};
ghost use Rattle.engine_hand.specs.Fates.{ComesTo, faults_after, is_asked};

use crate::fate::fate_of;
use crate::outcome::outcome_on;
use engine_types::{Exchange, Outcome, Request};
use memory_engine::MemoryEngine;
use outside_api::{Hand, MemoryClock};
use std::alloc::Global;
use tree_base::ReservedList;

/// A hand that owns an Engine in memory. It tells that Engine; it loses, and doesn't send, exactly the exchanges that
/// the Engine's plan of faults names, and each of these is counted as a fault.
#[derive(Drop)]
pub struct MemoryHand {
    pub engine: MemoryEngine,
    log: ReservedList<Exchange>,
    clock: MemoryClock,
    failed: u64,
}

impl MemoryHand {
    ghost use Rattle.engine_hand.specs.MemoryHands.{time_of};

    /// A hand with an empty log and a clock that was never used. No memory.
    pub fn new(alloc: Global, engine: MemoryEngine) -> MemoryHand
        ensures engine { result.engine ≡ engine }
        ensures log { ⟦<MemoryHand as Hand>⟧.log result ≡ [] }
        ensures clock { ⟦<MemoryHand as Hand>⟧.clock result ≡ new_clock }
        ensures time { time_of result ≡ 0 }
        ensures faults { ⟦<MemoryHand as Hand>⟧.faults result ≡ 0 }
    {
        MemoryHand {
            engine,
            log: ReservedList::new(alloc),
            clock: MemoryClock::new(),
            failed: 0,
        }
    }

    /// Every exchange, in order. No memory.
    pub fn log(&self) -> &[Exchange]
        ensures { result.now ≡ ⟦<MemoryHand as Hand>⟧.log self.now }
    {
        self.log.as_slice()
    }
}

impl Hand for MemoryHand {
    ghost use Rattle.outside_api.specs.ClockCounts.{counts_of};
    ghost use Rattle.engine_hand.specs.MemoryHands.{log_of, faults_of, clock_of, time_of, next_fate};

    ghost log = { λ hand. hand.log.items };

    ghost engine = { λ hand. Some hand.engine.engine };

    ghost heard = { λ _. None };

    ghost faults = { λ hand. hand.failed };

    ghost clock = { λ hand. counts_of hand.clock.counts };

    /// Makes the next exchange on the Engine, which comes to what the plan of faults says of its number. Where there
    /// is no room in the log, nothing changes.
    fn exchange(&mut self, alloc: Global, request: Request) -> Outcome
        ensures log { Logs (log_of self.old) request result (log_of self.new) }
        ensures told { Tells (Some self.old.engine.engine) request result
            (Some self.new.engine.engine) }
        ensures unsent { log_of self.new ≡ log_of self.old
            → Some self.new.engine.engine ≡ Some self.old.engine.engine }
        ensures unsent_faults { log_of self.new ≡ log_of self.old
            → faults_of self.new ≡ faults_of self.old }
        ensures counted { faults_of self.old ≤ faults_of self.new }
        ensures cause { HasCause request None (faults_of self.old) (faults_of self.new) result }
        ensures clock { clock_of self.new ≡ clock_of self.old }
        ensures unlogged { log_of self.new ≡ log_of self.old → self.new.engine ≡ self.old.engine }
        ensures fate { log_of self.new ≡ logged (log_of self.old) request result
            → ComesTo (next_fate self.old.engine) self.old.engine.catalogue
            self.old.engine.engine request result self.new.engine.engine }
        ensures made { log_of self.new ≡ logged (log_of self.old) request result
            → self.new.engine.made ≡ one_more self.old.engine.made }
        ensures faults { log_of self.new ≡ logged (log_of self.old) request result
            → faults_of self.new ≡ faults_after (next_fate self.old.engine) (faults_of self.old) }
        ensures script { self.new.engine.script ≡ self.old.engine.script }
        ensures plan { self.new.engine.faults ≡ self.old.engine.faults }
        ensures catalogue { self.new.engine.catalogue ≡ self.old.engine.catalogue }
        ensures time { time_of self.new ≡ time_of self.old }
    {
        if self.log.reserve(1).is_err() {
            drop(request);
            return Outcome::Memory;
        }
        self.engine.made = self.engine.made.saturating_add(1);
        let fate = fate_of(&self.engine.faults, self.engine.made);
        self.failed = fate.faults_after(self.failed);
        let (outcome, kept) = outcome_on(alloc, &mut self.engine, &request, fate);
        let exchange = Exchange {
            request,
            outcome: kept,
        };
        self.log.push(exchange).unwrap();
        outcome
    }

    /// The time in milliseconds, which rises by the pauses alone.
    fn now(&mut self) -> u64
        requires { (clock_of self.old).readings < 2 ^ 62 }
        ensures clock { clock_of self.new
            ≡ read_at (length (log_of self.old)) (clock_of self.old) result }
        ensures log { log_of self.new ≡ log_of self.old }
        ensures engine { Some self.new.engine.engine ≡ Some self.old.engine.engine }
        ensures memory { self.new.engine ≡ self.old.engine }
        ensures faults { faults_of self.new ≡ faults_of self.old }
        ensures reading { result ≡ time_of self.old }
        ensures time { time_of self.new ≡ time_of self.old }
    {
        let made = self.log.len() as u64;
        self.clock.now_at(made)
    }

    /// Pauses, in which the Engine makes the next change of its script.
    fn pause(&mut self, ms: u32)
        requires { (clock_of self.old).paused < 2 ^ 62 }
        ensures clock { clock_of self.new ≡ after_pause (clock_of self.old) ms }
        ensures log { log_of self.new ≡ log_of self.old }
        ensures engine { DriftsTold (Some self.old.engine.engine) (Some self.new.engine.engine) }
        ensures faults { faults_of self.new ≡ faults_of self.old }
        ensures ticked { self.new.engine.engine ≡
            ticked self.old.engine.engine self.old.engine.script }
        ensures script { self.new.engine.script ≡ later self.old.engine.script }
        ensures plan { self.new.engine.faults ≡ self.old.engine.faults }
        ensures made { self.new.engine.made ≡ self.old.engine.made }
        ensures catalogue { self.new.engine.catalogue ≡ self.old.engine.catalogue }
        ensures time { time_of self.new ≡ min (time_of self.old + ms) 18446744073709551615 }
    {
        self.engine.tick();
        self.clock.pause(ms);
    }

    /// Whether the worker is asked to stop: once as many exchanges were made as the plan of faults says.
    fn asked(&mut self) -> bool
        requires { (clock_of self.old).looks < 2 ^ 62 }
        ensures clock { clock_of self.new ≡ after_asked (clock_of self.old) result }
        ensures log { log_of self.new ≡ log_of self.old }
        ensures engine { Some self.new.engine.engine ≡ Some self.old.engine.engine }
        ensures memory { self.new.engine ≡ self.old.engine }
        ensures faults { faults_of self.new ≡ faults_of self.old }
        ensures asked { result ≡ is_asked self.old.engine.faults.asked_from self.old.engine.made }
        ensures time { time_of self.new ≡ time_of self.old }
    {
        let answer = is_asked(self.engine.faults.asked_from, self.engine.made);
        self.clock.look(answer);
        answer
    }
}

/// Whether a worker is asked to stop after so many exchanges.
fn is_asked(asked_from: Option<u64>, made: u64) -> bool
    ensures { result ≡ is_asked asked_from made }
{
    match asked_from {
        Some(from) => from <= made,
        None => false,
    }
}
