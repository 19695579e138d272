ghost use Rattle.std.specs.Prelude.{◌≡◌, ◌<◌, ◌≤◌, ◌^◌, [], None, Some, true, false, length};
ghost use Rattle.engine_hand.specs.MemoryHands as memory;
ghost use Rattle.run_model.specs.EngineRules.{DriftsTold, Tells};
ghost use Rattle.outside_api.specs.Clock.{new_clock, after_pause, after_asked, read_at};
ghost use Rattle.outside_api.specs.Hands.{HasCause, Logs};
ghost use Rattle.steady_hands.specs.Steady.{IsWithoutFaults, are_steady};

use engine_hand::MemoryHand;
use engine_types::{Exchange, Outcome, Request};
use memory_engine::{FaultPlan, MemoryEngine};
use outside_api::Hand;
use std::alloc::Global;
use tree_base::List;

/// A hand that owns an Engine in memory with which nothing goes wrong. It tells that Engine; it loses nothing, and its worker is never asked
/// to stop.
#[derive(Drop)]
pub struct LoneHand {
    hand: MemoryHand,
    pub ghost faultless: { IsWithoutFaults hand.engine.faults },
    pub ghost answered: { are_steady (memory.log_of hand) ≡ true },
    pub ghost unasked: { (memory.clock_of hand).yeses ≡ 0 },
}

impl LoneHand {
    ghost use Rattle.steady_hands.specs.LoneHands.{clock_of, engine_of, log_of};

    /// A hand with an empty log over an Engine, whose plan of faults goes. No memory.
    pub fn new(alloc: Global, mut engine: MemoryEngine) -> LoneHand
        ensures engine { engine_of result ≡ engine.engine }
        ensures log { log_of result ≡ [] }
        ensures clock { clock_of result ≡ new_clock }
    {
        engine.faults = FaultPlan {
            lost: List::new(alloc),
            unsent: List::new(alloc),
            asked_from: None,
        };
        LoneHand {
            hand: MemoryHand::new(alloc, engine),
        }
    }

    /// Every exchange, in order. No memory.
    pub fn log(&self) -> &[Exchange]
        ensures { result.now ≡ log_of self.now }
    {
        self.hand.log()
    }

    /// How many containers the Engine holds. No memory.
    pub fn containers(&self) -> usize
        ensures { result ≡ length (engine_of self.now).containers }
    {
        self.hand.engine.engine.containers.len()
    }
}

impl Hand for LoneHand {
    ghost use Rattle.steady_hands.specs.LoneHands.{clock_of, engine_of, faults_of, log_of};

    ghost log = { λ hand. log_of hand };

    ghost engine = { λ hand. Some (engine_of hand) };

    ghost heard = { λ _. None };

    ghost faults = { λ hand. faults_of hand };

    ghost clock = { λ hand. clock_of hand };

    /// Makes an exchange on the Engine, which answers it or wants memory.
    fn exchange(&mut self, alloc: Global, request: Request) -> Outcome
        ensures log { Logs (log_of self.old) request result (log_of self.new) }
        ensures told { Tells (Some (engine_of self.old)) request result
            (Some (engine_of self.new)) }
        ensures unsent { log_of self.new ≡ log_of self.old
            → Some (engine_of self.new) ≡ Some (engine_of self.old) }
        ensures unsent_faults { log_of self.new ≡ log_of self.old
            → faults_of self.new ≡ faults_of self.old }
        ensures counted { faults_of self.old ≤ faults_of self.new }
        ensures cause { HasCause request None (faults_of self.old) (faults_of self.new) result }
        ensures clock { clock_of self.new ≡ clock_of self.old }
    {
        self.hand.exchange(alloc, request)
    }

    /// The time in milliseconds, which rises by the pauses alone.
    fn now(&mut self) -> u64
        requires { (clock_of self.old).readings < 2 ^ 62 }
        ensures clock { clock_of self.new
            ≡ read_at (length (log_of self.old)) (clock_of self.old) result }
        ensures log { log_of self.new ≡ log_of self.old }
        ensures engine { Some (engine_of self.new) ≡ Some (engine_of self.old) }
        ensures faults { faults_of self.new ≡ faults_of self.old }
    {
        self.hand.now()
    }

    /// Pauses, in which the Engine makes the next change of its script.
    fn pause(&mut self, ms: u32)
        requires { (clock_of self.old).paused < 2 ^ 62 }
        ensures clock { clock_of self.new ≡ after_pause (clock_of self.old) ms }
        ensures log { log_of self.new ≡ log_of self.old }
        ensures engine { DriftsTold (Some (engine_of self.old)) (Some (engine_of self.new)) }
        ensures faults { faults_of self.new ≡ faults_of self.old }
    {
        self.hand.pause(ms);
    }

    /// Looks, which never says that the worker is asked to stop.
    fn asked(&mut self) -> bool
        requires { (clock_of self.old).looks < 2 ^ 62 }
        ensures never { result ≡ false }
        ensures clock { clock_of self.new ≡ after_asked (clock_of self.old) result }
        ensures log { log_of self.new ≡ log_of self.old }
        ensures engine { Some (engine_of self.new) ≡ Some (engine_of self.old) }
        ensures faults { faults_of self.new ≡ faults_of self.old }
    {
        self.hand.asked()
    }
}
