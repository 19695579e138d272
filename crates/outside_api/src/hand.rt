ghost use Rattle.std.specs.Prelude.{◌≡◌, ℕ, ◌<◌, ◌≤◌, ◌^◌, List, Option, length};
ghost use Rattle.engine_types.specs.declared.Engine.{Engine};
ghost use Rattle.engine_types.specs.declared.Exchange.{Exchange};
ghost use Rattle.run_model.specs.EngineRules.{Tells, DriftsTold};
ghost use Rattle.outside_api.specs.Clock.{Clock, after_pause, after_asked, read_at};
ghost use Rattle.outside_api.specs.Hands.{Heard, Logs, HearsNext, HasCause};

use engine_types::{Outcome, Request};
use std::alloc::Global;

/// Makes exchanges with an Engine, for one worker.
pub trait Hand: Drop {
    /// Every exchange, in order.
    ghost log: { Self → List Exchange };

    /// The Engine, where it is told.
    ghost engine: { Self → Option Engine };

    /// What was heard in each exchange of the log, where it is told.
    ghost heard: { Self → Option (List Heard) };

    /// How many exchanges failed on the way.
    ghost faults: { Self → ℕ };

    ghost clock: { Self → Clock };

    /// Sends a request and waits for what comes of it. Room in the log is taken first: where there is none,
    /// the answer is Memory, nothing is sent, and the log stays. After Lost, or a Memory that is logged, the
    /// request may have taken effect.
    fn exchange(&mut self, alloc: Global, request: Request) -> Outcome
        ensures log { Logs (log self.old) request result (log self.new) }
        ensures told { Tells (engine self.old) request result (engine self.new) }
        ensures unsent { log self.new ≡ log self.old → engine self.new ≡ engine self.old }
        ensures unsent_faults { log self.new ≡ log self.old → faults self.new ≡ faults self.old }
        ensures heard { HearsNext (log self.old) (log self.new) (heard self.old) (heard self.new) }
        ensures counted { faults self.old ≤ faults self.new }
        ensures cause { HasCause request (heard self.new) (faults self.old)
            (faults self.new) result }
        ensures clock { clock self.new ≡ clock self.old };

    /// The time in milliseconds of a clock that all hands share. No memory. The hand's own count of it tells behind how many
    /// exchanges of its log it was read first.
    fn now(&mut self) -> u64
        requires { (clock self.old).readings < 2 ^ 62 }
        ensures clock { clock self.new
            ≡ read_at (length (log self.old)) (clock self.old) result }
        ensures log { log self.new ≡ log self.old }
        ensures engine { engine self.new ≡ engine self.old }
        ensures heard { heard self.new ≡ heard self.old }
        ensures faults { faults self.new ≡ faults self.old };

    /// Pauses for so many milliseconds, in which an Engine may change by itself. No memory.
    fn pause(&mut self, ms: u32)
        requires { (clock self.old).paused < 2 ^ 62 }
        ensures clock { clock self.new ≡ after_pause (clock self.old) ms }
        ensures log { log self.new ≡ log self.old }
        ensures engine { DriftsTold (engine self.old) (engine self.new) }
        ensures heard { heard self.new ≡ heard self.old }
        ensures faults { faults self.new ≡ faults self.old };

    /// Whether the worker is asked to stop. No memory.
    fn asked(&mut self) -> bool
        requires { (clock self.old).looks < 2 ^ 62 }
        ensures clock { clock self.new ≡ after_asked (clock self.old) result }
        ensures log { log self.new ≡ log self.old }
        ensures engine { engine self.new ≡ engine self.old }
        ensures heard { heard self.new ≡ heard self.old }
        ensures faults { faults self.new ≡ faults self.old };
}
