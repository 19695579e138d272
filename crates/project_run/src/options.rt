ghost use Rattle.std.specs.Prelude.{◌≡◌, length, option_map};
ghost use Rattle.ledger_run.specs.Tellings.{telling};
ghost use Rattle.outside_api.specs.Clock.{new_clock};
ghost use Rattle.run_model.specs.Logs.{deadline_after};
ghost use Rattle.project_run.specs.Options.{bounded, clock_begun, limits_in};

use engine_types::{Aim, RunLimits, RunOptions};
use observe_project::is_up;
use outside_api::Hand;

/// What bounds a run of so many workers: limits that are given, as an earlier run of the same had them; else those that options set,
/// with a deadline that is counted from the first reading of the clock of worker 0's hand. This reading is made here, behind the
/// exchanges that its log has, where there is a deadline, whoever set it.
pub fn limits_for<H: Hand>(
    hand: &mut H,
    workers: u32,
    options: RunOptions,
    given: Option<RunLimits>,
) -> RunLimits
    requires { H.clock hand.old ≡ new_clock }
    ensures limits { result ≡ limits_in workers options given (H.clock hand.new).first }
    ensures clock { H.clock hand.new
        ≡ clock_begun result.deadline (length (H.log hand.old)) (H.clock hand.new).first }
    ensures kept { telling (H.log hand.new) (H.heard hand.new) (H.faults hand.new)
        (H.clock hand.new) (H.engine hand.new)
        ≡ telling (H.log hand.old) (H.heard hand.old) (H.faults hand.old) (H.clock hand.new)
        (H.engine hand.old) }
{
    match given {
        Some(limits) => {
            read_for(hand, limits.deadline);
            limits
        }
        None => {
            let deadline = deadline_for(hand, options.wait_seconds);
            limits_by(workers, options, deadline)
        }
    }
}

/// The same limits for a run that waits for goals only where a project is brought up. No memory.
pub fn bounded(aim: Aim, limits: RunLimits) -> RunLimits
    ensures { result ≡ bounded aim limits }
{
    RunLimits {
        workers: limits.workers,
        deadline: limits.deadline,
        wait: limits.wait && is_up(aim.purpose),
        stop_seconds: limits.stop_seconds,
    }
}

/// Reads the hand's clock for the first time, where there is a deadline.
fn read_for<H: Hand>(hand: &mut H, deadline: Option<u64>)
    requires { H.clock hand.old ≡ new_clock }
    ensures clock { H.clock hand.new
        ≡ clock_begun deadline (length (H.log hand.old)) (H.clock hand.new).first }
    ensures kept { telling (H.log hand.new) (H.heard hand.new) (H.faults hand.new)
        (H.clock hand.new) (H.engine hand.new)
        ≡ telling (H.log hand.old) (H.heard hand.old) (H.faults hand.old) (H.clock hand.new)
        (H.engine hand.old) }
{
    match deadline {
        Some(_) => {
            let _first = hand.now();
        }
        None => {}
    }
}

/// The deadline of a run that is late after so many seconds.
fn deadline_for<H: Hand>(hand: &mut H, wait_seconds: Option<u32>) -> Option<u64>
    requires { H.clock hand.old ≡ new_clock }
    ensures deadline { result
        ≡ option_map (deadline_after (H.clock hand.new).first) wait_seconds }
    ensures clock { H.clock hand.new
        ≡ clock_begun result (length (H.log hand.old)) (H.clock hand.new).first }
    ensures kept { telling (H.log hand.new) (H.heard hand.new) (H.faults hand.new)
        (H.clock hand.new) (H.engine hand.new)
        ≡ telling (H.log hand.old) (H.heard hand.old) (H.faults hand.old) (H.clock hand.new)
        (H.engine hand.old) }
{
    match wait_seconds {
        Some(seconds) => {
            let first = hand.now();
            Some(deadline_after(first, seconds))
        }
        None => None,
    }
}

/// The limits of a run of so many workers whose hands never read their clocks. No memory.
pub fn unread_limits(workers: u32, options: RunOptions, given: Option<RunLimits>) -> RunLimits
    ensures { result ≡ limits_in workers options given 0 }
{
    match given {
        Some(limits) => limits,
        None => limits_by(workers, options, deadline_from(0, options.wait_seconds)),
    }
}

/// The limits of a run of so many workers that options and a deadline set.
fn limits_by(workers: u32, options: RunOptions, deadline: Option<u64>) -> RunLimits
    ensures { result ≡ record {
      workers = workers;
      deadline = deadline;
      wait = options.wait;
      stop_seconds = options.stop_seconds;
    } }
{
    RunLimits {
        workers,
        deadline,
        wait: options.wait,
        stop_seconds: options.stop_seconds,
    }
}

/// The deadline of a run whose first reading is this, where it is late after so many seconds.
fn deadline_from(first: u64, wait_seconds: Option<u32>) -> Option<u64>
    ensures { result ≡ option_map (deadline_after first) wait_seconds }
{
    match wait_seconds {
        Some(seconds) => Some(deadline_after(first, seconds)),
        None => None,
    }
}

/// So many seconds after a reading in milliseconds, as far as 64 bits tell.
fn deadline_after(first: u64, seconds: u32) -> u64
    ensures { result ≡ deadline_after first seconds }
{
    first.saturating_add(1000 * u64::from(seconds))
}
