ghost use Rattle.std.specs.Prelude.{◌≡◌};

use engine_types::{Declared, Plan, RunLimits, Seen};

/// What a run is of: what is declared, what was seen, the plan, and what bounds the run.
#[derive(Clone, Copy)]
pub struct Run<'a> {
    pub declared: &'a Declared,
    pub seen: &'a Seen,
    pub plan: &'a Plan,
    pub limits: RunLimits,
}

impl<'a> Run<'a> {
    ghost use Rattle.run_requests.specs.Setups.{of_one_worker, setup_of};

    /// A run of one worker that waits for no goal, has no deadline, and lets each stop wait as its slot says.
    pub fn of_one_worker(declared: &'a Declared, seen: &'a Seen, plan: &'a Plan) -> Run<'a>
        ensures { setup_of result ≡ of_one_worker declared.now seen.now plan.now.actions }
    {
        Run {
            declared,
            seen,
            plan,
            limits: RunLimits {
                workers: 1,
                deadline: None,
                wait: false,
                stop_seconds: None,
            },
        }
    }
}
