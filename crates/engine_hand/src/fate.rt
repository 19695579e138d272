ghost use Rattle.std.specs.Prelude.{◌≡◌, ◌==◌, find};
ghost use Rattle.std.specs.Option.{option_copied};
ghost use Rattle.engine_hand.specs.Fates.{fate_of, faults_after};

use memory_engine::{FaultPlan, LostAt};

/// What becomes of an exchange, by the plan of faults of its Engine.
#[derive(Clone, Copy)]
pub enum Fate {
    /// The Engine answers it.
    Answered,
    /// Its answer is lost, and its request doesn't take effect.
    LostBefore,
    /// Its request takes effect, and its answer is lost.
    LostAfter,
    /// It isn't sent.
    NotSent,
}

/// The fate of the exchange with a number. No memory.
pub fn fate_of(plan: &FaultPlan, number: u64) -> Fate
    ensures { result ≡ fate_of plan.now number }
{
    match loss_of(plan, number) {
        Some(loss) if loss.effect => Fate::LostAfter,
        Some(_) => Fate::LostBefore,
        None if plan.unsent.as_slice().contains(&number) => Fate::NotSent,
        None => Fate::Answered,
    }
}

/// The first loss that the plan tells for an exchange.
fn loss_of(plan: &FaultPlan, number: u64) -> Option<LostAt>
    ensures { result ≡ find (λ loss. loss.exchange == number) plan.now.lost }
{
    loss_in(plan, number).copied()
}

fn loss_in(plan: &FaultPlan, number: u64) -> Option<&LostAt>
    ensures { option_copied result ≡ find (λ loss. loss.exchange == number) plan.now.lost }
{
    plan.lost
        .as_slice()
        .iter()
        .find(|loss| loss.exchange == number)
}

impl Fate {
    /// A count of faults after an exchange: one more, unless the Engine answers it.
    pub fn faults_after(self, faults: u64) -> u64
        ensures { result ≡ faults_after self faults }
    {
        match self {
            Fate::Answered => faults,
            Fate::LostBefore | Fate::LostAfter | Fate::NotSent => faults.saturating_add(1),
        }
    }
}
