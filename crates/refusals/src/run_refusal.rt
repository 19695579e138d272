ghost use Rattle.std.specs.Prelude.{◌≡◌};
ghost use Rattle.run_model.specs.Ending.{fault_status};
ghost use Rattle.run_model.specs.Lines.{fault_text};
ghost use Rattle.refusals.specs.Lines.{refusal_line};
ghost use Rattle.refusals.specs.Origins.{run_refusal};
ghost use Rattle.refusals.specs.Statuses.{refusal_status};

use crate::refusal::Refusal;
use engine_types::RunFault;

/// What a call is refused with where its run is refused so: the refusal has the fault's status and its line. No
/// memory.
pub fn refusal_of(fault: RunFault) -> Refusal
    ensures refusal { result ≡ run_refusal fault }
    ensures status { refusal_status result ≡ fault_status fault }
    ensures line { refusal_line result ≡ fault_text fault }
{
    match fault {
        RunFault::Seen(fault) => Refusal::Seen(fault),
        RunFault::Request { request, outcome } => Refusal::Request { request, outcome },
        RunFault::Condition {
            slot,
            condition,
            report,
        } => Refusal::Condition {
            slot,
            condition,
            report,
        },
        RunFault::Stopped => Refusal::Stopped,
        RunFault::Late(why) => Refusal::Late(why),
        RunFault::Memory => Refusal::Memory,
    }
}
