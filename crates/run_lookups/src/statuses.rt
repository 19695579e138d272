ghost use Rattle.std.specs.Prelude.{◌≡◌};
ghost use Rattle.run_model.specs.Ending.{logs_refusal_status, lost_status, outcome_status, seen_status, stream_status};

use engine_types::{LogsRefusal, Outcome, SeenFault, StreamFault, WireEnd};

/// The exit status of a run whose observation ended with this fault: 3 where the Engine refused, or where what it has isn't
/// what a run can begin with. No memory.
pub fn seen_status(fault: &SeenFault) -> u8
    ensures { result ≡ seen_status fault.now }
{
    match fault {
        SeenFault::RequestFailed { .. } => 3,
        SeenFault::PullFailed { .. } => 3,
        SeenFault::Lost { cause, .. } => lost_status(*cause),
        SeenFault::NotSent { .. } => 7,
        SeenFault::NetworkTwice { .. } => 3,
        SeenFault::ForeignNetwork { .. } => 3,
        SeenFault::ExternalMissing { .. } => 3,
        SeenFault::NeedsBuild { .. } => 3,
        SeenFault::TooManyActions { .. } => 8,
        SeenFault::Memory => 9,
    }
}

/// The exit status of a run in which an exchange came to this, which isn't well: 3 where the Engine refused. No memory.
pub fn outcome_status(outcome: &Outcome) -> u8
    ensures { result ≡ outcome_status outcome.now }
{
    match outcome {
        Outcome::Answered(_) => 3,
        Outcome::Lost(cause) => lost_status(*cause),
        Outcome::NotSent => 7,
        Outcome::Memory => 9,
    }
}

fn lost_status(cause: WireEnd) -> u8
    ensures { result ≡ lost_status cause }
{
    match cause {
        WireEnd::TooLarge => 8,
        _ => 7,
    }
}

/// The exit status of a call whose logs aren't all there. No memory.
pub fn logs_refusal_status(refusal: &LogsRefusal) -> u8
    ensures { result ≡ logs_refusal_status refusal.now }
{
    match refusal {
        LogsRefusal::TooManySlots { .. } => 8,
        LogsRefusal::Terminal { .. } => 2,
        LogsRefusal::Frames { .. } => 7,
        LogsRefusal::LogsFull => 8,
        LogsRefusal::Request { outcome, .. } => outcome_status(outcome),
        LogsRefusal::Memory => 9,
    }
}

/// The exit status of a wait whose stream of events ended so. No memory.
pub fn stream_status(fault: StreamFault) -> u8
    ensures { result ≡ stream_status fault }
{
    match fault {
        StreamFault::Refused(_) => 3,
        StreamFault::Wire(cause) => lost_status(cause),
        StreamFault::BadEvent { .. } => 7,
        StreamFault::TooLong { .. } => 8,
        StreamFault::Closed => 7,
    }
}
