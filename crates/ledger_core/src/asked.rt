use crate::permit::Permit;
use engine_types::Request;

/// The answer to a worker that asks for work.
#[derive(Drop)]
pub enum Asked {
    /// Make the exchange of an action, and end the permit with what came of it.
    Work(Permit, Request),
    /// Pause, ask for a report on a slot's container, and end the permit with what came of it.
    Watch(Permit, Request),
    /// There is nothing to do yet: pause, and ask again.
    Idle,
    /// There is nothing left to do for this worker.
    Leave,
    /// Memory was wanted; the worker has left.
    Short,
}
