ghost use Rattle.std.specs.Prelude.{◌≡◌, IfOk};
ghost use Rattle.std.specs.Option.{option_copied};
ghost use Rattle.run_requests.specs.Asking.{Ids};

use engine_types::Listed;
use std::alloc::Global;
use tree_base::{Memory, Text};

/// What requests name beside what is declared: the containers that slots keep, how long stops wait, and the ids that a run's
/// actions were told so far.
pub trait ToldIds {
    /// The look-up, as definitions see it.
    ghost ids: { Self → Ids };

    /// The container that a slot keeps. Memory where there is none to look for it.
    fn kept(&self, alloc: Global, slot: u32) -> Result<Option<&Listed>, Memory>
        ensures { IfOk result (λ row. option_copied row ≡ (ids self.now).kept_by slot) };

    /// How many seconds the stop of the container at a place waits, of those that were seen. Memory where there is none to look
    /// for it.
    fn stop_seconds(&self, alloc: Global, container: u64) -> Result<Option<u64>, Memory>
        ensures { IfOk result (λ seconds. seconds ≡ (ids self.now).waits container) };

    /// The number of the action that creates a slot's container. No memory.
    fn creator(&self, slot: u32) -> Option<usize>
        ensures { result ≡ (ids self.now).creator slot };

    /// The number of the action that makes a network. No memory.
    fn maker(&self, network: u32) -> Option<usize>
        ensures { result ≡ (ids self.now).maker network };

    /// The id that an action was told. No memory.
    fn told(&self, action: usize) -> Option<&Text>
        ensures { option_copied result ≡ (ids self.now).told action };
}
