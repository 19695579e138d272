use std::alloc::{AllocError, Global};
use tree_base::{Memory, Text};

/// Why a case can't be run.
#[derive(Drop)]
pub enum CaseFault {
    /// The case is none, with what is wrong with it.
    NoCase(Text),
    Memory,
}

impl From<Memory> for CaseFault {
    fn from(_: Memory) -> CaseFault {
        CaseFault::Memory
    }
}

impl From<AllocError> for CaseFault {
    fn from(_: AllocError) -> CaseFault {
        CaseFault::Memory
    }
}

impl CaseFault {
    /// The case is none, for this reason; or Memory, where there is none for the reason.
    pub fn no_case(alloc: Global, message: &str) -> CaseFault {
        match Text::from_str(alloc, message) {
            Ok(message) => CaseFault::NoCase(message),
            Err(Memory) => CaseFault::Memory,
        }
    }
}
