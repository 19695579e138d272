/// Why a run of cases is broken off.
#[derive(Clone, Copy)]
pub enum Stop {
    Memory,
    Output,
}

impl Stop {
    /// The exit status: 9 for want of memory, 7 where the output failed.
    pub fn status(self) -> u8 {
        match self {
            Stop::Memory => 9,
            Stop::Output => 7,
        }
    }
}
