//! Which Engine a call asks for, and which file asks its workers to stop: from its options, its variables and its working
//! directory.
//!
//! The answer is that of a definition: the Engine in memory with `--memory`, else the socket at the path of `--socket`, else
//! the one at the address `unix://PATH` in `DOCKER_HOST`, else the usual one. `BadHost` is refused exactly where that variable
//! is used and has another form. Only want of memory is free.
#![tactic(auto)]

mod laws;
mod stop_file;
mod target;

pub use laws::good_hosts_have_targets;
pub use stop_file::asked_stop_file;
pub use target::{asked_target, has_bad_host};
