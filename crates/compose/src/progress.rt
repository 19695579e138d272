use progress_board::{Progress, SharedBoard, board_for, progress_of};
use std::io::IsTerminal;
use tree_base::Env;

/// What a call tells of what it is at, by its variables and by where its standard error goes: a board, or none.
pub(crate) fn board_of(host: &HostRuntime, variables: &Env) -> Option<SharedBoard> {
    board_for(host.alloc(), progress_here(host, variables))
}

/// The same, as what is asked for.
pub(crate) fn progress_here(host: &HostRuntime, variables: &Env) -> Progress {
    let asked = match variables.find("COMPOSE_PROGRESS") {
        Some(value) => value.as_str(),
        None => "",
    };
    progress_of(asked, host.stderr().is_terminal())
}
