ghost use Rattle.std.specs.Prelude.{◌≡◌};
ghost use Rattle.progress_board.specs.Progresses.{progress_of};

/// What a call tells of what it is at.
#[derive(Debug, Clone, Copy, PartialEq, Eq)]
pub enum Progress {
    /// Nothing.
    Quiet,
    /// Lines that stay.
    Plain,
    /// One line, which is taken away again.
    Terminal,
}

/// What the value of the variable `COMPOSE_PROGRESS` asks for: where it is neither `plain` nor `quiet`, a line on a terminal. No
/// memory.
pub fn progress_of(value: &str, is_terminal: bool) -> Progress
    ensures { result ≡ progress_of value.now is_terminal }
{
    if value == "plain" {
        Progress::Plain
    } else if value == "quiet" || !is_terminal {
        Progress::Quiet
    } else {
        Progress::Terminal
    }
}
