ghost use Rattle.std.specs.Prelude.{◌≡◌, ◌++◌, IfOk};
ghost use Rattle.run_model.specs.Shown.{shown};
ghost use Rattle.hints.specs.Sockets.{after_words, before_words, socket_hint};

use run_lookups::shown;
use std::alloc::Global;
use tree_base::{Memory, Text};

/// What stands at the path of a socket at which nothing could be sent.
#[derive(Debug, Clone, Copy, PartialEq, Eq)]
pub enum SocketState {
    /// Nothing.
    Missing,
    /// Something that isn't a socket.
    Other,
    /// A socket, or a folder on its way, that the program may not use.
    Barred,
    /// A socket that the program may use.
    Silent,
}

/// What is said of the socket at a path at which nothing could be sent.
pub fn socket_hint(alloc: Global, state: SocketState, path: &str) -> Result<Text, Memory>
    ensures { IfOk result (λ hint. hint ≡ socket_hint state path.now) }
{
    let path = shown(alloc, path)?;
    let (before, after) = (before_words(state), after_words(state));
    let hint = format!(in alloc; "{before}{path}{after}")?;
    Ok(Text::from_string(hint))
}

fn before_words(state: SocketState) -> &'static str
    ensures { result.now ≡ before_words state }
{
    match state {
        SocketState::Missing => "there is no socket at ",
        SocketState::Other => "what stands at ",
        SocketState::Barred => "the socket ",
        SocketState::Silent => "nobody listens at the socket ",
    }
}

fn after_words(state: SocketState) -> &'static str
    ensures { result.now ≡ after_words state }
{
    match state {
        SocketState::Missing => "",
        SocketState::Other => " is no socket",
        SocketState::Barred => " may not be opened",
        SocketState::Silent => "",
    }
}
