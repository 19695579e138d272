ghost use Rattle.std.specs.Prelude.{◌<◌, ◌^◌, length};

use asked_target::asked_target;
use compose_words::read_words;
use hints::SocketState;
use outside_api::Target;
use std::alloc::Global;
use std::fs::{self, OpenOptions};
use std::io::ErrorKind;
use std::os::unix::fs::FileTypeExt;
use tree_base::{Env, List, Memory, Text};

/// The longest path that the socket of an Engine can have, in bytes.
const LONGEST_PATH: usize = 107;

/// What a call was asked.
#[derive(Clone, Copy)]
pub(crate) struct Asked<'a> {
    pub(crate) words: &'a List<Text>,
    pub(crate) variables: &'a Env,
    pub(crate) directory: &'a Text,
}

/// A socket at which nothing could be sent, with what stands at its path.
#[derive(Drop)]
pub(crate) struct UnheardSocket {
    pub(crate) state: SocketState,
    pub(crate) path: Text,
}

/// What stands at the path of the socket that a call asks for; None where it asks for none, or where no socket can have the path.
pub(crate) fn unheard_socket(
    host: &HostRuntime,
    asked: Asked<'_>,
) -> Result<Option<UnheardSocket>, Memory>
    requires { length asked.words.now < 2 ^ 32 }
{
    let target = target_of(host.alloc(), asked.words, asked.variables, asked.directory)?;
    let Some(Target::Socket(path)) = target else {
        return Ok(None);
    };
    match socket_at(host, path.as_str()) {
        Some(state) => Ok(Some(UnheardSocket { state, path })),
        None => Ok(None),
    }
}

/// The Engine that words and variables ask for, where they ask for one.
pub(crate) fn target_of(
    alloc: Global,
    words: &List<Text>,
    variables: &Env,
    directory: &Text,
) -> Result<Option<Target>, Memory>
    requires { length words.now < 2 ^ 32 }
{
    let Ok(options) = read_words(alloc, words) else {
        return Ok(None);
    };
    match asked_target(alloc, &options, variables, directory) {
        Ok(target) => Ok(target),
        Err(_) => Ok(None),
    }
}

/// What stands at the path of a socket; None where no socket can have the path. It is looked at, and nothing is sent: a socket
/// can't be opened as a file is, and the attempt only tells whether it might be written to.
fn socket_at(host: &HostRuntime, path: &str) -> Option<SocketState> {
    if path.len() > LONGEST_PATH {
        return None;
    }
    match fs::metadata(host, path) {
        Ok(found) if found.file_type().is_socket() => Some(socket_state(host, path)),
        Ok(_) => Some(SocketState::Other),
        Err(error) if error.kind() == ErrorKind::PermissionDenied => Some(SocketState::Barred),
        Err(_) => Some(SocketState::Missing),
    }
}

fn socket_state(host: &HostRuntime, path: &str) -> SocketState {
    match OpenOptions::new().write(true).open(host, path) {
        Err(error) if error.kind() == ErrorKind::PermissionDenied => SocketState::Barred,
        _ => SocketState::Silent,
    }
}
