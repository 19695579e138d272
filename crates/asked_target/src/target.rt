ghost use Rattle.std.specs.Prelude.{◌≡◌, codes, false};
ghost use Rattle.std.specs.Option.{option_copied, option_map_or};
ghost use Rattle.asked_target.specs.Targets.{addressed, asked_target, filled, has_bad_host, hosted, is_no_address, makes_hands, socket_at, target_of};
ghost use Rattle.compose_words.specs.Reading.{IsUnlessMemory};
ghost use Rattle.tree_base.specs.Entries.{value_at};

use compose_words::{Command, Options, WordsRefusal};
use file_paths::joined;
use outside_api::Target;
use std::alloc::Global;
use tree_base::{Env, Text};

/// The path of the socket at which an Engine listens that nothing names.
const USUAL_SOCKET: &str = "/var/run/docker.sock";

/// The Engine that a call asks for; None for a command that speaks with none.
///
/// It is the one in memory with `--memory`, whatever else is given. Else it is the one behind a socket: at the path of
/// `--socket`, or of `DOCKER_HOST`, which is `unix://PATH` where it isn't empty, or else at the usual path. Paths are taken
/// against the working directory. `BadHost` where `DOCKER_HOST` is used and has another form; `Memory`.
pub fn asked_target(
    alloc: Global,
    options: &Options,
    env: &Env,
    directory: &Text,
) -> Result<Option<Target>, WordsRefusal>
    ensures { IsUnlessMemory result (asked_target options.now env.now directory.now) }
{
    if makes_hands(&options.command) {
        Ok(Some(target_of(alloc, options, env, directory)?))
    } else {
        Ok(None)
    }
}

/// Whether a command speaks with an Engine outside of itself. No memory.
fn makes_hands(command: &Command) -> bool
    ensures { result ≡ makes_hands command.now }
{
    match command {
        Command::Config { .. } => false,
        Command::Up { .. } => true,
        Command::Down { .. } => true,
        Command::Simulate { .. } => false,
        Command::Wait => true,
        Command::Logs => true,
        Command::EngineSim { .. } => false,
    }
}

/// The Engine that options and variables name.
fn target_of(
    alloc: Global,
    options: &Options,
    env: &Env,
    directory: &Text,
) -> Result<Target, WordsRefusal>
    ensures { IsUnlessMemory result (target_of options.now env.now directory.now) }
{
    if options.in_memory {
        return Ok(Target::InMemory);
    }
    match &options.socket {
        Some(path) => socket_at(alloc, directory, path.as_str()),
        None => hosted(alloc, directory, env),
    }
}

/// The Engine that the variable `DOCKER_HOST` names, or else the usual one.
fn hosted(alloc: Global, directory: &Text, env: &Env) -> Result<Target, WordsRefusal>
    ensures { IsUnlessMemory result
        (hosted directory.now (filled (value_at env.now (codes "DOCKER_HOST")))) }
{
    match host(env) {
        Some(address) => addressed(alloc, directory, address.as_str()),
        None => Ok(Target::Socket(Text::from_str(alloc, USUAL_SOCKET)?)),
    }
}

/// The variable `DOCKER_HOST`, where it isn't empty. No memory.
fn host(env: &Env) -> Option<&Text>
    ensures { option_copied result ≡ filled (value_at env.now (codes "DOCKER_HOST")) }
{
    match env.find("DOCKER_HOST") {
        Some(address) => filled(address),
        None => None,
    }
}

/// A text that isn't empty. No memory.
fn filled(text: &Text) -> Option<&Text>
    ensures { option_copied result ≡ filled (Some text.now) }
{
    if text.is_empty() { None } else { Some(text) }
}

/// The Engine at an address, which has to be `unix://PATH`.
fn addressed(alloc: Global, directory: &Text, address: &str) -> Result<Target, WordsRefusal>
    ensures { IsUnlessMemory result (addressed directory.now address.now) }
{
    match address.strip_prefix("unix://") {
        Some(path) => socket_at(alloc, directory, path),
        None => Err(WordsRefusal::BadHost),
    }
}

/// The Engine behind the socket at a path, which is taken against a directory.
fn socket_at(alloc: Global, directory: &Text, path: &str) -> Result<Target, WordsRefusal>
    ensures { IsUnlessMemory result (Ok (socket_at directory.now path.now)) }
{
    Ok(Target::Socket(joined(alloc, directory, path)?))
}

/// Whether `DOCKER_HOST` is used for an Engine, and isn't `unix://PATH`. No memory.
pub fn has_bad_host(options: &Options, env: &Env) -> bool
    ensures { result ≡ has_bad_host options.now env.now }
{
    makes_hands(&options.command)
        && !options.in_memory
        && options.socket.is_none()
        && host_is_bad(env)
}

fn host_is_bad(env: &Env) -> bool
    ensures { result ≡ option_map_or is_no_address
        (filled (value_at env.now (codes "DOCKER_HOST"))) false }
{
    match host(env) {
        Some(address) => !address.as_str().starts_with("unix://"),
        None => false,
    }
}
