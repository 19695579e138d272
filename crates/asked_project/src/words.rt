ghost use Rattle.std.specs.Prelude.{◌≡◌, ◌<◌, ◌^◌, ◌||◌, IfErr, IfSome, IsTrue, length};
ghost use Rattle.asked_project.specs.Asking.{are_built, asked_or_not, is_built_command, options_asked, options_refusal};
ghost use Rattle.refusals.specs.Origins.{is_of_words};
ghost use Rattle.refusals.specs.Refused.{wants_memory};
ghost use Rattle.tree_base.specs.Answers.{Gives};

use asked_target::has_bad_host;
use compose_words::{Command, Options, WordsRefusal, read_words};
use refusals::{Refusal, Unbuilt};
use std::alloc::Global;
use tree_base::{Env, List, Text};

/// The command with its options that words ask for. `Words` where they are none; `NotBuilt(Words)` where they ask for what
/// isn't built yet; and `Words(BadHost)` where they use `DOCKER_HOST`, and that names no Engine.
pub(crate) fn options_asked(
    alloc: Global,
    words: &List<Text>,
    env: &Env,
) -> Result<Options, Refusal>
    requires { length words.now < 2 ^ 32 }
    ensures answer { Gives wants_memory result (options_asked words.now env.now) }
    ensures kind { IfErr result (λ refusal. IsTrue (is_of_words refusal || wants_memory refusal)) }
{
    match read_words(alloc, words) {
        Ok(options) => asked_or_not(options, env),
        Err(refusal) => Err(Refusal::from(refusal)),
    }
}

fn asked_or_not(options: Options, env: &Env) -> Result<Options, Refusal>
    ensures answer { result ≡ asked_or_not env.now options }
    ensures kind { IfErr result (λ refusal. IsTrue (is_of_words refusal || wants_memory refusal)) }
{
    match options_refusal(&options, env) {
        None => Ok(options),
        Some(refusal) => {
            drop(options);
            Err(refusal)
        }
    }
}

/// What options are refused with that read well. No memory.
fn options_refusal(options: &Options, env: &Env) -> Option<Refusal>
    ensures answer { result ≡ options_refusal env.now options.now }
    ensures kind { IfSome result (λ refusal. IsTrue (is_of_words refusal)) }
{
    if !are_built(options) {
        Some(Refusal::NotBuilt(Unbuilt::Words))
    } else if has_bad_host(options, env) {
        Some(Refusal::Words(WordsRefusal::BadHost))
    } else {
        None
    }
}

/// Whether all is built that options ask for.
fn are_built(options: &Options) -> bool
    ensures { result ≡ are_built options.now }
{
    is_built_command(&options.command)
}

/// Whether a command is built, with all its options.
fn is_built_command(command: &Command) -> bool
    ensures { result ≡ is_built_command command.now }
{
    match command {
        Command::Config { .. } => true,
        Command::Up { .. } => true,
        Command::Down { .. } => true,
        Command::Simulate { .. } => false,
        Command::Wait => false,
        Command::Logs => false,
        Command::EngineSim { .. } => false,
    }
}
