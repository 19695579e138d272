ghost use Rattle.std.specs.Prelude.{◌≡◌, ◌<◌, ◌^◌, length, IfOk};
ghost use Rattle.compose_words.specs.Reading.{options_of};
ghost use Rattle.compose.specs.Seconds.{seconds_in, seconds_of};

use compose_words::{Command, Options, WordsRefusal, read_words};
use std::alloc::Global;
use tree_base::{List, Memory, Text};

/// For how many seconds at most the words of a call let its run go on; None where they say nothing of it, or are refused.
pub(crate) fn wait_seconds(alloc: Global, words: &List<Text>) -> Result<Option<u32>, Memory>
    requires { length words.now < 2 ^ 32 }
    ensures { IfOk result (λ seconds. seconds ≡ seconds_in (options_of words.now)) }
{
    match read_words(alloc, words) {
        Ok(options) => Ok(seconds_of(options)),
        Err(WordsRefusal::Memory) => Err(Memory),
        Err(_) => Ok(None),
    }
}

fn seconds_of(options: Options) -> Option<u32>
    ensures { result ≡ seconds_of options.command }
{
    let seconds = match &options.command {
        Command::Up { wait_seconds, .. } => *wait_seconds,
        _ => None,
    };
    drop(options);
    seconds
}
