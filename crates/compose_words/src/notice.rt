ghost use Rattle.std.specs.Prelude.{◌≡◌};
ghost use Rattle.compose_words.specs.Notices.{asks_help, notice_of};

use crate::table::command_named;
use tree_base::{List, Text};

/// What a command line asks about the program itself.
#[derive(Clone, Copy)]
pub enum Notice {
    /// The usage text.
    Help,
    /// The version.
    Version,
}

/// What words ask about the program: `--help` or `-h` as the only word or as the only word behind a
/// command, `--version` as the only word, and nothing otherwise. Such words are no command line.
pub fn notice_of(words: &List<Text>) -> Option<Notice>
    ensures { result ≡ notice_of words.now }
{
    match words.as_slice() {
        [word] if asks_help(word.as_str()) => Some(Notice::Help),
        [word] if word.as_str() == "--version" => Some(Notice::Version),
        [word, next] if command_named(word.as_str()).is_some() && asks_help(next.as_str()) => {
            Some(Notice::Help)
        }
        _ => None,
    }
}

fn asks_help(word: &str) -> bool
    ensures { result ≡ asks_help word.now }
{
    word == "--help" || word == "-h"
}
