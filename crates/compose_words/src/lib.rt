//! The command line: a list of words, read as one command with its options or refused.
//!
//! One table has the options, with their names, the values that they take, the commands that they are for
//! and whether they may be given again. The reading of words and the usage text both come from it. The
//! contract of `read_words` gives the whole answer for any words: the first refusal from the left, then a
//! missing command, then the first option of another command, and else what each option says.
#![tactic(auto)]

mod content;
mod item;
mod law;
mod lookup;
mod notice;
mod options;
mod read;
mod refusal;
mod table;
mod usage;

pub use law::items_tile_words;
pub use notice::{Notice, notice_of};
pub use options::{Command, Options, Scale};
pub use read::read_words;
pub use refusal::WordsRefusal;
pub use usage::{help_text, version_text};
