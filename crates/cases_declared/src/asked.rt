ghost use Rattle.std.specs.Prelude.{◌<◌, ◌^◌, length};

use case_files::{Fields, Reading};
use compose_words::{Command, Options, Scale, WordsRefusal, read_words};
use include_extends::LoadRequest;
use std::alloc::Global;
use tree_base::{List, Text, Tree, TryCopy};

/// How many words a case may have.
const MOST_WORDS: usize = 1_000;

/// The options of a case's `words`, which are those of a command; `up` where there are none. None, which is kept, where they
/// are refused.
pub(crate) fn options_at(reading: &mut Reading, fields: &Fields) -> Option<Options> {
    let words = few_words_at(reading, fields);
    let read = read_words(reading.alloc, &words);
    drop(words);
    options_read(reading, read)
}

/// The words; none, which is kept, where they are too many.
fn few_words_at(reading: &mut Reading, fields: &Fields) -> List<Text>
    ensures { length result < 2 ^ 32 }
{
    let words = words_at(reading, fields);
    if words.len() < MOST_WORDS {
        words
    } else {
        reading.refuse("there are too many words");
        List::new(reading.alloc)
    }
}

/// The words of a sequence, or those of a text, which spaces part.
fn words_at(reading: &mut Reading, fields: &Fields) -> List<Text> {
    match fields.find("words") {
        Some(Tree::Seq(_)) => reading.texts(fields, "words"),
        _ => {
            let line = reading.text_or(fields, "words", "up");
            reading.words_in(line.as_str())
        }
    }
}

fn options_read(reading: &mut Reading, read: Result<Options, WordsRefusal>) -> Option<Options> {
    match read {
        Ok(options) => Some(options),
        Err(WordsRefusal::Memory) => {
            reading.memory();
            None
        }
        Err(_) => {
            reading.wants("words", "the words of a command");
            None
        }
    }
}

/// What is loaded for these options, in the `directory` of a case and under the variables of its `environment`.
pub(crate) fn request_of(reading: &mut Reading, options: &Options, fields: &Fields) -> LoadRequest {
    LoadRequest {
        files: texts_copy(reading, &options.files),
        project_directory: text_copy(reading, options.directory.as_ref()),
        env_files: texts_copy(reading, &options.env_files),
        env: reading.variables(fields, "environment"),
        cwd: directory_at(reading, fields),
    }
}

/// The working directory of a case.
pub(crate) fn directory_at(reading: &mut Reading, fields: &Fields) -> Text {
    reading.text_or(fields, "directory", "/w/shop")
}

/// A copy of texts; none, which is kept, where there is no memory.
pub(crate) fn texts_copy(reading: &mut Reading, texts: &List<Text>) -> List<Text> {
    let copy = texts.copy(reading.alloc);
    reading.given(copy, List::new(reading.alloc))
}

fn text_copy(reading: &mut Reading, text: Option<&Text>) -> Option<Text> {
    match text {
        Some(text) => Some(reading.text(text.as_str())),
        None => None,
    }
}

/// The numbers of `--scale`, which `up` alone has. No memory.
pub(crate) fn scales_of(options: &Options) -> &[Scale] {
    match &options.command {
        Command::Up { scale, .. } => scale.as_slice(),
        _ => &[],
    }
}

/// Whether the files of configs and secrets are read: for `up` alone. No memory.
pub(crate) fn reads_files(options: &Options) -> bool {
    match &options.command {
        Command::Up { .. } => true,
        _ => false,
    }
}
