ghost use Rattle.std.specs.Prelude.{◌<◌, ◌^◌, length};

use case_files::{Fields, Reading};
use tree_base::{Env, List, Text, Tree};

/// What a call is given beside files, sinks and an Engine: its words, the variables, and the working directory.
#[derive(Drop)]
pub struct Scene {
    pub words: List<Text>,
    pub env: Env,
    pub directory: Text,
}

/// How many words a case may have.
const MOST_WORDS: usize = 100_000;

/// The scene of a case, whose words stand under the name of the call.
pub fn scene_of(reading: &mut Reading, fields: &Fields, call: &str) -> Scene
    ensures { length result.words < 2 ^ 32 }
{
    let words = words_of(reading, fields, call);
    Scene {
        words: few_words(reading, words),
        env: reading.variables(fields, "environment"),
        directory: reading.text_or(fields, "directory", "/w/shop"),
    }
}

/// The words; none, and that is kept, where they are too many.
fn few_words(reading: &mut Reading, words: List<Text>) -> List<Text>
    ensures { length result < 2 ^ 32 }
{
    if words.len() < MOST_WORDS {
        words
    } else {
        reading.refuse("there are too many words");
        List::new(reading.alloc)
    }
}

/// The words under the name of a call: those of a sequence, or those of a text, which spaces part.
fn words_of(reading: &mut Reading, fields: &Fields, call: &str) -> List<Text> {
    match fields.find(call) {
        Some(Tree::Seq(_)) => reading.texts(fields, call),
        _ => {
            let line = reading.text_at(fields, call);
            reading.words_in(line.as_str())
        }
    }
}
