ghost use Rattle.std.specs.Prelude.{◌≡◌, ◌≤◌, ◌+◌, ℕ, List, Option, length, IfOk};
ghost use Rattle.std.specs.Option.{ForSome};
ghost use Rattle.yaml_lines.specs.Answers.{Gives};
ghost use Rattle.yaml_lines.specs.Spelling.{spelled};
ghost use Rattle.yaml_nodes.specs.Mappings.{key_with, key_at};

use crate::marks::{is_property, is_quote, starts};
use crate::progress::Progress;
use crate::properties::fault_of_key;
use std::alloc::Global;
use tree_base::Text;
use yaml_lines::{
    Context, Row, YamlFault, YamlRefusal, is_colon, plain_scalar, quoted_scalar, text_at,
};

/// A key as it was read.
#[derive(Drop)]
pub struct Key {
    /// Whether it is the plain `<<`.
    pub is_merge: bool,
    pub text: Text,
    /// How many characters it takes.
    pub len: usize,
}

/// The key that begins at a character of a row: a scalar on one line. Refuses a property before it (`Unsupported` for
/// an anchor, `BadTag` for a tag), an alias in its place or an empty one (`Unsupported`), and what no scalar begins
/// with or no quote closes (`BadScalar`).
pub fn key_at(
    alloc: Global,
    progress: &Progress,
    context: Context,
    row: &Row,
    at: usize,
) -> Result<Key, YamlRefusal>
    ensures is { Gives result (key_at context progress.now row.now at) }
    ensures within { IfOk result (λ key. at + key.len ≤ length row.now.chars) }
{
    let chars = text_at(row, at);
    if is_property(chars) {
        return Err(progress.bad(fault_of_key(chars), row, at));
    }
    if starts(chars, '*') || is_colon(chars) {
        return Err(progress.bad(YamlFault::Unsupported, row, at));
    }
    if is_quote(chars) {
        let read = quoted_scalar(alloc, chars)?;
        key_with(progress, row, at, read, false)
    } else {
        let read = plain_scalar(alloc, chars, context)?;
        key_with(progress, row, at, read, true)
    }
}

/// The key of a scalar that was read, if one was.
fn key_with(
    progress: &Progress,
    row: &Row,
    at: usize,
    read: Option<(Text, usize)>,
    is_plain: bool,
) -> Result<Key, YamlRefusal>
    requires { ForSome read (λ p. at + p.1 ≤ length row.now.chars) }
    ensures is { (chars : Option (List ℕ × ℕ)) → read ≡ spelled chars →
        Gives result (key_with is_plain progress.now row.now at chars) }
    ensures within { IfOk result (λ key. at + key.len ≤ length row.now.chars) }
{
    match read {
        None => Err(progress.bad(YamlFault::BadScalar, row, at)),
        Some((text, len)) => Ok(Key {
            is_merge: is_plain && text.as_str() == "<<",
            text,
            len,
        }),
    }
}
