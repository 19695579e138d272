ghost use Rattle.std.specs.Prelude.{◌≡◌, ◌≤◌, ◌<◌, ◌+◌, ◌^◌, [], drop, length, IfOk};
ghost use Rattle.tree_base.specs.Entries.{value_at};
ghost use Rattle.tree_base.specs.declared.tree.Tree.TheVariants.{Null, Scalar};
ghost use Rattle.yaml_lines.specs.Answers.{Gives};
ghost use Rattle.yaml_lines.specs.Plain.{plain_of};
ghost use Rattle.yaml_lines.specs.Quoted.{quoted_of};
ghost use Rattle.yaml_lines.specs.Rows.{text_at};
ghost use Rattle.yaml_nodes.specs.Progress.{result_beside};
ghost use Rattle.yaml_nodes.specs.Properties.{is_spelled};
ghost use Rattle.yaml_nodes.specs.Scalars.{is_null_word, is_plain_null, nothing, scalar, quoted_scalar, plain_scalar, scalar_at, copy_named, alias, word};
ghost use Rattle.yaml_nodes.specs.Unfinished.{ended};
ghost use Rattle.yaml_nodes.specs.declared.properties.Properties.{Properties};

use crate::marks::name_len;
use crate::progress::Progress;
use crate::properties::{Properties, Tag, finish, no_spelling};
use crate::spot::Spot;
use std::alloc::Global;
use tree_base::{Text, Tree};
use yaml_lines::{
    Context, Row, YamlFault, YamlRefusal, plain_scalar, quoted_scalar, text_at, text_of,
};

/// The node where nothing stands, at the place of its owner: null, or the empty text by `!!str`. Refuses only for a
/// limit.
pub fn nothing(
    alloc: Global,
    progress: &mut Progress,
    levels: u32,
    found: Properties,
    row: &Row,
    at: usize,
) -> Result<Tree, YamlRefusal>
    ensures { Gives (result_beside result progress.new)
        (nothing levels found progress.old row.now at) }
{
    progress.one_node(levels, row, at, 0)?;
    let tree = if is_spelled(&found) {
        Tree::Scalar(Text::new(alloc))
    } else {
        Tree::Null
    };
    Ok(finish(alloc, progress, found, tree)?)
}

/// Whether `!!str` stands among the properties.
fn is_spelled(found: &Properties) -> bool
    ensures { result ≡ is_spelled found.now.tag }
{
    matches!(found.tag, Some((Tag::Str, _)))
}

/// Whether a plain scalar spells null.
fn is_null_word(text: &Text) -> bool
    ensures { result ≡ is_null_word text.now }
{
    matches!(text.as_str(), "null" | "Null" | "NULL" | "~")
}

/// Whether a plain scalar is null: `!!str` makes it a text.
fn is_plain_null(found: &Properties, text: &Text) -> bool
    ensures { result ≡ is_plain_null found.now text.now }
{
    is_null_word(text) && !is_spelled(found)
}

/// The scalar of so many characters whose node is counted, and the place behind it. Its text counts now.
fn scalar(
    progress: &mut Progress,
    row: &Row,
    at: usize,
    text: Text,
    len: usize,
) -> Result<(Tree, usize), YamlRefusal>
    requires within { at + len ≤ length row.now.chars }
    requires small { length row.now.chars < 2 ^ 63 }
    ensures is { (found : Properties) →
        Gives (ended found (result_beside result progress.new))
        (scalar found progress.old row.now at (Scalar text) text len) }
    ensures within { IfOk result (λ got. got.1 ≤ length row.now.chars) }
{
    progress.more_text(row, Spot::Here(at), text.len() as u64)?;
    Ok((Tree::Scalar(text), at + len))
}

/// The plain word for null of so many characters whose node is counted, and the place behind it. It has no text.
fn null_word(
    progress: &mut Progress,
    row: &Row,
    at: usize,
    len: usize,
) -> Result<(Tree, usize), YamlRefusal>
    requires within { at + len ≤ length row.now.chars }
    requires small { length row.now.chars < 2 ^ 63 }
    ensures is { (found : Properties) →
        Gives (ended found (result_beside result progress.new))
        (scalar found progress.old row.now at Null [] len) }
    ensures within { IfOk result (λ got. got.1 ≤ length row.now.chars) }
{
    progress.more_text(row, Spot::Here(at), 0)?;
    Ok((Tree::Null, at + len))
}

/// The scalar in quotes that begins at a character of a row, and the place behind it.
fn quoted(
    alloc: Global,
    progress: &mut Progress,
    row: &Row,
    at: usize,
) -> Result<(Tree, usize), YamlRefusal>
    requires { at < length row.now.chars }
    ensures is { (found : Properties) →
        Gives (ended found (result_beside result progress.new))
        (quoted_scalar found progress.old row.now at (quoted_of (text_at row.now at))) }
    ensures within { IfOk result (λ got. got.1 ≤ length row.now.chars) }
{
    match quoted_scalar(alloc, text_at(row, at))? {
        None => Err(progress.bad(YamlFault::BadScalar, row, at)),
        Some((text, len)) => scalar(progress, row, at, text, len),
    }
}

/// The plain scalar that begins at a character of a row, and the place behind it.
fn plain(
    alloc: Global,
    progress: &mut Progress,
    context: Context,
    found: &Properties,
    row: &Row,
    at: usize,
) -> Result<(Tree, usize), YamlRefusal>
    requires { at < length row.now.chars }
    ensures is { Gives (ended found.now (result_beside result progress.new))
        (plain_scalar found.now progress.old row.now at (plain_of context (text_at row.now at))) }
    ensures within { IfOk result (λ got. got.1 ≤ length row.now.chars) }
{
    match plain_scalar(alloc, text_at(row, at), context)? {
        None => Err(progress.bad(YamlFault::BadScalar, row, at)),
        Some((text, len)) => {
            if is_plain_null(found, &text) {
                null_word(progress, row, at, len)
            } else {
                scalar(progress, row, at, text, len)
            }
        }
    }
}

/// A copy of the latest finished node of a name, for an alias of so many characters, and the place behind it.
fn copy_named(
    alloc: Global,
    progress: &mut Progress,
    levels: u32,
    row: &Row,
    at: usize,
    name: &Text,
    len: usize,
) -> Result<(Tree, usize), YamlRefusal>
    requires within { at + len ≤ length row.now.chars }
    requires small { length row.now.chars < 2 ^ 63 }
    ensures is { (found : Properties) →
        Gives (ended found (result_beside result progress.new))
        (copy_named levels found progress.old row.now at
        (value_at progress.old.names name.now) len) }
    ensures within { IfOk result (λ got. got.1 ≤ length row.now.chars) }
{
    let Some(tree) = progress.names.get(name) else {
        return Err(progress.bad(YamlFault::UnknownAlias, row, at));
    };
    let (nodes, text) = progress.counts_with(levels, row, at, tree)?;
    let tree = tree.copy(alloc)?;
    progress.nodes = nodes;
    progress.text = text;
    Ok((tree, at + len))
}

/// The alias whose `*` stands at a character of a row, before other characters, and the place behind it.
fn alias(
    alloc: Global,
    progress: &mut Progress,
    levels: u32,
    found: &Properties,
    row: &Row,
    at: usize,
    behind: &[char],
) -> Result<(Tree, usize), YamlRefusal>
    requires begun { at < length row.now.chars }
    requires small { length row.now.chars < 2 ^ 63 }
    requires behind { behind.now ≡ drop 1 (text_at row.now at) }
    ensures is { Gives (ended found.now (result_beside result progress.new))
        (alias levels found.now progress.old row.now at) }
    ensures within { IfOk result (λ got. got.1 ≤ length row.now.chars) }
{
    no_spelling(progress, row, found)?;
    let len = name_len(behind);
    let name = text_of(alloc, &behind[..len])?;
    copy_named(alloc, progress, levels, row, at, &name, 1 + len)
}

/// The scalar whose node is counted, by the character of a row at which it begins, and the place behind it. Refuses a
/// bad beginning and a quote that isn't closed on its line (`BadScalar`), and a text that passes its limit.
fn scalar_at(
    alloc: Global,
    progress: &mut Progress,
    context: Context,
    found: &Properties,
    row: &Row,
    at: usize,
) -> Result<(Tree, usize), YamlRefusal>
    ensures is { Gives (ended found.now (result_beside result progress.new))
        (scalar_at context found.now progress.old row.now at) }
    ensures within { IfOk result (λ got. got.1 ≤ length row.now.chars) }
{
    match text_at(row, at) {
        [] => Err(progress.bad(YamlFault::BadScalar, row, at)),
        ['\'' | '"', ..] => quoted(alloc, progress, row, at),
        _ => plain(alloc, progress, context, found, row, at),
    }
}

/// The scalar or the alias that begins at a character of a row, before its properties finish it.
fn unfinished(
    alloc: Global,
    progress: &mut Progress,
    context: Context,
    levels: u32,
    found: &Properties,
    row: &Row,
    at: usize,
) -> Result<(Tree, usize), YamlRefusal>
    ensures is { Gives (ended found.now (result_beside result progress.new))
        (word context levels found.now progress.old row.now at) }
    ensures within { IfOk result (λ got. got.1 ≤ length row.now.chars) }
{
    if let ['*', behind @ ..] = text_at(row, at) {
        return alias(alloc, progress, levels, found, row, at, behind);
    }
    progress.one_node(levels, row, at, 0)?;
    scalar_at(alloc, progress, context, found, row, at)
}

/// The scalar or the alias that begins at a character of a row, and the place behind it. Refuses the levels or nodes
/// that a scalar's node passes, before it is read, and then a bad beginning and a quote that isn't closed on its line
/// (`BadScalar`); of an alias `!!str` before it (`BadTag`), a name that no finished node has (`UnknownAlias`), and then
/// a limit that its copy passes.
pub fn word(
    alloc: Global,
    progress: &mut Progress,
    context: Context,
    levels: u32,
    found: Properties,
    row: &Row,
    at: usize,
) -> Result<(Tree, usize), YamlRefusal>
    ensures is { Gives (result_beside result progress.new)
        (word context levels found progress.old row.now at) }
    ensures within { IfOk result (λ got. got.1 ≤ length row.now.chars) }
{
    let (tree, end) = unfinished(alloc, progress, context, levels, &found, row, at)?;
    let tree = finish(alloc, progress, found, tree)?;
    Ok((tree, end))
}
