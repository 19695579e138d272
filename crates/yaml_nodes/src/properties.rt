ghost use Rattle.std.specs.Prelude.{◌≡◌, Ok, IfOk, OnOk};
ghost use Rattle.yaml_lines.specs.Answers.{Gives};
ghost use Rattle.yaml_lines.specs.Rows.{text_at};
ghost use Rattle.yaml_nodes.specs.Progress.{result_beside, result_left};
ghost use Rattle.yaml_nodes.specs.Properties.{no_properties, name_of, tag_of, with_name, with_tag, with_property, properties_from, fault_of_key, carried, unspelled, marked, named, finished};

use crate::marks::{is_property, name_len, starts};
use crate::progress::Progress;
use crate::spot::Spot;
use std::alloc::Global;
use tree_base::{Boxed, Memory, Text, Tree};
use yaml_lines::{Row, YamlFault, YamlRefusal, is_white, text_at, text_of};

/// A tag that is known.
#[derive(Clone, Copy)]
pub enum Tag {
    /// `!reset`.
    Reset,
    /// `!override`.
    Override,
    /// `!!str`.
    Str,
}

/// What stands before a node: at most one name by an anchor, and one tag (YAML 1.2, chapter 6.9).
#[derive(Drop)]
pub struct Properties {
    pub name: Option<Text>,
    pub tag: Option<(Tag, Spot)>,
}

/// No property.
pub fn no_properties() -> Properties
    ensures { result ≡ no_properties }
{
    Properties {
        name: None,
        tag: None,
    }
}

/// The properties that stand in a row from a place on, beside those before them. Refuses an empty or a second name
/// (`BadScalar`), and a tag that isn't known or is a second one (`BadTag`), each at its first character. `!reset` and
/// `!override` are known only where a value may be marked.
pub fn properties_from(
    alloc: Global,
    progress: &Progress,
    row: &Row,
    at: usize,
    found: Properties,
    may_be_marked: bool,
) -> Result<Properties, YamlRefusal>
    ensures { Gives result
        (properties_from may_be_marked progress.now row.now at found 0 (text_at row.now at)) }
{
    let mut more = found;
    let mut next = at;
    loop {
        let chars = text_at(row, next);
        let [c, rest @ ..] = chars else {
            return Ok(more);
        };
        if is_white(*c) {
            next += 1;
        } else if is_property(chars) {
            add_property(alloc, progress, row, next, &mut more, may_be_marked)?;
            next += 1 + name_len(rest);
        } else {
            return Ok(more);
        }
    }
}

/// Puts the property that begins at a place beside those before it.
fn add_property(
    alloc: Global,
    progress: &Progress,
    row: &Row,
    at: usize,
    found: &mut Properties,
    may_be_marked: bool,
) -> Result<(), YamlRefusal>
    ensures { Gives (result_left result found.new)
        (with_property may_be_marked progress.now row.now at found.old (text_at row.now at)) }
{
    let chars = text_at(row, at);
    let name = name_of(alloc, chars)?;
    if starts(chars, '&') {
        add_name(progress, row, at, found, name)
    } else {
        add_tag(progress, row, at, found, tag_of(&name, may_be_marked))
    }
}

/// The name that stands behind the first character.
fn name_of(alloc: Global, chars: &[char]) -> Result<Text, Memory>
    ensures { IfOk result (λ name. name ≡ name_of chars.now) }
{
    match chars {
        [] => Ok(Text::new(alloc)),
        [_, rest @ ..] => text_of(alloc, &rest[..name_len(rest)]),
    }
}

/// A tag that is known.
fn tag_of(name: &Text, may_be_marked: bool) -> Option<Tag>
    ensures { result ≡ tag_of may_be_marked name.now }
{
    match name.as_str() {
        "!str" => Some(Tag::Str),
        "reset" if may_be_marked => Some(Tag::Reset),
        "override" if may_be_marked => Some(Tag::Override),
        _ => None,
    }
}

/// Puts a name beside the properties before it: not the empty one, and no second one.
fn add_name(
    progress: &Progress,
    row: &Row,
    at: usize,
    found: &mut Properties,
    name: Text,
) -> Result<(), YamlRefusal>
    ensures { Gives (result_left result found.new)
        (with_name progress.now row.now at found.old name found.old.name) }
{
    if found.name.is_some() || name.is_empty() {
        return Err(progress.bad(YamlFault::BadScalar, row, at));
    }
    found.name = Some(name);
    Ok(())
}

/// Puts a tag beside the properties before it: one that is known, and no second one.
fn add_tag(
    progress: &Progress,
    row: &Row,
    at: usize,
    found: &mut Properties,
    tag: Option<Tag>,
) -> Result<(), YamlRefusal>
    ensures { Gives (result_left result found.new)
        (with_tag progress.now row.now at found.old tag found.old.tag) }
{
    match (tag, found.tag) {
        (Some(tag), None) => {
            found.tag = Some((tag, Spot::Here(at)));
            Ok(())
        }
        _ => Err(progress.bad(YamlFault::BadTag, row, at)),
    }
}

/// The fault of a property before a key: `Unsupported` of an anchor, `BadTag` of a tag.
pub fn fault_of_key(chars: &[char]) -> YamlFault
    ensures { result ≡ fault_of_key chars.now }
{
    if starts(chars, '&') {
        YamlFault::Unsupported
    } else {
        YamlFault::BadTag
    }
}

/// The properties of a row, for a node in the lines behind it.
pub fn carried(progress: &Progress, row: &Row, found: Properties) -> Properties
    ensures { result ≡ carried progress.now row.now found }
{
    let tag = found.tag.map(|(tag, spot)| (tag, Spot::Before(progress.place_of(row, spot))));
    Properties {
        name: found.name,
        tag,
    }
}

/// Properties where `!!str` may not stand, else `BadTag` at the tag: it stands on a scalar or nothing alone.
pub fn unspelled(
    progress: &Progress,
    row: &Row,
    found: Properties,
) -> Result<Properties, YamlRefusal>
    ensures { Gives result (unspelled progress.now row.now found) }
{
    no_spelling(progress, row, &found)?;
    Ok(found)
}

/// Refuses `!!str` where it may not stand.
pub(crate) fn no_spelling(
    progress: &Progress,
    row: &Row,
    found: &Properties,
) -> Result<(), YamlRefusal>
    ensures { Gives (result_left result found.now) (unspelled progress.now row.now found.now) }
{
    match found.tag {
        Some((Tag::Str, spot)) => Err(YamlRefusal::Bad {
            which: YamlFault::BadTag,
            place: progress.place_of(row, spot),
        }),
        _ => Ok(()),
    }
}

/// A node that is finished, with its properties: under its mark, and its name stands for it without the mark.
pub fn finished(
    alloc: Global,
    progress: &mut Progress,
    found: Properties,
    tree: Tree,
) -> Result<Tree, YamlRefusal>
    ensures { Gives (result_beside result progress.new) (Ok (finished found (tree, progress.old))) }
{
    Ok(finish(alloc, progress, found, tree)?)
}

/// The same, which can only want memory.
pub(crate) fn finish(
    alloc: Global,
    progress: &mut Progress,
    found: Properties,
    tree: Tree,
) -> Result<Tree, Memory>
    ensures { IfOk result (λ got. (got, progress.new) ≡ finished found (tree, progress.old)) }
{
    keep_named(alloc, progress, found.name, &tree)?;
    marked(alloc, found.tag, tree)
}

/// Puts a tree under its name too, if it has one, by one more owner of it.
fn keep_named(
    alloc: Global,
    progress: &mut Progress,
    name: Option<Text>,
    tree: &Tree,
) -> Result<(), Memory>
    ensures { OnOk result (progress.new ≡ named name progress.old tree.now) }
{
    if let Some(name) = name {
        drop(progress.names.put(name, tree.copy(alloc)?)?);
    }
    Ok(())
}

/// A tree under its mark.
fn marked(alloc: Global, tag: Option<(Tag, Spot)>, tree: Tree) -> Result<Tree, Memory>
    ensures { IfOk result (λ got. got ≡ marked tag tree) }
{
    match tag {
        Some((Tag::Reset, _)) => Ok(Tree::Reset),
        Some((Tag::Override, _)) => Ok(Tree::Override(Boxed::new(alloc, tree)?)),
        _ => Ok(tree),
    }
}
