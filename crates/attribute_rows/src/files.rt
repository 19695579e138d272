ghost use Rattle.std.specs.Prelude.{◌≡◌, ◌++◌, ◌||◌, [], IfOk, codes, not, unwrap_or, ◌∷◌, Ok};
ghost use Rattle.tree_base.specs.declared.Step.TheVariants.{Index};
ghost use Rattle.tree_base.specs.declared.Tree.{out-Tree};
ghost use Rattle.attribute_types.specs.Answers.{Gives, under};
ghost use Rattle.attribute_scalars.specs.Views.{one_behind, onto};
ghost use Rattle.attribute_scalars.specs.Walks.{each_item, place};
ghost use Rattle.attribute_rows.specs.Rows.{in_mapping, file_use_from, file_use_of, is_rooted, listed, seen_at};
ghost use Rattle.attribute_rows.specs.Folders.{folder_of};
ghost use Rattle.attribute_types.specs.Lookups.{text_at};

use crate::entries::fields_in;
use crate::texts::{text_in, text_or};
use attribute_scalars::{refused, under_place};
use attribute_types::{Attribute, AttributeRefusal, Fault, FileUse, file_use_lines, text_named};
use std::alloc::Global;
use tree_base::{List, Memory, Text, Tree};

const WANTED: [&str; 1] = ["source"];

/// Where files of a kind are seen in a container that are given no place.
#[derive(Clone, Copy, Debug, PartialEq, Eq, Drop)]
pub(crate) enum Files {
    Secrets,
    Configs,
}

/// The uses of secrets, or of configs, in a sequence, in its order.
pub(crate) fn file_uses_of(
    alloc: Global,
    files: Files,
    tree: &Tree,
) -> Result<List<FileUse>, AttributeRefusal>
    ensures { Gives result (listed (file_use_of (folder_of files)) (out-Tree tree.now)) }
{
    match tree {
        Tree::Seq(items) => file_uses_in(alloc, files, items.as_slice()),
        _ => Err(refused(alloc, Fault::WrongKind)),
    }
}

/// The uses of items, in their order.
fn file_uses_in(
    alloc: Global,
    files: Files,
    items: &[Tree],
) -> Result<List<FileUse>, AttributeRefusal>
    ensures { Gives result
        (each_item (λ item. in_mapping (file_use_of (folder_of files)) (out-Tree item)) 0 items.now) }
{
    let mut list = List::new(alloc);
    for (at, item) in items.iter().enumerate() {
        put_file_use(alloc, files, at, item, &mut list)?;
    }
    Ok(list)
}

/// Puts what an item gives last, or refuses it at its place.
fn put_file_use(
    alloc: Global,
    files: Files,
    at: usize,
    item: &Tree,
    list: &mut List<FileUse>,
) -> Result<(), AttributeRefusal>
    ensures { Gives (onto list.new result)
        (one_behind list.old (under (Index (place at)) (in_mapping (file_use_of (folder_of files)) (out-Tree item.now)))) }
{
    match file_use_of(alloc, files, item) {
        Ok(one) => Ok(list.push(one)?),
        Err(refusal) => Err(under_place(at, refusal)),
    }
}

fn file_use_of(alloc: Global, files: Files, tree: &Tree) -> Result<FileUse, AttributeRefusal>
    ensures { Gives result (in_mapping (file_use_of (folder_of files)) (out-Tree tree.now)) }
{
    let attributes = fields_in(alloc, file_use_lines(), &WANTED, tree)?;
    Ok(file_use_from(alloc, files, attributes.as_slice())?)
}

/// The use of a secret or a config by its attributes.
fn file_use_from(alloc: Global, files: Files, attributes: &[Attribute]) -> Result<FileUse, Memory>
    ensures { IfOk result (λ file_use. file_use ≡ file_use_from (folder_of files) attributes.now) }
{
    Ok(FileUse {
        source: text_or(alloc, attributes, "source", "")?,
        target: target_of(alloc, files, attributes)?,
        uid: text_in(alloc, attributes, "uid")?,
        gid: text_in(alloc, attributes, "gid")?,
        mode: text_in(alloc, attributes, "mode")?,
    })
}

/// Where a file is seen: at the place that it is given, and else under the name of its source.
fn target_of(alloc: Global, files: Files, attributes: &[Attribute]) -> Result<Text, Memory>
    ensures { IfOk result (λ target. target ≡ seen_at (folder_of files)
        (unwrap_or (text_at attributes.now (codes "source")) [])
        (text_at attributes.now (codes "target"))) }
{
    match text_named(attributes, "target") {
        Some(target) if stays(files, target.as_str()) => target.copy(alloc),
        Some(target) => in_folder(alloc, files, target.as_str()),
        None => match text_named(attributes, "source") {
            Some(source) => in_folder(alloc, files, source.as_str()),
            None => in_folder(alloc, files, ""),
        },
    }
}

/// Whether a target stays as it is given: one from the root does, and any of a config.
fn stays(files: Files, target: &str) -> bool
    ensures { result ≡ (is_rooted target.now || not (folder_of files).takes_relative) }
{
    is_rooted(target) || files == Files::Configs
}

/// Whether a path begins at the root.
fn is_rooted(path: &str) -> bool
    ensures { result ≡ is_rooted path.now }
{
    path.as_bytes().starts_with(b"/")
}

fn in_folder(alloc: Global, files: Files, name: &str) -> Result<Text, Memory>
    ensures { IfOk result (λ path. path ≡ (folder_of files).path ++ name.now) }
{
    let mut path = Text::from_str(alloc, folder(files))?;
    path.push_str(name)?;
    Ok(path)
}

fn folder(files: Files) -> &'static str
    ensures { result.now ≡ (folder_of files).path }
{
    match files {
        Files::Secrets => "/run/secrets/",
        Files::Configs => "/",
    }
}
