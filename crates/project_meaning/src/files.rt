ghost use Rattle.std.specs.Prelude.{◌≡◌, [], IfOk, codes, map, unwrap_or};
ghost use Rattle.tree_base.specs.declared.Step.TheVariants.{Key};
ghost use Rattle.tree_base.specs.declared.Tree.{out-Tree};
ghost use Rattle.attribute_types.specs.Answers.{Gives, under};
ghost use Rattle.attribute_types.specs.Lookups.{text_at};
ghost use Rattle.attribute_scalars.specs.Views.{behind, just_one, onto, seen_entry};
ghost use Rattle.attribute_scalars.specs.Walks.{each_entry};
ghost use Rattle.project_meaning.specs.Meaning.{all_declared, declared_as, file_of};
ghost use Rattle.project_meaning.specs.Parts.{file_from};

use crate::attributes::fields_under;
use crate::entries::{is_key, section};
use attribute_scalars::{Entry, refused, under_key};
use attribute_types::{Attribute, AttributeRefusal, Fault, file_lines, text_named};
use std::alloc::Global;
use tree_base::{List, Memory, Text, Tree};
use typed_project::FileItem;

/// What a secret or a config has to have.
const WANTED: [&str; 1] = ["file"];

/// The secrets, or the configs, that a project declares, in byte order of their keys, or the first that is refused.
pub(crate) fn files_declared(
    alloc: Global,
    elements: &[Entry],
    name: &str,
) -> Result<List<FileItem>, AttributeRefusal>
    ensures { Gives result
        (all_declared file_of (map seen_entry elements.now) name.now) }
{
    let sorted = section(alloc, elements, name)?;
    match files_in(alloc, sorted.as_slice()) {
        Ok(list) => Ok(list),
        Err(refusal) => Err(under_key(alloc, name, refusal)),
    }
}

/// The files of entries, in their order.
fn files_in(alloc: Global, entries: &[Entry]) -> Result<List<FileItem>, AttributeRefusal>
    ensures { Gives result
        (each_entry (declared_as file_of) (map seen_entry entries.now)) }
{
    let mut list = List::new(alloc);
    for entry in entries {
        put_file(alloc, entry, &mut list)?;
    }
    Ok(list)
}

/// Puts the file of an entry last, or refuses it under its key.
fn put_file(alloc: Global, entry: &Entry, list: &mut List<FileItem>) -> Result<(), AttributeRefusal>
    ensures { Gives (onto list.new result) (behind list.old (under (Key entry.now.key.now)
        (declared_as file_of entry.now.key.now entry.now.value.now))) }
{
    match declared(alloc, entry) {
        Ok(one) => Ok(list.push(one)?),
        Err(refusal) => Err(under_key(alloc, entry.key, refusal)),
    }
}

/// The file of an entry, whose key is asked first.
fn declared(alloc: Global, entry: &Entry) -> Result<FileItem, AttributeRefusal>
    ensures { Gives (just_one result)
        (declared_as file_of entry.now.key.now entry.now.value.now) }
{
    if is_key(entry.key) {
        file_of(alloc, entry.key, entry.value)
    } else {
        Err(refused(alloc, Fault::BadValue))
    }
}

/// The file of a tree under a key (Compose Specification, secrets, configs).
fn file_of(alloc: Global, key: &str, tree: &Tree) -> Result<FileItem, AttributeRefusal>
    ensures { Gives result (file_of key.now (out-Tree tree.now)) }
{
    let attributes = fields_under(alloc, file_lines(), &WANTED, tree)?;
    Ok(file_from(alloc, key, attributes.as_slice())?)
}

/// A file by its attributes.
fn file_from(alloc: Global, key: &str, attributes: &[Attribute]) -> Result<FileItem, Memory>
    ensures { IfOk result (λ file. file ≡ file_from key.now attributes.now) }
{
    Ok(FileItem {
        key: Text::from_str(alloc, key)?,
        file: file_in(alloc, attributes)?,
    })
}

fn file_in(alloc: Global, attributes: &[Attribute]) -> Result<Text, Memory>
    ensures { IfOk result (λ file. file ≡ unwrap_or (text_at attributes.now (codes "file")) []) }
{
    match text_named(attributes, "file") {
        Some(file) => file.copy(alloc),
        None => Ok(Text::new(alloc)),
    }
}
