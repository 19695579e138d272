ghost use Rattle.std.specs.Prelude.{◌≡◌, map};
ghost use Rattle.std.specs.Result.{result_map_both};
ghost use Rattle.tree_base.specs.declared.Step.TheVariants.{Key};
ghost use Rattle.tree_base.specs.declared.Tree.{out-Tree};
ghost use Rattle.tree_base.specs.declared.Tree.TheOpen.{Tree-F};
ghost use Rattle.attribute_types.specs.Answers.{Gives, under};
ghost use Rattle.attribute_scalars.specs.Views.{seen_entry};
ghost use Rattle.attribute_scalars.specs.Walks.{each_entry, in_byte_order, is_extension, is_in};
ghost use Rattle.project_meaning.specs.Answers.{asked};
ghost use Rattle.project_meaning.specs.Meaning.{element_form, elements_in, is_passed_over, name_form, section_form, section_names};

use attribute_scalars::{Entry, entries_of, in_byte_order, refused, under_key};
use attribute_types::{AttributeRefusal, Fault};
use std::alloc::Global;
use tree_base::{Map, Tree};

/// The top-level elements of a tree, each of which has its form, in the tree's order; null has none.
pub(crate) fn elements_in(alloc: Global, tree: &Tree) -> Result<Vec<Entry>, AttributeRefusal>
    ensures { Gives (result_map_both (λ list. map seen_entry list.items)
        (λ refusal. refusal) result)
        (elements_in (out-Tree tree.now)) }
{
    match tree {
        Tree::Null => Ok(Vec::new(alloc)),
        Tree::Map(entries) => asked_elements(alloc, entries.get()),
        _ => Err(refused(alloc, Fault::WrongKind)),
    }
}

fn asked_elements(alloc: Global, entries: &Map) -> Result<Vec<Entry>, AttributeRefusal>
    ensures { Gives (result_map_both (λ list. map seen_entry list.items)
        (λ refusal. refusal) result)
        (elements_in (Tree-F.Map entries.now)) }
{
    ask_elements(alloc, entries)?;
    Ok(entries_of(alloc, entries)?)
}

/// Asks the form of each element, in byte order of their names.
fn ask_elements(alloc: Global, entries: &Map) -> Result<(), AttributeRefusal>
    ensures { Gives (asked result) (each_entry
        (λ key tree. element_form key (out-Tree tree)) (in_byte_order entries.now)) }
{
    let sorted = in_byte_order(entries_of(alloc, entries)?)?;
    ask_in_order(alloc, sorted.as_slice())
}

fn ask_in_order(alloc: Global, entries: &[Entry]) -> Result<(), AttributeRefusal>
    ensures { Gives (asked result) (each_entry
        (λ key tree. element_form key (out-Tree tree)) (map seen_entry entries.now)) }
{
    for entry in entries {
        ask_element(alloc, entry)?;
    }
    Ok(())
}

/// Asks an element, which is refused under its name.
fn ask_element(alloc: Global, entry: &Entry) -> Result<(), AttributeRefusal>
    ensures { Gives (asked result) (under (Key entry.now.key.now)
        (element_form entry.now.key.now (out-Tree entry.now.value.now))) }
{
    match ask_form(alloc, entry.key, entry.value) {
        Ok(()) => Ok(()),
        Err(refusal) => Err(under_key(alloc, entry.key, refusal)),
    }
}

/// Asks the form of an element by itself.
fn ask_form(alloc: Global, key: &str, tree: &Tree) -> Result<(), AttributeRefusal>
    ensures { asked result ≡ element_form key.now (out-Tree tree.now) }
{
    if is_passed_over(key) {
        Ok(())
    } else if is_section(key) {
        ask_section(alloc, tree)
    } else if key == "name" {
        ask_name(alloc, tree)
    } else {
        Err(refused(alloc, Fault::UnknownAttribute))
    }
}

/// Null, or a mapping.
fn ask_section(alloc: Global, tree: &Tree) -> Result<(), AttributeRefusal>
    ensures { asked result ≡ section_form (out-Tree tree.now) }
{
    match tree {
        Tree::Null | Tree::Map(_) => Ok(()),
        _ => Err(refused(alloc, Fault::WrongKind)),
    }
}

/// Null, or a text.
fn ask_name(alloc: Global, tree: &Tree) -> Result<(), AttributeRefusal>
    ensures { asked result ≡ name_form (out-Tree tree.now) }
{
    match tree {
        Tree::Null | Tree::Scalar(_) => Ok(()),
        _ => Err(refused(alloc, Fault::WrongKind)),
    }
}

/// The elements of which nothing is asked any more, and those that extend a file.
fn is_passed_over(key: &str) -> bool
    ensures { result ≡ is_passed_over key.now }
{
    is_extension(key) || key == "include" || key == "version"
}

/// Whether a key extends a file, and is passed over (the Compose Specification, extensions).
fn is_extension(key: &str) -> bool
    ensures { result ≡ is_extension key.now }
{
    matches!(key.as_bytes(), [b'x', b'-', ..])
}

/// The elements that are mappings of what a project declares.
fn is_section(key: &str) -> bool
    ensures { result ≡ is_in section_names key.now }
{
    key == "configs"
        || key == "networks"
        || key == "secrets"
        || key == "services"
        || key == "volumes"
}
