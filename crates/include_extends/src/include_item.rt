ghost use Rattle.std.specs.Prelude.{◌≡◌, ◌++◌, ℕ, Err, IfOk, List, drop, position};
ghost use Rattle.std.specs.Option.{option_copied, option_map};
ghost use Rattle.std.specs.Str.{bytes_eq};
ghost use Rattle.include_extends.specs.Includes.{cycle_of, directory_from, first_or, include_items, item_places, not_begun, places_with, without_include};
ghost use Rattle.loaded_files.specs.Reads.{IsGiven};
ghost use Rattle.loaded_files.specs.declared.refusal.LoadRefusal.{LoadRefusal};
ghost use Rattle.tree_base.specs.declared.Tree.{out-Tree};

use crate::request::Places;
use file_paths::directory_of;
use loaded_files::{LoadRefusal, only, text_at, texts_at};
use std::alloc::Global;
use tree_base::{List, Memory, Text, Tree, copy_slice};

/// What a tree includes.
pub(crate) fn include_items(alloc: Global, tree: &Tree) -> Result<List<Tree>, Memory>
    ensures { IfOk result (λ items. items ≡ include_items (out-Tree tree.now)) }
{
    match tree {
        Tree::Map(top) => match top.get().find("include") {
            Some(Tree::Seq(items)) => copy_slice(alloc, items.as_slice()),
            _ => Ok(List::new(alloc)),
        },
        _ => Ok(List::new(alloc)),
    }
}

/// A tree without what it includes.
pub(crate) fn without_include(alloc: Global, tree: Tree) -> Result<Tree, Memory>
    ensures { IfOk result (λ rest. rest ≡ without_include tree (out-Tree tree)) }
{
    match tree {
        Tree::Map(top) => {
            let mut top = top.take(alloc)?;
            let include = Text::from_str(alloc, "include")?;
            drop(top.remove(&include));
            Tree::mapping(alloc, top)
        }
        other => Ok(other),
    }
}

/// The places that an item of `include` names.
pub(crate) fn item_places(alloc: Global, directory: &Text, item: &Tree) -> Result<Places, Memory>
    ensures { IfOk result
        (λ places. places ≡ item_places directory.now (out-Tree item.now)) }
{
    match item {
        Tree::Scalar(path) => places_with(alloc, directory, only(alloc, path)?, None, None),
        Tree::Map(fields) => {
            let fields = fields.get();
            let files = texts_at(alloc, fields, "path")?;
            let env_files = texts_at(alloc, fields, "env_file")?;
            let own = text_at(fields, "project_directory");
            let files = files.unwrap_or(List::new(alloc));
            places_with(alloc, directory, files, own, env_files)
        }
        _ => places_with(alloc, directory, List::new(alloc), None, None),
    }
}

/// The places of an included model.
fn places_with(
    alloc: Global,
    directory: &Text,
    files: List<Text>,
    own: Option<&Text>,
    env_files: Option<List<Text>>,
) -> Result<Places, Memory>
    ensures { IfOk result (λ places.
        places ≡ places_with directory.now files (option_copied own.entry) env_files) }
{
    let directory = match own {
        Some(own) => own.copy(alloc)?,
        None => directory_from(alloc, directory, files.as_slice())?,
    };
    Ok(Places {
        files,
        env_files,
        directory,
    })
}

/// The directory of the first of some paths, or another one.
fn directory_from(alloc: Global, other: &Text, paths: &[Text]) -> Result<Text, Memory>
    ensures { IfOk result
        (λ directory. directory ≡ directory_from other.now paths.now) }
{
    match paths {
        [first, ..] => directory_of(alloc, first),
        [] => other.copy(alloc),
    }
}

/// The first file of a model; where it has none, its directory.
pub(crate) fn first_file(places: &Places) -> &Text
    ensures { result.now ≡ first_or places.now.directory places.now.files }
{
    match places.files.as_slice() {
        [first, ..] => first,
        [] => &places.directory,
    }
}

/// Refuses files of which one is being loaded already.
pub(crate) fn not_begun(alloc: Global, begun: &[Text], files: &[Text]) -> Result<(), LoadRefusal>
    ensures given { IsGiven result (not_begun begun.now files.now) }
    ensures fault { (at : List ℕ) → result ≡ Err (LoadRefusal.ReadFault at) → ⊥ }
{
    match cycle_place(begun, files) {
        None => Ok(()),
        Some(place) => Err(LoadRefusal::IncludeCycle {
            files: from_place(alloc, begun, place)?,
        }),
    }
}

/// The place, among the files that are being loaded, of the first of some files that is there.
fn cycle_place(begun: &[Text], files: &[Text]) -> Option<usize>
    ensures { cycle_of begun.now files.now ≡ option_map (λ at. drop at begun.now) result }
{
    for path in files {
        if let Some(place) = place_of(path, begun) {
            return Some(place);
        }
    }
    None
}

fn place_of(path: &Text, begun: &[Text]) -> Option<usize>
    ensures { result ≡ position (bytes_eq path.now) begun.now }
{
    begun.iter().position(|other| path == other)
}

/// Files from a place on.
fn from_place(alloc: Global, files: &[Text], place: usize) -> Result<List<Text>, Memory>
    ensures { IfOk result (λ rest. rest ≡ drop place files.now) }
{
    let mut rest = List::new(alloc);
    let mut at = place;
    while at < files.len() {
        rest.push(files[at].copy(alloc)?)?;
        at += 1;
    }
    Ok(rest)
}

/// Files that are being loaded, and others behind them.
pub(crate) fn all_begun(alloc: Global, begun: &[Text], files: &[Text]) -> Result<List<Text>, Memory>
    ensures { IfOk result (λ all. all ≡ begun.now ++ files.now) }
{
    let mut all = copy_slice(alloc, begun)?;
    for file in files {
        all.push(file.copy(alloc)?)?;
    }
    Ok(all)
}
