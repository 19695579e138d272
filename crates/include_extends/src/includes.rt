ghost use Rattle.std.specs.Prelude.{◌≡◌, ◌≤◌, ℕ, Err, List};
ghost use Rattle.include_extends.specs.Includes.{items_included, model, own_model, places_included, with_includes};
ghost use Rattle.loaded_files.specs.Reads.{Gives, WentAs};
ghost use Rattle.loaded_files.specs.declared.refusal.LoadRefusal.{LoadRefusal};
ghost use Rattle.outside_files.specs.Counts.{Rose};

use crate::include_item::{
    all_begun, first_file, include_items, item_places, not_begun, without_include,
};
use crate::model::{Model, merged_model};
use crate::request::Places;
use crate::sections::added_to;
use crate::services::with_services;
use loaded_files::{LoadRefusal, Seen};
use outside_files::Files;
use std::alloc::Global;
use tree_base::{Env, Text, Tree};

/// The model at these places with what it includes, over so many levels of models in models at most. `begun` are the
/// files that are being loaded; the first one of the model may have been looked at before.
#[cycle(model)]
pub(crate) fn model<F: Files>(
    alloc: Global,
    files: &mut F,
    levels: u32,
    places: &Places,
    caller: &Env,
    begun: &[Text],
    found: Option<Seen>,
    left: u32,
) -> Result<Model, LoadRefusal>
    ensures given { Gives (F.told files.old) result
        (model levels places.now caller.now begun.now found left) }
    ensures fault { (at : List ℕ) → result ≡ Err (LoadRefusal.ReadFault at)
        → Rose (F.faults files.old) (F.faults files.new) }
    ensures reads { WentAs (F.reads files.old) (F.reads files.new) result }
    ensures counted { F.faults files.old ≤ F.faults files.new }
    ensures kept { F.told files.new ≡ F.told files.old }
{
    if levels == 0 {
        drop(found);
        return Err(LoadRefusal::TooManyFiles {
            path: first_file(places).copy(alloc)?,
        });
    }
    let own = own_model(alloc, files, places, caller, found, left)?;
    with_includes(alloc, files, levels - 1, &places.directory, begun, own)
}

/// The model at these places without what it includes.
fn own_model<F: Files>(
    alloc: Global,
    files: &mut F,
    places: &Places,
    caller: &Env,
    found: Option<Seen>,
    left: u32,
) -> Result<Model, LoadRefusal>
    ensures given { Gives (F.told files.old) result
        (own_model places.now caller.now found left) }
    ensures fault { (at : List ℕ) → result ≡ Err (LoadRefusal.ReadFault at)
        → Rose (F.faults files.old) (F.faults files.new) }
    ensures reads { WentAs (F.reads files.old) (F.reads files.new) result }
    ensures counted { F.faults files.old ≤ F.faults files.new }
    ensures kept { F.told files.new ≡ F.told files.old }
{
    let own = merged_model(
        alloc,
        files,
        places.files.as_slice(),
        &places.directory,
        &places.env_files,
        caller,
        found,
        left,
    )?;
    with_services(alloc, files, first_file(places), own)
}

/// A model with what it includes.
#[cycle(model)]
fn with_includes<F: Files>(
    alloc: Global,
    files: &mut F,
    levels: u32,
    directory: &Text,
    begun: &[Text],
    own: Model,
) -> Result<Model, LoadRefusal>
    ensures given { Gives (F.told files.old) result
        (with_includes (model levels) directory.now begun.now own) }
    ensures fault { (at : List ℕ) → result ≡ Err (LoadRefusal.ReadFault at)
        → Rose (F.faults files.old) (F.faults files.new) }
    ensures reads { WentAs (F.reads files.old) (F.reads files.new) result }
    ensures counted { F.faults files.old ≤ F.faults files.new }
    ensures kept { F.told files.new ≡ F.told files.old }
{
    let Model { tree, env, left } = own;
    let items = include_items(alloc, &tree)?;
    let rest = without_include(alloc, tree)?;
    let (tree, left) = items_included(
        alloc,
        files,
        levels,
        directory,
        &env,
        begun,
        items.as_slice(),
        rest,
        left,
    )?;
    Ok(Model { tree, env, left })
}

/// A tree with what the items of `include` name, and how many files may still be read.
#[cycle(model)]
fn items_included<F: Files>(
    alloc: Global,
    files: &mut F,
    levels: u32,
    directory: &Text,
    env: &Env,
    begun: &[Text],
    items: &[Tree],
    tree: Tree,
    left: u32,
) -> Result<(Tree, u32), LoadRefusal>
    ensures given { Gives (F.told files.old) result
        (items_included (model levels) directory.now env.now begun.now items.now tree left) }
    ensures fault { (at : List ℕ) → result ≡ Err (LoadRefusal.ReadFault at)
        → Rose (F.faults files.old) (F.faults files.new) }
    ensures reads { WentAs (F.reads files.old) (F.reads files.new) result }
    ensures counted { F.faults files.old ≤ F.faults files.new }
    ensures kept { F.told files.new ≡ F.told files.old }
{
    let mut tree = tree;
    let mut left = left;
    for item in items {
        let places = item_places(alloc, directory, item)?;
        let (all, rest) = places_included(alloc, files, levels, env, begun, &places, tree, left)?;
        tree = all;
        left = rest;
    }
    Ok((tree, left))
}

/// A tree with what is declared at the places of an included model, and how many files may still be read.
#[cycle(model)]
fn places_included<F: Files>(
    alloc: Global,
    files: &mut F,
    levels: u32,
    env: &Env,
    begun: &[Text],
    places: &Places,
    tree: Tree,
    left: u32,
) -> Result<(Tree, u32), LoadRefusal>
    ensures given { Gives (F.told files.old) result
        (places_included (model levels) env.now begun.now places.now tree left) }
    ensures fault { (at : List ℕ) → result ≡ Err (LoadRefusal.ReadFault at)
        → Rose (F.faults files.old) (F.faults files.new) }
    ensures reads { WentAs (F.reads files.old) (F.reads files.new) result }
    ensures counted { F.faults files.old ≤ F.faults files.new }
    ensures kept { F.told files.new ≡ F.told files.old }
{
    not_begun(alloc, begun, places.files.as_slice())?;
    let all = all_begun(alloc, begun, places.files.as_slice())?;
    let own = model(
        alloc,
        files,
        levels,
        places,
        env,
        all.as_slice(),
        None,
        left,
    )?;
    let Model {
        tree: theirs,
        left,
        ..
    } = own;
    Ok((added_to(alloc, first_file(places), &theirs, tree)?, left))
}
