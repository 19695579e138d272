ghost use Rattle.std.specs.Prelude.{◌≡◌, [], IfOk, length, map};
ghost use Rattle.std.specs.List.{zip};
ghost use Rattle.file_paths.specs.Answers.{Gives};
ghost use Rattle.file_paths.specs.Paths.{homed};
ghost use Rattle.file_paths.specs.Resolving.{entries_homed, items_homed, resolved, resolved_by, resolved_service, values_homed};
ghost use Rattle.file_paths.specs.Spots.{rules_of};
ghost use Rattle.tree_base.specs.declared.Tree.{Tree};

use crate::kept::keeps;
use crate::refusal::PathRefusal;
use crate::spot::{PathKind, PathSpot, kind_at, spot_below, spot_of_items};
use crate::text::{mount_homed, text_homed};
use std::alloc::Global;
use tree_base::{Boxed, Env, List, Map, Text, TextMap, Tree};

/// The tree of a model with its paths taken against the model's directory, where the home is the one that its variables
/// name. What holds no path is handed on, and not copied. `NoHome` with the first path, in the tree's order, that has no
/// home, and `Memory`.
pub fn resolved(alloc: Global, directory: &Text, env: &Env, tree: Tree) -> Result<Tree, PathRefusal>
    ensures { Gives result (resolved directory.now env.now tree) }
{
    resolve(tree, PathSpot::Root, directory, env, alloc)
}

/// One service of a file with its paths taken against a directory, and what is refused, as `resolved` does it.
pub fn resolved_service(
    alloc: Global,
    directory: &Text,
    env: &Env,
    service: Tree,
) -> Result<Tree, PathRefusal>
    ensures { Gives result (resolved_service directory.now env.now service) }
{
    resolve(service, PathSpot::Service, directory, env, alloc)
}

/// A tree whose paths are absolute: itself where it has none. No spot stands more than six steps deep, so no tree is
/// asked more often.
#[cycle(resolve)]
fn resolve(
    tree: Tree,
    spot: PathSpot,
    directory: &Text,
    env: &Env,
    alloc: Global,
) -> Result<Tree, PathRefusal>
    ensures { Gives result (resolved_by (homed directory.now env.now) tree (rules_of spot)) }
{
    if keeps(&tree, spot) {
        Ok(tree)
    } else {
        resolve_parts(tree, spot, directory, env, alloc)
    }
}

/// A tree whose paths are absolute, by its parts whose are. A mapping or sequence with no other owner is taken apart,
/// and another one copied first.
#[cycle(resolve)]
fn resolve_parts(
    tree: Tree,
    spot: PathSpot,
    directory: &Text,
    env: &Env,
    alloc: Global,
) -> Result<Tree, PathRefusal>
    ensures { Gives result (resolved_by (homed directory.now env.now) tree (rules_of spot)) }
{
    match tree {
        Tree::Null => Ok(Tree::Null),
        Tree::Scalar(text) => text_homed(kind_at(spot), &text, directory, env, alloc),
        Tree::Map(entries) => resolve_map(entries.take(alloc)?, spot, directory, env, alloc),
        Tree::Seq(items) => resolve_seq(items.take(alloc)?, spot, directory, env, alloc),
        Tree::Reset => Ok(Tree::Reset),
        Tree::Override(inner) => {
            let value = resolve(inner.into_inner(), spot, directory, env, alloc)?;
            Ok(Tree::Override(Boxed::new(alloc, value)?))
        }
    }
}

/// A mapping whose paths are absolute, under its keys.
#[cycle(resolve)]
fn resolve_map(
    entries: Map,
    spot: PathSpot,
    directory: &Text,
    env: &Env,
    alloc: Global,
) -> Result<Tree, PathRefusal>
    ensures { Gives result
        (resolved_by (homed directory.now env.now) (Tree.Map entries) (rules_of spot)) }
{
    let (keys, values) = entries.into_parts();
    let done = resolve_values(values, keys.as_slice(), spot, directory, env, alloc)?;
    let all = TextMap::from_parts(keys, done);
    let whole = entries_homed(kind_at(spot), all, directory, env, alloc)?;
    Ok(Tree::mapping(alloc, whole)?)
}

/// The values of a mapping, each in its place, their paths absolute.
#[cycle(resolve)]
fn resolve_values(
    values: List<Tree>,
    keys: &[Text],
    spot: PathSpot,
    directory: &Text,
    env: &Env,
    alloc: Global,
) -> Result<List<Tree>, PathRefusal>
    requires { length keys.now ≡ length values }
    ensures value { Gives result (values_homed (rules_of spot) []
        (zip keys.now (map (resolved_by (homed directory.now env.now)) values))) }
    ensures len { IfOk result (λ done. length done ≡ length values) }
{
    let mut done = values;
    for at in 0..keys.len() {
        let value = done.replace(at, Tree::Null);
        let below = spot_below(spot, keys[at].as_str());
        let made = resolve(value, below, directory, env, alloc)?;
        drop(done.replace(at, made));
    }
    Ok(done)
}

/// A sequence whose paths are absolute.
#[cycle(resolve)]
fn resolve_seq(
    items: List<Tree>,
    spot: PathSpot,
    directory: &Text,
    env: &Env,
    alloc: Global,
) -> Result<Tree, PathRefusal>
    ensures { Gives result
        (resolved_by (homed directory.now env.now) (Tree.Seq items) (rules_of spot)) }
{
    let all = resolve_items(items, spot_of_items(spot), directory, env, alloc)?;
    Ok(Tree::sequence(alloc, all)?)
}

/// Items at a spot, each in its place, their paths absolute.
#[cycle(resolve)]
fn resolve_items(
    items: List<Tree>,
    spot: PathSpot,
    directory: &Text,
    env: &Env,
    alloc: Global,
) -> Result<List<Tree>, PathRefusal>
    ensures { Gives result (items_homed (rules_of spot) []
        (map (resolved_by (homed directory.now env.now)) items)) }
{
    let mut done = items;
    for at in 0..done.len() {
        let item = done.replace(at, Tree::Null);
        let made = resolve(item, spot, directory, env, alloc)?;
        drop(done.replace(at, made));
    }
    Ok(done)
}

/// A mapping whose values are done: a mount has a path of its own.
fn entries_homed(
    kind: Option<PathKind>,
    entries: Map,
    directory: &Text,
    env: &Env,
    alloc: Global,
) -> Result<Map, PathRefusal>
    ensures { Gives result (entries_homed (homed directory.now env.now) kind entries) }
{
    match kind {
        Some(PathKind::Bind) => mount_homed(entries, directory, env, alloc),
        _ => Ok(entries),
    }
}
