ghost use Rattle.std.specs.Prelude.{◌≡◌, IfOk, codes};
ghost use Rattle.std.specs.Option.{option_copied, option_map};
ghost use Rattle.active_services.specs.Answers.{Gives, IsMeant};
ghost use Rattle.active_services.specs.declared.refusal.ActiveRefusal.{ActiveRefusal};
ghost use Rattle.active_services.specs.Profiles.{active, active_by, first_refusal, is_enabled, services_kept, unless_refused, with_services};
ghost use Rattle.tree_base.specs.Entries.{value_at};
ghost use Rattle.tree_base.specs.declared.Tree.{out-Tree};

use crate::kept::{put_mapping, services_kept};
use crate::refusal::ActiveRefusal;
use crate::unmet::{least_refused, unmet_need};
use std::alloc::Global;
use tree_base::{List, Map, Memory, Text, Tree, TryCopy};

/// A model's tree with the services alone that profiles enable, without their optional dependencies on others; all
/// else of it stays, and a tree without services stays whole. The refusals: `DependencyDisabled` with the first service,
/// in byte order, that is enabled and requires one that is there and isn't, and the first such dependency of it;
/// `Memory` where memory was wanted.
pub fn keep_active(alloc: Global, tree: Tree, profiles: &List<Text>) -> Result<Tree, ActiveRefusal>
    ensures { Gives result (active profiles.now tree) }
{
    let kept = active_tree(alloc, profiles.as_slice(), &tree);
    drop(tree);
    kept
}

fn active_tree(alloc: Global, profiles: &[Text], tree: &Tree) -> Result<Tree, ActiveRefusal>
    ensures { Gives result (active profiles.now tree.now) }
{
    match tree {
        Tree::Map(model) => active_by(alloc, profiles, tree, model.get()),
        _ => as_it_is(alloc, tree),
    }
}

/// The tree of a model that is a mapping.
fn active_by(
    alloc: Global,
    profiles: &[Text],
    tree: &Tree,
    model: &Map,
) -> Result<Tree, ActiveRefusal>
    ensures { Gives result (active_by (is_enabled profiles.now) tree.now model.now
        (option_map out-Tree (value_at model.now (codes "services")))) }
{
    match model.find("services") {
        Some(Tree::Map(services)) => active_among(alloc, profiles, model, services.get()),
        _ => as_it_is(alloc, tree),
    }
}

fn as_it_is(alloc: Global, tree: &Tree) -> Result<Tree, ActiveRefusal>
    ensures { Gives result (Ok tree.now) }
{
    match tree.copy(alloc) {
        Ok(tree) => Ok(tree),
        Err(Memory) => Err(ActiveRefusal::Memory),
    }
}

/// The tree of a model that has services.
fn active_among(
    alloc: Global,
    profiles: &[Text],
    model: &Map,
    services: &Map,
) -> Result<Tree, ActiveRefusal>
    ensures { Gives result (unless_refused (first_refusal (is_enabled profiles.now) services.now)
        (with_services model.now (services_kept (is_enabled profiles.now) services.now))) }
{
    match refused_pair(profiles, services) {
        Some((service, dependency)) => Err(disabled(alloc, service, dependency)),
        None => match with_kept(alloc, profiles, model, services) {
            Ok(tree) => Ok(tree),
            Err(Memory) => Err(ActiveRefusal::Memory),
        },
    }
}

/// The names of the first service that is refused, and of its first dependency that can't be met.
fn refused_pair<'a>(profiles: &[Text], services: &'a Map) -> Option<(&'a Text, &'a Text)>
    ensures { option_map (λ pair. ActiveRefusal.DependencyDisabled pair.0.now pair.1.now) result
        ≡ first_refusal (is_enabled profiles.now) services.now }
{
    let (name, service) = least_refused(profiles, services)?;
    let (dependency, _) = unmet_need(profiles, services, service)?;
    Some((name, dependency))
}

/// The refusal of a service for a dependency, or for want of memory.
fn disabled(alloc: Global, service: &Text, dependency: &Text) -> ActiveRefusal
    ensures { IsMeant result
        (ActiveRefusal.DependencyDisabled service.now dependency.now) }
{
    match names_copied(alloc, service, dependency) {
        Ok((service, dependency)) => ActiveRefusal::DependencyDisabled {
            service,
            dependency,
        },
        Err(Memory) => ActiveRefusal::Memory,
    }
}

fn names_copied(alloc: Global, one: &Text, other: &Text) -> Result<(Text, Text), Memory>
    ensures { IfOk result (λ names. names ≡ (one.now, other.now)) }
{
    Ok((one.copy(alloc)?, other.copy(alloc)?))
}

/// The tree of a model with its active services in place of its own.
fn with_kept(alloc: Global, profiles: &[Text], model: &Map, services: &Map) -> Result<Tree, Memory>
    ensures { IfOk result (λ tree. tree
        ≡ with_services model.now (services_kept (is_enabled profiles.now) services.now)) }
{
    let kept = services_kept(alloc, profiles, services)?;
    let mut entries = model.copy(alloc)?;
    put_mapping(alloc, &mut entries, "services", kept)?;
    Tree::mapping(alloc, entries)
}
