ghost use Rattle.std.specs.Prelude.{◌≡◌, if◌then◌else◌, IfOk, OnOk, codes};
ghost use Rattle.std.specs.Option.{option_copied, option_map};
ghost use Rattle.active_services.specs.Profiles.{attributes_kept, is_disabled, is_enabled, needs_kept, service_kept, services_kept};
ghost use Rattle.tree_base.specs.Entries.{value_at, with_entry};
ghost use Rattle.tree_base.specs.declared.Tree.{Tree, out-Tree};

use crate::enabled::is_enabled;
use crate::unmet::is_disabled;
use std::alloc::Global;
use tree_base::{Map, Memory, Text, Tree, TryCopy};

/// The enabled services in their order, each with the dependencies that it keeps.
pub(crate) fn services_kept(alloc: Global, profiles: &[Text], services: &Map) -> Result<Map, Memory>
    ensures { IfOk result (λ kept. kept ≡ services_kept (is_enabled profiles.now) services.now) }
{
    let mut kept = Map::new(alloc);
    for at in 0..services.len() {
        if let Some((name, service)) = services.pair(at) {
            keep_service(alloc, profiles, services, name, service, &mut kept)?;
        }
    }
    Ok(kept)
}

/// Puts a service behind those that are kept, where it is enabled.
fn keep_service(
    alloc: Global,
    profiles: &[Text],
    services: &Map,
    name: &Text,
    service: &Tree,
    kept: &mut Map,
) -> Result<(), Memory>
    ensures { OnOk result (kept.new ≡ (if is_enabled profiles.now service.now
        then with_entry kept.old name.now
        (service_kept (is_enabled profiles.now) services.now service.now (out-Tree service.now))
        else kept.old)) }
{
    if !is_enabled(profiles, service) {
        return Ok(());
    }
    let service = service_kept(alloc, profiles, services, service)?;
    put(kept, name.copy(alloc)?, service)
}

/// A service with the dependencies that it keeps.
fn service_kept(
    alloc: Global,
    profiles: &[Text],
    services: &Map,
    service: &Tree,
) -> Result<Tree, Memory>
    ensures { IfOk result (λ kept. kept
        ≡ service_kept (is_enabled profiles.now) services.now service.now (out-Tree service.now)) }
{
    match service {
        Tree::Map(attributes) => {
            mapping_kept(alloc, profiles, services, service, attributes.get())
        }
        _ => service.copy(alloc),
    }
}

/// A service that has these attributes. Without a mapping of dependencies it is shared as it is.
fn mapping_kept(
    alloc: Global,
    profiles: &[Text],
    services: &Map,
    service: &Tree,
    attributes: &Map,
) -> Result<Tree, Memory>
    requires { service.now ≡ Tree.Map attributes.now }
    ensures { IfOk result (λ kept. kept
        ≡ Tree.Map (attributes_kept (is_enabled profiles.now) services.now attributes.now
        (option_map out-Tree (value_at attributes.now (codes "depends_on"))))) }
{
    match attributes.find("depends_on") {
        Some(Tree::Map(needs)) => {
            with_needs_kept(alloc, profiles, services, attributes, needs.get())
        }
        _ => service.copy(alloc),
    }
}

/// The mapping of attributes, with those of these dependencies that are kept.
fn with_needs_kept(
    alloc: Global,
    profiles: &[Text],
    services: &Map,
    attributes: &Map,
    needs: &Map,
) -> Result<Tree, Memory>
    ensures { IfOk result (λ kept. kept ≡ Tree.Map (with_entry attributes.now (codes "depends_on")
        (Tree.Map (needs_kept (is_enabled profiles.now) services.now needs.now)))) }
{
    let needs = needs_kept(alloc, profiles, services, needs)?;
    let mut kept = attributes.copy(alloc)?;
    put_mapping(alloc, &mut kept, "depends_on", needs)?;
    Tree::mapping(alloc, kept)
}

/// The dependencies on services that are enabled or aren't there.
fn needs_kept(alloc: Global, profiles: &[Text], services: &Map, needs: &Map) -> Result<Map, Memory>
    ensures { IfOk result (λ kept. kept ≡ needs_kept
        (is_enabled profiles.now) services.now needs.now) }
{
    let mut kept = Map::new(alloc);
    for at in 0..needs.len() {
        if let Some((name, need)) = needs.pair(at) {
            keep_need(alloc, profiles, services, name, need, &mut kept)?;
        }
    }
    Ok(kept)
}

/// Puts a dependency behind those that are kept, unless its service is there and isn't enabled.
fn keep_need(
    alloc: Global,
    profiles: &[Text],
    services: &Map,
    name: &Text,
    need: &Tree,
    kept: &mut Map,
) -> Result<(), Memory>
    ensures { OnOk result (kept.new ≡ (if is_disabled
        (is_enabled profiles.now) services.now name.now
        then kept.old else with_entry kept.old name.now need.now)) }
{
    if is_disabled(profiles, services, name) {
        return Ok(());
    }
    let need = need.copy(alloc)?;
    put(kept, name.copy(alloc)?, need)
}

/// Puts a mapping under a key.
pub(crate) fn put_mapping(
    alloc: Global,
    entries: &mut Map,
    key: &str,
    mapping: Map,
) -> Result<(), Memory>
    ensures { OnOk result
        (entries.new ≡ with_entry entries.old key.now (Tree.Map mapping)) }
{
    let tree = Tree::mapping(alloc, mapping)?;
    put(entries, Text::from_str(alloc, key)?, tree)
}

/// Puts a tree under a key.
fn put(entries: &mut Map, key: Text, tree: Tree) -> Result<(), Memory>
    ensures { OnOk result (entries.new ≡ with_entry entries.old key tree) }
{
    entries.put(key, tree)?;
    Ok(())
}
