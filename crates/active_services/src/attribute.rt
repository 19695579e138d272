ghost use Rattle.std.specs.Prelude.{◌≡◌, []};
ghost use Rattle.std.specs.Option.{option_copied, option_map_or};
ghost use Rattle.active_services.specs.Profiles.{attribute_at, entries_in, needs_of};
ghost use Rattle.tree_base.specs.declared.Tree.{out-Tree};

use tree_base::{Map, Tree};

/// What stands at an attribute, of a mapping alone. No memory.
pub(crate) fn attribute_at<'a>(tree: &'a Tree, name: &str) -> Option<&'a Tree>
    ensures { option_copied result ≡ attribute_at name.now (out-Tree tree.now) }
{
    match tree {
        Tree::Map(attributes) => attributes.get().find(name),
        _ => None,
    }
}

/// The dependencies of a service; None where it has no mapping of them. No memory.
pub(crate) fn needs_of(service: &Tree) -> Option<&Map>
    ensures { needs_of service.now ≡ option_map_or (λ needs. needs) (option_copied result) [] }
{
    match attribute_at(service, "depends_on") {
        Some(Tree::Map(needs)) => Some(needs.get()),
        _ => None,
    }
}
