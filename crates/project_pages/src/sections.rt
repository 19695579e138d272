ghost use Rattle.std.specs.Prelude.{◌≡◌, IfOk, OnOk, map};
ghost use Rattle.std.specs.List.{All, IsDistinct};
ghost use Rattle.std.specs.Option.{option_map};
ghost use Rattle.std.specs.Str.{bytes_eq};
ghost use Rattle.project_print.specs.declared.node.Node.{Node};
ghost use Rattle.project_pages.specs.AttributePages.{attributes_node};
ghost use Rattle.typed_project.specs.DistinctNames.{HaveDistinctNames};
ghost use Rattle.project_pages.specs.Puts.{any_of, file_node, with_found};

use crate::entries::{put_mapping, put_text};
use crate::lines::{Entry, put_mapping_entry, put_node_entry};
use crate::to_node::{Keyed, ToNode, mapping};
use attribute_types::Attribute;
use project_print::Node;
use std::alloc::Global;
use tree_base::{Memory, Text, TextMap};
use typed_project::{FileItem, Network, Service, Volume};

impl ToNode for Service {
    ghost shown = { λ service. attributes_node service.attributes };

    ghost is_fit = { λ service. HaveDistinctNames service.attributes };

    fn node(&self, alloc: Global) -> Result<Node, Memory> {
        attributes_node(alloc, self.attributes.as_slice())
    }
}

impl Keyed for Service {
    ghost name = { λ service. service.key };

    fn key(&self) -> &Text {
        &self.key
    }
}

impl Entry for Service {
    fn put_entry(&self, alloc: Global, depth: u32, out: &mut Text) -> Result<(), Memory> {
        put_mapping_entry(
            alloc,
            depth,
            self.key.as_str(),
            self.attributes.as_slice(),
            out,
        )
    }
}

impl ToNode for Network {
    ghost shown = { λ network. attributes_node network.attributes };

    ghost is_fit = { λ network. HaveDistinctNames network.attributes };

    fn node(&self, alloc: Global) -> Result<Node, Memory> {
        attributes_node(alloc, self.attributes.as_slice())
    }
}

impl Keyed for Network {
    ghost name = { λ network. network.key };

    fn key(&self) -> &Text {
        &self.key
    }
}

impl Entry for Network {
    fn put_entry(&self, alloc: Global, depth: u32, out: &mut Text) -> Result<(), Memory> {
        put_mapping_entry(
            alloc,
            depth,
            self.key.as_str(),
            self.attributes.as_slice(),
            out,
        )
    }
}

impl ToNode for Volume {
    ghost shown = { λ volume. attributes_node volume.attributes };

    ghost is_fit = { λ volume. HaveDistinctNames volume.attributes };

    fn node(&self, alloc: Global) -> Result<Node, Memory> {
        attributes_node(alloc, self.attributes.as_slice())
    }
}

impl Keyed for Volume {
    ghost name = { λ volume. volume.key };

    fn key(&self) -> &Text {
        &self.key
    }
}

impl Entry for Volume {
    fn put_entry(&self, alloc: Global, depth: u32, out: &mut Text) -> Result<(), Memory> {
        put_mapping_entry(
            alloc,
            depth,
            self.key.as_str(),
            self.attributes.as_slice(),
            out,
        )
    }
}

impl ToNode for FileItem {
    ghost shown = { file_node };

    ghost is_fit = { λ item. Unit {0} };

    #[tactic(auto, unfolding(crate::specs::Puts::with_found))]
    fn node(&self, alloc: Global) -> Result<Node, Memory> {
        let mut entries = TextMap::new(alloc);
        put_text(alloc, &mut entries, "file", self.file.as_str())?;
        Ok(Node::Map(entries))
    }
}

impl Keyed for FileItem {
    ghost name = { λ item. item.key };

    fn key(&self) -> &Text {
        &self.key
    }
}

impl Entry for FileItem {
    fn put_entry(&self, alloc: Global, depth: u32, out: &mut Text) -> Result<(), Memory> {
        let node = self.node(alloc)?;
        put_node_entry(alloc, depth, self.key.as_str(), &node, out)
    }
}

/// What is shown of attributes, each under its name.
fn attributes_node(alloc: Global, attributes: &[Attribute]) -> Result<Node, Memory>
    requires { HaveDistinctNames attributes.now }
    ensures { IfOk result (λ node. node ≡ attributes_node attributes.now) }
{
    Ok(Node::Map(mapping(alloc, attributes)?))
}

/// Puts what a section declares under its name, where it declares something.
#[tactic(auto, unfolding(crate::specs::Puts::with_found))]
pub(crate) fn put_section<T: Keyed>(
    alloc: Global,
    entries: &mut TextMap<Node>,
    name: &str,
    items: &[T],
) -> Result<(), Memory>
    requires keys { IsDistinct bytes_eq (map T.name items.now) }
    requires fit { All T.is_fit items.now }
    ensures { OnOk result (entries.new ≡ with_found entries.old name.now
        (option_map (λ items. Node.Map (map (λ item. (T.name item, T.shown item)) items))
        (any_of items.now))) }
{
    if items.is_empty() {
        return Ok(());
    }
    let declared = mapping(alloc, items)?;
    put_mapping(alloc, entries, name, declared)
}
