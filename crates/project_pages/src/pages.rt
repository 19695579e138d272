ghost use Rattle.std.specs.Prelude.{◌≡◌, ◌++◌, IfOk, OnOk, codes};
ghost use Rattle.typed_project.specs.Projects.{IsOrdered};
ghost use Rattle.project_print.specs.Pages.{entry, shown};
ghost use Rattle.project_print.specs.Written.{hanging};
ghost use Rattle.project_print.specs.declared.node.Node.{Node};
ghost use Rattle.project_pages.specs.AttributePages.{page, page_json, project_node, service_json};
ghost use Rattle.typed_project.specs.DistinctNames.{HasDistinctNames, HaveDistinctNames};

use crate::attributes::hashed_entries;
use crate::entries::{put_mapping, put_text};
use crate::lines::{put_mapping_entry, put_node_entry, put_section_lines};
use crate::sections::put_section;
use crate::to_node::mapping;
use project_print::{Dollars, Node, json_text, node_page_json};
use std::alloc::Global;
use tree_base::{Memory, Text, TextMap};
use typed_project::{Project, Service};

/// What the page shows of a project: its name, its services, and the other sections that aren't
/// empty, keys in byte order (the Compose Specification's top-level elements). Memory where there
/// is no memory for it.
pub fn project_node(alloc: Global, project: &Project) -> Result<Node, Memory>
    requires order { IsOrdered project.now }
    requires names { HasDistinctNames project.now }
    ensures { IfOk result (λ node. node ≡ project_node project.now) }
{
    let mut entries = TextMap::new(alloc);
    put_section(alloc, &mut entries, "configs", project.configs.as_slice())?;
    put_text(alloc, &mut entries, "name", project.name.as_str())?;
    put_section(alloc, &mut entries, "networks", project.networks.as_slice())?;
    put_section(alloc, &mut entries, "secrets", project.secrets.as_slice())?;
    let services = mapping(alloc, project.services.as_slice())?;
    put_mapping(alloc, &mut entries, "services", services)?;
    put_section(alloc, &mut entries, "volumes", project.volumes.as_slice())?;
    Ok(Node::Map(entries))
}

/// The page of a project as YAML. Memory where there is no memory for it.
pub fn page(alloc: Global, project: &Project) -> Result<Text, Memory>
    requires order { IsOrdered project.now }
    requires names { HasDistinctNames project.now }
    ensures { IfOk result (λ text. text ≡ page project.now) }
{
    let mut out = Text::new(alloc);
    put_section_lines(alloc, "configs", project.configs.as_slice(), &mut out)?;
    put_name(alloc, &project.name, &mut out)?;
    put_section_lines(alloc, "networks", project.networks.as_slice(), &mut out)?;
    put_section_lines(alloc, "secrets", project.secrets.as_slice(), &mut out)?;
    put_mapping_entry(alloc, 0, "services", project.services.as_slice(), &mut out)?;
    put_section_lines(alloc, "volumes", project.volumes.as_slice(), &mut out)?;
    Ok(out)
}

/// Puts the line of a project's name last.
fn put_name(alloc: Global, name: &Text, out: &mut Text) -> Result<(), Memory>
    ensures { OnOk result (out.new ≡
        out.old ++ hanging 0 (entry (codes "name", shown (Node.Text name.now)))) }
{
    let node = Node::Text(name.copy(alloc)?);
    put_node_entry(alloc, 0, "name", &node, out)
}

/// The page of a project as JSON without spaces, with a line end. Memory where there is no memory
/// for it.
pub fn page_json(alloc: Global, project: &Project) -> Result<Text, Memory>
    requires order { IsOrdered project.now }
    requires names { HasDistinctNames project.now }
    ensures { IfOk result (λ text. text ≡ page_json project.now) }
{
    let node = project_node(alloc, project)?;
    node_page_json(alloc, &node)
}

/// What is hashed of a service: its attributes that may change a container, as JSON with their
/// dollars once. Memory where there is no memory for it.
pub fn service_json(alloc: Global, service: &Service) -> Result<Text, Memory>
    requires names { HaveDistinctNames service.now.attributes }
    ensures { IfOk result (λ text. text ≡ service_json service.now) }
{
    let entries = hashed_entries(alloc, service.attributes.as_slice())?;
    let node = Node::Map(entries);
    json_text(alloc, &node, Dollars::Once)
}
