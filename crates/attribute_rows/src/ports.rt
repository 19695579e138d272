ghost use Rattle.std.specs.Prelude.{◌≡◌, IfOk, ◌++◌, ◌∷◌, [], Ok};
ghost use Rattle.tree_base.specs.declared.Step.TheVariants.{Index};
ghost use Rattle.tree_base.specs.declared.Tree.{out-Tree};
ghost use Rattle.attribute_types.specs.Answers.{Gives, under};
ghost use Rattle.attribute_scalars.specs.Views.{one_behind, onto};
ghost use Rattle.attribute_scalars.specs.Walks.{each_item, place};
ghost use Rattle.attribute_rows.specs.Rows.{in_mapping, listed, port_from, port_of};

use crate::entries::fields_in;
use crate::texts::{text_in, text_or};
use attribute_scalars::{refused, under_place};
use attribute_types::{Attribute, AttributeRefusal, Fault, port_lines, port_named};
use short_forms::Port;
use std::alloc::Global;
use tree_base::{List, Memory, Tree};

const WANTED: [&str; 1] = ["target"];

/// The ports of a sequence, in its order.
pub(crate) fn ports_of(alloc: Global, tree: &Tree) -> Result<List<Port>, AttributeRefusal>
    ensures { Gives result (listed port_of (out-Tree tree.now)) }
{
    match tree {
        Tree::Seq(items) => ports_in(alloc, items.as_slice()),
        _ => Err(refused(alloc, Fault::WrongKind)),
    }
}

/// The ports of items, in their order.
fn ports_in(alloc: Global, items: &[Tree]) -> Result<List<Port>, AttributeRefusal>
    ensures { Gives result
        (each_item (λ item. in_mapping port_of (out-Tree item)) 0 items.now) }
{
    let mut list = List::new(alloc);
    for (at, item) in items.iter().enumerate() {
        put_port(alloc, at, item, &mut list)?;
    }
    Ok(list)
}

/// Puts what an item gives last, or refuses it at its place.
fn put_port(
    alloc: Global,
    at: usize,
    item: &Tree,
    list: &mut List<Port>,
) -> Result<(), AttributeRefusal>
    ensures { Gives (onto list.new result)
        (one_behind list.old (under (Index (place at)) (in_mapping port_of (out-Tree item.now)))) }
{
    match port_of(alloc, item) {
        Ok(one) => Ok(list.push(one)?),
        Err(refusal) => Err(under_place(at, refusal)),
    }
}

fn port_of(alloc: Global, tree: &Tree) -> Result<Port, AttributeRefusal>
    ensures { Gives result (in_mapping port_of (out-Tree tree.now)) }
{
    let attributes = fields_in(alloc, port_lines(), &WANTED, tree)?;
    Ok(port_from(alloc, attributes.as_slice())?)
}

/// A port by its attributes.
fn port_from(alloc: Global, attributes: &[Attribute]) -> Result<Port, Memory>
    ensures { IfOk result (λ port. port ≡ port_from attributes.now) }
{
    Ok(Port {
        protocol: text_or(alloc, attributes, "protocol", "tcp")?,
        host_ip: text_in(alloc, attributes, "host_ip")?,
        published: text_in(alloc, attributes, "published")?,
        target: port_named(attributes, "target").unwrap_or(0),
    })
}
