ghost use Rattle.std.specs.Prelude.{◌≡◌, ◌≤◌, IfOk, length, not};
ghost use Rattle.std.specs.List.{position, position_or_len};
ghost use Rattle.tree_base.specs.ByteOrder.{is_before, placed};

use attribute_types::Attribute;
use tree_base::{List, Memory, Text};
use typed_project::Network;

/// Attributes with one more at its place in byte order of the names.
pub(crate) fn with_attribute(
    attributes: List<Attribute>,
    attribute: Attribute,
) -> Result<List<Attribute>, Memory>
    ensures { IfOk result (λ all. all ≡ placed (λ attribute. attribute.name) attribute attributes) }
{
    let at = place_of_name(attributes.as_slice(), &attribute.name);
    let mut items = attributes.into_vec();
    items.insert(at, attribute)?;
    Ok(List::from_vec(items))
}

/// How many attributes stand before a name, up to the first that doesn't.
fn place_of_name(attributes: &[Attribute], name: &Text) -> usize
    ensures value { result
        ≡ position_or_len (λ other. not (is_before other.name name.now)) attributes.now }
    ensures within { result ≤ length attributes.now }
{
    match first_behind_name(attributes, name) {
        Some(at) => at,
        None => attributes.len(),
    }
}

fn first_behind_name(attributes: &[Attribute], name: &Text) -> Option<usize>
    ensures { result ≡ position (λ other. not (is_before other.name name.now)) attributes.now }
{
    attributes
        .iter()
        .position(|other| !is_before(&other.name, name))
}

/// Networks with one more at its place in byte order of the keys.
pub(crate) fn with_network(
    networks: List<Network>,
    network: Network,
) -> Result<List<Network>, Memory>
    ensures { IfOk result (λ all. all ≡ placed (λ network. network.key) network networks) }
{
    let at = place_of_key(networks.as_slice(), &network.key);
    let mut items = networks.into_vec();
    items.insert(at, network)?;
    Ok(List::from_vec(items))
}

/// How many networks stand before a key, up to the first that doesn't.
fn place_of_key(networks: &[Network], key: &Text) -> usize
    ensures value { result
        ≡ position_or_len (λ other. not (is_before other.key key.now)) networks.now }
    ensures within { result ≤ length networks.now }
{
    match first_behind_key(networks, key) {
        Some(at) => at,
        None => networks.len(),
    }
}

fn first_behind_key(networks: &[Network], key: &Text) -> Option<usize>
    ensures { result ≡ position (λ other. not (is_before other.key key.now)) networks.now }
{
    networks
        .iter()
        .position(|other| !is_before(&other.key, key))
}

/// Whether a text stands before another in byte order. No memory.
fn is_before(one: &Text, other: &Text) -> bool
    ensures { result ≡ is_before one.now other.now }
{
    one.cmp(other).is_lt()
}
