ghost use Rattle.std.specs.Prelude.{◌≡◌, IfOk, OnOk, filter, map};
ghost use Rattle.std.specs.List.{list_any};
ghost use Rattle.std.specs.Str.{bytes_eq};
ghost use Rattle.attribute_scalars.specs.Walks.{is_in};
ghost use Rattle.project_meaning.specs.Completing.{default_key, default_network, used_by, with_default_network};
ghost use Rattle.project_meaning.specs.Names.{AreInOrder};

use crate::attributes::name_in;
use crate::keys::DEFAULT_KEY;
use crate::names::{all_named, is_in};
use crate::places::with_network;
use attribute_types::{Attribute, Value};
use attribute_values::named;
use loaded_files::Kind;
use std::alloc::Global;
use std::mem;
use tree_base::{List, Memory, Text};
use typed_project::{FileItem, Network, Project, Volume};

/// Leaves out what no service uses, and puts the default network in, where it is used and not declared.
pub(crate) fn keep_used(alloc: Global, project: &mut Project) -> Result<(), Memory>
    ensures { OnOk result (project.new ≡ used_by project.old project.old.services) }
{
    let used = all_named(alloc, Kind::Network, project.services.as_slice())?;
    let networks = mem::replace(&mut project.networks, List::new(alloc));
    project.networks = used_networks(alloc, &project.name, used.as_slice(), networks)?;
    let used = all_named(alloc, Kind::Volume, project.services.as_slice())?;
    let volumes = mem::replace(&mut project.volumes, List::new(alloc));
    project.volumes = used_volumes(used.as_slice(), volumes);
    let used = all_named(alloc, Kind::Secret, project.services.as_slice())?;
    let secrets = mem::replace(&mut project.secrets, List::new(alloc));
    project.secrets = used_files(used.as_slice(), secrets);
    let used = all_named(alloc, Kind::Config, project.services.as_slice())?;
    let configs = mem::replace(&mut project.configs, List::new(alloc));
    project.configs = used_files(used.as_slice(), configs);
    Ok(())
}

/// The networks that are used, where these names are, with the default one.
fn used_networks(
    alloc: Global,
    project: &Text,
    used: &[Text],
    networks: List<Network>,
) -> Result<List<Network>, Memory>
    requires { AreInOrder used.now }
    ensures { IfOk result (λ kept. kept ≡ filter (λ network. is_in used.now network.key)
        (with_default_network project.now (is_in used.now default_key) networks)) }
{
    let networks = with_default_network(alloc, project, used, networks)?;
    let mut items = networks.into_vec();
    items.retain(|network| is_in(used, &network.key));
    Ok(List::from_vec(items))
}

/// Networks with the default one, where it is used and not declared.
fn with_default_network(
    alloc: Global,
    project: &Text,
    used: &[Text],
    networks: List<Network>,
) -> Result<List<Network>, Memory>
    requires { AreInOrder used.now }
    ensures { IfOk result (λ all.
        all ≡ with_default_network project.now (is_in used.now default_key) networks) }
{
    if uses_default(alloc, used)? && !is_declared(networks.as_slice()) {
        let network = default_network(alloc, project)?;
        return with_network(networks, network);
    }
    Ok(networks)
}

/// Whether the default network is among names that are used.
fn uses_default(alloc: Global, used: &[Text]) -> Result<bool, Memory>
    requires { AreInOrder used.now }
    ensures { IfOk result (λ is. is ≡ is_in used.now default_key) }
{
    let name = Text::from_str(alloc, DEFAULT_KEY)?;
    Ok(is_in(used, &name))
}

/// Whether the default network is declared. No memory.
fn is_declared(networks: &[Network]) -> bool
    ensures { result ≡ is_in (map (λ network. network.key) networks.now) default_key }
{
    has_default(networks)
}

fn has_default(networks: &[Network]) -> bool
    ensures { result ≡ list_any (λ network. bytes_eq default_key network.key) networks.now }
{
    networks
        .iter()
        .any(|network| DEFAULT_KEY == network.key.as_str())
}

/// The default network of a project, of which nothing more is said.
fn default_network(alloc: Global, project: &Text) -> Result<Network, Memory>
    ensures { IfOk result (λ network. network ≡ default_network project.now) }
{
    let attributes = default_attributes(alloc, project)?;
    Ok(Network {
        key: Text::from_str(alloc, DEFAULT_KEY)?,
        attributes,
    })
}

fn default_attributes(alloc: Global, project: &Text) -> Result<List<Attribute>, Memory>
    ensures { IfOk result (λ attributes. attributes ≡ (default_network project.now).attributes) }
{
    let name = name_in(alloc, project, DEFAULT_KEY)?;
    let mut attributes = List::new(alloc);
    attributes.push(named(alloc, "name", Value::Text(name))?)?;
    Ok(attributes)
}

/// The volumes that are used, where these names are. No memory.
fn used_volumes(used: &[Text], volumes: List<Volume>) -> List<Volume>
    requires { AreInOrder used.now }
    ensures { result ≡ filter (λ volume. is_in used.now volume.key) volumes }
{
    let mut items = volumes.into_vec();
    items.retain(|volume| is_in(used, &volume.key));
    List::from_vec(items)
}

/// The secrets or configs that are used, where these names are. No memory.
fn used_files(used: &[Text], files: List<FileItem>) -> List<FileItem>
    requires { AreInOrder used.now }
    ensures { result ≡ filter (λ file. is_in used.now file.key) files }
{
    let mut items = files.into_vec();
    items.retain(|file| is_in(used, &file.key));
    List::from_vec(items)
}
