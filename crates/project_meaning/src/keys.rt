ghost use Rattle.std.specs.Prelude.{◌≡◌, ◌++◌, ◌∷◌, [], IfOk, OnOk, map};
ghost use Rattle.loaded_files.specs.declared.refusal.Kind.{Kind};
ghost use Rattle.project_meaning.specs.Completing.{default_key};
ghost use Rattle.project_meaning.specs.Names.{AreInOrder, declared, keys_as, sorted};

use crate::names::in_order;
use loaded_files::Kind;
use std::alloc::Global;
use tree_base::{Memory, Text};
use typed_project::{FileItem, Network, Project, Service, Volume};

/// The key of the network that a service is on which says nothing of networks.
pub(crate) const DEFAULT_KEY: &str = "default";

/// The keys of what a project declares of each kind, in byte order.
#[derive(Drop)]
pub(crate) struct Keys {
    pub networks: Vec<Text>,
    pub volumes: Vec<Text>,
    pub services: Vec<Text>,
    pub secrets: Vec<Text>,
    pub configs: Vec<Text>,
}

impl Keys {
    /// The keys of a kind.
    pub(crate) fn of(&self, kind: Kind) -> &[Text]
        ensures { result.now ≡ keys_as kind self.now }
    {
        match kind {
            Kind::Network => self.networks.as_slice(),
            Kind::Volume => self.volumes.as_slice(),
            Kind::Service => self.services.as_slice(),
            Kind::Secret => self.secrets.as_slice(),
            Kind::Config => self.configs.as_slice(),
        }
    }
}

/// The keys of what a project declares.
pub(crate) fn keys_of(alloc: Global, project: &Project) -> Result<Keys, Memory>
    ensures value { IfOk result (λ keys. (kind : Kind)
        → keys_as kind keys ≡ sorted (declared kind project.now)) }
    ensures order { IfOk result (λ keys. (kind : Kind) → AreInOrder (keys_as kind keys)) }
{
    let networks = network_keys(alloc, project.networks.as_slice())?;
    let volumes = volume_keys(alloc, project.volumes.as_slice())?;
    let services = service_keys(alloc, project.services.as_slice())?;
    let secrets = file_keys(alloc, project.secrets.as_slice())?;
    let configs = file_keys(alloc, project.configs.as_slice())?;
    Ok(Keys {
        networks,
        volumes,
        services,
        secrets,
        configs,
    })
}

/// The keys of services, in byte order.
pub(crate) fn service_keys(alloc: Global, services: &[Service]) -> Result<Vec<Text>, Memory>
    ensures value { IfOk result (λ keys. keys.items
        ≡ sorted (map (λ service. service.key) services.now)) }
    ensures order { IfOk result (λ keys. AreInOrder keys.items) }
{
    let mut keys = Vec::new(alloc);
    put_service_keys(alloc, services, &mut keys)?;
    in_order(keys)
}

fn put_service_keys(alloc: Global, services: &[Service], keys: &mut Vec<Text>) -> Result<(), Memory>
    ensures { OnOk result (keys.new.items
        ≡ keys.old.items ++ map (λ service. service.key) services.now) }
{
    for service in services {
        put_key(alloc, &service.key, keys)?;
    }
    Ok(())
}

/// The keys of networks, and that of the default network, which is always there, in byte order.
fn network_keys(alloc: Global, networks: &[Network]) -> Result<Vec<Text>, Memory>
    ensures value { IfOk result (λ keys. keys.items
        ≡ sorted (default_key ∷ map (λ network. network.key) networks.now)) }
    ensures order { IfOk result (λ keys. AreInOrder keys.items) }
{
    let mut keys = Vec::new(alloc);
    keys.push(Text::from_str(alloc, DEFAULT_KEY)?)?;
    put_network_keys(alloc, networks, &mut keys)?;
    in_order(keys)
}

fn put_network_keys(alloc: Global, networks: &[Network], keys: &mut Vec<Text>) -> Result<(), Memory>
    ensures { OnOk result (keys.new.items
        ≡ keys.old.items ++ map (λ network. network.key) networks.now) }
{
    for network in networks {
        put_key(alloc, &network.key, keys)?;
    }
    Ok(())
}

/// The keys of volumes, in byte order.
fn volume_keys(alloc: Global, volumes: &[Volume]) -> Result<Vec<Text>, Memory>
    ensures value { IfOk result (λ keys. keys.items
        ≡ sorted (map (λ volume. volume.key) volumes.now)) }
    ensures order { IfOk result (λ keys. AreInOrder keys.items) }
{
    let mut keys = Vec::new(alloc);
    put_volume_keys(alloc, volumes, &mut keys)?;
    in_order(keys)
}

fn put_volume_keys(alloc: Global, volumes: &[Volume], keys: &mut Vec<Text>) -> Result<(), Memory>
    ensures { OnOk result (keys.new.items
        ≡ keys.old.items ++ map (λ volume. volume.key) volumes.now) }
{
    for volume in volumes {
        put_key(alloc, &volume.key, keys)?;
    }
    Ok(())
}

/// The keys of secrets or configs, in byte order.
fn file_keys(alloc: Global, files: &[FileItem]) -> Result<Vec<Text>, Memory>
    ensures value { IfOk result (λ keys. keys.items
        ≡ sorted (map (λ file. file.key) files.now)) }
    ensures order { IfOk result (λ keys. AreInOrder keys.items) }
{
    let mut keys = Vec::new(alloc);
    put_file_keys(alloc, files, &mut keys)?;
    in_order(keys)
}

fn put_file_keys(alloc: Global, files: &[FileItem], keys: &mut Vec<Text>) -> Result<(), Memory>
    ensures { OnOk result (keys.new.items
        ≡ keys.old.items ++ map (λ file. file.key) files.now) }
{
    for file in files {
        put_key(alloc, &file.key, keys)?;
    }
    Ok(())
}

/// Puts a copy of a key last.
pub(crate) fn put_key(alloc: Global, key: &Text, keys: &mut Vec<Text>) -> Result<(), Memory>
    ensures { OnOk result (keys.new.items ≡ keys.old.items ++ key.now ∷ []) }
{
    keys.push(key.copy(alloc)?)?;
    Ok(())
}
