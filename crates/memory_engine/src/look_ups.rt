ghost use Rattle.std.specs.Prelude.{◌≡◌, find};
ghost use Rattle.std.specs.List.{list_any};
ghost use Rattle.std.specs.Option.{option_copied};
ghost use Rattle.std.specs.Str.{bytes_eq};
ghost use Rattle.run_model.specs.EngineRules.{container_at, has_container_named, has_network_named, has_volume, is_on, network_at};
ghost use Rattle.memory_engine.specs.Keeping.{HasOwnIds};

use crate::rows;
use engine_types::{ContainerRow, Engine, ImageRow, NetRow};
use tree_base::Text;

/// The container with an id.
pub fn container<'e>(engine: &'e Engine, id: &Text) -> Option<&'e ContainerRow>
    requires { HasOwnIds engine.now.containers }
    ensures { option_copied result ≡ container_at engine.now id.now }
{
    let at = rows::place_of_id(engine.containers.as_slice(), id)?;
    engine.containers.get(at)
}

/// The network with an id.
pub fn network<'e>(engine: &'e Engine, id: &Text) -> Option<&'e NetRow>
    ensures { option_copied result ≡ network_at engine.now id.now }
{
    engine.networks.as_slice().iter().find(|row| row.id == *id)
}

/// The first network with a name.
pub fn network_named<'e>(engine: &'e Engine, name: &Text) -> Option<&'e NetRow>
    ensures { option_copied result ≡ find (λ row. bytes_eq name.now row.name) engine.now.networks }
{
    engine
        .networks
        .as_slice()
        .iter()
        .find(|row| *name == row.name)
}

/// The image with a name.
pub fn image<'e>(engine: &'e Engine, name: &Text) -> Option<&'e ImageRow>
    ensures { option_copied result ≡ find (λ row. bytes_eq row.name name.now) engine.now.images }
{
    engine
        .images
        .as_slice()
        .iter()
        .find(|row| row.name == *name)
}

/// Whether a container has a name.
pub fn is_container_named(engine: &Engine, name: &Text) -> bool
    ensures { result ≡ has_container_named engine.now name.now }
{
    engine
        .containers
        .as_slice()
        .iter()
        .any(|row| *name == row.name)
}

/// Whether a network has a name.
pub fn is_network_named(engine: &Engine, name: &Text) -> bool
    ensures { result ≡ has_network_named engine.now name.now }
{
    network_named(engine, name).is_some()
}

/// Whether a volume is there.
pub fn is_volume(engine: &Engine, name: &Text) -> bool
    ensures { result ≡ has_volume engine.now name.now }
{
    is_among(engine.volumes.as_slice(), name)
}

/// Whether a container is on a network.
pub fn is_attached(row: &ContainerRow, id: &Text) -> bool
    ensures { result ≡ is_on id.now row.now }
{
    is_among(row.networks.as_slice(), id)
}

/// Whether a text is one of these.
pub fn is_among(texts: &[Text], text: &Text) -> bool
    ensures { result ≡ list_any (bytes_eq text.now) texts.now }
{
    texts.iter().any(|other| *text == *other)
}
