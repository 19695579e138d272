ghost use Rattle.std.specs.Prelude.{◌≡◌, IfOk};
ghost use Rattle.std.specs.Option.{option_copied};
ghost use Rattle.engine_types.specs.Labels.{label};

use std::alloc::Global;
use tree_base::{Copier, List, Memory, Text, TryCopy, Var};

/// Names with their values, in byte order of the distinct names, as of labels.
pub type Pairs = List<Var>;

/// A network as the Engine API's `POST /networks/create` takes it. `external` stands for a network that
/// the project uses and doesn't make.
#[derive(Drop)]
pub struct NetworkSpec {
    pub name: Text,
    pub labels: Pairs,
    pub driver: Option<Text>,
    pub internal: Option<bool>,
    pub attachable: Option<bool>,
    pub enable_ipv6: Option<bool>,
    pub options: Option<Pairs>,
    pub external: bool,
}

impl TryCopy for NetworkSpec {
    fn copy(&self, alloc: Global) -> Result<NetworkSpec, Memory> {
        let mut copier = Copier::new(alloc);
        let copy = NetworkSpec {
            name: copier.text(&self.name),
            labels: copier.list(&self.labels),
            driver: copier.option(&self.driver),
            internal: self.internal,
            attachable: self.attachable,
            enable_ipv6: self.enable_ipv6,
            options: copier.option(&self.options),
            external: self.external,
        };
        copier.whole(copy)
    }
}

/// A volume as the Engine API's `POST /volumes/create` takes it. `external` stands for a volume that the
/// project uses and doesn't make.
#[derive(Drop)]
pub struct VolumeSpec {
    pub name: Text,
    pub labels: Pairs,
    pub driver: Option<Text>,
    pub driver_opts: Option<Pairs>,
    pub external: bool,
}

impl TryCopy for VolumeSpec {
    fn copy(&self, alloc: Global) -> Result<VolumeSpec, Memory> {
        let mut copier = Copier::new(alloc);
        let copy = VolumeSpec {
            name: copier.text(&self.name),
            labels: copier.list(&self.labels),
            driver: copier.option(&self.driver),
            driver_opts: copier.option(&self.driver_opts),
            external: self.external,
        };
        copier.whole(copy)
    }
}

/// The value under a name, the first where there are several; None exactly where the name isn't there.
/// No memory.
pub fn label<'p>(pairs: &'p Pairs, name: &str) -> Option<&'p Text>
    ensures { option_copied result ≡ label pairs.now name.now }
{
    let pair = pairs
        .as_slice()
        .iter()
        .find(|pair| pair.name.as_str() == name)?;
    Some(&pair.value)
}
