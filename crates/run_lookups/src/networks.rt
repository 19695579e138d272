ghost use Rattle.std.specs.Prelude.{◌≡◌};
ghost use Rattle.std.specs.List.{list_any};
ghost use Rattle.std.specs.Str.{bytes_eq};
ghost use Rattle.run_model.specs.Plans.{network_name};

use crate::names::network_name;
use engine_types::{Attach, Declared, Listed};

/// Whether a container that was seen is on the network that an attach joins. No memory.
pub fn has_joined(declared: &Declared, attach: &Attach, row: &Listed) -> bool
    ensures { result ≡
        list_any (bytes_eq (network_name declared.now attach.now)) row.now.networks }
{
    let name = network_name(declared, attach);
    row.networks
        .as_slice()
        .iter()
        .any(|network| name == network.as_str())
}
