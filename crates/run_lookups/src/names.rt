ghost use Rattle.std.specs.Prelude.{◌≡◌};
ghost use Rattle.run_model.specs.Plans.{network_name};

use engine_types::{Attach, Declared};

/// The name of the network that an attach joins; empty where it names none of those declared. No memory.
pub fn network_name<'a>(declared: &'a Declared, attach: &Attach) -> &'a str
    ensures { result.now ≡ network_name declared.now attach.now }
{
    match declared.networks.get(attach.network as usize) {
        Some(network) => network.name.as_str(),
        None => "",
    }
}
