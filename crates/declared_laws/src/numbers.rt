ghost use Rattle.std.specs.Prelude.{◌<◌, ◌^◌, IfOk};
ghost use Rattle.declared_laws.specs.Laws.{AreNumbered};

use declared_slots::{Scale, scale};
use tree_base::Memory;
use typed_project::Service;

/// That 32 bits number the containers of each service, as in each declared set that was given. Memory where they don't.
pub fn numbered(scales: &[Scale], services: &[Service]) -> Result<(), Memory>
    ensures { IfOk result (λ done. AreNumbered scales.now services.now) }
{
    for service in services {
        let count = scale(scales, service)?;
        is_of_32_bits(count);
    }
    Ok(())
}

/// A number of this type is one of 32 bits.
fn is_of_32_bits(number: u32)
    ensures { number < 2 ^ 32 }
{}
