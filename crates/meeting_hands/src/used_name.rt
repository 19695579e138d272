ghost use Rattle.std.specs.Prelude.{◌≡◌};

use engine_types::{ContainerSpec, Request};
use memory_engine::MemoryEngine;
use std::alloc::Global;
use tree_base::{Boxed, Memory, Text};

/// Makes a container with this name on an Engine in memory, which is of no project, so that a further create with the name is refused.
/// It isn't started. What the Engine answers isn't looked at.
pub fn use_name(alloc: Global, engine: &mut MemoryEngine, name: &str) -> Result<(), Memory>
    ensures faults { engine.new.faults ≡ engine.old.faults }
    ensures made { engine.new.made ≡ engine.old.made }
{
    let image = Text::from_str(alloc, "x")?;
    drop(engine.serve(alloc, &Request::Pull { name: image })?);
    let mut spec = ContainerSpec::empty(alloc);
    spec.image = Some(Text::from_str(alloc, "x")?);
    let name = Text::from_str(alloc, name)?;
    let spec = Boxed::new(alloc, spec)?;
    drop(engine.serve(alloc, &Request::Create { name, spec })?);
    Ok(())
}
