ghost use Rattle.std.specs.Prelude.{◌≡◌, Err, IfOk, [], ◌∷◌};
ghost use Rattle.tree_base.specs.declared.Step.TheVariants.{Index, Key};
ghost use Rattle.attribute_types.specs.Answers.{Gives, stepped};
ghost use Rattle.attribute_types.specs.declared.refusal.AttributeRefusal.TheVariants.{At};
ghost use Rattle.attribute_scalars.specs.Walks.{place};

use attribute_types::{AttributeRefusal, Fault};
use std::alloc::Global;
use tree_base::limits::GREATEST_PLACE;
use tree_base::{List, Memory, Path, Step, Text};

/// The refusal of what stands here. No memory.
pub fn refused(alloc: Global, fault: Fault) -> AttributeRefusal
    ensures { result ≡ At fault [] }
{
    AttributeRefusal::At {
        fault,
        path: List::new(alloc),
    }
}

/// A refusal with a key in front of its path, or for want of memory.
pub fn under_key(alloc: Global, key: &str, refusal: AttributeRefusal) -> AttributeRefusal
    ensures { Gives {X = Unit {0}} (Err result) (Err (stepped (Key key.now) refusal)) }
{
    match Text::from_str(alloc, key) {
        Ok(key) => with_step(refusal, Step::Key(key)),
        Err(Memory) => AttributeRefusal::Memory,
    }
}

/// A refusal with a place in front of its path, or for want of memory.
pub fn under_place(at: usize, refusal: AttributeRefusal) -> AttributeRefusal
    ensures { Gives {X = Unit {0}} (Err result) (Err (stepped (Index (place at)) refusal)) }
{
    with_step(refusal, Step::Index(place(at)))
}

/// A place as a `u32`, where one past the greatest is that.
fn place(at: usize) -> u32
    ensures { result ≡ place at }
{
    at.min(GREATEST_PLACE) as u32
}

/// A refusal with a step in front of its path, or for want of memory.
fn with_step(refusal: AttributeRefusal, step: Step) -> AttributeRefusal
    ensures { Gives {X = Unit {0}} (Err result) (Err (stepped step refusal)) }
{
    match refusal {
        AttributeRefusal::At { fault, path } => match longer(path, step) {
            Ok(path) => AttributeRefusal::At { fault, path },
            Err(Memory) => AttributeRefusal::Memory,
        },
        AttributeRefusal::Memory => AttributeRefusal::Memory,
    }
}

fn longer(path: Path, step: Step) -> Result<Path, Memory>
    ensures { IfOk result (λ longer. longer ≡ step ∷ path) }
{
    let mut steps = path.into_vec();
    steps.insert(0, step)?;
    Ok(List::from_vec(steps))
}
