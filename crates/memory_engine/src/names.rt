ghost use Rattle.std.specs.Prelude.{◌≡◌, ℕ, List, true, false, IfOk, IfSome, OnOk, OnErr, is_some, not};
ghost use Rattle.tree_base.specs.Entries.{value_at, with_entry};
ghost use Rattle.memory_engine.specs.Naming.{may_be_taken, name_given};

use engine_types::Request;
use std::alloc::Global;
use tree_base::{Memory, Text, TextMap};

/// The names that containers were given since the Engine held none. A name that isn't among them is free, which is
/// known without a look at the containers.
#[derive(Drop)]
pub struct Names {
    /// None where the Engine held containers from its beginning, whose names aren't known here.
    given: Option<TextMap<()>>,
}

impl Names {
    /// Of an Engine without containers. No memory.
    pub fn none(alloc: Global) -> Names {
        Names {
            given: Some(TextMap::new(alloc)),
        }
    }

    /// Of an Engine that holds containers from its beginning. No memory.
    pub fn unknown() -> Names
        ensures { (name : List ℕ) → may_be_taken result name ≡ true }
    {
        Names { given: None }
    }

    /// Notes the name that a request gives to a container, and answers whether that is known to be a new one.
    pub fn note(&mut self, alloc: Global, request: &Request) -> Result<bool, Memory>
        ensures new { IfOk result (λ is_new. is_new ≡ true
            → IfSome (name_given request.now) (λ name. may_be_taken self.old name ≡ false)) }
        ensures noted { OnOk result
            (IfSome (name_given request.now) (λ name. may_be_taken self.new name ≡ true)) }
        ensures kept { (name : List ℕ)
            → may_be_taken self.old name ≡ true → may_be_taken self.new name ≡ true }
    {
        match request {
            Request::Create { name, .. } => self.note_name(alloc, name),
            _ => Ok(false),
        }
    }

    fn note_name(&mut self, alloc: Global, name: &Text) -> Result<bool, Memory>
        ensures new { IfOk result (λ is_new. is_new ≡ true
            → may_be_taken self.old name.now ≡ false) }
        ensures noted { OnOk result (may_be_taken self.new name.now ≡ true) }
        ensures kept { (other : List ℕ)
            → may_be_taken self.old other ≡ true → may_be_taken self.new other ≡ true }
    {
        match &mut self.given {
            Some(given) => is_new(alloc, given, name),
            None => Ok(false),
        }
    }
}

/// Whether a name is a new one, which is known from then on.
fn is_new(alloc: Global, given: &mut TextMap<()>, name: &Text) -> Result<bool, Memory>
    ensures new { IfOk result (λ is_new. is_some (value_at given.old name.now) ≡ not is_new) }
    ensures ok { OnOk result (given.new ≡ with_entry given.old name.now tt) }
    ensures err { OnErr result (given.new ≡ given.old) }
{
    let key = name.copy(alloc)?;
    let before = given.put(key, ())?;
    Ok(before.is_none())
}
