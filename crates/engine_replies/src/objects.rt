ghost use Rattle.std.specs.Prelude.{◌≡◌, [], ◌∷◌, false, true, IfOk, MatchResult, Some};
ghost use Rattle.serde_json.specs.Data.{no_members, object, string};
ghost use Rattle.serde_json.specs.View.{view};
ghost use Rattle.engine_bodies.specs.Json.{empty_object};
ghost use Rattle.engine_replies.specs.Objects.{Adds, members_of};

use crate::values::ToJson;
use serde_json::{Map, Value, put};
use std::alloc::Global;
use tree_base::Memory;

/// Makes an object of its members, and remembers whether memory was wanting for one of them. So a want of memory
/// has one way out.
#[derive(Drop)]
pub(crate) struct Object {
    pub(crate) alloc: Global,
    pub(crate) members: Map<String, Value>,
    pub(crate) failed: bool,
}

impl Object {
    /// An object without a member. No memory.
    pub(crate) fn new(alloc: Global) -> Object
        ensures { members_of result ≡ no_members }
    {
        Object {
            alloc,
            members: Map::new(alloc),
            failed: false,
        }
    }

    /// Adds a member.
    #[tactic(auto, unfolding(engine_bodies::specs::Json::with_member))]
    fn add(&mut self, name: &str, value: Value)
        ensures { Adds self.old self.new ((name.now, Some (view value)) ∷ []) }
    {
        if put(&mut self.members, self.alloc, name, value).is_err() {
            self.failed = true;
        }
    }

    /// Adds a member that was made, where there was memory for it.
    pub(crate) fn made(&mut self, name: &str, value: Result<Value, Memory>)
        ensures { MatchResult value
            (λ value. Adds self.old self.new ((name.now, Some (view value)) ∷ []))
            (λ _. self.new.failed ≡ true) }
    {
        match value {
            Ok(value) => self.add(name, value),
            Err(Memory) => self.failed = true,
        }
    }

    /// Adds a text as a member.
    pub(crate) fn text(&mut self, name: &str, text: &str)
        ensures { Adds self.old self.new ((name.now, Some (string text.now)) ∷ []) }
    {
        match Value::try_from_str(self.alloc, text) {
            Ok(value) => self.add(name, value),
            Err(_) => self.failed = true,
        }
    }

    /// Adds an object without a member as a member.
    pub(crate) fn empty(&mut self, name: &str)
        ensures { Adds self.old self.new ((name.now, Some empty_object) ∷ []) }
    {
        self.add(name, Value::from(Map::new(self.alloc)))
    }

    /// Adds what there is as a member.
    pub(crate) fn value<T: ToJson>(&mut self, name: &str, value: &T)
        ensures { Adds self.old self.new ((name.now, Some (T.told value.now)) ∷ []) }
    {
        match value.json(self.alloc) {
            Ok(value) => self.add(name, value),
            Err(Memory) => self.failed = true,
        }
    }

    /// The object. Memory where memory was wanting for one of its members.
    pub(crate) fn end(self) -> Result<Value, Memory>
        ensures { IfOk result (λ value.
            (self.failed ≡ false) × (view value ≡ object (members_of self))) }
    {
        let Object {
            alloc: _,
            members,
            failed,
        } = self;
        if failed {
            return Err(Memory);
        }
        Ok(Value::from(members))
    }
}
