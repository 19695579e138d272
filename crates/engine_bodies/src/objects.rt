ghost use Rattle.std.specs.Prelude.{◌≡◌, [], ◌∷◌, false, true, IfOk, MatchResult, Some};
ghost use Rattle.std.specs.Option.{option_map};
ghost use Rattle.serde_json.specs.Data.{no_members, object};
ghost use Rattle.serde_json.specs.View.{view};
ghost use Rattle.engine_bodies.specs.Json.{empty_object, if_any};
ghost use Rattle.engine_bodies.specs.Objects.{Adds, members_of};

use crate::values::ToJson;
use serde_json::{Map, Value, put};
use std::alloc::Global;
use tree_base::Memory;

/// Makes an object of its members, and remembers whether memory was wanting for one of them. So a want of memory
/// has one way out.
#[derive(Drop)]
pub(crate) struct Object {
    pub(crate) alloc: Global,
    pub(crate) members: Map<String, Value>,
    pub(crate) failed: bool,
}

impl Object {
    /// An object without a member. No memory.
    pub(crate) fn new(alloc: Global) -> Object
        ensures { members_of result ≡ no_members }
    {
        Object {
            alloc,
            members: Map::new(alloc),
            failed: false,
        }
    }

    /// Adds a member.
    #[tactic(auto, unfolding(crate::specs::Json::with_member))]
    fn add(&mut self, name: &str, value: Value)
        ensures { Adds self.old self.new ((name.now, Some (view value)) ∷ []) }
    {
        if put(&mut self.members, self.alloc, name, value).is_err() {
            self.failed = true;
        }
    }

    /// Adds a member that was made, where there was memory for it.
    pub(crate) fn made(&mut self, name: &str, value: Result<Value, Memory>)
        ensures { MatchResult value
            (λ value. Adds self.old self.new ((name.now, Some (view value)) ∷ []))
            (λ _. self.new.failed ≡ true) }
    {
        match value {
            Ok(value) => self.add(name, value),
            Err(Memory) => self.failed = true,
        }
    }

    /// Adds a member that was made, where there was memory for it and there is one.
    #[tactic(auto, unfolding(crate::specs::Json::with_member))]
    pub(crate) fn made_if(&mut self, name: &str, value: Result<Option<Value>, Memory>)
        ensures { MatchResult value
            (λ value. Adds self.old self.new ((name.now, option_map view value) ∷ []))
            (λ _. self.new.failed ≡ true) }
    {
        match value {
            Ok(Some(value)) => self.add(name, value),
            Ok(None) => (),
            Err(Memory) => self.failed = true,
        }
    }

    /// Adds an object without a member as a member.
    pub(crate) fn empty(&mut self, name: &str)
        ensures { Adds self.old self.new ((name.now, Some empty_object) ∷ []) }
    {
        self.add(name, Value::from(Map::new(self.alloc)))
    }

    /// Adds what there is as a member.
    pub(crate) fn value<T: ToJson>(&mut self, name: &str, value: &T)
        ensures { Adds self.old self.new ((name.now, Some (T.told value.now)) ∷ []) }
    {
        match value.json(self.alloc) {
            Ok(value) => self.add(name, value),
            Err(Memory) => self.failed = true,
        }
    }

    /// Adds what there may be as a member.
    #[tactic(auto, unfolding(crate::specs::Json::with_member))]
    pub(crate) fn option<T: ToJson>(&mut self, name: &str, value: &Option<T>)
        ensures { Adds self.old self.new ((name.now, option_map T.told value.now) ∷ []) }
    {
        match value {
            Some(value) => self.value(name, value),
            None => (),
        }
    }

    /// The object. Memory where memory was wanting for one of its members.
    pub(crate) fn end(self) -> Result<Value, Memory>
        ensures { IfOk result (λ value.
            (self.failed ≡ false) × (view value ≡ object (members_of self))) }
    {
        let Object {
            alloc: _,
            members,
            failed,
        } = self;
        if failed {
            return Err(Memory);
        }
        Ok(Value::from(members))
    }

    /// The object, where it has a member. Memory where memory was wanting for one of its members.
    pub(crate) fn end_if_any(self) -> Result<Option<Value>, Memory>
        ensures { IfOk result (λ value.
            (self.failed ≡ false) × (option_map view value ≡ if_any (members_of self))) }
    {
        let is_empty = self.members.is_empty();
        let value = self.end()?;
        if is_empty {
            return Ok(None);
        }
        Ok(Some(value))
    }
}
