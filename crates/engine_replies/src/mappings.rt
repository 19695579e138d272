ghost use Rattle.std.specs.Prelude.{◌≡◌, [], ◌∷◌, IfOk, Some, map};
ghost use Rattle.serde_json.specs.View.{view};
ghost use Rattle.engine_bodies.specs.Json.{empty_object, mapping_of, set_of};
ghost use Rattle.engine_replies.specs.Objects.{Adds};

use crate::objects::Object;
use crate::values::Keyed;
use serde_json::Value;
use std::alloc::Global;
use tree_base::{List, Memory, Text};

impl Object {
    /// Adds each of some items under its key.
    fn items<T: Keyed>(&mut self, items: &List<T>)
        ensures { Adds self.old self.new
            (map (λ item. (T.name item, Some (T.told item))) items.now) }
    {
        for item in items.as_slice() {
            self.value(item.key().as_str(), item);
        }
    }

    /// Adds an object without a member under each of some names.
    fn names(&mut self, names: &List<Text>)
        ensures { Adds self.old self.new (map (λ name. (name, Some empty_object)) names.now) }
    {
        for name in names.as_slice() {
            self.empty(name.as_str());
        }
    }

    /// Adds a mapping as a member.
    pub(crate) fn mapping<T: Keyed>(&mut self, name: &str, items: &List<T>)
        ensures { Adds self.old self.new
            ((name.now, Some (mapping_of T.name T.told items.now)) ∷ []) }
    {
        let value = mapping_json(self.alloc, items);
        self.made(name, value);
    }

    /// Adds a set of names as a member.
    pub(crate) fn set(&mut self, name: &str, names: &List<Text>)
        ensures { Adds self.old self.new ((name.now, Some (set_of names.now)) ∷ []) }
    {
        let value = set_json(self.alloc, names);
        self.made(name, value);
    }
}

/// Items under their keys as a value of JSON.
fn mapping_json<T: Keyed>(alloc: Global, items: &List<T>) -> Result<Value, Memory>
    ensures { IfOk result (λ value. view value ≡ mapping_of T.name T.told items.now) }
{
    let mut object = Object::new(alloc);
    object.items(items);
    object.end()
}

/// A set of names as a value of JSON.
fn set_json(alloc: Global, names: &List<Text>) -> Result<Value, Memory>
    ensures { IfOk result (λ value. view value ≡ set_of names.now) }
{
    let mut object = Object::new(alloc);
    object.names(names);
    object.end()
}
