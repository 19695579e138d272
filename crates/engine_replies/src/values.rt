ghost use Rattle.std.specs.Prelude.{◌≡◌, ℕ, List, IfOk};
ghost use Rattle.serde_json.specs.Data.{Data, string};
ghost use Rattle.serde_json.specs.View.{view};
ghost use Rattle.engine_bodies.specs.Json.{array_of, integer};

use serde_json::{Value, push};
use std::alloc::Global;
use tree_base::{List, Memory, Text, Var};

/// What a reply says as a value of JSON.
pub(crate) trait ToJson {
    /// The value.
    ghost told: { Self → Data };

    /// The value. Memory where there is no memory for it.
    fn json(&self, alloc: Global) -> Result<Value, Memory>
        ensures { IfOk result (λ value. view value ≡ told self.now) };
}

/// What stands under a key of its own.
pub(crate) trait Keyed: ToJson {
    /// The key.
    ghost name: { Self → List ℕ };

    /// The key. No memory.
    fn key(&self) -> &Text
        ensures { result.now ≡ name self.now };
}

impl ToJson for Text {
    ghost told = { string };

    fn json(&self, alloc: Global) -> Result<Value, Memory> {
        Ok(Value::try_from_str(alloc, self.as_str())?)
    }
}

impl ToJson for i64 {
    ghost told = { integer };

    fn json(&self, _: Global) -> Result<Value, Memory> {
        Ok(Value::from(*self))
    }
}

impl<T: ToJson> ToJson for List<T> {
    ghost told = { array_of T.told };

    fn json(&self, alloc: Global) -> Result<Value, Memory> {
        let mut items = Vec::new(alloc);
        for item in self.as_slice() {
            let value = item.json(alloc)?;
            push(&mut items, value)?;
        }
        Ok(Value::from(items))
    }
}

impl ToJson for Var {
    ghost told = { λ pair. string pair.value };

    fn json(&self, alloc: Global) -> Result<Value, Memory> {
        self.value.json(alloc)
    }
}

impl Keyed for Var {
    ghost name = { λ pair. pair.name };

    fn key(&self) -> &Text {
        &self.name
    }
}
