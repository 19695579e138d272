ghost use Rattle.std.specs.Prelude.{◌≡◌, IfOk, option_map};
ghost use Rattle.serde_json.specs.Read.{read};
ghost use Rattle.response_rules.specs.Json.{json_of};
ghost use Rattle.serde_json.specs.View.{view};

use serde_json::Value;
use std::alloc::Global;
use tree_base::Memory;

/// The JSON that bytes are (RFC 8259), which nests at most 127 deep; None where they are none.
pub fn json_of(alloc: Global, bytes: &[u8]) -> Result<Option<Value>, Memory>
    ensures { IfOk result (λ found. option_map view found ≡ json_of bytes.now) }
{
    match str::from_utf8(bytes) {
        Ok(text) => json_in(alloc, text),
        Err(_) => Ok(None),
    }
}

/// The JSON that a text is; None where it is none.
fn json_in(alloc: Global, text: &str) -> Result<Option<Value>, Memory>
    ensures { IfOk result (λ found. option_map view found ≡ read text.now) }
{
    match Value::from_str(alloc, text) {
        Ok(value) => Ok(Some(value)),
        Err(error) if error.is_memory() => Err(Memory),
        Err(_) => Ok(None),
    }
}
