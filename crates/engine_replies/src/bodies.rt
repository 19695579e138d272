ghost use Rattle.std.specs.Prelude.{◌≡◌, IfOk};
ghost use Rattle.std.specs.Option.{option_map};
ghost use Rattle.serde_json.specs.View.{view};
ghost use Rattle.serde_json.specs.Written.{compact_text};
ghost use Rattle.engine_replies.specs.Values.{value_of};

use crate::rows::{text_under, value_under, volumes_json};
use crate::values::ToJson;
use engine_types::Reply;
use serde_json::Value;
use std::alloc::Global;
use tree_base::{Memory, Text};

/// The JSON of a reply without spaces, whose objects have their members in byte order; None for one that says none.
pub(crate) fn text_of(alloc: Global, reply: &Reply) -> Result<Option<Text>, Memory>
    ensures { IfOk result (λ text. text ≡ option_map compact_text (value_of reply.now)) }
{
    match value_of(alloc, reply)? {
        Some(value) => {
            let text = value.to_string(alloc)?;
            Ok(Some(Text::from_string(text)))
        }
        None => Ok(None),
    }
}

/// What a reply says as a value of JSON.
fn value_of(alloc: Global, reply: &Reply) -> Result<Option<Value>, Memory>
    ensures { IfOk result (λ value. option_map view value ≡ value_of reply.now) }
{
    match reply {
        Reply::Containers(rows) => Ok(Some(rows.json(alloc)?)),
        Reply::State(report) => Ok(Some(value_under(alloc, "State", report)?)),
        Reply::Made(id) => Ok(Some(text_under(alloc, "Id", id.as_str())?)),
        Reply::Networks(rows) => Ok(Some(rows.json(alloc)?)),
        Reply::Volumes(names) => Ok(Some(volumes_json(alloc, names)?)),
        Reply::ImageId(id) => Ok(Some(text_under(alloc, "Id", id.as_str())?)),
        Reply::PullFailed(message) => Ok(Some(text_under(alloc, "error", message.as_str())?)),
        Reply::Refused { message, .. } => {
            Ok(Some(text_under(alloc, "message", message.as_str())?))
        }
        _ => Ok(None),
    }
}
