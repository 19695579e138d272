ghost use Rattle.std.specs.Prelude.{◌≡◌, IfOk};
ghost use Rattle.std.specs.Option.{option_and_then, option_map};
ghost use Rattle.serde_json.specs.Read.{read};
ghost use Rattle.serde_json.specs.View.{view};
ghost use Rattle.engine_bodies.specs.Requests.{body_of, bytes_of, value_of};

use crate::containers::container_json;
use crate::resources::{connect_json, network_json, volume_json};
use engine_types::Request;
use http_request::request_with;
use serde_json::Value;
use std::alloc::Global;
use tree_base::{List, Memory, Text};

/// The body of a request, as JSON without spaces, whose objects have their members in byte order; None for a request
/// without a body.
pub fn body_of(alloc: Global, request: &Request) -> Result<Option<Text>, Memory>
    ensures text { IfOk result (λ body. body ≡ body_of request.now) }
    ensures reads_back { IfOk result (λ body. option_and_then read body ≡ value_of request.now) }
{
    match value_of(alloc, request)? {
        Some(value) => {
            let text = value.to_string(alloc)?;
            Ok(Some(Text::from_string(text)))
        }
        None => Ok(None),
    }
}

/// The bytes of a request with its body: request line, header lines, an empty line, and the body.
pub fn request_bytes(alloc: Global, request: &Request) -> Result<List<u8>, Memory>
    ensures { IfOk result (λ bytes. bytes ≡ bytes_of request.now) }
{
    let body = body_of(alloc, request)?;
    request_with(alloc, request, body.as_ref())
}

/// What the body says as a value of JSON.
fn value_of(alloc: Global, request: &Request) -> Result<Option<Value>, Memory>
    ensures { IfOk result (λ value. option_map view value ≡ value_of request.now) }
{
    match request {
        Request::Create { spec, .. } => Ok(Some(container_json(alloc, spec.get())?)),
        Request::MakeNetwork { spec } => Ok(Some(network_json(alloc, spec)?)),
        Request::Connect {
            container,
            aliases,
            ..
        } => Ok(Some(connect_json(alloc, container, aliases)?)),
        Request::MakeVolume { spec } => Ok(Some(volume_json(alloc, spec)?)),
        _ => Ok(None),
    }
}
