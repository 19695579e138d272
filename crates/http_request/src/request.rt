ghost use Rattle.std.specs.Prelude.{◌≡◌, ◌++◌, IfOk, OnOk, codes};
ghost use Rattle.std.specs.Option.{option_copied};
ghost use Rattle.std.specs.String.{string_bytes};
ghost use Rattle.http_request.specs.Requests.{body_bytes, method_name, request_with, target_of};

use crate::escaping::push_path;
use crate::fields::push_fields;
use crate::method::{Method, method_of};
use crate::paths::path_of;
use crate::queries::push_query;
use engine_types::Request;
use std::alloc::Global;
use tree_base::{List, Memory, Text};

/// The bytes of a request with the body that goes with it: request line, header lines, an empty line, and the body.
pub fn request_with(
    alloc: Global,
    request: &Request,
    body: Option<&Text>,
) -> Result<List<u8>, Memory>
    ensures { IfOk result (λ bytes.
        bytes ≡ request_with request.now (option_copied body.entry)) }
{
    let mut text = String::new(alloc);
    let method = method_of(request);
    push_line(alloc, &mut text, method, request)?;
    push_fields(alloc, &mut text, method, body)?;
    text.push_str("\r\n")?;
    push_body(&mut text, body)?;
    Ok(List::from_vec(text.into_bytes()))
}

/// Puts the request line last (RFC 9112, section 3).
fn push_line(
    alloc: Global,
    to: &mut String,
    method: Method,
    request: &Request,
) -> Result<(), Memory>
    ensures { OnOk result (string_bytes to.new ≡ string_bytes to.old
        ++ (method_name method ++ codes " " ++ target_of request.now ++ codes " HTTP/1.1\r\n")) }
{
    to.push_str(method.name())?;
    to.push_str(" ")?;
    push_target(alloc, to, request)?;
    to.push_str(" HTTP/1.1\r\n")?;
    Ok(())
}

/// Puts version, path and query last.
#[tactic(auto, unfolding(crate::specs::Requests::target_of))]
fn push_target(alloc: Global, to: &mut String, request: &Request) -> Result<(), Memory>
    ensures { OnOk result (string_bytes to.new ≡ string_bytes to.old ++ target_of request.now) }
{
    let path = path_of(alloc, request)?;
    to.push_str("/v1.43")?;
    push_path(to, path.as_str().as_bytes())?;
    push_query(alloc, to, request)
}

fn push_body(to: &mut String, body: Option<&Text>) -> Result<(), Memory>
    ensures { OnOk result (string_bytes to.new ≡
        string_bytes to.old ++ body_bytes (option_copied body.entry)) }
{
    match body {
        Some(body) => {
            to.push_str(body.as_str())?;
            Ok(())
        }
        None => Ok(()),
    }
}
