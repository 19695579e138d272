ghost use Rattle.std.specs.Prelude.{◌≡◌, ◌++◌, IfOk, OnOk, codes, decimal, option_map};
ghost use Rattle.std.specs.Option.{option_copied};
ghost use Rattle.std.specs.String.{string_bytes};
ghost use Rattle.serde_json.specs.Written.{compact_text};
ghost use Rattle.engine_json.specs.Told.{good_status};
ghost use Rattle.http_request.specs.Requests.{body_bytes};
ghost use Rattle.engine_replies.specs.Replies.{CanBeWritten, body_lines, bytes_of, reason_of, response_with, status_of};
ghost use Rattle.engine_replies.specs.Values.{value_of};

use crate::bodies::text_of;
use crate::words::reason_of;
use engine_types::{Reply, Request};
use std::alloc::Global;
use tree_base::{List, Memory};

/// The bytes of a reply to a request, or of a refusal where no request could be read: status line, header lines, an empty line,
/// and the body. The reply is one that the request may have, or a refusal with the status 400, 403, 404 or 409.
pub fn reply_bytes(
    alloc: Global,
    request: Option<&Request>,
    reply: &Reply,
) -> Result<List<u8>, Memory>
    requires { CanBeWritten (option_copied request) reply.now }
    ensures { IfOk result (λ bytes. bytes ≡ bytes_of (option_copied request.entry) reply.now) }
{
    let status = status_of(request, reply);
    match reply {
        Reply::Bytes(bytes) => response_with(alloc, status, Some(bytes.as_slice())),
        _ => text_response(alloc, status, reply),
    }
}

/// The bytes of a response whose body, where it has one, is the JSON of a reply.
fn text_response(alloc: Global, status: u16, reply: &Reply) -> Result<List<u8>, Memory>
    ensures { IfOk result (λ bytes.
        bytes ≡ response_with status (option_map compact_text (value_of reply.now))) }
{
    match text_of(alloc, reply)? {
        Some(text) => response_with(alloc, status, Some(text.as_str().as_bytes())),
        None => response_with(alloc, status, None),
    }
}

/// The status of a reply.
fn status_of(request: Option<&Request>, reply: &Reply) -> u16
    requires { CanBeWritten (option_copied request) reply.now }
    ensures { result ≡ status_of (option_copied request.entry) reply.now }
{
    match reply {
        Reply::Refused { status, .. } => *status,
        Reply::Already => 304,
        _ => match request {
            Some(request) => good_status(request),
            None => 200,
        },
    }
}

/// The status at which a request was done.
fn good_status(request: &Request) -> u16
    ensures { result ≡ good_status request.now }
{
    match request {
        Request::Create { .. } | Request::MakeNetwork { .. } | Request::MakeVolume { .. } => 201,
        Request::Start { .. }
        | Request::Stop { .. }
        | Request::Remove { .. }
        | Request::RemoveNetwork { .. }
        | Request::RemoveVolume { .. } => 204,
        _ => 200,
    }
}

/// The bytes of a response of this status and this body.
fn response_with(alloc: Global, status: u16, body: Option<&[u8]>) -> Result<List<u8>, Memory>
    ensures { IfOk result (λ bytes.
        bytes ≡ response_with status (option_map (λ b. b.now) body.entry)) }
{
    let mut head = String::new(alloc);
    push_status(alloc, &mut head, status)?;
    push_reason(&mut head, status)?;
    push_fields(alloc, &mut head, body)?;
    head.push_str("\r\n")?;
    let mut bytes = List::from_vec(head.into_bytes());
    put_body(&mut bytes, body)?;
    Ok(bytes)
}

/// Puts the version and the status last (RFC 9112, section 4).
fn push_status(alloc: Global, to: &mut String, status: u16) -> Result<(), Memory>
    ensures { OnOk result (string_bytes to.new ≡ string_bytes to.old
        ++ (codes "HTTP/1.1 " ++ decimal status ++ codes " ")) }
{
    let code = format!(in alloc; "{status}")?;
    to.push_str("HTTP/1.1 ")?;
    to.push_str(code.as_str())?;
    to.push_str(" ")?;
    Ok(())
}

/// Puts the reason phrase last, and the header line that every response has (RFC 9112, section 9.6).
fn push_reason(to: &mut String, status: u16) -> Result<(), Memory>
    ensures { OnOk result (string_bytes to.new ≡ string_bytes to.old
        ++ (reason_of status ++ codes "\r\nConnection: close\r\n")) }
{
    to.push_str(reason_of(status))?;
    to.push_str("\r\nConnection: close\r\n")?;
    Ok(())
}

/// Puts the header lines of the body last.
fn push_fields(alloc: Global, to: &mut String, body: Option<&[u8]>) -> Result<(), Memory>
    ensures { OnOk result (string_bytes to.new ≡ string_bytes to.old
        ++ body_lines (option_map (λ b. b.now) body.entry)) }
{
    match body {
        Some(body) => {
            to.push_str("Content-Type: application/json\r\n")?;
            push_length(alloc, to, body.len())
        }
        None => Ok(()),
    }
}

/// Puts the length of a body last (RFC 9110, section 8.6).
fn push_length(alloc: Global, to: &mut String, length: usize) -> Result<(), Memory>
    ensures { OnOk result (string_bytes to.new ≡ string_bytes to.old
        ++ (codes "Content-Length: " ++ decimal length ++ codes "\r\n")) }
{
    let length = format!(in alloc; "{length}")?;
    to.push_str("Content-Length: ")?;
    to.push_str(length.as_str())?;
    to.push_str("\r\n")?;
    Ok(())
}

/// Puts a body last.
fn put_body(to: &mut List<u8>, body: Option<&[u8]>) -> Result<(), Memory>
    ensures { OnOk result (to.new ≡ to.old ++ body_bytes (option_map (λ b. b.now) body.entry)) }
{
    match body {
        Some(body) => to.extend_from_slice(body),
        None => Ok(()),
    }
}
