ghost use Rattle.engine_json.specs.Answers.{IsReadAs};
ghost use Rattle.engine_json.specs.Told.{good_status, may_be_done, told_by};
ghost use Rattle.response_rules.specs.Replies.{message_in, reply_of, report_in, volume_names};
ghost use Rattle.std.specs.Prelude.{◌≡◌, IfOk, codes, option_map};
ghost use Rattle.response_rules.specs.Json.{given, json_of, text_at};
ghost use Rattle.response_rules.specs.Values.{has_many_values};
ghost use Rattle.engine_types.specs.declared.Reply.{Reply};
ghost use Rattle.serde_json.specs.Find.{get};
ghost use Rattle.std.specs.Option.{option_copied};
ghost use Rattle.serde_json.specs.View.{view};

use crate::fields::text_at;
use crate::parsing::json_of;
use crate::pulls::pull_in;
use crate::reports::report_in;
use crate::rows::{containers_in, networks_in, volume_names};
use crate::values::has_many_values;
use engine_types::{Reply, Request};
use serde_json::Value;
use std::alloc::Global;
use tree_base::{List, Memory, Text};

/// Why a response gives no reply.
#[derive(Drop)]
pub enum ReplyRefusal {
    /// The body has more than 1,000,000 values.
    TooLarge,
    /// The status is a good one for the request, and the body isn't of the form that the API gives it.
    BadBody,
    /// Memory was wanted.
    Memory,
}

/// The reply that a response's status and body are to a request.
///
/// TooLarge exactly where the body isn't that of logs and has more than 1,000,000 values: one, and one for each comma and each
/// bracket or brace that begins an array or an object, outside of strings. Of the others, BadBody exactly where the status is a
/// good one for the request and the body has another form than the API gives it. Each other status is a refusal by the Engine,
/// with the text at `message` of a body of JSON.
pub fn reply_of(
    alloc: Global,
    request: &Request,
    status: u16,
    body: &[u8],
) -> Result<Reply, ReplyRefusal>
    ensures { IsReadAs result (has_many_values request.now status body.now)
        (reply_of request.now status body.now) }
{
    if has_many_values(request, status, body) {
        return Err(ReplyRefusal::TooLarge);
    }
    match reply_in(alloc, request, status, body) {
        Ok(Some(reply)) => Ok(reply),
        Ok(None) => Err(ReplyRefusal::BadBody),
        Err(Memory) => Err(ReplyRefusal::Memory),
    }
}

/// The same; None where the body has another form.
fn reply_in(
    alloc: Global,
    request: &Request,
    status: u16,
    body: &[u8],
) -> Result<Option<Reply>, Memory>
    ensures { IfOk result (λ reply. reply ≡ reply_of request.now status body.now) }
{
    if status == 304 && may_be_done(request) {
        Ok(Some(Reply::Already))
    } else if status == good_status(request) {
        good_reply(alloc, request, body)
    } else {
        let message = message_in(alloc, body)?;
        Ok(Some(Reply::Refused { status, message }))
    }
}

/// A request to which 304 says that it was done before: a start or a stop.
fn may_be_done(request: &Request) -> bool
    ensures { result ≡ may_be_done request.now }
{
    matches!(request, Request::Start { .. } | Request::Stop { .. })
}

/// The status at which a request was done.
fn good_status(request: &Request) -> u16
    ensures { result ≡ good_status request.now }
{
    match request {
        Request::Create { .. } | Request::MakeNetwork { .. } | Request::MakeVolume { .. } => 201,
        Request::Start { .. }
        | Request::Stop { .. }
        | Request::Remove { .. }
        | Request::RemoveNetwork { .. }
        | Request::RemoveVolume { .. } => 204,
        _ => 200,
    }
}

/// The reply of a request that was done; None where the body has another form.
fn good_reply(alloc: Global, request: &Request, body: &[u8]) -> Result<Option<Reply>, Memory>
    ensures { IfOk result (λ reply. reply
        ≡ reply_of request.now (good_status request.now) body.now) }
{
    match request {
        Request::Logs { .. } => Ok(Some(Reply::Bytes(bytes_of(alloc, body)?))),
        Request::Pull { .. } => pull_in(alloc, body),
        Request::ListContainers { .. }
        | Request::Inspect { .. }
        | Request::Create { .. }
        | Request::ListNetworks
        | Request::MakeNetwork { .. }
        | Request::ListVolumes
        | Request::Image { .. } => told_reply(alloc, request, body),
        _ => Ok(Some(Reply::Done)),
    }
}

/// The reply that a body of JSON tells.
fn told_reply(alloc: Global, request: &Request, body: &[u8]) -> Result<Option<Reply>, Memory>
    ensures { IfOk result (λ reply. reply ≡ given (json_of body.now) (told_by request.now)) }
{
    match json_of(alloc, body)? {
        Some(value) => reply_in_json(alloc, request, &value),
        None => Ok(None),
    }
}

/// The reply that JSON is; None where it has another form.
fn reply_in_json(alloc: Global, request: &Request, value: &Value) -> Result<Option<Reply>, Memory>
    ensures { IfOk result (λ reply. reply ≡ told_by request.now (view value.now)) }
{
    match request {
        Request::ListContainers { .. } => Ok(containers_in(alloc, value)?.map(Reply::Containers)),
        Request::ListNetworks => Ok(networks_in(alloc, value)?.map(Reply::Networks)),
        Request::ListVolumes => volumes_in(alloc, value),
        Request::Inspect { .. } => Ok(state_in(value)),
        Request::Image { .. } => Ok(id_of(alloc, value)?.map(Reply::ImageId)),
        _ => Ok(id_of(alloc, value)?.map(Reply::Made)),
    }
}

/// The reply at `Volumes`.
fn volumes_in(alloc: Global, value: &Value) -> Result<Option<Reply>, Memory>
    ensures { IfOk result (λ reply. reply
        ≡ option_map Reply.Volumes (given (get (codes "Volumes") (view value.now)) volume_names)) }
{
    match value.get("Volumes") {
        Some(volumes) => Ok(volume_names(alloc, volumes)?.map(Reply::Volumes)),
        None => Ok(None),
    }
}

/// The reply at `State`.
fn state_in(value: &Value) -> Option<Reply>
    ensures { result ≡ option_map Reply.State
        (given (get (codes "State") (view value.now)) report_in) }
{
    Some(Reply::State(report_in(value.get("State")?)?))
}

/// The text at `Id`.
fn id_of(alloc: Global, value: &Value) -> Result<Option<Text>, Memory>
    ensures { IfOk result (λ id. id ≡ text_at (codes "Id") (view value.now)) }
{
    copied(alloc, text_at(value, "Id"))
}

/// The message of a refusal: the text at `message` of a body of JSON, else empty.
fn message_in(alloc: Global, body: &[u8]) -> Result<Text, Memory>
    ensures { IfOk result (λ message. message ≡ message_in body.now) }
{
    match json_of(alloc, body)? {
        Some(value) => Text::from_str(alloc, text_at(&value, "message").unwrap_or("")),
        None => Ok(Text::new(alloc)),
    }
}

fn copied(alloc: Global, text: Option<&str>) -> Result<Option<Text>, Memory>
    ensures { IfOk result (λ copy. copy ≡ option_copied text.entry) }
{
    match text {
        Some(text) => Ok(Some(Text::from_str(alloc, text)?)),
        None => Ok(None),
    }
}

fn bytes_of(alloc: Global, bytes: &[u8]) -> Result<List<u8>, Memory>
    ensures { IfOk result (λ copy. copy ≡ bytes.now) }
{
    let mut copy = List::new(alloc);
    copy.extend_from_slice(bytes)?;
    Ok(copy)
}
