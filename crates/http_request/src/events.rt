ghost use Rattle.std.specs.Prelude.{◌≡◌, ◌++◌, IfOk, OnOk, codes};
ghost use Rattle.std.specs.String.{string_bytes};
ghost use Rattle.serde_json.specs.Data.{array, item, member, no_items, no_members, object, string};
ghost use Rattle.serde_json.specs.View.{view};
ghost use Rattle.http_request.specs.Events.{events_filter, events_request, events_target, project_events};

use crate::fields::push_fields;
use crate::method::Method;
use crate::queries::push_pair;
use serde_json::{Value, json};
use std::alloc::{AllocError, Global};
use tree_base::{List, Memory, Text};

/// The bytes of the request for the events of a project's containers: `GET /events` with the filter of the project's label and of
/// containers alone.
pub fn events_bytes(alloc: Global, project: &Text) -> Result<List<u8>, Memory>
    ensures { IfOk result (λ bytes. bytes ≡ events_request project.now) }
{
    let mut text = String::new(alloc);
    push_events_line(alloc, &mut text, project)?;
    push_fields(alloc, &mut text, Method::Get, None)?;
    text.push_str("\r\n")?;
    Ok(List::from_vec(text.into_bytes()))
}

/// Puts the request line last (RFC 9112, section 3).
fn push_events_line(alloc: Global, to: &mut String, project: &Text) -> Result<(), Memory>
    ensures { OnOk result (string_bytes to.new ≡ string_bytes to.old
        ++ (codes "GET " ++ events_target project.now ++ codes " HTTP/1.1\r\n")) }
{
    to.push_str("GET ")?;
    push_events_target(alloc, to, project)?;
    to.push_str(" HTTP/1.1\r\n")?;
    Ok(())
}

/// Puts version, path and query last.
fn push_events_target(alloc: Global, to: &mut String, project: &Text) -> Result<(), Memory>
    ensures { OnOk result (string_bytes to.new ≡
        string_bytes to.old ++ events_target project.now) }
{
    let filter = project_events(alloc, project)?;
    push_pair(to, "/v1.43/events?filters=", filter.as_bytes())
}

fn project_events(alloc: Global, project: &Text) -> Result<String, Memory>
    ensures { IfOk result (λ text. string_bytes text ≡ project_events project.now) }
{
    let mut label = String::from_str(alloc, "com.docker.compose.project=")?;
    label.push_str(project.as_str())?;
    events_filter(alloc, label.as_str())
}

/// The filter by a label, as a text of JSON.
fn events_filter(alloc: Global, label: &str) -> Result<String, Memory>
    ensures { IfOk result (λ text. string_bytes text ≡ events_filter label.now) }
{
    let text = filter_value(alloc, label)?.to_string(alloc)?;
    Ok(text)
}

/// The filter as JSON.
fn filter_value(alloc: Global, label: &str) -> Result<Value, AllocError>
    ensures { IfOk result (λ filter. view filter ≡ object
        (member (codes "label") (array (item (string label.now) no_items))
        (member (codes "type") (array (item (string (codes "container")) no_items))
        no_members))) }
{
    json!(in alloc; {"label": [label], "type": ["container"]})
}
