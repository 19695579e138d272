ghost use Rattle.std.specs.Prelude.{◌≡◌, [], ◌∷◌, ◌++◌, IfOk, OnOk, codes, decimal};
ghost use Rattle.std.specs.String.{string_bytes};
ghost use Rattle.serde_json.specs.Data.{array, item, member, no_items, no_members, object, string};
ghost use Rattle.serde_json.specs.View.{view};
ghost use Rattle.http_request.specs.Escapes.{escaped, stays_in_query};
ghost use Rattle.http_request.specs.Images.{image_of, tag_of};
ghost use Rattle.http_request.specs.Requests.{filter_text, pair, pairs_for, print_more, print_query, project_filter, query_of};

use crate::escaping::push_value;
use crate::images::{image_of, tag_of};
use engine_types::Request;
use serde_json::{Value, json};
use std::alloc::{AllocError, Global};
use tree_base::{Memory, Text};

/// Puts the query of a request last, with a question mark before it.
pub(crate) fn push_query(alloc: Global, to: &mut String, request: &Request) -> Result<(), Memory>
    ensures { OnOk result (string_bytes to.new ≡
        string_bytes to.old ++ print_query (query_of request.now)) }
{
    match request {
        Request::ListContainers { project } => {
            push_pair(to, "?all=", b"true")?;
            push_filter(alloc, to, project)
        }
        Request::Logs { .. } => {
            push_pair(to, "?stdout=", b"true")?;
            push_pair(to, "&stderr=", b"true")
        }
        Request::Create { name, spec } => {
            push_pair(to, "?name=", name.as_str().as_bytes())?;
            push_platform(to, &spec.get().platform)
        }
        Request::Stop { seconds, .. } => push_seconds(alloc, to, *seconds),
        Request::Pull { name } => {
            push_image(to, name)?;
            push_tag(to, name)
        }
        _ => Ok(()),
    }
}

/// Puts a name, with what stands around it, and its value last.
pub(crate) fn push_pair(to: &mut String, name: &str, value: &[u8]) -> Result<(), Memory>
    ensures { OnOk result (string_bytes to.new ≡
        string_bytes to.old ++ (name.now ++ escaped stays_in_query value.now)) }
{
    to.push_str(name)?;
    push_value(to, value)
}

fn push_platform(to: &mut String, platform: &Option<Text>) -> Result<(), Memory>
    ensures { OnOk result (string_bytes to.new ≡ string_bytes to.old
        ++ print_more (pairs_for (codes "platform") platform.now)) }
{
    match platform {
        Some(platform) => push_pair(to, "&platform=", platform.as_str().as_bytes()),
        None => Ok(()),
    }
}

fn push_seconds(alloc: Global, to: &mut String, seconds: u64) -> Result<(), Memory>
    ensures { OnOk result (string_bytes to.new ≡
        string_bytes to.old ++ (codes "?t=" ++ escaped stays_in_query (decimal seconds))) }
{
    let seconds = format!(in alloc; "{seconds}")?;
    push_pair(to, "?t=", seconds.as_bytes())
}

fn push_filter(alloc: Global, to: &mut String, project: &Text) -> Result<(), Memory>
    ensures { OnOk result (string_bytes to.new ≡ string_bytes to.old
        ++ print_more (pair (codes "filters") (project_filter project.now) ∷ [])) }
{
    let filter = project_filter(alloc, project)?;
    push_pair(to, "&filters=", filter.as_bytes())
}

fn push_image(to: &mut String, name: &Text) -> Result<(), Memory>
    ensures { OnOk result (string_bytes to.new ≡ string_bytes to.old
        ++ (codes "?fromImage=" ++ escaped stays_in_query (image_of name.now))) }
{
    push_pair(to, "?fromImage=", image_of(name.as_str().as_bytes()))
}

fn push_tag(to: &mut String, name: &Text) -> Result<(), Memory>
    ensures { OnOk result (string_bytes to.new ≡ string_bytes to.old
        ++ print_more (pair (codes "tag") (tag_of name.now) ∷ [])) }
{
    push_pair(to, "&tag=", tag_of(name.as_str().as_bytes()))
}

fn project_filter(alloc: Global, project: &Text) -> Result<String, Memory>
    ensures { IfOk result (λ text. string_bytes text ≡ project_filter project.now) }
{
    let mut label = String::from_str(alloc, "com.docker.compose.project=")?;
    label.push_str(project.as_str())?;
    filter_text(alloc, label.as_str())
}

/// The filter by a label, without the containers that were made to run one command, as a text of JSON.
fn filter_text(alloc: Global, label: &str) -> Result<String, Memory>
    ensures { IfOk result (λ text. string_bytes text ≡ filter_text label.now) }
{
    let text = filter(alloc, label)?.to_string(alloc)?;
    Ok(text)
}

/// The filter as JSON.
fn filter(alloc: Global, label: &str) -> Result<Value, AllocError>
    ensures { IfOk result (λ filter. view filter ≡ object (member (codes "label")
        (array (item (string label.now)
        (item (string (codes "com.docker.compose.oneoff=False")) no_items))) no_members)) }
{
    json!(in alloc; {"label": [label, "com.docker.compose.oneoff=False"]})
}
