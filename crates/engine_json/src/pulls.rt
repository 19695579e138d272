ghost use Rattle.std.specs.Prelude.{◌≡◌, Some, None, IfOk, OnOk, codes, cond, map, option_map};
ghost use Rattle.engine_json.specs.Told.{failure_after, failure_behind, first_of, pulled_by};
ghost use Rattle.response_rules.specs.Json.{text_at};
ghost use Rattle.response_rules.specs.Replies.{is_blank, object_on, pull_in};
ghost use Rattle.serde_json.specs.Find.{as_object};
ghost use Rattle.serde_json.specs.View.{view};

use crate::fields::text_at;
use crate::parsing::json_of;
use engine_types::Reply;
use serde_json::Value;
use std::alloc::Global;
use tree_base::{Memory, Text};

/// What the stream of a pull says: lines, each blank or an object; it failed with the first text at `error`. None where a line
/// is neither.
pub(crate) fn pull_in(alloc: Global, body: &[u8]) -> Result<Option<Reply>, Memory>
    ensures { IfOk result (λ reply. reply ≡ pull_in body.now) }
{
    let lines = body.split(|b| *b == b'\n').collect::<Vec<&[u8]>>(alloc)?;
    told_by(alloc, lines.as_slice())
}

/// What the lines of the stream say.
fn told_by(alloc: Global, lines: &[&[u8]]) -> Result<Option<Reply>, Memory>
    ensures { IfOk result (λ reply. reply
        ≡ option_map pulled_by (failure_behind None (map (λ line. line.now) lines.now))) }
{
    let mut failed = None;
    for line in lines {
        if !is_told(alloc, line, &mut failed)? {
            return Ok(None);
        }
    }
    Ok(Some(pulled(failed)))
}

/// Takes a line of the stream, and the message of the first error; false where it is neither blank nor an object.
fn is_told(alloc: Global, line: &[u8], failed: &mut Option<Text>) -> Result<bool, Memory>
    ensures { IfOk result (λ told. cond told (Some failed.new) None
        ≡ failure_after failed.old line.now) }
{
    if is_blank(line) {
        return Ok(true);
    }
    match object_on(alloc, line)? {
        Some(object) => {
            note(alloc, &object, failed)?;
            Ok(true)
        }
        None => Ok(false),
    }
}

/// The object that a line is.
fn object_on(alloc: Global, line: &[u8]) -> Result<Option<Value>, Memory>
    ensures { IfOk result (λ object. option_map view object ≡ object_on line.now) }
{
    match json_of(alloc, line)? {
        Some(value) => Ok(object_of(value)),
        None => Ok(None),
    }
}

/// The value, if it is an object.
fn object_of(value: Value) -> Option<Value>
    ensures { option_map view result ≡ option_map (λ members. view value) (as_object (view value)) }
{
    if value.is_object() { Some(value) } else { None }
}

/// Notes the message of an object's error, unless one came before.
fn note(alloc: Global, value: &Value, failed: &mut Option<Text>) -> Result<(), Memory>
    ensures { OnOk result (failed.new ≡ first_of failed.old
        (text_at (codes "error") (view value.now))) }
{
    if failed.is_none() {
        if let Some(message) = text_at(value, "error") {
            *failed = Some(Text::from_str(alloc, message)?);
        }
    }
    Ok(())
}

/// The reply to a pull that failed with a message, or didn't fail.
fn pulled(failed: Option<Text>) -> Reply
    ensures { result ≡ pulled_by failed }
{
    match failed {
        Some(message) => Reply::PullFailed(message),
        None => Reply::Pulled,
    }
}

/// A line of spaces, tabs and CR alone, or of nothing. No memory.
pub fn is_blank(line: &[u8]) -> bool
    ensures { result ≡ is_blank line.now }
{
    line.iter()
        .all(|b| *b == b' ' || *b == b'\t' || *b == b'\r')
}
