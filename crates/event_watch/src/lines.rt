ghost use Rattle.std.specs.Prelude.{◌≡◌, [], ◌∷◌, Some, None, IfOk, option_map};
ghost use Rattle.event_watch.specs.Events.{event_of, line_told};
ghost use Rattle.event_watch.specs.Lines.{told_as};
ghost use Rattle.serde_json.specs.View.{view};

use crate::event::Event;
use engine_json::{is_blank, json_of, text_at};
use serde_json::Value;
use std::alloc::Global;
use tree_base::{Memory, Text};

/// What a whole line is.
#[derive(Drop)]
pub(crate) enum Line {
    Blank,
    Told(Event),
    Bad,
}

/// What a line of at most the limit's bytes is.
pub(crate) fn line_of(alloc: Global, line: &[u8]) -> Result<Line, Memory>
    ensures { IfOk result (λ read. told_as read ≡ line_told line.now) }
{
    if is_blank(line) {
        return Ok(Line::Blank);
    }
    match json_of(alloc, line)? {
        Some(value) => told_by(alloc, &value),
        None => Ok(Line::Bad),
    }
}

/// What a line of JSON is.
fn told_by(alloc: Global, value: &Value) -> Result<Line, Memory>
    ensures { IfOk result (λ read. told_as read
        ≡ option_map (λ event. event ∷ []) (event_of (view value.now))) }
{
    let Some((id, action)) = texts_of(value) else {
        return Ok(Line::Bad);
    };
    let id = Text::from_str(alloc, id)?;
    let action = Text::from_str(alloc, action)?;
    Ok(Line::Told(Event { id, action }))
}

/// The id and the action that an object tells.
fn texts_of(value: &Value) -> Option<(&str, &str)>
    ensures { option_map (λ texts. record { id = texts.0.now; action = texts.1.now }) result
        ≡ event_of (view value.now) }
{
    let action = text_at(value, "Action")?;
    let id = text_at(value.get("Actor")?, "ID")?;
    Some((id, action))
}
