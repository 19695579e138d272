ghost use Rattle.std.specs.Prelude.{◌≡◌, ◌++◌, IfOk, OnOk, flat_map, map, option_map};
ghost use Rattle.serde_json.specs.View.{view};
ghost use Rattle.volume_notes.specs.Volumes.{foreign_among, foreign_in, foreign_name, foreign_names, is_foreign, is_own, made_note, project_of, said_if, volume_note};

use engine_json::{json_of, text_at};
use engine_types::labels;
use run_lookups::shown;
use serde_json::Value;
use std::alloc::Global;
use tree_base::{Memory, Text, TextMap};

/// What is said of the volumes that a project declares and didn't make, by the body of a response to `GET /volumes`: of those that are
/// there, without the project's label. Nothing is said where the body is none.
pub fn volume_note(
    alloc: Global,
    project: &Text,
    declared: &TextMap<bool>,
    body: &[u8],
) -> Result<Option<Text>, Memory>
    ensures { IfOk result (λ note. note ≡ volume_note project.now declared.now body.now) }
{
    let names = match json_of(alloc, body)? {
        Some(value) => foreign_in(alloc, project, declared, &value)?,
        None => Text::new(alloc),
    };
    made_note(alloc, names.as_str())
}

fn made_note(alloc: Global, names: &str) -> Result<Option<Text>, Memory>
    ensures { IfOk result (λ note. note ≡ made_note names.now) }
{
    if names.is_empty() {
        return Ok(None);
    }
    let note = format!(in alloc; "not made by the project, and removed by down --volumes:{names}")?;
    Ok(Some(Text::from_string(note)))
}

/// The names of these volumes of a listing, each behind a space.
fn foreign_in(
    alloc: Global,
    project: &Text,
    declared: &TextMap<bool>,
    value: &Value,
) -> Result<Text, Memory>
    ensures { IfOk result (λ names. names
        ≡ foreign_in project.now declared.now (view value.now)) }
{
    match value.get("Volumes") {
        Some(volumes) => foreign_among(alloc, project, declared, volumes),
        None => Ok(Text::new(alloc)),
    }
}

/// The same of what stands at `Volumes`.
fn foreign_among(
    alloc: Global,
    project: &Text,
    declared: &TextMap<bool>,
    volumes: &Value,
) -> Result<Text, Memory>
    ensures { IfOk result (λ names. names
        ≡ foreign_among project.now declared.now (view volumes.now)) }
{
    match volumes.as_array() {
        Some(rows) => foreign_names(alloc, project, declared, rows),
        None => Ok(Text::new(alloc)),
    }
}

fn foreign_names(
    alloc: Global,
    project: &Text,
    declared: &TextMap<bool>,
    rows: &[Value],
) -> Result<Text, Memory>
    ensures { IfOk result (λ names. names
        ≡ foreign_names project.now declared.now (map view rows.now)) }
{
    let mut names = Text::new(alloc);
    for row in rows {
        push_foreign(alloc, project, declared, row, &mut names)?;
    }
    Ok(names)
}

fn push_foreign(
    alloc: Global,
    project: &Text,
    declared: &TextMap<bool>,
    row: &Value,
    names: &mut Text,
) -> Result<(), Memory>
    ensures { OnOk result (names.new
        ≡ names.old ++ foreign_name project.now declared.now (view row.now)) }
{
    match text_at(row, "Name") {
        Some(name) => push_if(
            alloc,
            is_foreign(alloc, project, declared, name, row)?,
            name,
            names,
        ),
        None => Ok(()),
    }
}

fn push_if(alloc: Global, is_said: bool, name: &str, names: &mut Text) -> Result<(), Memory>
    ensures { OnOk result (names.new ≡ names.old ++ said_if is_said name.now) }
{
    if is_said {
        let name = shown(alloc, name)?;
        names.push_str(" ")?;
        names.push_str(name.as_str())?;
    }
    Ok(())
}

/// Whether a volume is declared, and not of the project.
fn is_foreign(
    alloc: Global,
    project: &Text,
    declared: &TextMap<bool>,
    name: &str,
    row: &Value,
) -> Result<bool, Memory>
    ensures { IfOk result (λ answer. answer
        ≡ is_foreign project.now declared.now name.now (view row.now)) }
{
    let name = Text::from_str(alloc, name)?;
    Ok(declared.get(&name).is_some() && !is_own(project, row))
}

/// Whether a volume has the project's label.
fn is_own(project: &Text, row: &Value) -> bool
    ensures { result ≡ is_own project.now (view row.now) }
{
    match project_of(row) {
        Some(own) => project.as_str() == own,
        None => false,
    }
}

/// The project that a volume's labels name.
fn project_of(row: &Value) -> Option<&str>
    ensures { option_map (λ text. text.now) result ≡ project_of (view row.now) }
{
    text_at(row.get("Labels")?, labels::PROJECT)
}
