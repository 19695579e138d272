ghost use Rattle.std.specs.Prelude.{◌≡◌, [], ◌∷◌, IfOk, codes};
ghost use Rattle.serde_json.specs.Data.{string};
ghost use Rattle.serde_json.specs.View.{view};
ghost use Rattle.engine_bodies.specs.Json.{array_of, set_of, texts};
ghost use Rattle.engine_replies.specs.Values.{health_word, listed_value, network_value, object_with, report_value, volume_value};

use crate::objects::Object;
use crate::values::ToJson;
use crate::words::{health_word, state_word};
use engine_types::{Health, Listed, NetRow, Report};
use serde_json::{Value, push};
use std::alloc::Global;
use tree_base::{List, Memory, Text};

impl ToJson for Listed {
    ghost told = { listed_value };

    fn json(&self, alloc: Global) -> Result<Value, Memory> {
        let mut row = Object::new(alloc);
        row.value("Id", &self.id);
        row.value("ImageID", &self.image_id);
        row.mapping("Labels", &self.labels);
        row.made("Names", names_json(alloc, &self.name));
        row.made("NetworkSettings", settings_json(alloc, &self.networks));
        row.text("State", state_word(self.state));
        row.end()
    }
}

impl ToJson for NetRow {
    ghost told = { network_value };

    fn json(&self, alloc: Global) -> Result<Value, Memory> {
        let mut row = Object::new(alloc);
        row.value("Id", &self.id);
        row.mapping("Labels", &self.labels);
        row.value("Name", &self.name);
        row.end()
    }
}

impl ToJson for Report {
    ghost told = { report_value };

    fn json(&self, alloc: Global) -> Result<Value, Memory> {
        let mut state = Object::new(alloc);
        state.value("ExitCode", &self.exit_code);
        state.made("Health", health_json(alloc, self.health));
        state.text("Status", state_word(self.state));
        state.end()
    }
}

/// The `Names` of a container: its name behind a slash.
fn names_json(alloc: Global, name: &Text) -> Result<Value, Memory>
    ensures { IfOk result (λ value. view value ≡ texts ((47 ∷ name.now) ∷ [])) }
{
    let mut text = Text::from_str(alloc, "/")?;
    text.push_str(name.as_str())?;
    let mut names = List::new(alloc);
    names.push(text)?;
    names.json(alloc)
}

/// The `NetworkSettings` of a container: the names of its networks.
fn settings_json(alloc: Global, networks: &List<Text>) -> Result<Value, Memory>
    ensures { IfOk result (λ value. view value ≡ object_with (codes "Networks") (set_of networks.now)) }
{
    let mut settings = Object::new(alloc);
    settings.set("Networks", networks);
    settings.end()
}

/// The `Health` of a state.
fn health_json(alloc: Global, health: Health) -> Result<Value, Memory>
    ensures { IfOk result (λ value.
        view value ≡ object_with (codes "Status") (string (health_word health))) }
{
    text_under(alloc, "Status", health_word(health))
}

/// An object with one text.
pub(crate) fn text_under(alloc: Global, name: &str, text: &str) -> Result<Value, Memory>
    ensures { IfOk result (λ value. view value ≡ object_with name.now (string text.now)) }
{
    let mut object = Object::new(alloc);
    object.text(name, text);
    object.end()
}

/// An object with one value.
pub(crate) fn value_under<T: ToJson>(alloc: Global, name: &str, value: &T) -> Result<Value, Memory>
    ensures { IfOk result (λ made. view made ≡ object_with name.now (T.told value.now)) }
{
    let mut object = Object::new(alloc);
    object.value(name, value);
    object.end()
}

/// The body of `GET /volumes`.
pub(crate) fn volumes_json(alloc: Global, names: &List<Text>) -> Result<Value, Memory>
    ensures { IfOk result (λ value.
        view value ≡ object_with (codes "Volumes") (array_of volume_value names.now)) }
{
    let mut object = Object::new(alloc);
    object.made("Volumes", volume_rows(alloc, names));
    object.end()
}

/// The volumes of these names.
fn volume_rows(alloc: Global, names: &List<Text>) -> Result<Value, Memory>
    ensures { IfOk result (λ value. view value ≡ array_of volume_value names.now) }
{
    let mut items = Vec::new(alloc);
    for name in names.as_slice() {
        let value = text_under(alloc, "Name", name.as_str())?;
        push(&mut items, value)?;
    }
    Ok(Value::from(items))
}
