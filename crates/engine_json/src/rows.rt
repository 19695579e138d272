ghost use Rattle.std.specs.Prelude.{◌≡◌, Some, IfOk, codes, map, option_map};
ghost use Rattle.std.specs.String.{string_bytes};
ghost use Rattle.response_rules.specs.Json.{given, of_each, pairs_of, rows, text_at};
ghost use Rattle.response_rules.specs.Replies.{container_of, first_name, network_names, network_of, state_of, volume_names, without_slash};
ghost use Rattle.serde_json.specs.Find.{as_object, get};
ghost use Rattle.serde_json.specs.View.{members_view, view};

use crate::fields::{pairs_of, text_at};
use crate::words::state_of;
use engine_types::{ContainerState, Listed, NetRow, Pairs};
use serde_json::{Map, Value};
use std::alloc::Global;
use tree_base::{List, Memory, Text};

/// The rows of `GET /containers/json`; None where one has another form.
pub(crate) fn containers_in(alloc: Global, value: &Value) -> Result<Option<List<Listed>>, Memory>
    ensures { IfOk result (λ found. found ≡ rows container_of (view value.now)) }
{
    match value.as_array() {
        Some(items) => containers_each(alloc, items),
        None => Ok(None),
    }
}

/// A container for each of the values; None where one has another form.
fn containers_each(alloc: Global, items: &[Value]) -> Result<Option<List<Listed>>, Memory>
    ensures { IfOk result (λ found. found ≡ of_each container_of (map view items.now)) }
{
    let mut found = List::new(alloc);
    for item in items {
        let Some(row) = container_of(alloc, item)? else {
            return Ok(None);
        };
        found.push(row)?;
    }
    Ok(Some(found))
}

/// The rows of `GET /networks`; None where one has another form.
pub(crate) fn networks_in(alloc: Global, value: &Value) -> Result<Option<List<NetRow>>, Memory>
    ensures { IfOk result (λ found. found ≡ rows network_of (view value.now)) }
{
    match value.as_array() {
        Some(items) => networks_each(alloc, items),
        None => Ok(None),
    }
}

/// A network for each of the values; None where one has another form.
fn networks_each(alloc: Global, items: &[Value]) -> Result<Option<List<NetRow>>, Memory>
    ensures { IfOk result (λ found. found ≡ of_each network_of (map view items.now)) }
{
    let mut found = List::new(alloc);
    for item in items {
        let Some(row) = network_of(alloc, item)? else {
            return Ok(None);
        };
        found.push(row)?;
    }
    Ok(Some(found))
}

/// The `Name` of each of the `Volumes` of `GET /volumes`, and none of null; None where one has another form.
pub(crate) fn volume_names(alloc: Global, value: &Value) -> Result<Option<List<Text>>, Memory>
    ensures { IfOk result (λ names. names ≡ volume_names (view value.now)) }
{
    match value {
        Value::Null => Ok(Some(List::new(alloc))),
        Value::Array(items) => names_in(alloc, items),
        _ => Ok(None),
    }
}

/// The `Name` of each of the values; None where one has none.
fn names_in(alloc: Global, items: &[Value]) -> Result<Option<List<Text>>, Memory>
    ensures { IfOk result (λ names. names ≡ of_each (text_at (codes "Name")) (map view items.now)) }
{
    let mut names = List::new(alloc);
    for item in items {
        let Some(name) = text_at(item, "Name") else {
            return Ok(None);
        };
        names.push(Text::from_str(alloc, name)?)?;
    }
    Ok(Some(names))
}

/// A row of `GET /containers/json`: `Id`, the first of `Names`, `ImageID`, `Labels`, `State` and the keys of
/// `NetworkSettings.Networks`; None where it has another form.
fn container_of(alloc: Global, value: &Value) -> Result<Option<Listed>, Memory>
    ensures { IfOk result (λ row. row ≡ container_of (view value.now)) }
{
    let Some(id) = text_at(value, "Id") else {
        return Ok(None);
    };
    let Some(name) = name_of(value) else {
        return Ok(None);
    };
    let Some(image_id) = text_at(value, "ImageID") else {
        return Ok(None);
    };
    let Some(labels) = labels_of(alloc, value)? else {
        return Ok(None);
    };
    let Some(state) = state_in(value) else {
        return Ok(None);
    };
    let Some(networks) = network_names(alloc, value)? else {
        return Ok(None);
    };
    Ok(Some(Listed {
        id: Text::from_str(alloc, id)?,
        name: Text::from_str(alloc, name)?,
        image_id: Text::from_str(alloc, image_id)?,
        labels,
        state,
        networks,
    }))
}

/// A row of `GET /networks`: `Id`, `Name` and `Labels`; None where it has another form.
fn network_of(alloc: Global, value: &Value) -> Result<Option<NetRow>, Memory>
    ensures { IfOk result (λ row. row ≡ network_of (view value.now)) }
{
    let Some(id) = text_at(value, "Id") else {
        return Ok(None);
    };
    let Some(name) = text_at(value, "Name") else {
        return Ok(None);
    };
    let Some(labels) = labels_of(alloc, value)? else {
        return Ok(None);
    };
    Ok(Some(NetRow {
        id: Text::from_str(alloc, id)?,
        name: Text::from_str(alloc, name)?,
        labels,
    }))
}

/// The `Labels` of a row.
fn labels_of(alloc: Global, value: &Value) -> Result<Option<Pairs>, Memory>
    ensures { IfOk result (λ labels. labels
        ≡ given (get (codes "Labels") (view value.now)) pairs_of) }
{
    match value.get("Labels") {
        Some(labels) => pairs_of(alloc, labels),
        None => Ok(None),
    }
}

/// The first of a row's `Names`, without its leading slash.
fn name_of(value: &Value) -> Option<&str>
    ensures { option_map (λ name. name.now) result
        ≡ given (given (get (codes "Names") (view value.now)) (rows Some)) first_name }
{
    let name = value.get("Names")?.as_array()?.first()?.as_str()?;
    Some(without_slash(name))
}

/// A name without its leading slash.
fn without_slash(name: &str) -> &str
    ensures { result.now ≡ without_slash name.now }
{
    match name.strip_prefix('/') {
        Some(rest) => rest,
        None => name,
    }
}

/// The state that a row's `State` names.
fn state_in(value: &Value) -> Option<ContainerState>
    ensures { result ≡ given (text_at (codes "State") (view value.now)) state_of }
{
    state_of(text_at(value, "State")?)
}

/// The keys of a row's `NetworkSettings.Networks`.
fn network_names(alloc: Global, value: &Value) -> Result<Option<List<Text>>, Memory>
    ensures { IfOk result (λ names. names ≡ network_names (view value.now)) }
{
    match networks_of(value) {
        Some(networks) => Ok(Some(keys_of(alloc, networks)?)),
        None => Ok(None),
    }
}

/// The keys of an object.
fn keys_of(alloc: Global, members: &Map<String, Value>) -> Result<List<Text>, Memory>
    ensures { IfOk result (λ names. names ≡ map (λ m. string_bytes m.0) members.now.entries) }
{
    let mut names = List::new(alloc);
    for name in members.keys() {
        names.push(Text::from_str(alloc, name.as_str())?)?;
    }
    Ok(names)
}

/// The members of a row's `NetworkSettings.Networks`.
fn networks_of(value: &Value) -> Option<&Map<String, Value>>
    ensures { option_map (λ networks. members_view networks.now.entries) result
        ≡ given (given (get (codes "NetworkSettings") (view value.now)) (get (codes "Networks"))) as_object }
{
    value.get("NetworkSettings")?.get("Networks")?.as_object()
}
