ghost use Rattle.std.specs.Prelude.{◌≡◌, false, not, filter, position, slice_get};
ghost use Rattle.std.specs.Option.{option_map_or};
ghost use Rattle.std.specs.Str.{bytes_eq};
ghost use Rattle.memory_engine.specs.Keeping.{HasOwnIds};
ghost use Rattle.memory_engine.specs.Serving.{with_first};

use engine_types::{ContainerRow, Containers, Report};
use tree_base::{List, Text, item_at};

/// The place of the container with an id. The ids that the Engine gives ascend, so their rows are found by halves. A row
/// that it held from its beginning may have any id, and is found by going through all. No memory.
pub fn place_of_id(rows: &[ContainerRow], id: &Text) -> Option<usize>
    requires { HasOwnIds rows.now }
    ensures { result ≡ position (λ row. bytes_eq row.id id.now) rows.now }
{
    let at = rows.partition_point(|row| row.id < *id);
    if is_at(rows, at, id) {
        return Some(at);
    }
    rows.iter().position(|row| row.id == *id)
}

/// Whether a container with an id stands at a place. No memory.
fn is_at(rows: &[ContainerRow], at: usize, id: &Text) -> bool
    ensures { result ≡ option_map_or (λ row. bytes_eq row.id id.now) (slice_get rows.now at) false }
{
    item_at(rows, at).is_some_and(|row| row.id == *id)
}

/// The place of the container with a name. No memory.
pub fn place_of_name(rows: &[ContainerRow], name: &Text) -> Option<usize>
    ensures { result ≡ position (λ row. bytes_eq name.now row.name) rows.now }
{
    rows.iter().position(|row| *name == row.name)
}

/// Gives the container with an id another report. No memory.
pub fn set_report(rows: &mut Containers, id: &Text, report: Report)
    requires { HasOwnIds rows.old }
    ensures { rows.new ≡ with_first (λ row. bytes_eq row.id id.now)
        (λ row. record row { report = report }) rows.old }
{
    if let Some(at) = place_of_id(rows.as_slice(), id) {
        rows.set_report(at, report);
    }
}

/// Gives the container with an id other networks. No memory.
pub fn set_networks(rows: &mut Containers, id: &Text, networks: List<Text>)
    requires { HasOwnIds rows.old }
    ensures { rows.new ≡ with_first (λ row. bytes_eq row.id id.now)
        (λ row. record row { networks = networks }) rows.old }
{
    if let Some(at) = place_of_id(rows.as_slice(), id) {
        rows.set_networks(at, networks);
    }
}

/// Takes out the container with an id. No memory.
pub fn take_out(rows: &mut Containers, id: &Text)
    requires { HasOwnIds rows.old }
    ensures { rows.new ≡ filter (λ row. not (bytes_eq row.id id.now)) rows.old }
{
    if let Some(at) = place_of_id(rows.as_slice(), id) {
        rows.remove(at);
    }
}
