ghost use Rattle.std.specs.Prelude.{◌≡◌, ◌<◌, ℕ, IfOk, get_or, length, replicate, set, Some, None};
ghost use Rattle.tree_base.specs.Limits.{count_bound};
ghost use Rattle.plan_rows.specs.Firsts.{first_of, place_of, with_action};

use crate::row::{Row, place_of};
use engine_types::{Action, ActionKind};
use std::alloc::Global;
use tree_base::Memory;

/// For each of so many slots or networks the number of its action, the least where a plan has several, and None where it
/// has none.
pub fn first_rows(
    alloc: Global,
    row: Row,
    actions: &[Action],
    count: u32,
) -> Result<Vec<Option<u32>>, Memory>
    requires { length actions.now < count_bound }
    ensures size { IfOk result (λ places. length places.items ≡ count) }
    ensures each { IfOk result (λ places. (s : ℕ) → s < count
        → get_or places.items s None ≡ first_of row actions.now s) }
{
    let mut places = empty_rows(alloc, count)?;
    for at in (0..actions.len()).rev() {
        enter(&mut places, row, actions[at].kind, at as u32);
    }
    Ok(places)
}

/// Enters an action at its slot or network, if it is of the row and that is one of those.
fn enter(places: &mut Vec<Option<u32>>, row: Row, kind: ActionKind, action: u32)
    ensures { places.new.items ≡ with_action places.old.items (place_of row kind) action }
{
    if let Some(place) = place_of(row, kind) {
        let at = place as usize;
        if at < places.len() {
            places[at] = Some(action);
        }
    }
}

/// So many empty places.
fn empty_rows(alloc: Global, count: u32) -> Result<Vec<Option<u32>>, Memory>
    ensures { IfOk result (λ places. places.items ≡ replicate count None) }
{
    let mut places = Vec::new(alloc);
    for _ in 0..count {
        places.push(None)?;
    }
    Ok(places)
}
