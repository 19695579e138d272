ghost use Rattle.std.specs.Prelude.{◌≡◌, ◌+◌, ◌<◌, ◌≤◌, [], ◌∷◌, ◌++◌, ℕ, IfOk, IfSome, OnOk, drop, false, find, get_or, length, map, option_map, replicate, set, true, ◌==◌};
ghost use Rattle.std.specs.List.{Contains, list_any};
ghost use Rattle.service_graph.specs.Places.{AreWithin, further, leads_back, next_of, way_back};
ghost use Rattle.service_graph.specs.Reaching.{AreFromEarlier, Reaches, ways_of};

use std::alloc::Global;
use tree_base::{List, Memory};

/// A place that was reached, and where in the list of these the one stands from which it was.
#[derive(Clone, Copy, Drop)]
pub(crate) struct Reached {
    place: usize,
    from: usize,
}

/// The shortest way from a place back to it, and the first of those, item by item. Places are reached in order of the
/// length of the first way to each, and of those ways: so the first of them that leads back is the end of that way.
pub(crate) fn way_back(
    alloc: Global,
    links: &[List<usize>],
    start: usize,
) -> Result<Option<List<usize>>, Memory>
    requires within { AreWithin links.now }
    requires start { start < length links.now }
    ensures { IfOk result (λ way. way ≡ way_back links.now start) }
{
    let mut seen = all_but(alloc, links.len(), start)?;
    let mut reached = only(alloc, start)?;
    let mut first = 0;
    for count in 0..links.len() {
        if let Some(last) = leading_back(links, start, reached.as_slice(), first) {
            return Ok(Some(way_to(alloc, reached.as_slice(), last)?));
        }
        let end = reached.len();
        reach(links, first, seen.as_mut_slice(), &mut reached)?;
        first = end;
    }
    Ok(None)
}

/// So many places, none of which was seen but one.
fn all_but(alloc: Global, count: usize, start: usize) -> Result<Vec<bool>, Memory>
    requires { start < count }
    ensures { IfOk result (λ seen. seen.items ≡ set (replicate count false) start true) }
{
    let mut seen = vec![in alloc; false; count]?;
    seen[start] = true;
    Ok(seen)
}

/// A place that was reached from none.
fn only(alloc: Global, start: usize) -> Result<Vec<Reached>, Memory>
    ensures ways { IfOk result (λ reached. ways_of reached.items ≡ (start ∷ []) ∷ []) }
    ensures earlier { IfOk result (λ reached. AreFromEarlier reached.items) }
{
    let mut reached = Vec::new(alloc);
    reached.push(Reached {
        place: start,
        from: 0,
    })?;
    Ok(reached)
}

/// The first of what was reached, from a place of the list on, that leads back.
fn leading_back(
    links: &[List<usize>],
    start: usize,
    reached: &[Reached],
    first: usize,
) -> Option<usize>
    ensures value { option_map (λ at. get_or (ways_of reached.now) at []) result
        ≡ find (leads_back links.now start) (drop first (ways_of reached.now)) }
    ensures within { IfSome result (λ at. at < length reached.now) }
{
    for at in first..reached.len() {
        if leads_to(links, reached[at].place, start) {
            return Some(at);
        }
    }
    None
}

fn leads_to(links: &[List<usize>], from: usize, to: usize) -> bool
    ensures { result ≡ list_any (λ next. next == to) (next_of links.now from) }
{
    next_of(links, from).iter().any(|place| *place == to)
}

/// The places that a place leads to.
fn next_of(links: &[List<usize>], from: usize) -> &[usize]
    ensures { result.now ≡ next_of links.now from }
{
    match links.get(from) {
        Some(next) => next.as_slice(),
        None => &[],
    }
}

/// Reaches what those lead to that were reached from a place of the list on.
fn reach(
    links: &[List<usize>],
    first: usize,
    seen: &mut [bool],
    reached: &mut Vec<Reached>,
) -> Result<(), Memory>
    requires within { AreWithin links.now }
    requires long { length seen.old ≡ length links.now }
    ensures { OnOk result (Reaches seen.old reached.old.items
        (further links.now (drop first (ways_of reached.old.items))) seen.new reached.new.items) }
{
    for from in first..reached.len() {
        let next = next_of(links, reached[from].place);
        reach_each(next, from, seen, reached)?;
    }
    Ok(())
}

/// Reaches each place of a list from one that was reached.
fn reach_each(
    next: &[usize],
    from: usize,
    seen: &mut [bool],
    reached: &mut Vec<Reached>,
) -> Result<(), Memory>
    requires within { (to : ℕ) → Contains next.now to → to < length seen.old }
    requires from { from < length reached.old.items }
    ensures { OnOk result (Reaches seen.old reached.old.items
        (map (λ to. get_or (ways_of reached.old.items) from []
        ++ to ∷ []) next.now) seen.new reached.new.items) }
{
    for place in next {
        reach_one(*place, from, seen, reached)?;
    }
    Ok(())
}

/// Puts a place last, where it wasn't seen yet.
fn reach_one(
    place: usize,
    from: usize,
    seen: &mut [bool],
    reached: &mut Vec<Reached>,
) -> Result<(), Memory>
    requires within { place < length seen.old }
    requires from { from < length reached.old.items }
    ensures { OnOk result (Reaches seen.old reached.old.items
        ((get_or (ways_of reached.old.items) from []
        ++ place ∷ []) ∷ []) seen.new reached.new.items) }
{
    if !seen[place] {
        seen[place] = true;
        reached.push(Reached { place, from })?;
    }
    Ok(())
}

/// The way to what was reached, from the first on.
fn way_to(alloc: Global, reached: &[Reached], last: usize) -> Result<List<usize>, Memory>
    requires within { last < length reached.now }
    requires earlier { AreFromEarlier reached.now }
    ensures { IfOk result (λ way. way ≡ get_or (ways_of reached.now) last []) }
{
    let mut way = Vec::new(alloc);
    let mut at = last;
    while at > 0 {
        way.push(reached[at].place)?;
        at = reached[at].from;
    }
    way.push(reached[0].place)?;
    way.reverse();
    Ok(List::from_vec(way))
}
