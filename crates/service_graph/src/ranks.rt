ghost use Rattle.std.specs.Prelude.{◌≡◌, ◌≤◌, ℕ, get_or, length, true};
ghost use Rattle.std.specs.List.{Contains};
ghost use Rattle.service_graph.specs.Ranks.{AreRanked, IsApart};

use std::alloc::Global;
use tree_base::{List, Memory};

/// A rank for each place, by which two places have one rank where each leads to the other, and else a place that leads
/// to another has a lesser one. Nothing stands on that: who uses ranks asks `are_ranked` first. Each link is looked at
/// a few times.
pub(crate) fn ranks_of(alloc: Global, links: &[List<usize>]) -> Result<List<usize>, Memory> {
    let coming = coming_to(alloc, links)?;
    let order = order_of(alloc, links)?;
    let mut ranks = same_ranks(alloc, links.len())?;
    for (rank, place) in order.as_slice().iter().rev().enumerate() {
        rank_all(alloc, coming.as_slice(), *place, rank, &mut ranks)?;
    }
    Ok(ranks)
}

/// Whether no place leads to one of a lesser rank.
pub(crate) fn are_ranked(links: &[List<usize>], ranks: &[usize]) -> bool
    ensures { result ≡ true → AreRanked links.now ranks.now }
{
    for (from, places) in links.iter().enumerate() {
        if !are_from(places.as_slice(), ranks, rank_at(ranks, from)) {
            return false;
        }
    }
    true
}

/// Whether a place leads to places of greater ranks alone.
pub(crate) fn is_apart(links: &[List<usize>], ranks: &[usize], from: usize) -> bool
    ensures { result ≡ true → IsApart links.now ranks.now from }
{
    match (links.get(from), rank_at(ranks, from).checked_add(1)) {
        (Some(places), Some(least)) => are_from(places.as_slice(), ranks, least),
        _ => false,
    }
}

/// Whether places have ranks from one on.
fn are_from(places: &[usize], ranks: &[usize], least: usize) -> bool
    ensures { result ≡ true → (to : ℕ) → Contains places.now to → least ≤ get_or ranks.now to 0 }
{
    for place in places {
        if rank_at(ranks, *place) < least {
            return false;
        }
    }
    true
}

fn rank_at(ranks: &[usize], place: usize) -> usize
    ensures { result ≡ get_or ranks.now place 0 }
{
    match ranks.get(place) {
        Some(rank) => *rank,
        None => 0,
    }
}

/// For each place those that lead to it.
fn coming_to(alloc: Global, links: &[List<usize>]) -> Result<List<List<usize>>, Memory> {
    let mut coming = List::new(alloc);
    for _ in links {
        coming.push(List::new(alloc))?;
    }
    for (from, places) in links.iter().enumerate() {
        put_coming(from, places.as_slice(), &mut coming)?;
    }
    Ok(coming)
}

fn put_coming(from: usize, places: &[usize], coming: &mut List<List<usize>>) -> Result<(), Memory> {
    for place in places {
        if let Some(list) = coming.get_mut(*place) {
            list.push(from)?;
        }
    }
    Ok(())
}

/// A step of a walk along the links: to a place, or back from it.
#[derive(Clone, Copy, Drop)]
enum Step {
    To(usize),
    Back(usize),
}

/// The places in the order in which a walk along the links comes back from them.
fn order_of(alloc: Global, links: &[List<usize>]) -> Result<List<usize>, Memory> {
    let mut seen = none_seen(alloc, links.len())?;
    let mut order = List::new(alloc);
    let mut steps = first_steps(alloc, links.len())?;
    for _ in 0..most_steps(links) {
        match steps.pop() {
            Some(Step::To(place)) => go_to(links, place, &mut seen, &mut steps)?,
            Some(Step::Back(place)) => order.push(place)?,
            None => break,
        }
    }
    Ok(order)
}

fn first_steps(alloc: Global, count: usize) -> Result<List<Step>, Memory> {
    let mut steps = List::new(alloc);
    for place in 0..count {
        steps.push(Step::To(place))?;
    }
    Ok(steps)
}

/// As many steps as there are: two for each place, and one for each link.
fn most_steps(links: &[List<usize>]) -> usize {
    let mut most = links.len().saturating_mul(2);
    for places in links {
        most = most.saturating_add(places.len());
    }
    most
}

/// Where a place wasn't seen yet, the steps to all that it leads to come next, and then that back from it.
fn go_to(
    links: &[List<usize>],
    place: usize,
    seen: &mut List<bool>,
    steps: &mut List<Step>,
) -> Result<(), Memory> {
    if place < seen.len() && !seen.replace(place, true) {
        steps.push(Step::Back(place))?;
        if let Some(places) = links.get(place) {
            for to in places.as_slice() {
                steps.push(Step::To(*to))?;
            }
        }
    }
    Ok(())
}

fn none_seen(alloc: Global, count: usize) -> Result<List<bool>, Memory> {
    let mut seen = List::new(alloc);
    for _ in 0..count {
        seen.push(false)?;
    }
    Ok(seen)
}

/// The rank of those that have none yet.
const UNRANKED: usize = usize::MAX;

fn same_ranks(alloc: Global, count: usize) -> Result<List<usize>, Memory> {
    let mut ranks = List::new(alloc);
    for _ in 0..count {
        ranks.push(UNRANKED)?;
    }
    Ok(ranks)
}

/// Gives a place a rank, and all that come to it, where they have none yet.
fn rank_all(
    alloc: Global,
    coming: &[List<usize>],
    place: usize,
    rank: usize,
    ranks: &mut List<usize>,
) -> Result<(), Memory> {
    let mut next = List::new(alloc);
    rank_one(place, rank, ranks, &mut next)?;
    for _ in 0..coming.len() {
        let Some(at) = next.pop() else { break };
        if let Some(places) = coming.get(at) {
            rank_each(places.as_slice(), rank, ranks, &mut next)?;
        }
    }
    Ok(())
}

fn rank_each(
    places: &[usize],
    rank: usize,
    ranks: &mut List<usize>,
    next: &mut List<usize>,
) -> Result<(), Memory> {
    for place in places {
        rank_one(*place, rank, ranks, next)?;
    }
    Ok(())
}

fn rank_one(
    place: usize,
    rank: usize,
    ranks: &mut List<usize>,
    next: &mut List<usize>,
) -> Result<(), Memory> {
    if ranks.as_slice().get(place) == Some(&UNRANKED) {
        ranks.replace(place, rank);
        next.push(place)?;
    }
    Ok(())
}
