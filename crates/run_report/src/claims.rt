ghost use Rattle.std.specs.Prelude.{◌≡◌, ◌<◌, ℕ, IfOk, get_or, length, reverse};
ghost use Rattle.run_report.specs.Claims.{claim_place, is_claim_of, was_claimed};
ghost use Rattle.run_report.specs.Rows.{with_claim};

use engine_types::Entry;
use std::alloc::Global;
use tree_base::Memory;

/// For each of so many actions the place of its first claim in a journal; the journal's length where it isn't claimed.
pub(crate) fn claim_places(
    alloc: Global,
    journal: &[Entry],
    count: usize,
) -> Result<Vec<usize>, Memory>
    ensures size { IfOk result (λ claims. length claims.items ≡ count) }
    ensures each { IfOk result (λ claims. (a : ℕ) → a < count
        → get_or claims.items a 0 ≡ claim_place journal.now a) }
{
    let mut claims = vec![in alloc; journal.len(); count]?;
    for at in (0..journal.len()).rev() {
        enter(&mut claims, &journal[at], at);
    }
    Ok(claims)
}

/// Enters the place of an entry at the action that it claims.
fn enter(claims: &mut Vec<usize>, entry: &Entry, place: usize)
    ensures { claims.new.items ≡ with_claim claims.old.items entry.now place }
{
    if let Entry::Claim { action, .. } = entry {
        let action = *action as usize;
        if action < claims.len() {
            claims[action] = place;
        }
    }
}

/// Whether an action was claimed. No memory.
pub(crate) fn was_claimed(past: &[Entry], action: usize) -> bool
    ensures { result ≡ was_claimed (reverse past.now) action }
{
    past.iter().rev().any(|entry| is_claim_of(entry, action))
}

/// Whether an entry is a claim of an action.
pub(crate) fn is_claim_of(entry: &Entry, of: usize) -> bool
    ensures { result ≡ is_claim_of of entry.now }
{
    match entry {
        Entry::Claim { action, .. } => *action as usize == of,
        _ => false,
    }
}
