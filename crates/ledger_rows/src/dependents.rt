ghost use Rattle.std.specs.Prelude.{◌≡◌, ℕ, ◌+◌, ◌<◌, ◌≤◌, ◌==◌, ◌∷◌, ◌++◌, [], length, slice_get, get_or, set, if◌then◌else◌, replicate, IfOk, OnOk, Some};
ghost use Rattle.tree_base.specs.Limits.{count_bound};
ghost use Rattle.ledger_rows.specs.Counts.{counted};

use std::alloc::Global;
use tree_base::{List, Memory};

/// Puts an action last in the row of another one.
pub(crate) fn add(rows: &mut [List<u32>], at: u32, action: u32) -> Result<(), Memory>
    requires { at < length rows.old }
    ensures ok { OnOk result
        (rows.new ≡ set rows.old at (get_or rows.old at [] ++ action ∷ [])) }
{
    let row = &mut rows[at as usize];
    row.push(action)?;
    Ok(())
}

/// Puts an action into the row of each of these, as often as it stands there.
pub fn add_to_all(rows: &mut [List<u32>], needs: &[u32], action: u32) -> Result<(), Memory>
    requires { (i b : ℕ) → slice_get needs.now i ≡ Some b → b < length rows.old }
    ensures ok { OnOk result ((x a : ℕ) → counted (λ b. b == a) (get_or rows.new x [])
        ≡ counted (λ b. b == a) (get_or rows.old x [])
        + (if action == a then counted (λ b. b == x) needs.now else 0)) }
{
    for need in needs {
        add(rows, *need, action)?;
    }
    Ok(())
}

/// Rows turned round: for each action those that have it in their row, as often as it stands there.
pub fn turned(alloc: Global, needs: &[List<u32>]) -> Result<List<List<u32>>, Memory>
    requires small { length needs.now < count_bound }
    requires there { (a i b : ℕ) → slice_get (get_or needs.now a []) i ≡ Some b
        → b < length needs.now }
    ensures size { IfOk result (λ rows. length rows ≡ length needs.now) }
    ensures each { IfOk result (λ rows. (x a : ℕ)
        → counted (λ b. b == a) (get_or rows x [])
        ≡ counted (λ b. b == x) (get_or needs.now a [])) }
{
    let mut rows = empty_rows(alloc, needs.len())?;
    for (at, row) in needs.iter().enumerate() {
        add_to_all(&mut rows, row.as_slice(), at as u32)?;
    }
    Ok(List::from_vec(rows))
}

/// So many empty rows.
pub fn empty_rows(alloc: Global, count: usize) -> Result<Vec<List<u32>>, Memory>
    ensures { IfOk result (λ rows. rows.items ≡ replicate count []) }
{
    let mut rows = Vec::new(alloc);
    for _ in 0..count {
        rows.push(List::new(alloc))?;
    }
    Ok(rows)
}
