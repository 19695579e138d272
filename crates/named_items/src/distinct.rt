ghost use Rattle.std.specs.Prelude.{◌≡◌, IfOk, map};
ghost use Rattle.std.specs.List.{IsDistinct};
ghost use Rattle.std.specs.Str.{bytes_eq};
ghost use Rattle.tree_base.specs.ByteOrder.{IsAscending, first_of_each, is_before};
ghost use Rattle.named_items.specs.Names.{by_name};

use crate::named::Named;
use indexmap::IndexSet;
use std::alloc::Global;
use tree_base::Memory;

/// The items in byte order of their names, of several with one name the first alone. Memory where there is no memory for it.
pub fn by_name<'a, T: Named>(alloc: Global, items: &'a [T]) -> Result<Vec<&'a T>, Memory>
    ensures rows { IfOk result (λ rows.
        map (λ row. row.now) rows.items ≡ by_name T.known items.now) }
    ensures order { IfOk result (λ rows.
        IsAscending (λ row other. is_before (T.known row) (T.known other))
        (map (λ row. row.now) rows.items)) }
    ensures distinct { IfOk result (λ rows.
        IsDistinct bytes_eq (map T.known (map (λ row. row.now) rows.items))) }
{
    let mut rows = firsts(alloc, items)?;
    rows.sort_by(|one, other| one.known_as().cmp(other.known_as()))?;
    Ok(rows)
}

/// The items, of several with one name the first alone.
fn firsts<'a, T: Named>(alloc: Global, items: &'a [T]) -> Result<Vec<&'a T>, Memory>
    ensures rows { IfOk result (λ rows.
        map (λ row. row.now) rows.items ≡ first_of_each T.known items.now) }
    ensures distinct { IfOk result (λ rows.
        IsDistinct bytes_eq (map T.known (map (λ row. row.now) rows.items))) }
{
    let mut names = IndexSet::new(alloc);
    let mut rows = Vec::new(alloc);
    for item in items {
        let name = item.known_as().copy(alloc)?;
        if names.insert(name)? {
            rows.push(item)?;
        }
    }
    Ok(rows)
}
