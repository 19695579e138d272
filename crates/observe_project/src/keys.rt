ghost use Rattle.std.specs.Prelude.{◌≡◌, is_some, IfOk, OnOk};
ghost use Rattle.tree_base.specs.Entries.{value_at, with_entry};

use std::alloc::Global;
use tree_base::{Memory, Text, TextMap};

/// Puts a key among those that are known, and answers whether it was there.
pub(crate) fn put_key(alloc: Global, known: &mut TextMap<()>, key: &Text) -> Result<bool, Memory>
    ensures was { IfOk result (λ was. was ≡ is_some (value_at known.old key.now)) }
    ensures put { OnOk result (known.new ≡ with_entry known.old key.now tt) }
{
    let key = key.copy(alloc)?;
    let before = known.put(key, ())?;
    Ok(before.is_some())
}
