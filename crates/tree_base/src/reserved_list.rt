ghost use Rattle.std.specs.Prelude.{◌≡◌, [], ◌∷◌, ◌++◌, ◌+◌, ◌<◌, ◌≤◌, length, slice_get, ◌↔◌, IsTrue, IsOk, OnOk, OnErr, OnSome, MatchOption};
ghost use Rattle.std.specs.Option.{option_copied};

use crate::list::List;
use crate::memory::Memory;
use std::alloc::Global;
use std::marker::Model;

/// A growing list of which contracts also see `spare`, how many pushes can't fail: for logs and journals.
#[derive(Drop)]
pub struct ReservedList<T> {
    items: Vec<T>,
}

impl<T> Model for ReservedList<T> {
    ghost use Rattle.std.specs.Prelude.{◌-◌, vec_len, vec_capacity};
    ghost use Rattle.tree_base.specs.Reserved.{Reserved};

    ghost Value = { Reserved T };

    ghost view = { λ l. record { items = l.items.items; spare = vec_capacity l.items - vec_len l.items } };
}

impl<T> ReservedList<T> {
    /// The empty list. No memory.
    pub fn new(alloc: Global) -> ReservedList<T>
        ensures { result.items ≡ [] }
    {
        ReservedList {
            items: Vec::new(alloc),
        }
    }

    /// A list with its room. No memory.
    pub fn from_list(list: List<T>) -> ReservedList<T>
        ensures { result.items ≡ list }
    {
        ReservedList {
            items: list.into_vec(),
        }
    }

    /// The items without their room. No memory.
    pub fn into_list(self) -> List<T>
        ensures { result ≡ self.items }
    {
        let ReservedList { items } = self;
        List::from_vec(items)
    }

    /// All items. No memory.
    pub fn as_slice(&self) -> &[T]
        ensures { result.now ≡ self.now.items }
    {
        self.items.as_slice()
    }

    /// How many items there are. No memory.
    pub fn len(&self) -> usize
        ensures { result ≡ length self.now.items }
    {
        self.items.len()
    }

    /// Whether there is no item. No memory.
    pub fn is_empty(&self) -> bool
        ensures { IsTrue result ↔ (self.now.items ≡ []) }
    {
        self.items.is_empty()
    }

    /// The item at a place, from 0. No memory.
    pub fn get(&self, at: usize) -> Option<&T>
        ensures { option_copied result ≡ slice_get self.now.items at }
    {
        self.items.get(at)
    }

    /// Takes the last item out, which leaves its room. No memory.
    pub fn pop(&mut self) -> Option<T>
        ensures items { MatchOption result ((self.old.items ≡ []) × (self.new.items ≡ []))
            (λ last. self.old.items ≡ self.new.items ++ last ∷ []) }
        ensures spare { OnSome result (self.new.spare ≡ self.old.spare + 1) }
    {
        self.items.pop()
    }

    /// Takes room for at least `more` pushes.
    pub fn reserve(&mut self, more: usize) -> Result<(), Memory>
        ensures items { self.new.items ≡ self.old.items }
        ensures ok { OnOk result (more ≤ self.new.spare) }
        ensures kept { self.old.spare ≤ self.new.spare }
        ensures succeeds { more ≤ self.old.spare → IsOk result }
    {
        self.items.reserve(more)?;
        Ok(())
    }
}

impl<T: Drop> ReservedList<T> {
    /// Puts an item last, which uses at most one place of the room, and succeeds where there is room.
    pub fn push(&mut self, item: T) -> Result<(), Memory>
        ensures ok { OnOk result (self.new.items ≡ self.old.items ++ item ∷ []) }
        ensures err { OnErr result (self.new.items ≡ self.old.items) }
        ensures spare { self.old.spare ≤ self.new.spare + 1 }
        ensures succeeds { 0 < self.old.spare → IsOk result }
    {
        self.items.push(item)?;
        Ok(())
    }
}
