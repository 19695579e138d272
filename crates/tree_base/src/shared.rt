ghost use Rattle.std.specs.Prelude.{◌≡◌, IfOk};
ghost use Rattle.std.specs.Map.{keys_of, values_of};

use crate::list::List;
use crate::memory::Memory;
use crate::text::Text;
use crate::text_map::TextMap;
use crate::try_copy::TryCopy;
use std::alloc::Global;
use std::marker::Model;
use std::rc::Rc;

/// A value on the heap with several owners, which contracts see as that value. It stands in memory once, and goes with
/// its last owner.
#[derive(Drop)]
pub struct Shared<T> {
    inner: Rc<T>,
}

impl<T> Model for Shared<T> {
    ghost Value = { T };

    ghost coded = { T.code };

    ghost view = { λ s. s.inner.value };
}

impl<T> Shared<T> {
    /// The value. No memory.
    pub fn get(&self) -> &T
        ensures { result.now ≡ self.now }
    {
        self.inner.as_ref()
    }
}

impl<T: Drop> Shared<T> {
    /// Moves a value to the heap, where it has one owner.
    pub fn new(alloc: Global, value: T) -> Result<Shared<T>, Memory>
        ensures { IfOk result (λ s. s ≡ value) }
    {
        Ok(Shared {
            inner: Rc::new(alloc, value)?,
        })
    }

    /// One more owner of the value, in constant time. It allocates nothing, and fails only where the count of owners
    /// is full.
    pub fn share(&self) -> Result<Shared<T>, Memory>
        ensures { IfOk result (λ s. s ≡ self.now) }
    {
        Ok(Shared {
            inner: self.inner.clone()?,
        })
    }
}

impl<T: TryCopy + Drop> Shared<T> {
    /// The value: its only owner takes it out, with no memory, and any other gets a copy.
    pub fn take(self, alloc: Global) -> Result<T, Memory>
        ensures { IfOk result (λ v. v ≡ self) }
    {
        let Shared { inner } = self;
        match Rc::try_unwrap(inner) {
            Ok(value) => Ok(value),
            Err(shared) => shared.as_ref().copy(alloc),
        }
    }
}

impl<T> Shared<List<T>> {
    /// All items of the list. No memory.
    pub fn as_slice(&self) -> &[T]
        ensures { result.now ≡ self.now }
    {
        self.get().as_slice()
    }
}

impl<V> Shared<TextMap<V>> {
    /// The keys of the map, in order. No memory.
    pub fn keys(&self) -> &[Text]
        ensures { result.now ≡ keys_of self.now }
    {
        self.get().keys()
    }

    /// The values of the map, in the order of their keys. No memory.
    pub fn values(&self) -> &[V]
        ensures { result.now ≡ values_of self.now }
    {
        self.get().values()
    }
}
