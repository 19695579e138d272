ghost use Rattle.std.specs.Prelude.{◌≡◌, IfOk};

use crate::boxed::Boxed;
use crate::list::List;
use crate::memory::Memory;
use crate::shared::Shared;
use crate::text::Text;
use crate::text_map::TextMap;
use crate::tree::{Step, Tree};
use std::alloc::Global;

/// What can be copied where there is memory. A copy equals the value that it copies.
pub trait TryCopy {
    /// A copy. What is `Shared` in it gets one more owner, and the rest has memory of its own.
    fn copy(&self, alloc: Global) -> Result<Self, Memory>
        ensures { IfOk result (λ c. c ≡ self.now) };
}

impl TryCopy for Text {
    fn copy(&self, alloc: Global) -> Result<Text, Memory> {
        Text::copy(self, alloc)
    }
}

impl TryCopy for Tree {
    fn copy(&self, alloc: Global) -> Result<Tree, Memory> {
        Tree::copy(self, alloc)
    }
}

impl TryCopy for Step {
    fn copy(&self, alloc: Global) -> Result<Step, Memory> {
        match self {
            Step::Key(key) => Ok(Step::Key(key.copy(alloc)?)),
            Step::Index(at) => Ok(Step::Index(*at)),
        }
    }
}

impl TryCopy for u8 {
    fn copy(&self, _: Global) -> Result<u8, Memory> {
        Ok(*self)
    }
}

impl TryCopy for u16 {
    fn copy(&self, _: Global) -> Result<u16, Memory> {
        Ok(*self)
    }
}

impl TryCopy for u32 {
    fn copy(&self, _: Global) -> Result<u32, Memory> {
        Ok(*self)
    }
}

impl TryCopy for u64 {
    fn copy(&self, _: Global) -> Result<u64, Memory> {
        Ok(*self)
    }
}

impl TryCopy for i64 {
    fn copy(&self, _: Global) -> Result<i64, Memory> {
        Ok(*self)
    }
}

impl TryCopy for bool {
    fn copy(&self, _: Global) -> Result<bool, Memory> {
        Ok(*self)
    }
}

impl<T: TryCopy + Drop> TryCopy for Option<T> {
    fn copy(&self, alloc: Global) -> Result<Option<T>, Memory> {
        match self {
            None => Ok(None),
            Some(value) => Ok(Some(value.copy(alloc)?)),
        }
    }
}

impl<T: TryCopy + Drop> TryCopy for Boxed<T> {
    fn copy(&self, alloc: Global) -> Result<Boxed<T>, Memory> {
        let copy = self.get().copy(alloc)?;
        Boxed::new(alloc, copy)
    }
}

impl<T: Drop> TryCopy for Shared<T> {
    fn copy(&self, _: Global) -> Result<Shared<T>, Memory> {
        self.share()
    }
}

impl<T: TryCopy + Drop> TryCopy for List<T> {
    fn copy(&self, alloc: Global) -> Result<List<T>, Memory> {
        copy_slice(alloc, self.as_slice())
    }
}

impl<V: TryCopy + Drop> TryCopy for TextMap<V> {
    fn copy(&self, alloc: Global) -> Result<TextMap<V>, Memory> {
        let values = copy_slice(alloc, self.values())?;
        self.with_values(alloc, values)
    }
}

/// Copies of all items of a slice.
pub fn copy_slice<T: TryCopy + Drop>(alloc: Global, items: &[T]) -> Result<List<T>, Memory>
    ensures { IfOk result (λ l. l ≡ items.now) }
{
    let mut copies = List::new(alloc);
    for item in items {
        copies.push(item.copy(alloc)?)?;
    }
    Ok(copies)
}
