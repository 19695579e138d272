ghost use Rattle.std.specs.Prelude.{◌≡◌, false, IfOk, Ok};
ghost use Rattle.std.specs.Option.{option_copied};

use crate::list::List;
use crate::memory::Memory;
use crate::text::Text;
use crate::try_copy::TryCopy;
use std::alloc::Global;

/// Makes the members of a record, as copies or by calls, and remembers whether memory was wanting for one of them. So the
/// record is made in one expression, and a want of memory has one way out.
#[derive(Drop)]
pub struct Copier {
    pub alloc: Global,
    pub failed: bool,
}

impl Copier {
    /// A copier that made nothing yet. No memory.
    pub fn new(alloc: Global) -> Copier {
        Copier {
            alloc,
            failed: false,
        }
    }

    /// The copy of a text, the empty text where there is no memory for it.
    pub fn text(&mut self, value: &Text) -> Text
        ensures kept { self.new.failed ≡ false → self.old.failed ≡ false }
        ensures same { self.new.failed ≡ false → result ≡ value.now }
    {
        match value.copy(self.alloc) {
            Ok(copy) => copy,
            Err(Memory) => {
                self.failed = true;
                Text::new(self.alloc)
            }
        }
    }

    /// The copy of a list, the empty list where there is no memory for it.
    pub fn list<T: TryCopy + Drop>(&mut self, value: &List<T>) -> List<T>
        ensures kept { self.new.failed ≡ false → self.old.failed ≡ false }
        ensures same { self.new.failed ≡ false → result ≡ value.now }
    {
        match value.copy(self.alloc) {
            Ok(copy) => copy,
            Err(Memory) => {
                self.failed = true;
                List::new(self.alloc)
            }
        }
    }

    /// The copy of a member that there may be, None where there is no memory for it.
    pub fn option<T: TryCopy + Drop>(&mut self, value: &Option<T>) -> Option<T>
        ensures kept { self.new.failed ≡ false → self.old.failed ≡ false }
        ensures same { self.new.failed ≡ false → result ≡ value.now }
    {
        match value.copy(self.alloc) {
            Ok(copy) => copy,
            Err(Memory) => {
                self.failed = true;
                None
            }
        }
    }

    /// The copy of what there may be elsewhere, None where there is no memory for it.
    pub fn copy<T: TryCopy + Drop>(&mut self, value: Option<&T>) -> Option<T>
        ensures kept { self.new.failed ≡ false → self.old.failed ≡ false }
        ensures same { self.new.failed ≡ false → result ≡ option_copied value.entry }
    {
        let Some(value) = value else {
            return None;
        };
        match value.copy(self.alloc) {
            Ok(copy) => Some(copy),
            Err(Memory) => {
                self.failed = true;
                None
            }
        }
    }

    /// What a call has made, None where there was no memory for it. No memory.
    pub fn made<T: Drop>(&mut self, made: Result<Option<T>, Memory>) -> Option<T>
        ensures kept { self.new.failed ≡ false → self.old.failed ≡ false }
        ensures same { self.new.failed ≡ false → made ≡ Ok result }
    {
        match made {
            Ok(made) => made,
            Err(Memory) => {
                self.failed = true;
                None
            }
        }
    }

    /// The record that was made of the members, where there was memory for each of them. No memory.
    pub fn whole<T: Drop>(self, made: T) -> Result<T, Memory>
        ensures unfailed { IfOk result (λ _. self.failed ≡ false) }
        ensures same { IfOk result (λ whole. whole ≡ made) }
    {
        if self.failed {
            return Err(Memory);
        }
        Ok(made)
    }
}
