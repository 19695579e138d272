ghost use Rattle.std.specs.Prelude.{◌≡◌, IfOk};

use crate::memory::Memory;
use crate::text::Text;
use crate::try_copy::TryCopy;
use std::alloc::Global;

/// Where a thing stands in a file: lines and columns count from 1, columns in characters.
#[derive(Clone, Copy, PartialEq, Eq, Debug)]
pub struct Place {
    /// The number of the file among those that were read, from 0.
    pub file: u32,
    pub line: u32,
    pub column: u32,
}

/// A name with its value, as of a variable or a label.
#[derive(Debug, PartialEq, Eq, Drop)]
pub struct Var {
    pub name: Text,
    pub value: Text,
}

impl TryCopy for Var {
    fn copy(&self, alloc: Global) -> Result<Var, Memory> {
        Ok(Var {
            name: self.name.copy(alloc)?,
            value: self.value.copy(alloc)?,
        })
    }
}
