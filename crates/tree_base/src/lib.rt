//! Texts, lists, maps and trees of text: the ground that every other crate stands on.
//!
//! Contracts see a `Text` as the list of its bytes, a `List` as the list of its items, and a map as the
//! list of its entries in the order of their first puts. Each call is exact by that list, a copy equals
//! the value that it copies, and a call that finds no memory leaves its value as it was. The limits of the
//! whole program stand here too.
#![tactic(auto)]

mod boxed;
mod comparison;
mod copier;
pub mod limits;
mod list;
mod memory;
mod place;
mod reserved_list;
mod shared;
mod size;
mod text;
mod text_map;
mod tree;
mod try_copy;

pub use boxed::Boxed;
pub use copier::Copier;
pub use list::{List, item_at};
pub use memory::Memory;
pub use place::{Place, Var};
pub use reserved_list::ReservedList;
pub use shared::Shared;
pub use size::keys_left;
pub use text::Text;
pub use text_map::{Env, TextMap};
pub use tree::{Map, Path, Step, Tree};
pub use try_copy::{TryCopy, copy_slice};
