//! Which attribute is merged how, and which has a short form: two tables of paths, a line an attribute (Compose Specification,
//! "Merge" and the short syntaxes), with the spots of a file by which a walk reads them; and why trees aren't merged.
//!
//! A spot says exactly the lines that are left below it. What is refused has its path from the file's root.
#![tactic(auto)]

mod refusal;
mod rules;
mod short_spot;
mod spot;

pub use refusal::{MergeRefusal, from_root, place, with_step, within};
pub use rules::{EntryForm, EntryKind, Joining, PairForm, ShortForm, Standing};
pub use short_spot::{ShortSpot, form_at, short_spot_below};
pub use spot::{Spot, joining_at, spot_below};
