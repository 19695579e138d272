//! The hashes of a service: by them a container tells whether it was made of the service as it is.
//!
//! The contracts say by definitions on the service the text that is hashed: `old_hash` is of the service alone, `hash` also of the
//! contents of the secrets and configs that it uses. Laws say of which attributes
//! the texts don't hang, and what they tell.
#![tactic(auto)]

mod digest;
mod hashes;
mod laws;
mod used;

pub use digest::FileDigest;
pub use hashes::{hash, old_hash};
pub use laws::{additions_show, changes_show, texts_tell, unhashed_do_not_matter};
