//! Laws of the hashes of services: above the definitions alone, so that they hold of what the
//! program answers. Nothing in this crate runs.
//!
//! The text under a hash tells of a service each attribute that changes a container: all but
//! `build`, `depends_on`, `deploy`, `profiles`, `pull_policy` and `scale`. The text under the second
//! hash tells beside these the digests of the secrets and configs that the service uses, and nothing
//! else.
#![tactic(auto)]

mod laws;

pub use laws::{own_texts_tell_services, texts_tell_nothing_else, texts_tell_services};
