//! How many containers the services of a project have, and what each of them waits for.
//!
//! Each call is exact by its definition; only want of memory is free. `ranges` numbers the slots of all services, `needs` says what a
//! slot of a service waits for by these numbers, and `unknown_scale`, `need_count` and `twice_named` what a declared set is refused for.
#![tactic(auto)]

mod counts;
mod deploy;
mod goals;
mod named;
mod refusing;
mod waits;

pub use compose_words::Scale;
pub use counts::{Range, ranges, scale};
pub use deploy::roll;
pub use goals::{awaited, goal};
pub use named::{has_build, image, name, policy, stop_seconds};
pub use refusing::{twice_named, unknown_scale};
pub use waits::{depends_on, need_count, needs};
