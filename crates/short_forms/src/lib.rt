//! The short forms of the Compose Specification: ports, mounts, durations, sizes, decimals, `KEY=VALUE` and words.
//!
//! Each form is defined as a function on the bytes of the text that gives the value, or nothing where the
//! text isn't of the form. A call answers that value, and `BadForm` exactly where there is none. The
//! calls on numbers take no memory; the others may also answer `Memory`.
#![tactic(auto)]

mod cuts;
mod decimals;
mod digits;
mod durations;
mod fixed_point;
mod form;
mod laws;
mod mounts;
mod pairs;
mod ports;
mod sizes;
mod words;

pub use cuts::cut_text;
pub use decimals::decimal;
pub use digits::number;
pub use durations::duration;
pub use form::{Form, FormRefusal};
pub use laws::{
    decimals_read_back, durations_read_back, long_mounts_read_back, long_ports_read_back,
    plain_words_stay, short_mounts_are_long, short_mounts_read_back, short_ports_are_long,
    short_ports_read_back, sizes_read_back, spelled_words_read,
};
pub use mounts::{Mount, MountKind, read_mount};
pub use pairs::key_value;
pub use ports::{Port, port_number, published_as, read_port};
pub use sizes::size;
pub use words::shell_words;
