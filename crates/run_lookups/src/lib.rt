//! Questions to what a run sees, each answered here and nowhere else: whose a container is, by its labels; whether it
//! agrees with what is declared; which container a slot keeps; whether a container is on a
//! network, and whether it is to go; what a state and a reply mean, which exit status a fault gives, and how a text of an
//! Engine is printed.
//!
//! Contracts say that each answer is the defined one, for any labels and anything seen.
#![tactic(auto)]

mod agreement;
mod kept;
mod labels;
mod names;
mod networks;
mod printed;
mod removal;
mod replies;
mod states;
mod statuses;

pub use agreement::agrees;
pub use kept::{agrees_seen, kept_of};
pub use labels::{
    has_declared_service, has_label, is_of_project, is_of_slot, names_service, names_slot,
};
pub use names::network_name;
pub use networks::has_joined;
pub use printed::shown;
pub use removal::goes;
pub use replies::{is_good, is_well};
pub use states::is_live;
pub use statuses::{logs_refusal_status, outcome_status, seen_status, stream_status};
