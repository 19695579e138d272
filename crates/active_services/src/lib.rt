//! Which services of a model are active: those that profiles enable, without their optional dependencies on others, by the
//! Compose Specification's rules for `profiles` and for `required` under `depends_on`.
//!
//! The contract of `keep_active` says the tree that is kept, or the first refusal: the least service, and of its
//! dependencies the least one, that requires a service that isn't enabled. Laws say that neither the order of profiles
//! counts nor how often one is given, that a service is kept exactly where it is enabled, that what is kept depends on
//! no other service of the model, and that a model all of whose services are enabled stays.
#![tactic(auto)]

mod active;
mod attribute;
mod enabled;
mod given;
mod kept;
mod laws;
mod refusal;
mod unmet;

pub use active::keep_active;
pub use given::profiles_given;
pub use laws::{
    active_services_need_no_other, enabled_models_stay, enabled_services_are_kept,
    order_of_profiles_is_free,
};
pub use refusal::ActiveRefusal;
