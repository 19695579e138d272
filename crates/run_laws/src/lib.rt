//! Laws of runs above their definitions alone, so that they hold of whatever carries a plan out, and whole journals worked
//! out. Nothing in this crate runs: its functions have no code of their own, and their contracts are what is proved.
//!
//! `laws` and `orders` have the laws: of plans, of legal journals, of observations, and that a run's actions can be carried
//! out in some order, also where a rolling update makes some of them wait for others; `sparing` that runs, wherever they
//! were cut off, spare the containers that their slots keep. `worked` has the definitions of `run_model` worked out on
//! whole journals, and `worlds` applies the laws of `world_laws` and `cut_laws` to some of these, so that their
//! premises are seen to be met.
#![tactic(auto)]

mod laws;
mod orders;
mod sparing;
mod worked;
mod worlds;

pub use laws::{
    actions_are_claimed_once, asks_are_answered, claims_are_allowed, each_exchange_is_asked,
    kept_are_left_alone, planned_is_plan, refusal_changes_nothing, runs_have_plans, seen_is_told,
    status_is_zero_without_fault, unrolled_is_planned,
};
pub use orders::runs_are_orderly;
pub use sparing::{cut_run_spares_kept, cut_runs_spare_kept};
pub use worked::{
    failed_condition_is_refused, four_services_come_up, lost_create_is_found,
    lost_create_is_made_once, missing_image_is_refused, name_in_use_is_refused,
    needed_service_is_updated, observations_of_two_networks, one_service_comes_up,
    one_service_is_exact, plans_of_two_networks, plans_of_updates, runs_end_early,
    second_run_and_down, two_workers_take_turns, workers_find_other_work,
};
pub use worlds::{
    lost_create_stands_once, one_service_is_gone, one_service_is_held_exactly,
    paused_run_has_a_world, two_networks_are_held_exactly,
};
