//! Loads the Compose files of a call: their trees, merged under the variables of the caller and of env files, with all
//! that their services extend, with the environments of their services, and with the models that they include.
//!
//! The contract of `load` says what is loaded as a run of reads: which path is read next, and what follows what is
//! seen there. Where files tell what they hold, that is one tree or the first refusal; where they don't, some contents
//! of the paths give it.
#![tactic(auto)]

mod default_file;
mod include_item;
mod includes;
mod laws;
mod loading;
mod model;
mod request;
mod sections;
mod services;

pub use laws::{plain_models_are_their_files, told_files_are_loaded};
pub use loaded_files::{Kind, LoadRefusal, Loaded, ServiceAt, upper_variables_win};
pub use loading::load;
pub use request::LoadRequest;
