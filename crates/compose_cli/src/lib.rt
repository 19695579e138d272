//! The top call of `compose`: from the words of the command line to the exit status.
//!
//! `serial_main` does what the words ask for with one hand, and always returns. Its contract says when it is
//! refused and how, that a refused project sends nothing, and that every hand that was made is handed back; which page
//! `config` prints; and of a project that was run, one and the same in all of this, that the journal is that of a whole run,
//! which exchanges the hand made, how status, refusal and report follow from the journal, that `up` left kept containers
//! alone, and that at status 0 the Engine holds exactly what is declared after `up`, and nothing of it after `down`. Services
//! may extend others and name env files, files may include models, and words or variables may name the project and its
//! profiles.
#![tactic(auto)]

mod aims;
mod ended;
mod page;
mod reaching;
mod run;
mod running;
mod top;

pub use aims::{aim_for, options_for};
pub use compose_config::{ConfigEnd, config_run};
pub use ended::Ended;
pub use page::print_page;
pub use reaching::{Place, place_asked};
pub use run::{refusal_after, refused, write_report, write_text};
pub use top::serial_main;
