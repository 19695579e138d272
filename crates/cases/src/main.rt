//! The program `cases`: it runs the cases of the files that its words name, prints each that didn't come as wanted,
//! and last how many there were.
//!
//! It ends with status 0 where all came as wanted, 1 where one differs, 2 where a case is none or a file isn't read, 7
//! where the output failed, and 9 for want of memory.
#![tactic(auto)]

mod calls;
mod case_file;
mod case_run;
mod counts;
mod run;
mod stop;

use crate::case_run::run_file;
use crate::run::Run;
use crate::stop::Stop;
use case_files::Line;
use std::env;
use std::process::ExitCode;
use tree_base::Text;

fn main(rt: HostRuntime) -> ExitCode {
    let mut run = Run::new();
    run_words(&rt, &mut run);
    ExitCode::from(run.status())
}

/// Runs the files that the words name, and says the counts.
fn run_words(rt: &HostRuntime, run: &mut Run) {
    match env::args(rt) {
        Ok(words) => {
            for word in words.skip(1) {
                let file = Text::from_string(word);
                run_file(rt, &file, run);
            }
            say_counts(rt, run);
        }
        Err(_) => run.break_off(Stop::Memory),
    }
}

fn say_counts(rt: &HostRuntime, run: &mut Run) {
    let mut line = Line::new(rt.alloc());
    run.counts.say(&mut line);
    line.put("\n");
    run.tell(rt, line);
}
