//! The program `compose`: it gives the words of the command line, the variables, the working directory, the files of
//! the disk and the standard streams to the top call of `repeated_runs`, and ends with the status that this answers. Questions
//! about the program itself, `--help` and `--version`, it answers before. Behind the line of a call that was refused it may say a hint,
//! and behind all lines notes on what it left.
//!
//! Contracts say what is taken of words, variables and a directory that are told, when there is none of these, and that
//! the status is that of the refusal whose line is written. The process itself tells nothing: there they say nothing.
#![tactic(auto)]

mod directory;
mod ends;
mod given;
mod hinting;
mod made;
mod noting;
mod process;
mod progress;
mod reaching;
mod seconds;
mod volumes;

ghost use Rattle.std.specs.Prelude.{◌<◌, ◌^◌, length};

use compose_words::notice_of;
use directory::working_directory;
use ends::{answer_notice, end, end_without_directory};
use given::{variables, words};
use made::status_of_call;
use outside_files::OutSink;
use refusals::Refusal;
use std::process::ExitCode;
use std::sync::Wait;
use std::thread::Threads;
use tree_base::{List, Text};

fn main(rt: HostRuntime) -> ExitCode {
    ExitCode::from(run(&rt, &rt))
}

/// Answers the words of the command line: the exit status. Whatever starts threads or waits for them does so by the other handle.
fn run<R: Threads + Wait + Sync>(host: &HostRuntime, rt: &R) -> u8 {
    match words(host.alloc(), host) {
        Ok(words) => answer(host, rt, &words),
        Err(refusal) => {
            let mut err = OutSink::new(host.stderr());
            end(host.alloc(), Some(Refusal::Words(refusal)), &mut err)
        }
    }
}

/// Answers a question about the program, or makes the call.
fn answer<R: Threads + Wait + Sync>(host: &HostRuntime, rt: &R, words: &List<Text>) -> u8
    requires { length words.now < 2 ^ 32 }
{
    match notice_of(words) {
        Some(notice) => {
            let mut out = OutSink::new(host.stdout());
            let mut err = OutSink::new(host.stderr());
            answer_notice(host.alloc(), notice, &mut out, &mut err)
        }
        None => call(host, rt, words),
    }
}

/// Makes the top call; none where variables or working directory can't be had.
fn call<R: Threads + Wait + Sync>(host: &HostRuntime, rt: &R, words: &List<Text>) -> u8
    requires { length words.now < 2 ^ 32 }
{
    let mut err = OutSink::new(host.stderr());
    let Ok(variables) = variables(host.alloc(), host) else {
        return end(host.alloc(), Some(Refusal::Memory), &mut err);
    };
    match working_directory(host.alloc(), host, &variables) {
        Ok(directory) => status_of_call(host, rt, words, &variables, &directory),
        Err(refusal) => end_without_directory(refusal, &mut err),
    }
}
