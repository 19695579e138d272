ghost use Rattle.std.specs.Prelude.{◌≡◌, IfOk};
ghost use Rattle.compose_words.specs.Lookups.{command_with, format_in, name_of, number_in, options_with, values_given, first_given, text_in};

use crate::item::Item;
use crate::lookup::{Taker, first_format, first_number, scales};
use crate::refusal::is_given;
use crate::table::{CommandName, OptionName};
use std::alloc::Global;
use tree_base::limits::USUAL_WORKERS;
use tree_base::{List, Memory, Text};

/// How many containers a service has: 0 to 100.
#[derive(Drop)]
pub struct Scale {
    pub service: Text,
    pub number: u32,
}

impl Scale {
    /// A copy.
    pub(crate) fn copy(&self, alloc: Global) -> Result<Scale, Memory>
        ensures { IfOk result (λ copy. copy ≡ self.now) }
    {
        Ok(Scale {
            service: self.service.copy(alloc)?,
            number: self.number,
        })
    }
}

/// A command with its options, as a command line gives them. Paths and names stand as they were given.
#[derive(Drop)]
pub struct Options {
    /// The command with its own options.
    pub command: Command,
    /// `--file`, in order.
    pub files: List<Text>,
    /// `--project-name`.
    pub project: Option<Text>,
    /// `--project-directory`.
    pub directory: Option<Text>,
    /// `--profile`, in order.
    pub profiles: List<Text>,
    /// `--env-file`, in order.
    pub env_files: List<Text>,
    /// `--parallel`: 1 to 16 workers.
    pub parallel: u32,
    /// `--socket`.
    pub socket: Option<Text>,
    /// `--memory`.
    pub in_memory: bool,
    /// `--stop-file`.
    pub stop_file: Option<Text>,
}

/// A command with the options that are its own. Times are in seconds, at most 1,000,000.
#[derive(Drop)]
pub enum Command {
    /// Prints the project: as JSON, or nothing at all.
    Config {
        json: bool,
        quiet: bool,
    },
    /// Creates and starts what the project declares.
    Up {
        orphans: bool,
        wait: bool,
        wait_seconds: Option<u32>,
        /// `--scale`, in order.
        scale: List<Scale>,
    },
    /// Stops and removes it.
    Down {
        orphans: bool,
        volumes: bool,
        seconds: Option<u32>,
    },
    /// Runs a project of so many services against an Engine in memory, 1 to 1,000.
    Simulate {
        number: u32,
    },
    /// Waits until the project's services have reached their goals.
    Wait,
    /// Prints what the project's containers wrote.
    Logs,
    /// Serves so many connections to an Engine in memory, 1 to 1,000,000.
    EngineSim {
        connections: u32,
    },
}

/// A command with its number alone.
#[derive(Clone, Copy)]
pub enum Verb {
    Config,
    Up,
    Down,
    Simulate(u32),
    Wait,
    Logs,
    EngineSim,
}

impl Verb {
    /// The command without its number.
    pub(crate) fn name(self) -> CommandName
        ensures { result ≡ name_of self }
    {
        match self {
            Verb::Config => CommandName::Config,
            Verb::Up => CommandName::Up,
            Verb::Down => CommandName::Down,
            Verb::Simulate(_) => CommandName::Simulate,
            Verb::Wait => CommandName::Wait,
            Verb::Logs => CommandName::Logs,
            Verb::EngineSim => CommandName::EngineSim,
        }
    }
}

/// The command with its own options.
fn command_with(alloc: Global, verb: Verb, items: &[Item]) -> Result<Command, Memory>
    ensures { IfOk result (λ command. command ≡ command_with verb items.now) }
{
    match verb {
        Verb::Config => Ok(Command::Config {
            json: first_format(items, OptionName::Format).unwrap_or(false),
            quiet: is_given(items, OptionName::Quiet),
        }),
        Verb::Up => Ok(Command::Up {
            orphans: is_given(items, OptionName::RemoveOrphans),
            wait: is_given(items, OptionName::Wait),
            wait_seconds: first_number(items, OptionName::WaitTimeout),
            scale: scales(alloc, items)?,
        }),
        Verb::Down => Ok(Command::Down {
            orphans: is_given(items, OptionName::RemoveOrphans),
            volumes: is_given(items, OptionName::Volumes),
            seconds: first_number(items, OptionName::Timeout),
        }),
        Verb::Simulate(number) => Ok(Command::Simulate { number }),
        Verb::Wait => Ok(Command::Wait),
        Verb::Logs => Ok(Command::Logs),
        Verb::EngineSim => Ok(Command::EngineSim {
            connections: first_number(items, OptionName::Connections).unwrap_or(1),
        }),
    }
}

/// The command and its options as a whole.
pub(crate) fn options_with(alloc: Global, verb: Verb, items: &[Item]) -> Result<Options, Memory>
    ensures { IfOk result (λ options. options ≡ options_with verb items.now) }
{
    let command = command_with(alloc, verb, items)?;
    let workers = first_number(items, OptionName::Parallel);
    let mut taker = Taker::new(alloc);
    let options = Options {
        command,
        files: taker.texts(items, OptionName::File),
        project: taker.first_text(items, OptionName::ProjectName),
        directory: taker.first_text(items, OptionName::ProjectDirectory),
        profiles: taker.texts(items, OptionName::Profile),
        env_files: taker.texts(items, OptionName::EnvFile),
        parallel: workers.unwrap_or(USUAL_WORKERS),
        socket: taker.first_text(items, OptionName::Socket),
        in_memory: is_given(items, OptionName::Memory),
        stop_file: taker.first_text(items, OptionName::StopFile),
    };
    if taker.failed {
        drop(options);
        Err(Memory)
    } else {
        Ok(options)
    }
}
