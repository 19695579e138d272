ghost use Rattle.std.specs.Prelude.{◌≡◌, map};
ghost use Rattle.compose_words.specs.Table.{option_named, option_assigned, command_named, is_named, is_assignable, names_of, option_table, command_table, serves, takes_value, word_of, is_word};
ghost use Rattle.compose_words.specs.Usage.{shown_command, shown_commands, shown_option, shown_options};

use tree_base::limits::{MOST_CONNECTIONS, MOST_SECONDS, MOST_SIMULATED};

/// What an option is for, whatever its names on the command line are.
#[derive(Clone, Copy, PartialEq, Eq)]
pub enum OptionName {
    File,
    ProjectName,
    ProjectDirectory,
    Profile,
    EnvFile,
    Parallel,
    Socket,
    Memory,
    StopFile,
    Format,
    Quiet,
    Detach,
    RemoveOrphans,
    Wait,
    WaitTimeout,
    Volumes,
    Timeout,
    Scale,
    Connections,
}

/// What a command does, whatever its word on the command line is.
#[derive(Clone, Copy, PartialEq, Eq)]
pub enum CommandName {
    Config,
    Up,
    Down,
    Simulate,
    Wait,
    Logs,
    EngineSim,
}

/// The kind of value that belongs to an option or a command.
#[derive(Clone, Copy)]
pub enum ValueKind {
    /// None at all.
    Flag,
    /// Any text, the empty one too.
    Text,
    /// A whole number within bounds.
    Number { least: u32, most: u32 },
    /// How many workers there are, with -1 for as many as there may be.
    Workers,
    /// The form of a page: `yaml` or `json`.
    Format,
    /// A service and how many containers it has: `SERVICE=NUM`.
    Scale,
}

/// The commands that an option is for.
#[derive(Clone, Copy)]
pub enum Users {
    Every,
    One(CommandName),
    Two(CommandName, CommandName),
}

/// What holds of an option wherever it is given.
#[derive(Clone, Copy)]
pub struct OptionRule {
    pub name: OptionName,
    pub value: ValueKind,
    /// Whether it may be given again.
    pub repeats: bool,
    pub users: Users,
}

/// What holds of a command.
#[derive(Clone, Copy)]
pub struct CommandRule {
    pub name: CommandName,
    pub value: ValueKind,
}

/// A line of the table of options. `argument` and `help` are for the usage text alone.
#[derive(Clone, Copy)]
pub struct OptionLine {
    pub long: &'static str,
    pub short: Option<&'static str>,
    pub rule: OptionRule,
    pub argument: &'static str,
    pub help: &'static str,
}

/// A line of the table of commands. `argument` and `help` are for the usage text alone.
#[derive(Clone, Copy)]
pub struct CommandLine {
    pub word: &'static str,
    pub rule: CommandRule,
    pub argument: &'static str,
    pub help: &'static str,
}

const SECONDS: ValueKind = ValueKind::Number {
    least: 0,
    most: MOST_SECONDS,
};

const CONNECTIONS: ValueKind = ValueKind::Number {
    least: 1,
    most: MOST_CONNECTIONS,
};

const UP: Users = Users::One(CommandName::Up);

const DOWN: Users = Users::One(CommandName::Down);

const CONFIG: Users = Users::One(CommandName::Config);

const UP_AND_DOWN: Users = Users::Two(CommandName::Up, CommandName::Down);

const ENGINE_SIM: Users = Users::One(CommandName::EngineSim);

const EVERY: Users = Users::Every;

macro_rules! repeats {
    (many) => { true };
    (once) => { false };
}

macro_rules! short {
    (-) => { None };
    ($short:literal) => { Some($short) };
}

macro_rules! option_lines {
    ($($long:literal $short:tt $name:ident: $repeats:ident $value:expr, for $users:expr; $argument:literal $help:literal)*) => {
        [$(OptionLine {
            long: $long,
            short: short!($short),
            rule: OptionRule {
                name: OptionName::$name,
                value: $value,
                repeats: repeats!($repeats),
                users: $users,
            },
            argument: $argument,
            help: $help,
        }),*]
    };
}

/// The table of options. A flag may always be given again.
static OPTIONS: [OptionLine; 19] = option_lines! {
    "--file" "-f" File: many ValueKind::Text, for EVERY; "PATH" "read this Compose file; later ones are merged over earlier ones"
    "--project-name" "-p" ProjectName: once ValueKind::Text, for EVERY; "NAME" "name the project"
    "--project-directory" - ProjectDirectory: once ValueKind::Text, for EVERY; "PATH" "resolve relative paths against this directory"
    "--profile" - Profile: many ValueKind::Text, for EVERY; "NAME" "enable the services of this profile"
    "--env-file" - EnvFile: many ValueKind::Text, for EVERY; "PATH" "take variables from this file"
    "--parallel" - Parallel: once ValueKind::Workers, for EVERY; "N" "use N workers, 1 to 16, or -1 for 16; 4 by default"
    "--socket" - Socket: once ValueKind::Text, for EVERY; "PATH" "reach the Engine at this socket"
    "--memory" - Memory: many ValueKind::Flag, for EVERY; "" "use an Engine in memory, which is empty at first"
    "--stop-file" - StopFile: once ValueKind::Text, for EVERY; "PATH" "stop once there is a file at this path"
    "--format" - Format: once ValueKind::Format, for CONFIG; "yaml|json" "print the page in this form; yaml by default"
    "--quiet" "-q" Quiet: many ValueKind::Flag, for CONFIG; "" "check the project and print nothing"
    "--detach" "-d" Detach: many ValueKind::Flag, for UP; "" "leave the containers running, as up always does"
    "--remove-orphans" - RemoveOrphans: many ValueKind::Flag, for UP_AND_DOWN; "" "remove containers of services that the project lacks"
    "--wait" - Wait: many ValueKind::Flag, for UP; "" "wait until the services run, are healthy or have completed"
    "--wait-timeout" - WaitTimeout: once SECONDS, for UP; "N" "wait for at most N seconds"
    "--volumes" "-v" Volumes: many ValueKind::Flag, for DOWN; "" "remove the project's volumes too"
    "--timeout" "-t" Timeout: once SECONDS, for DOWN; "N" "give a container N seconds to stop"
    "--scale" - Scale: many ValueKind::Scale, for UP; "SERVICE=N" "run N containers of this service, 0 to 100"
    "--connections" - Connections: once CONNECTIONS, for ENGINE_SIM; "N" "serve N connections, 1 to 1000000"
};

macro_rules! command_lines {
    ($($word:literal $name:ident: $value:expr; $argument:literal $help:literal)*) => {
        [$(CommandLine {
            word: $word,
            rule: CommandRule { name: CommandName::$name, value: $value },
            argument: $argument,
            help: $help,
        }),*]
    };
}

/// The table of commands.
static COMMANDS: [CommandLine; 7] = command_lines! {
    "config" Config: ValueKind::Flag; "" "print the project as one normalized page"
    "up" Up: ValueKind::Flag; "" "create and start what the project declares"
    "down" Down: ValueKind::Flag; "" "stop and remove the project's containers and networks"
    "simulate" Simulate: ValueKind::Number { least: 1, most: MOST_SIMULATED }; "N" "run a project of N services, 1 to 1000, against an Engine in memory"
    "wait" Wait: ValueKind::Flag; "" "wait until the services run, are healthy or have completed"
    "logs" Logs: ValueKind::Flag; "" "print what the project's containers wrote"
    "enginesim" EngineSim: ValueKind::Flag; "" "serve an Engine in memory at a socket"
};

impl OptionLine {
    fn is_named(&self, word: &str) -> bool
        ensures { result ≡ is_named word.now (names_of self.now) }
    {
        self.long == word || self.short == Some(word)
    }

    fn is_assignable(&self, word: &str) -> bool
        ensures { result ≡ is_assignable word.now (names_of self.now) }
    {
        self.long == word && self.rule.value.takes_value()
    }
}

impl CommandLine {
    fn is_word(&self, word: &str) -> bool
        ensures { result ≡ is_word word.now (word_of self.now) }
    {
        self.word == word
    }
}

impl ValueKind {
    /// Whether a value belongs to what takes this kind.
    pub(crate) fn takes_value(self) -> bool
        ensures { result ≡ takes_value self }
    {
        match self {
            ValueKind::Flag => false,
            ValueKind::Text => true,
            ValueKind::Number { .. } => true,
            ValueKind::Workers => true,
            ValueKind::Format => true,
            ValueKind::Scale => true,
        }
    }
}

impl Users {
    /// Whether the option is for this command.
    pub(crate) fn serves(self, command: CommandName) -> bool
        ensures { result ≡ serves self command }
    {
        match self {
            Users::Every => true,
            Users::One(a) => a == command,
            Users::Two(a, b) => a == command || b == command,
        }
    }
}

/// The table of options.
#[tactic(auto, unfolding(crate::specs::Table::option_table, crate::specs::Usage::shown_options))]
pub fn options() -> &'static [OptionLine]
    ensures names { map names_of result.now ≡ option_table }
    ensures shown { map shown_option result.now ≡ shown_options }
{
    &OPTIONS
}

/// The table of commands.
#[tactic(auto, unfolding(crate::specs::Table::command_table, crate::specs::Usage::shown_commands))]
pub fn commands() -> &'static [CommandLine]
    ensures names { map word_of result.now ≡ command_table }
    ensures shown { map shown_command result.now ≡ shown_commands }
{
    &COMMANDS
}

/// The option that a word names.
pub(crate) fn option_named(word: &str) -> Option<OptionRule>
    ensures { result ≡ option_named word.now }
{
    for line in options() {
        if line.is_named(word) {
            return Some(line.rule);
        }
    }
    None
}

/// The option to which a value can be given behind this name and `=`.
pub(crate) fn option_assigned(word: &str) -> Option<OptionRule>
    ensures { result ≡ option_assigned word.now }
{
    for line in options() {
        if line.is_assignable(word) {
            return Some(line.rule);
        }
    }
    None
}

/// The command that a word names.
pub(crate) fn command_named(word: &str) -> Option<CommandRule>
    ensures { result ≡ command_named word.now }
{
    for line in commands() {
        if line.is_word(word) {
            return Some(line.rule);
        }
    }
    None
}
