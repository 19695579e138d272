ghost use Rattle.std.specs.Prelude.{◌≡◌, ◌++◌, map, replicate, IfOk, OnOk};
ghost use Rattle.std.specs.Option.{option_copied};
ghost use Rattle.compose_words.specs.Printed.{version};
ghost use Rattle.compose_words.specs.Table.{names_of, word_of};
ghost use Rattle.compose_words.specs.Usage.{argument_text, command_text, command_word, commands_head, explained, lines_of, option_text, options_head, short_text, shown_command, shown_option, usage, usage_end, users_text};

use crate::table::{CommandLine, CommandName, OptionLine, Users, commands, options};
use std::alloc::Global;
use tree_base::{Memory, Text};

const HEAD: &str = "Usage: compose [OPTION..] COMMAND [OPTION..]

Takes a Compose project to running containers.

Commands:
";

const OPTIONS_HEAD: &str = "
Options, before or behind the command; a value is the next word, or stands behind `=`:
";

const TAIL: &str = "
compose --help and compose --version print this text and the version.

A command that isn't built yet is read, and then refused by the line `not built: words`.

Exit statuses:
  0  done
  1  the command line is refused, or DOCKER_HOST isn't a unix:// address
  2  the project is refused
  3  the Engine refused a request, or the project doesn't fit what is there
  4  a condition of a service failed
  5  stopped by the stop file
  6  the time was over, or a run took too many steps
  7  a file, the output or the Engine's connection failed
  8  a limit was passed
  9  no memory was left
";

const VERSION: &str = "compose 0.1.0
";

/// The column at which the explanations begin.
const COLUMN: usize = 32;

/// The text for `--help`: each command and each option of the table on a line of its own, and the exit
/// statuses.
#[tactic(auto, unfolding(crate::specs::Usage::usage))]
pub fn help_text(alloc: Global) -> Result<Text, Memory>
    ensures { IfOk result (λ text. text ≡ usage) }
{
    let mut text = head_text(alloc)?;
    push_commands(alloc, &mut text, commands())?;
    push_options_head(&mut text)?;
    push_options(alloc, &mut text, options())?;
    push_end(&mut text)?;
    Ok(text)
}

#[tactic(auto, unfolding(crate::specs::Usage::commands_head))]
fn head_text(alloc: Global) -> Result<Text, Memory>
    ensures { IfOk result (λ text. text ≡ commands_head) }
{
    Text::from_str(alloc, HEAD)
}

#[tactic(auto, unfolding(crate::specs::Usage::options_head))]
fn push_options_head(text: &mut Text) -> Result<(), Memory>
    ensures { OnOk result (text.new ≡ text.old ++ options_head) }
{
    text.push_str(OPTIONS_HEAD)
}

#[tactic(auto, unfolding(crate::specs::Usage::usage_end))]
fn push_end(text: &mut Text) -> Result<(), Memory>
    ensures { OnOk result (text.new ≡ text.old ++ usage_end) }
{
    text.push_str(TAIL)
}

/// The text for `--version`.
pub fn version_text(alloc: Global) -> Result<Text, Memory>
    ensures { IfOk result (λ text. text ≡ version) }
{
    Text::from_str(alloc, VERSION)
}

/// Puts a line for each command.
fn push_commands(alloc: Global, text: &mut Text, lines: &[CommandLine]) -> Result<(), Memory>
    ensures { OnOk result (text.new ≡ text.old ++
        lines_of command_text (map word_of lines.now) (map shown_command lines.now)) }
{
    for line in lines {
        push_command(alloc, text, line)?;
    }
    Ok(())
}

/// Puts a line for each option.
fn push_options(alloc: Global, text: &mut Text, lines: &[OptionLine]) -> Result<(), Memory>
    ensures { OnOk result (text.new ≡ text.old ++
        lines_of option_text (map names_of lines.now) (map shown_option lines.now)) }
{
    for line in lines {
        push_option(alloc, text, line)?;
    }
    Ok(())
}

fn push_command(alloc: Global, text: &mut Text, line: &CommandLine) -> Result<(), Memory>
    ensures { OnOk result (text.new ≡ text.old ++
        command_text (word_of line.now) (shown_command line.now)) }
{
    let mut names = Text::from_str(alloc, "  ")?;
    names.push_str(line.word)?;
    push_argument(&mut names, line.argument)?;
    push_explained(text, &names, line.help)?;
    text.push_str("\n")
}

fn push_option(alloc: Global, text: &mut Text, line: &OptionLine) -> Result<(), Memory>
    ensures { OnOk result (text.new ≡ text.old ++
        option_text (names_of line.now) (shown_option line.now)) }
{
    let mut names = Text::from_str(alloc, "  ")?;
    push_short(&mut names, line.short)?;
    names.push_str(line.long)?;
    push_argument(&mut names, line.argument)?;
    push_explained(text, &names, line.help)?;
    push_users(text, line.rule.users)?;
    text.push_str("\n")
}

/// Puts an option's short name, or the room of one.
fn push_short(names: &mut Text, short: Option<&str>) -> Result<(), Memory>
    ensures { OnOk result (names.new ≡ names.old ++ short_text (option_copied short.entry)) }
{
    match short {
        Some(short) => {
            names.push_str(short)?;
            names.push_str(", ")
        }
        None => names.push_str("    "),
    }
}

/// Puts the name of a value, where there is one.
fn push_argument(names: &mut Text, argument: &str) -> Result<(), Memory>
    ensures { OnOk result (names.new ≡ names.old ++ argument_text argument.now) }
{
    if argument.is_empty() {
        return Ok(());
    }
    names.push_str(" ")?;
    names.push_str(argument)
}

/// Puts names and, from one column on, what they mean.
fn push_explained(text: &mut Text, names: &Text, help: &str) -> Result<(), Memory>
    ensures { OnOk result (text.new ≡ text.old ++ explained names.now help.now) }
{
    text.push_str(names.as_str())?;
    push_blanks(text, COLUMN.saturating_sub(names.len()))?;
    text.push_str(help)
}

fn push_blanks(text: &mut Text, count: usize) -> Result<(), Memory>
    ensures { OnOk result (text.new ≡ text.old ++ replicate count 32) }
{
    for _ in 0..count {
        text.push_str(" ")?;
    }
    Ok(())
}

/// Puts the commands that an option is for, where it isn't for every one.
fn push_users(text: &mut Text, users: Users) -> Result<(), Memory>
    ensures { OnOk result (text.new ≡ text.old ++ users_text users) }
{
    match users {
        Users::Every => Ok(()),
        Users::One(command) => {
            text.push_str(" (")?;
            text.push_str(word_of(command))?;
            text.push_str(")")
        }
        Users::Two(a, b) => {
            text.push_str(" (")?;
            text.push_str(word_of(a))?;
            text.push_str(", ")?;
            text.push_str(word_of(b))?;
            text.push_str(")")
        }
    }
}

/// The word of a command.
fn word_of(name: CommandName) -> &'static str
    ensures { result.now ≡ command_word name }
{
    for line in commands() {
        if line.rule.name == name {
            return line.word;
        }
    }
    ""
}
