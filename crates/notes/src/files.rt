ghost use Rattle.std.specs.Prelude.{◌≡◌, IfOk};
ghost use Rattle.notes.specs.Files.{looks_for_file, reads_files, unread_note};

use compose_words::{Command, Options};
use run_lookups::shown;
use std::alloc::Global;
use tree_base::{Memory, Text};

/// What is said of a file that another program would read, and that isn't read.
pub fn unread_note(alloc: Global, path: &str) -> Result<Text, Memory>
    ensures { IfOk result (λ note. note ≡ unread_note path.now) }
{
    let path = shown(alloc, path)?;
    let note = format!(in alloc;
        "{path} isn't read: files beside the default one are given by -f"
    )?;
    Ok(Text::from_string(note))
}

/// Whether a call looks for the default file: it reads files, and none is given. No memory.
pub fn looks_for_file(options: &Options) -> bool
    ensures { result ≡ looks_for_file options.now }
{
    if options.files.is_empty() {
        reads_files(&options.command)
    } else {
        false
    }
}

fn reads_files(command: &Command) -> bool
    ensures { result ≡ reads_files command.now }
{
    match command {
        Command::Config { .. } => true,
        Command::Up { .. } => true,
        Command::Down { .. } => true,
        _ => false,
    }
}
