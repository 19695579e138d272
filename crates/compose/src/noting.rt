ghost use Rattle.std.specs.Prelude.{◌<◌, ◌^◌, length};

use crate::hinting::exchanges_of;
use crate::progress::progress_here;
use crate::reaching::Asked;
use crate::volumes::note_on_volumes;
use compose_cli::Ended;
use compose_words::{Command, Options, read_words};
use engine_plugs::MainHand;
use kept_files::Kept;
use load_again::{LoadedAgain, load_again, project_again, services_in, unset_names};
use notes::{
    attribute_notes, looks_for_file, orphan_note, run_note, say_note, unread_note, unset_note,
};
use outside_files::Sink;
use progress_board::Progress;
use refusals::Refusal;
use std::alloc::Global;
use std::fs;
use tree_base::{Env, Memory, Text};

/// The names under which a project's file is looked for, where none is given.
const DEFAULT_NAMES: [&str; 4] = [
    "compose.yaml",
    "compose.yml",
    "docker-compose.yml",
    "docker-compose.yaml",
];

/// The names under which docker compose looks for a file to lay over that one.
const OVERRIDE_NAMES: [&str; 4] = [
    "compose.override.yml",
    "compose.override.yaml",
    "docker-compose.override.yml",
    "docker-compose.override.yaml",
];

/// Whether notes are said: where the program says what it is at.
pub(crate) fn says_notes(host: &HostRuntime, variables: &Env) -> bool {
    progress_here(host, variables) != Progress::Quiet
}

/// Writes notes behind all lines of a call, where it says what it is at. The call's status is what it is, whatever comes of them.
pub(crate) fn say_notes_on<R, G: Sink>(
    host: &HostRuntime,
    asked: Asked<'_>,
    ended: &Ended<MainHand<'_, R>>,
    kept: Option<Kept>,
    err: &mut G,
)
    requires { length asked.words.now < 2 ^ 32 }
{
    if !says_notes(host, asked.variables) {
        return;
    }
    let Ok(options) = read_words(host.alloc(), asked.words) else {
        return;
    };
    say_if_any(host.alloc(), file_note(host, &options), err);
    if let Some(mut again) = loaded_again(host.alloc(), asked, &options, ended, kept) {
        say_unset(host.alloc(), &mut again, err);
        say_on_project(host, asked, &options, &again, ended, err);
        // By calls, here and below: else all drops would be proved at each way out.
        drop(again);
    }
    say_if_any(
        host.alloc(),
        note_behind(host.alloc(), &options.command, ended),
        err,
    );
}

fn say_if_any<G: Sink>(alloc: Global, note: Result<Option<Text>, Memory>, err: &mut G) {
    if let Ok(Some(note)) = note {
        say_note(alloc, &note, err);
    }
}

/// What the call loaded, once more, where all that it read is kept.
fn loaded_again<R>(
    alloc: Global,
    asked: Asked<'_>,
    options: &Options,
    ended: &Ended<MainHand<'_, R>>,
    kept: Option<Kept>,
) -> Option<LoadedAgain> {
    if !has_loaded(&ended.refusal) {
        drop(kept);
        return None;
    }
    load_again(alloc, asked.variables, asked.directory, options, kept?)
}

/// Whether a call that was refused with this, if anything, has loaded its files.
fn has_loaded(refusal: &Option<Refusal>) -> bool {
    match refusal {
        Some(Refusal::Words(_) | Refusal::NotBuilt(_) | Refusal::Load(_) | Refusal::Memory) => {
            false
        }
        _ => true,
    }
}

/// Writes a note on each variable that is unset and has no default.
fn say_unset<G: Sink>(alloc: Global, again: &mut LoadedAgain, err: &mut G) {
    let Ok(names) = unset_names(alloc, again) else {
        return;
    };
    for name in names.keys() {
        if let Ok(note) = unset_note(alloc, name) {
            say_note(alloc, &note, err);
        }
    }
}

/// Writes notes on attributes that have no effect, on orphans that stay, and behind a run that ended well on volumes of others.
fn say_on_project<R, G: Sink>(
    host: &HostRuntime,
    asked: Asked<'_>,
    options: &Options,
    again: &LoadedAgain,
    ended: &Ended<MainHand<'_, R>>,
    err: &mut G,
)
    requires { length asked.words.now < 2 ^ 32 }
{
    let alloc = host.alloc();
    let Some(project) = project_again(alloc, options, &again.loaded) else {
        return;
    };
    if let Ok(notes) = attribute_notes(alloc, project.services.as_slice()) {
        for note in notes.as_slice() {
            say_note(alloc, note, err);
        }
    }
    let note = left_by_up(alloc, &options.command, &project.name, again, ended);
    say_if_any(alloc, note, err);
    if ended.refusal.is_none() {
        let note = note_on_volumes(host, asked, &options.command, &project);
        say_if_any(alloc, note, err);
    }
    drop(project);
}

/// The note on orphans that an `up` left.
fn left_by_up<R>(
    alloc: Global,
    command: &Command,
    project: &Text,
    again: &LoadedAgain,
    ended: &Ended<MainHand<'_, R>>,
) -> Result<Option<Text>, Memory> {
    let Some(services) = services_in(&again.loaded.tree) else {
        return Ok(None);
    };
    let exchanges = exchanges_of(alloc, ended.hands.as_slice())?;
    orphan_note(alloc, command, project, services, exchanges.as_slice())
}

/// The note on a file beside the default one, where the call looks for that one.
fn file_note(host: &HostRuntime, options: &Options) -> Result<Option<Text>, Memory> {
    if !looks_for_file(options) {
        return Ok(None);
    }
    let folder = match &options.directory {
        Some(directory) => directory.as_str(),
        None => ".",
    };
    if first_file(host, folder, &DEFAULT_NAMES)?.is_none() {
        return Ok(None);
    }
    match first_file(host, folder, &OVERRIDE_NAMES)? {
        Some(name) => Ok(Some(unread_note(host.alloc(), name)?)),
        None => Ok(None),
    }
}

/// The first of some names under which a file is in a folder, which is taken against the process's own.
fn first_file<'a>(
    host: &HostRuntime,
    folder: &str,
    names: &[&'a str],
) -> Result<Option<&'a str>, Memory> {
    for name in names {
        let mut path = Text::from_str(host.alloc(), folder)?;
        path.push_str("/")?;
        path.push_str(*name)?;
        if is_file(host, path.as_str()) {
            return Ok(Some(*name));
        }
    }
    Ok(None)
}

fn is_file(host: &HostRuntime, path: &str) -> bool {
    match fs::metadata(host, path) {
        Ok(found) => found.is_file(),
        Err(_) => false,
    }
}

/// The note on what a run left.
fn note_behind<R>(
    alloc: Global,
    command: &Command,
    ended: &Ended<MainHand<'_, R>>,
) -> Result<Option<Text>, Memory> {
    let exchanges = exchanges_of(alloc, ended.hands.as_slice())?;
    run_note(
        alloc,
        command,
        ended.refusal.is_none(),
        exchanges.as_slice(),
    )
}
