ghost use Rattle.std.specs.Prelude.{◌<◌, ◌^◌, length};

use crate::reaching::{Asked, target_of};
use compose_words::Command;
use engine_bodies::request_bytes;
use engine_types::Request;
use http_response::read_response;
use outside_api::{Target, write_on};
use socket_wire::{PATIENCE_SECONDS, Patience, connect, milliseconds};
use std::alloc::Global;
use std::sync::Arc;
use tree_base::{List, Memory, Text, TextMap};
use typed_project::Project;
use volume_notes::volume_note;

/// For how many milliseconds the listing is waited for.
const WAITED: u64 = 2_000;

/// The note on volumes that the project declares and didn't make, behind a run that left them. The Engine is asked for its volumes once
/// more, on a connection of its own, where the project has any.
pub(crate) fn note_on_volumes(
    host: &HostRuntime,
    asked: Asked<'_>,
    command: &Command,
    project: &Project,
) -> Result<Option<Text>, Memory>
    requires { length asked.words.now < 2 ^ 32 }
{
    if !leaves_volumes(command) {
        return Ok(None);
    }
    let declared = own_volumes(host.alloc(), project)?;
    if declared.is_empty() {
        return Ok(None);
    }
    let target = target_of(host.alloc(), asked.words, asked.variables, asked.directory)?;
    let Some(Target::Socket(path)) = target else {
        return Ok(None);
    };
    match listing(host, &path)? {
        Some(body) => volume_note(host.alloc(), &project.name, &declared, body.as_slice()),
        None => Ok(None),
    }
}

fn leaves_volumes(command: &Command) -> bool {
    match command {
        Command::Up { .. } => true,
        Command::Down { volumes, .. } => !*volumes,
        _ => false,
    }
}

/// The names of the volumes of a project that aren't external.
fn own_volumes(alloc: Global, project: &Project) -> Result<TextMap<bool>, Memory> {
    let mut names = TextMap::new(alloc);
    for volume in project.volumes.as_slice() {
        if volume.external() != Some(true) {
            if let Some(name) = volume.name() {
                names.put(name.copy(alloc)?, true)?;
            }
        }
    }
    Ok(names)
}

/// The body of the response of the Engine at a socket to `GET /volumes`; None where there is none.
fn listing(host: &HostRuntime, path: &Text) -> Result<Option<List<u8>>, Memory> {
    let bytes = request_bytes(host.alloc(), &Request::ListVolumes)?;
    let patience = Arc::new(host.alloc(), patience_from(milliseconds(host, 0)))?;
    let Some(mut pipe) = connect(host, path, Some(patience), None) else {
        return Ok(None);
    };
    if write_on(&mut pipe, bytes.as_slice()) < bytes.len() {
        return Ok(None);
    }
    match read_response(host.alloc(), &mut pipe) {
        Ok(response) if response.status == 200 => Ok(Some(response.body)),
        _ => Ok(None),
    }
}

/// The patience that is over so soon behind a time: a connection waits for some time past its deadline.
fn patience_from(now: u64) -> Patience {
    let end = now.saturating_add(WAITED);
    Patience::new(Some(end.saturating_sub(1_000 * PATIENCE_SECONDS)), None)
}
