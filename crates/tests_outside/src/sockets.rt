//! The wire over a Unix socket and the door at one, with both ends of a connection in one thread.

use outside_api::{DialAnswer, Door, Pipe, PipeAnswer, SinkAnswer, Wire};
use socket_wire::{Patience, SocketDoor, SocketPipe, SocketWire, connect};
use std::alloc::Global;
use std::io::{Read, Write};
use std::os::unix::net::{UnixListener, UnixStream};
use std::sync::Arc;
use std::test::Fail;
use std::{env, fs, process};
use tree_base::{Memory, Text};

/// A path among the temporary files that is this process's own.
pub(crate) fn own_path(rt: &HostRuntime, name: &str) -> Result<Text, Fail> {
    let alloc = rt.alloc();
    let name = format!(in alloc; "{name}-{}", process::id(rt.process()))?;
    let path = env::temp_dir(rt)?.join(alloc, name.as_str())?;
    Ok(Text::from_str(alloc, path.as_path().as_str())?)
}

/// The patience of a call with this deadline and this stop file.
fn patience_with(
    alloc: Global,
    deadline: Option<u64>,
    stop_file: Option<Text>,
) -> Result<Arc<Patience>, Memory> {
    Ok(Arc::new(alloc, Patience::new(deadline, stop_file))?)
}

#[test]
fn a_wire_over_a_socket_says_what_it_is_told_and_hears_the_end(
    rt: HostRuntime,
) -> Result<(), Fail> {
    let alloc = rt.alloc();
    let path = own_path(&rt, "compose-socket")?;
    let patience = patience_with(alloc, None, None)?;
    let listener = UnixListener::bind(&rt, path.as_str())?;
    let mut wire = SocketWire::new(&rt, path.copy(alloc)?, patience, None);
    let answer = wire.dial(alloc);
    let removed = fs::remove_file(&rt, path.as_str());
    let said = match answer {
        DialAnswer::Dialled(mut pipe) => {
            let said = speak(&mut pipe, &listener);
            wire.close(pipe);
            said
        }
        _ => panic!(rt; "no connection"),
    };
    let is_gone = matches!(wire.dial(alloc), DialAnswer::Failed);
    drop(wire);
    drop(listener);
    let said = said?;
    removed?;
    assert!(rt; said);
    assert!(rt; is_gone, "where no socket is left");
    Ok(())
}

/// Whether both ends say and hear the same, and then the end.
fn speak(pipe: &mut SocketPipe, listener: &UnixListener) -> Result<bool, Fail> {
    let (mut peer, _) = listener.accept()?;
    let spoken = speak_with(pipe, &mut peer);
    drop(peer);
    Ok(
        spoken?
            && pipe.read(&mut [0u8; 8]) == PipeAnswer::Got(0)
            && pipe.write(b"ask") == SinkAnswer::Failed,
    )
}

fn speak_with(pipe: &mut SocketPipe, peer: &mut UnixStream) -> Result<bool, Fail> {
    let mut room = [0u8; 8];
    let asked = pipe.write(b"ask") == SinkAnswer::Took(3);
    let heard = peer.read(&mut room)? == 3 && &room[..3] == b"ask".as_slice();
    let answered = peer.write(b"answer")? == 6;
    let told = pipe.read(&mut room) == PipeAnswer::Got(6) && &room[..6] == b"answer".as_slice();
    Ok(asked && heard && answered && told)
}

#[test]
fn a_wire_over_a_socket_is_asked_to_stop_by_a_file(rt: HostRuntime) -> Result<(), Fail> {
    let alloc = rt.alloc();
    let path = own_path(&rt, "compose-stop")?;
    let patience = patience_with(alloc, None, Some(path.copy(alloc)?))?;
    let mut wire = SocketWire::new(&rt, Text::new(alloc), patience, None);
    let asked_before = wire.asked();
    let written = fs::write(&rt, path.as_str(), b"");
    let asked = wire.asked();
    let removed = fs::remove_file(&rt, path.as_str());
    drop(wire);
    written?;
    removed?;
    assert!(rt; !asked_before);
    assert!(rt; asked);
    Ok(())
}

#[test]
fn a_pause_of_a_wire_takes_its_time(rt: HostRuntime) -> Result<(), Fail> {
    let patience = patience_with(rt.alloc(), None, None)?;
    let mut wire = SocketWire::new(&rt, Text::new(rt.alloc()), patience, None);
    let before = wire.now();
    wire.pause(2);
    let after = wire.now();
    assert!(rt; before < after);
    Ok(())
}

#[test]
fn a_peer_that_says_nothing_is_left_where_patience_is_over(rt: HostRuntime) -> Result<(), Fail> {
    let (stream, peer) = UnixStream::pair(&rt)?;
    let patience = patience_with(rt.alloc(), Some(0), None)?;
    let mut pipe = SocketPipe::new(&rt, stream, Some(patience), None);
    let heard = pipe.read(&mut [0u8; 8]);
    let said = pipe.write(b"ask");
    drop(pipe);
    drop(peer);
    assert!(rt;
        heard == PipeAnswer::Failed,
        "a minute after the system began"
    );
    assert!(rt; said == SinkAnswer::Took(3), "between two looks");
    Ok(())
}

#[test]
fn a_door_hears_its_peer_and_that_it_went_away(rt: HostRuntime) -> Result<(), Fail> {
    let alloc = rt.alloc();
    let path = own_path(&rt, "compose-door")?;
    let Some(mut door) = SocketDoor::open(&rt, &path) else {
        panic!(rt; "no door");
    };
    let peer = connect(&rt, &path, None, None);
    let answer = door.accept(alloc);
    let removed = fs::remove_file(&rt, path.as_str());
    let (Some(peer), DialAnswer::Dialled(mut pipe)) = (peer, answer) else {
        panic!(rt; "no connection");
    };
    let heard = hears_the_end(&mut pipe, peer);
    let fails = pipe.write(b"answer") == SinkAnswer::Failed;
    door.close(pipe);
    let is_whole = !door.has_failed();
    drop(door);
    removed?;
    assert!(rt; heard);
    assert!(rt; fails, "where the peer is gone");
    assert!(rt;
        is_whole,
        "a connection that failed is no fault of the door"
    );
    Ok(())
}

/// Whether a connection hears what its peer says, and then that it goes away.
fn hears_the_end(pipe: &mut SocketPipe, mut peer: SocketPipe) -> bool {
    let mut room = [0u8; 8];
    let asked = peer.write(b"ask") == SinkAnswer::Took(3);
    drop(peer);
    let heard = pipe.read(&mut room) == PipeAnswer::Got(3) && &room[..3] == b"ask".as_slice();
    asked && heard && pipe.read(&mut room) == PipeAnswer::Got(0)
}

#[test]
fn a_door_takes_the_place_of_a_socket_that_was_left(rt: HostRuntime) -> Result<(), Fail> {
    let path = own_path(&rt, "compose-left")?;
    let first = SocketDoor::open(&rt, &path);
    let is_open = first.is_some();
    let is_taken = SocketDoor::open(&rt, &path).is_none();
    drop(first);
    let is_open_again = SocketDoor::open(&rt, &path).is_some();
    fs::remove_file(&rt, path.as_str())?;
    assert!(rt; is_open);
    assert!(rt; is_taken, "where somebody listens");
    assert!(rt; is_open_again, "where a socket was left");
    Ok(())
}

#[test]
fn a_door_leaves_what_is_no_socket(rt: HostRuntime) -> Result<(), Fail> {
    let path = own_path(&rt, "compose-file")?;
    fs::write(&rt, path.as_str(), b"kept")?;
    let is_shut = SocketDoor::open(&rt, &path).is_none();
    let there = fs::exists(&rt, path.as_str());
    fs::remove_file(&rt, path.as_str())?;
    assert!(rt; is_shut);
    assert!(rt; there?);
    assert!(rt; SocketDoor::open(&rt, &Text::new(rt.alloc())).is_none());
    Ok(())
}
