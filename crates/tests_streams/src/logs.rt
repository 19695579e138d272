//! What a container wrote: frames of two sides (the Engine API's `GET /containers/{id}/logs`), and the lines that they hold. What is
//! wanted was worked out by hand from the format of the frames.

use log_frames::{Cutter, FrameRefusal, LogLine, first_part, frames, part_size};
use std::alloc::Global;
use std::test::Fail;
use tree_base::{List, Memory};

/// A frame of output that ends a line and begins one, one of errors, and one of output that ends what was begun.
const BEGUN: &[u8] = b"\x01\0\0\0\0\0\0\x03a\nb";

const ERRORS: &[u8] = b"\x02\0\0\0\0\0\0\x02x\n";

const ENDED: &[u8] = b"\x01\0\0\0\0\0\0\x02c\n";

const LAST_TWO: &[u8] = b"\x02\0\0\0\0\0\0\x02x\n\x01\0\0\0\0\0\0\x02c\n";

const WHOLE: &[u8] = b"\x01\0\0\0\0\0\0\x03a\nb\x02\0\0\0\0\0\0\x02x\n\x01\0\0\0\0\0\0\x02c\n";

/// The lines of a reply whose parts, each of whole frames, are cut one behind another: output behind `| `, errors behind `! `.
fn printed(alloc: Global, parts: &[&[u8]]) -> Result<List<u8>, FrameRefusal> {
    let mut text = List::new(alloc);
    let mut cutter = Cutter::new(alloc)?;
    for part in parts {
        let found = frames(alloc, part)?;
        let lines = cutter.cut(alloc, part, found.as_slice(), 7)?;
        print(&mut text, lines.as_slice())?;
    }
    let rest = cutter.rest(alloc, 7)?;
    print(&mut text, rest.as_slice())?;
    Ok(text)
}

fn print(text: &mut List<u8>, lines: &[LogLine]) -> Result<(), Memory> {
    for line in lines {
        let side = if line.is_err { b'!' } else { b'|' };
        text.push(side)?;
        text.push(b' ')?;
        text.extend_from_slice(line.text.as_slice())?;
        text.push(b'\n')?;
    }
    Ok(())
}

/// Whether a reply in these parts has these lines.
fn prints(alloc: Global, parts: &[&[u8]], wanted: &[u8]) -> bool {
    match printed(alloc, parts) {
        Ok(text) => text.as_slice() == wanted,
        Err(_) => false,
    }
}

/// Where the first frame of a reply is bad.
fn refused_at(alloc: Global, reply: &[u8]) -> Option<u64> {
    match frames(alloc, reply) {
        Err(FrameRefusal::BadFrame { at }) => Some(at),
        _ => None,
    }
}

#[test]
fn lines_go_over_parts(rt: HostRuntime) {
    let alloc = rt.alloc();
    let wanted = b"| a\n! x\n| bc\n";
    assert!(rt; prints(alloc, &[WHOLE], wanted));
    assert!(rt; prints(alloc, &[BEGUN, ERRORS, ENDED], wanted));
    assert!(rt; prints(alloc, &[BEGUN, LAST_TWO], wanted));
    assert!(rt; prints(alloc, &[], b""));
}

#[test]
fn replies_hold_their_lines(rt: HostRuntime) {
    let alloc = rt.alloc();
    // no frame; empty lines; an open line; open lines of both sides; a carriage return; the kind 0; an empty frame; any byte
    let replies: [(&[u8], &[u8]); 8] = [
        (b"", b""),
        (b"\x01\0\0\0\0\0\0\x02\n\n", b"| \n| \n"),
        (b"\x01\0\0\0\0\0\0\x01a", b"| a\n"),
        (b"\x02\0\0\0\0\0\0\x01e\x01\0\0\0\0\0\0\x01o", b"| o\n! e\n"),
        (b"\x01\0\0\0\0\0\0\x03a\r\n", b"| a\r\n"),
        (b"\0\0\0\0\0\0\0\x02a\n", b"| a\n"),
        (b"\x02\0\0\0\0\0\0\0\x01\0\0\0\0\0\0\x02a\n", b"| a\n"),
        (b"\x01\0\0\0\0\0\0\x02\xff\n", b"| \xff\n"),
    ];
    for (reply, wanted) in replies {
        assert!(rt; prints(alloc, &[reply], wanted), "{reply:?}");
    }
}

#[test]
fn bad_frames_are_refused(rt: HostRuntime) {
    let alloc = rt.alloc();
    // a frame that is cut; a kind 3; a bad frame behind a good one; a byte that isn't zero; seven bytes
    let replies: [(&[u8], u64); 5] = [
        (b"\x01\0\0\0\0\0\0\x03a\n", 0),
        (b"\x03\0\0\0\0\0\0\0", 0),
        (b"\x01\0\0\0\0\0\0\x01a\x03\0\0\0\0\0\0\0", 9),
        (b"\x01\0\x01\0\0\0\0\0", 0),
        (b"\x01\0\0\0\0\0\0", 0),
    ];
    for (reply, at) in replies {
        assert_eq!(rt; refused_at(alloc, reply), Some(at), "{reply:?}");
    }
}

#[test]
fn frames_tell_their_places(rt: HostRuntime) -> Result<(), Fail> {
    let alloc = rt.alloc();
    let Ok(found) = frames(alloc, WHOLE) else {
        return Err(Memory.into());
    };
    let (first, more) = first_part(found.as_slice(), part_size(found.len()));
    assert_eq!(rt; more.len(), 2);
    for frame in first {
        assert_eq!(rt; (frame.kind, frame.start, frame.end), (1, 8, 11));
    }
    for (count, size) in [
        (0, 0),
        (1, 1),
        (8, 1),
        (9, 2),
        (16, 2),
        (17, 3),
        (10_000, 1_250),
    ] {
        assert_eq!(rt; part_size(count), size, "of {count}");
    }
    Ok(())
}
