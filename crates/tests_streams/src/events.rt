//! Bodies of the Engine API's `GET /events`, cut in two at each byte. What is wanted was worked out by hand from the members that the
//! API's schema `EventMessage` names.

use event_watch::{EventReader, EventRefusal};
use std::alloc::Global;
use std::test::Fail;
use tree_base::{List, Memory};

/// No body here tells more events.
const MOST_EVENTS: u32 = 4;

/// What a reader told, an event a line, and the first line that it refused.
#[derive(Drop)]
struct Told {
    lines: List<u8>,
    fed: Result<(), EventRefusal>,
}

/// Reads a body that comes in two pieces, and takes events behind each.
fn read(alloc: Global, body: &[u8], cut: usize) -> Result<Told, Memory> {
    let mut reader = EventReader::new(alloc)?;
    let mut told = List::new(alloc);
    let (first, more) = body.split_at(cut.min(body.len()));
    let fed = match reader.feed(alloc, first) {
        Ok(()) => {
            put_told(&mut reader, &mut told)?;
            reader.feed(alloc, more)
        }
        Err(refusal) => Err(refusal),
    };
    put_told(&mut reader, &mut told)?;
    Ok(Told { lines: told, fed })
}

fn put_told(reader: &mut EventReader, told: &mut List<u8>) -> Result<(), Memory> {
    for _ in 0..MOST_EVENTS {
        if let Some(event) = reader.take() {
            told.extend_from_slice(event.id.as_str().as_bytes())?;
            told.push(b' ')?;
            told.extend_from_slice(event.action.as_str().as_bytes())?;
            told.push(b'\n')?;
        }
    }
    Ok(())
}

#[test]
fn events_are_those_of_all_bytes(rt: HostRuntime) -> Result<(), Fail> {
    let alloc = rt.alloc();
    // two lines; blank lines and CRLF; a last part without its end; other members; white space
    let bodies: [(&str, &str); 5] = [
        (
            "{\"Action\":\"start\",\"Actor\":{\"ID\":\"zz\"}}\n{\"Action\":\"health_status: healthy\",\"Actor\":{\"ID\":\"c1\"}}\n",
            "zz start\nc1 health_status: healthy\n",
        ),
        (
            "\n \t\r\n{\"Action\":\"die\",\"Actor\":{\"ID\":\"c1\"}}\r\n\n",
            "c1 die\n",
        ),
        (
            "{\"Action\":\"die\",\"Actor\":{\"ID\":\"c1\"}}\n{\"Action\":\"die\"",
            "c1 die\n",
        ),
        (
            "{\"status\":\"x\",\"Action\":\"die\",\"Actor\":{\"ID\":\"c1\",\"Attributes\":{}},\"time\":1}\n",
            "c1 die\n",
        ),
        (" {\"Action\":\"\",\"Actor\":{\"ID\":\"\"}} \n", " \n"),
    ];
    for (body, told) in bodies {
        for cut in 0..=body.len() {
            let got = read(alloc, body.as_bytes(), cut)?;
            assert!(rt;
                got.lines.as_slice() == told.as_bytes() && got.fed == Ok(()),
                "{body} at {cut}"
            );
        }
    }
    Ok(())
}

#[test]
fn bad_lines_are_refused_by_their_place(rt: HostRuntime) -> Result<(), Fail> {
    let alloc = rt.alloc();
    // an object without the two texts; behind blank lines; behind an event, and before one; an id that is no text; no JSON
    let bodies: [(&str, &str, u64); 5] = [
        ("{}\n", "", 0),
        ("\r\n\n{}\n", "", 3),
        (
            "{\"Action\":\"start\",\"Actor\":{\"ID\":\"zz\"}}\n{}\n{\"Action\":\"start\",\"Actor\":{\"ID\":\"zz\"}}\n",
            "zz start\n",
            39,
        ),
        ("{\"Action\":\"die\",\"Actor\":{\"ID\":null}}\n", "", 0),
        ("die\n", "", 0),
    ];
    for (body, told, at) in bodies {
        for cut in 0..=body.len() {
            let got = read(alloc, body.as_bytes(), cut)?;
            let refusal = Err(EventRefusal::BadEvent { at });
            assert!(rt;
                got.lines.as_slice() == told.as_bytes() && got.fed == refusal,
                "{body} at {cut}"
            );
        }
    }
    Ok(())
}

/// A line feed, and so many spaces behind it.
fn blanks(alloc: Global, count: usize) -> Result<List<u8>, Memory> {
    let mut bytes = List::new(alloc);
    bytes.push(b'\n')?;
    for _ in 0..count {
        bytes.push(b' ')?;
    }
    Ok(bytes)
}

#[test]
fn lines_have_a_greatest_length(rt: HostRuntime) -> Result<(), Fail> {
    let alloc = rt.alloc();
    let longest = blanks(alloc, 1_048_576)?;
    let mut reader = EventReader::new(alloc)?;
    assert!(rt; reader.feed(alloc, longest.as_slice()) == Ok(()));
    let refusal = Err(EventRefusal::TooLong { at: 1 });
    assert!(rt; reader.feed(alloc, b" ") == refusal);
    Ok(())
}

#[test]
fn readers_refuse_again(rt: HostRuntime) -> Result<(), Fail> {
    let alloc = rt.alloc();
    let mut reader = EventReader::new(alloc)?;
    let refusal = Err(EventRefusal::BadEvent { at: 0 });
    assert!(rt; reader.feed(alloc, b"{}\n") == refusal);
    assert!(rt; reader.feed(alloc, b"") == refusal);
    assert!(rt; reader.feed(alloc, b"{\"Action\":\"die\",\"Actor\":{\"ID\":\"c1\"}}\n") == refusal);
    assert!(rt; reader.take().is_none());
    Ok(())
}
