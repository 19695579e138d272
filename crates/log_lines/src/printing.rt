ghost use Rattle.std.specs.Prelude.{◌≡◌, ◌++◌, ◌≤◌, OnOk};
ghost use Rattle.log_lines.specs.Lines.{entry_text, line_text, log_text, mark_of, text_under};
ghost use Rattle.log_lines.specs.Writing.{HasPut, Printed};
ghost use Rattle.std.specs.Option.{option_copied};

use engine_types::{Declared, Slot};
use log_book::LogEntry;
use log_frames::LogLine;
use outside_files::{Sink, write_all};
use std::alloc::Global;
use tree_base::Memory;

/// What is put together is written once it has so many bytes.
const MOST_HELD: usize = 65_536;

/// Writes the lines of entries, in their order: `NAME | TEXT` of output and `NAME ! TEXT` of errors, under the name of the
/// container of the slot that has the entry's number, from 0. False where the output failed, after a prefix of them. It holds at
/// most one line and 64 KiB at a time.
pub fn write_entries<O: Sink>(
    alloc: Global,
    declared: &Declared,
    entries: &[LogEntry],
    out: &mut O,
) -> Result<bool, Memory>
    ensures counted { O.faults out.old ≤ O.faults out.new }
    ensures printed { Printed result (log_text declared.now entries.now)
        (O.written out.old) (O.written out.new) (O.faults out.old) (O.faults out.new) }
{
    let mut held = Vec::new(alloc);
    for entry in entries {
        let slot = declared.slots.get(entry.container as usize);
        if !put_lines(slot, entry.lines.as_slice(), &mut held, out)? {
            return Ok(false);
        }
    }
    Ok(write_all(out, held.as_slice()))
}

/// Puts lines of a slot's container, where there is that slot.
fn put_lines<O: Sink>(
    slot: Option<&Slot>,
    lines: &[LogLine],
    held: &mut Vec<u8>,
    out: &mut O,
) -> Result<bool, Memory>
    ensures counted { O.faults out.old ≤ O.faults out.new }
    ensures put { HasPut result (text_under (option_copied slot.entry) lines.now)
        held.old.items held.new.items
        (O.written out.old) (O.written out.new) (O.faults out.old) (O.faults out.new) }
{
    let Some(slot) = slot else {
        return Ok(true);
    };
    for line in lines {
        if !put_line(slot.name.as_str(), line, held, out)? {
            return Ok(false);
        }
    }
    Ok(true)
}

/// Puts a line behind what is held, and writes that once there is enough.
fn put_line<O: Sink>(
    name: &str,
    line: &LogLine,
    held: &mut Vec<u8>,
    out: &mut O,
) -> Result<bool, Memory>
    ensures counted { O.faults out.old ≤ O.faults out.new }
    ensures put { HasPut result (line_text name.now line.now) held.old.items held.new.items
        (O.written out.old) (O.written out.new) (O.faults out.old) (O.faults out.new) }
{
    hold_line(name, line, held)?;
    if held.len() < MOST_HELD {
        return Ok(true);
    }
    if !write_all(out, held.as_slice()) {
        return Ok(false);
    }
    held.clear();
    Ok(true)
}

/// Puts a line behind what is held.
fn hold_line(name: &str, line: &LogLine, held: &mut Vec<u8>) -> Result<(), Memory>
    ensures { OnOk result (held.new.items ≡ held.old.items ++ line_text name.now line.now) }
{
    held.extend_from_slice(name.as_bytes())?;
    held.extend_from_slice(mark_of(line.is_err).as_bytes())?;
    held.extend_from_slice(line.text.as_slice())?;
    held.push(b'\n')?;
    Ok(())
}

/// What stands between a container's name and a line's text.
fn mark_of(is_err: bool) -> &'static str
    ensures { result.now ≡ mark_of is_err }
{
    if is_err { " ! " } else { " | " }
}
