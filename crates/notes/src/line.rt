ghost use Rattle.std.specs.Prelude.{◌≡◌, IfOk};
ghost use Rattle.notes.specs.Lines.{SaysNote, note_line};

use outside_files::{Sink, write_all};
use std::alloc::Global;
use tree_base::{Memory, Text};

/// The line of a note, with its line feed.
pub fn note_line(alloc: Global, note: &Text) -> Result<Text, Memory>
    ensures { IfOk result (λ line. line ≡ note_line note.now) }
{
    let line = format!(in alloc; "compose: note: {note}\n")?;
    Ok(Text::from_string(line))
}

/// Writes the line of a note. Nothing where there is no memory for it.
pub fn say_note<G: Sink>(alloc: Global, note: &Text, err: &mut G)
    ensures { SaysNote note.now (G.written err.old) (G.written err.new) (G.faults err.old)
        (G.faults err.new) }
{
    if let Ok(line) = note_line(alloc, note) {
        write_all(err, line.as_str().as_bytes());
    }
}
