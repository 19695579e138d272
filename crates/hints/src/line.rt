ghost use Rattle.std.specs.Prelude.{◌≡◌, IfOk};
ghost use Rattle.hints.specs.Lines.{SaysHint, hint_line};

use outside_files::{Sink, write_all};
use std::alloc::Global;
use tree_base::{Memory, Text};

/// The line of a hint, with its line feed.
pub fn hint_line(alloc: Global, hint: &Text) -> Result<Text, Memory>
    ensures { IfOk result (λ line. line ≡ hint_line hint.now) }
{
    let line = format!(in alloc; "compose: hint: {hint}\n")?;
    Ok(Text::from_string(line))
}

/// Writes the line of a hint. Nothing where there is no memory for it.
pub fn say_hint<G: Sink>(alloc: Global, hint: &Text, err: &mut G)
    ensures { SaysHint hint.now (G.written err.old) (G.written err.new) (G.faults err.old)
        (G.faults err.new) }
{
    if let Ok(line) = hint_line(alloc, hint) {
        write_all(err, line.as_str().as_bytes());
    }
}
