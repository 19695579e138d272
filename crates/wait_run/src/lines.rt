ghost use Rattle.std.specs.Prelude.{◌≡◌, ◌++◌, IfOk, OnOk};
ghost use Rattle.wait_run.specs.Ends.{name_at};
ghost use Rattle.wait_run.specs.Lines.{met_line, met_lines};

use engine_types::Declared;
use std::alloc::Global;
use tree_base::{Memory, Text};

/// What a wait prints: a line for each slot whose goal was met, by their places, in this order.
pub fn met_lines(alloc: Global, declared: &Declared, met: &[u32]) -> Result<Text, Memory>
    ensures { IfOk result (λ lines. lines ≡ met_lines declared.now met.now) }
{
    let mut lines = Text::new(alloc);
    for s in met {
        put_line(declared, *s, &mut lines)?;
    }
    Ok(lines)
}

/// Puts the line of the slot at a place last.
fn put_line(declared: &Declared, s: u32, lines: &mut Text) -> Result<(), Memory>
    ensures { OnOk result (lines.new ≡ lines.old ++ met_line declared.now s) }
{
    lines.push_str("container ")?;
    lines.push_str(name_at(declared, s))?;
    lines.push_str(" met\n")
}

/// The name of the slot at a place. No memory.
pub(crate) fn name_at<'d>(declared: &'d Declared, s: u32) -> &'d str
    ensures { result.now ≡ name_at declared.now s }
{
    match declared.slots.get(s as usize) {
        Some(slot) => slot.name.as_str(),
        None => "",
    }
}
