ghost use Rattle.std.specs.Prelude.{◌≡◌, Some};
ghost use Rattle.refusals.specs.Saying.{IsSaid, IsSaidIfAny, SaysRefusal};
ghost use Rattle.outside_files.specs.Writing.{Says};
ghost use Rattle.refusals.specs.Lines.{refusal_line};

use crate::line::refusal_line;
use crate::refusal::Refusal;
use outside_files::{Sink, write_all};
use std::alloc::Global;

/// Writes the line of a refusal. Where there is no memory for the line, the refusal is Memory.
pub fn say<G: Sink>(alloc: Global, refusal: Refusal, err: &mut G) -> Refusal
    ensures refusal { IsSaid refusal (Some result) }
    ensures line { Says (refusal_line result) (G.written err.old) (G.written err.new)
        (G.faults err.old) (G.faults err.new) }
{
    match refusal_line(alloc, &refusal) {
        Ok(line) => {
            write_all(err, line.as_str().as_bytes());
            refusal
        }
        Err(_) => {
            write_all(err, b"compose: memory\n");
            // By a call, since each variant's drop would be proved at this place.
            drop(refusal);
            Refusal::Memory
        }
    }
}

/// Writes the line of a refusal, where there is one.
pub fn say_if_any<G: Sink>(alloc: Global, refusal: Option<Refusal>, err: &mut G) -> Option<Refusal>
    ensures refusal { IsSaidIfAny refusal result }
    ensures line { SaysRefusal result (G.written err.old) (G.written err.new)
        (G.faults err.old) (G.faults err.new) }
{
    match refusal {
        Some(refusal) => Some(say(alloc, refusal, err)),
        None => None,
    }
}
