ghost use Rattle.std.specs.Prelude.{◌≡◌, ◌↔◌, None};
ghost use Rattle.compose_cli.specs.Ends.{SendsNothing};
ghost use Rattle.compose_config.specs.Commands.{PrintsPage, page_for};
ghost use Rattle.refusals.specs.Saying.{SaysRefusal};
ghost use Rattle.refusals.specs.Statuses.{status_of};
ghost use Rattle.typed_project.specs.DistinctNames.{IsKeyed};

use crate::ended::Ended;
use asked_project::Asked;
use compose_config::{ConfigEnd, print_asked};
use outside_files::Sink;
use std::alloc::Global;
use std::mem::forget;
use tree_base::List;

/// Prints the page of a project that was asked for, or nothing with `--quiet`. No hand is made.
pub fn print_page<H, O: Sink, G: Sink>(
    alloc: Global,
    asked: Asked,
    out: &mut O,
    err: &mut G,
) -> Ended<H>
    requires keyed { IsKeyed asked.loaded.project }
    ensures nothing { SendsNothing result }
    ensures printed { PrintsPage (page_for asked.options.command asked.loaded.project)
        result.refusal (O.written out.old) (O.written out.new) (O.faults out.old)
        (O.faults out.new) }
    ensures status { result.status ≡ status_of result.refusal }
    ensures none { (result.refusal ≡ None) ↔ (result.status ≡ 0) }
    ensures line { SaysRefusal result.refusal (G.written err.old) (G.written err.new)
        (G.faults err.old) (G.faults err.new) }
{
    let ConfigEnd { status, refusal } = print_asked(alloc, &asked, out, err);
    // The call ends, and all its memory with it: the project isn't given back piece by piece.
    forget(asked);
    Ended {
        status,
        journal: List::new(alloc),
        hands: List::new(alloc),
        refusal,
    }
}
