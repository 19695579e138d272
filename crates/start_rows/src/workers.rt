ghost use Rattle.std.specs.Prelude.{◌≡◌, IfOk, replicate};
ghost use Rattle.ledger_rows.specs.Workers.{no_worker};

use ledger_rows::WorkerRow;
use std::alloc::Global;
use tree_base::Memory;

/// The first row of each worker: it holds nothing, has not left and not stopped.
pub fn first_workers(alloc: Global, count: u32) -> Result<Vec<WorkerRow>, Memory>
    ensures { IfOk result (λ rows. rows.items ≡ replicate count no_worker) }
{
    let mut rows = Vec::new(alloc);
    for _ in 0..count {
        rows.push(WorkerRow {
            out: false,
            left: false,
            stopped: false,
        })?;
    }
    Ok(rows)
}
