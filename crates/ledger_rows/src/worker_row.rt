ghost use Rattle.std.specs.Prelude.{◌≡◌, ◌==◌, ◌&&◌, not, get_or};
ghost use Rattle.std.specs.List.{list_any};
ghost use Rattle.run_model.specs.Numbers.{places};
ghost use Rattle.ledger_rows.specs.Workers.{no_worker};

/// What a worker holds and did.
#[derive(Debug, Clone, Copy, PartialEq, Eq)]
pub struct WorkerRow {
    /// A permit is out.
    pub out: bool,
    pub left: bool,
    /// It made a Stop, or a Late at the deadline.
    pub stopped: bool,
}

/// Whether another worker's permit is out. No memory.
pub fn is_other_out(workers: &[WorkerRow], worker: u32) -> bool
    ensures { result ≡ list_any (λ v. not (v == worker) && (get_or workers.now v no_worker).out)
        (places workers.now) }
{
    for (other, row) in workers.iter().enumerate() {
        if other != worker as usize && row.out {
            return true;
        }
    }
    false
}
