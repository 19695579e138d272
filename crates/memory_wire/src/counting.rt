ghost use Rattle.std.specs.Prelude.{◌≤◌};
ghost use Rattle.outside_files.specs.Counts.{Rose};

/// Counts a fault. The count stands still at the greatest `u64`. No memory.
pub(crate) fn count_fault(faults: &mut u64)
    ensures rose { Rose faults.old faults.new }
    ensures never_falls { faults.old ≤ faults.new }
{
    *faults = faults.saturating_add(1);
}
