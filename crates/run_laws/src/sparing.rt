ghost use Rattle.run_laws.specs.Sparing.{CutRunSparesKept, CutRunsSpareKept};

/// Wherever a run of `up` was cut off, each of its effects that stops a container stops one that is to go, or one that a
/// slot keeps where a need of the slot asks for a restart; none removes a kept one, and none makes another one for its
/// slot.
pub fn cut_run_spares_kept()
    ensures { CutRunSparesKept }
{}

/// The same holds of each of several runs, one after another.
pub fn cut_runs_spare_kept()
    ensures { CutRunsSpareKept }
{}
