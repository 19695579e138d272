ghost use Rattle.cut_laws.specs.Once.{CutsAnywhere, MadeOnceAcrossRuns, MadeOnceAfterRuns, OnceAcrossRuns};
ghost use Rattle.cut_laws.specs.Spared.{RunSparesAgreeing, RunsSpareAgreeing};

/// After any number of runs of `up` one after another, each whole or cut off anywhere: at most one create of a slot is
/// pending, and then none was made and no container agrees with the slot; one that was made is there and alone agrees, and
/// nothing pending removes it; and each pending stop or remove is of a container that was seen and is still there.
pub fn once_across_runs()
    ensures { OnceAcrossRuns }
{}

/// Over any number of runs of `up` one after another, each whole or cut off anywhere, at most one container is made for
/// a slot.
pub fn made_once_across_runs()
    ensures { MadeOnceAcrossRuns }
{}

/// Over a whole run of `up` and those that came before it, each whole or cut off anywhere, at most one container is made
/// for a slot.
pub fn made_once_after_runs()
    ensures { MadeOnceAfterRuns }
{}

/// Runs of `up` one after another, each whole or cut off anywhere, remove no container that agrees with a slot but one with
/// a greater id than the one that the slot keeps, stop none but such a one and one that is kept, to start it anew, and
/// remove no volume.
pub fn runs_spare_agreeing()
    ensures { RunsSpareAgreeing }
{}

/// The same of a whole run of `up`, in each of its worlds.
pub fn run_spares_agreeing()
    ensures { RunSparesAgreeing }
{}

/// A run may be cut off after each of its moves, so what holds of runs that were cut off holds at each moment.
pub fn cuts_anywhere()
    ensures { CutsAnywhere }
{}
