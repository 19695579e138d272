ghost use Rattle.std.specs.Prelude.{◌≡◌, ◌≤◌, ℕ, List, Err, None, false, IfErr, IfOk, IfSome};
ghost use Rattle.asked_run.specs.Declaring.{Declares, DeclaresAs, IsDeclared, IsFailedDigest, declared_from, declared_in, declared_with, reads_digests, scales_of};
ghost use Rattle.declared_laws.specs.Laws.{AreNumbered};
ghost use Rattle.file_digests.specs.declared.DigestRefusal.{DigestRefusal};
ghost use Rattle.plan_core.specs.Order.{HasNoCycle};
ghost use Rattle.refusals.specs.Origins.{IsOfDeclaring};
ghost use Rattle.refusals.specs.Refused.{is_failed_digest, wants_memory};
ghost use Rattle.refusals.specs.Went.{WentAs};
ghost use Rattle.refusals.specs.declared.Refusal.{Refusal};
ghost use Rattle.run_laws.specs.Orders.{NeedsDependencies};
ghost use Rattle.run_model.specs.Plans.{IsWhole};
ghost use Rattle.service_graph.specs.Cycles.{cycle};
ghost use Rattle.tree_base.specs.Answers.{Gives};
ghost use Rattle.typed_project.specs.DistinctNames.{IsKeyed};
ghost use Rattle.world_laws.specs.OwnSpecs.{HasOwnSpecs};

use crate::digests::digests_for;
use compose_words::{Command, Scale};
use declared_laws::numbered;
use declared_set::{LoadedProject, declare};
use engine_types::Declared;
use outside_files::Files;
use refusals::Refusal;
use service_hashes::FileDigest;
use std::alloc::Global;
use tree_base::Memory;

/// What a project that was loaded so declares of the Engine for a command: by the numbers of `--scale`, and by the digests of the
/// files of its configs and secrets, which `up` reads. The refusals, in their order: those of digests; and those of what is declared,
/// `UnknownScale`, `TooManyNeeds` and `NameTwice`. The project's services don't depend on one another in a circle.
pub fn declared_asked<F: Files>(
    alloc: Global,
    command: &Command,
    loaded: &LoadedProject,
    files: &mut F,
) -> Result<Declared, Refusal>
    requires keyed { IsKeyed loaded.now.project }
    requires acyclic { cycle loaded.now.project.services ≡ None }

    // It is what the project declares by the digests that some answers of reads give, or the refusal that these give.
    ensures given { (result ≡ Err Refusal.Memory → ⊥)
        → Declares (F.told files.old) command.now loaded.now result }
    ensures told { IfSome (F.told files.old) (λ contents.
        DeclaresAs (declared_from contents command.now loaded.now) result) }
    ensures declared { IfOk result (λ declared.
        IsDeclared (F.told files.old) command.now loaded.now declared) }

    // It is whole, what is sent for each slot is made for it, slots need only slots of services that their own service depends
    // on, and neither slots nor services need one another in a circle.
    ensures whole { IfOk result IsWhole }
    ensures own { IfOk result HasOwnSpecs }
    ensures needs { IfOk result NeedsDependencies }
    ensures acyclic { IfOk result HasNoCycle }

    // A read that failed is one that the command asks a digest of, and was counted.
    ensures read { (path : List ℕ) → result ≡ Err (Refusal.Digest (DigestRefusal.ReadFault path))
        → IsFailedDigest (F.told files.old) command.now loaded.now.project
        (F.faults files.old) (F.faults files.new) path }
    ensures kind { IfErr result IsOfDeclaring }

    // Where no read had failed before, none fails but the last, which is then told; and `up` alone reads any.
    ensures reads { WentAs (F.reads files.old) (F.reads files.new) result }
    ensures unread { reads_digests command.now ≡ false → F.reads files.new ≡ F.reads files.old }
    ensures counted { F.faults files.old ≤ F.faults files.new }
    ensures kept { F.told files.new ≡ F.told files.old }
{
    match digests_for(alloc, command, &loaded.project, files) {
        Ok(digests) => {
            let declared = declared_with(alloc, command, loaded, digests.as_slice());
            // By a call: else the drop of each digest would be proved at this place.
            drop(digests);
            declared
        }
        Err(refusal) => Err(Refusal::from(refusal)),
    }
}

/// What a project declares for a command, with these digests of its files.
fn declared_with(
    alloc: Global,
    command: &Command,
    loaded: &LoadedProject,
    digests: &[FileDigest],
) -> Result<Declared, Refusal>
    requires keyed { IsKeyed loaded.now.project }
    requires acyclic { cycle loaded.now.project.services ≡ None }
    ensures told { Gives wants_memory result (declared_with command.now loaded.now digests.now) }
    ensures whole { IfOk result IsWhole }
    ensures own { IfOk result HasOwnSpecs }
    ensures needs { IfOk result NeedsDependencies }
    ensures acyclic { IfOk result HasNoCycle }
    ensures read { IfErr result (λ refusal. is_failed_digest refusal ≡ false) }
    ensures kind { IfErr result IsOfDeclaring }
{
    let scales = scales_of(command);
    match numbered(scales, loaded.project.services.as_slice()) {
        Ok(()) => declared_in(alloc, scales, loaded, digests),
        Err(Memory) => Err(Refusal::Memory),
    }
}

/// What a project declares with these numbers of `--scale` and these digests, where 32 bits number the containers of each
/// service.
fn declared_in(
    alloc: Global,
    scales: &[Scale],
    loaded: &LoadedProject,
    digests: &[FileDigest],
) -> Result<Declared, Refusal>
    requires keyed { IsKeyed loaded.now.project }
    requires acyclic { cycle loaded.now.project.services ≡ None }
    requires numbered { AreNumbered scales.now loaded.now.project.services }
    ensures told { Gives wants_memory result (declared_in scales.now loaded.now digests.now) }
    ensures whole { IfOk result IsWhole }
    ensures own { IfOk result HasOwnSpecs }
    ensures needs { IfOk result NeedsDependencies }
    ensures acyclic { IfOk result HasNoCycle }
    ensures read { IfErr result (λ refusal. is_failed_digest refusal ≡ false) }
    ensures kind { IfErr result IsOfDeclaring }
{
    match declare(alloc, loaded, scales, digests) {
        Ok(declared) => Ok(declared),
        Err(refusal) => Err(Refusal::from(refusal)),
    }
}

/// The numbers of `--scale`, which `up` alone has.
fn scales_of(command: &Command) -> &[Scale]
    ensures { result.now ≡ scales_of command.now }
{
    match command {
        Command::Up { scale, .. } => scale.as_slice(),
        Command::Down { .. } => &[],
        Command::Config { .. } => &[],
        Command::Simulate { .. } => &[],
        Command::Wait => &[],
        Command::Logs => &[],
        Command::EngineSim { .. } => &[],
    }
}
