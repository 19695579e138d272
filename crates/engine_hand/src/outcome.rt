ghost use Rattle.std.specs.Prelude.{◌≡◌, ℕ, Some, None};
ghost use Rattle.run_model.specs.EngineRules.{Tells};
ghost use Rattle.outside_api.specs.Hands.{HasCause};
ghost use Rattle.outside_files.specs.Counts.{one_more};
ghost use Rattle.engine_hand.specs.Fates.{ComesTo, IsServed, IsServedAndLost, faults_after, lacks_id};

use crate::fate::Fate;
use engine_types::{Engine, Outcome, Request, WireEnd};
use memory_engine::MemoryEngine;
use std::alloc::Global;
use tree_base::TryCopy;

/// Makes an exchange of this fate on an Engine: its outcome, for the log and for who asked.
pub fn outcome_on(
    alloc: Global,
    engine: &mut MemoryEngine,
    request: &Request,
    fate: Fate,
) -> (Outcome, Outcome)
    ensures same { result.0 ≡ result.1 }
    ensures told { Tells (Some engine.old.engine) request.now result.0 (Some engine.new.engine) }
    ensures fate { ComesTo fate engine.old.catalogue engine.old.engine request.now result.0
        engine.new.engine }
    ensures cause { (faults : ℕ) → HasCause request.now None faults
        (faults_after fate faults) result.0 }
    ensures script { engine.new.script ≡ engine.old.script }
    ensures faults { engine.new.faults ≡ engine.old.faults }
    ensures made { engine.new.made ≡ engine.old.made }
    ensures catalogue { engine.new.catalogue ≡ engine.old.catalogue }
{
    match fate {
        Fate::Answered => answered_by(alloc, engine, request),
        Fate::LostBefore => (Outcome::Lost(WireEnd::Fault), Outcome::Lost(WireEnd::Fault)),
        Fate::LostAfter => lost_after(alloc, engine, request),
        Fate::NotSent => (Outcome::NotSent, Outcome::NotSent),
    }
}

/// Serves a request and loses the answer, twice. What no id is left for isn't made, and its exchange is lost too. Where there is no
/// memory to serve it, the outcome says so.
fn lost_after(alloc: Global, engine: &mut MemoryEngine, request: &Request) -> (Outcome, Outcome)
    ensures same { result.0 ≡ result.1 }
    ensures told { Tells (Some engine.old.engine) request.now result.0 (Some engine.new.engine) }
    ensures served { IsServedAndLost engine.old.catalogue engine.old.engine request.now result.0
        engine.new.engine }
    ensures cause { (faults : ℕ) → HasCause request.now None faults (one_more faults) result.0 }
    ensures script { engine.new.script ≡ engine.old.script }
    ensures faults { engine.new.faults ≡ engine.old.faults }
    ensures made { engine.new.made ≡ engine.old.made }
    ensures catalogue { engine.new.catalogue ≡ engine.old.catalogue }
{
    if lacks_id(&engine.engine, request) {
        return (Outcome::Lost(WireEnd::Fault), Outcome::Lost(WireEnd::Fault));
    }
    match engine.serve(alloc, request) {
        Ok(reply) => {
            drop(reply);
            (Outcome::Lost(WireEnd::Fault), Outcome::Lost(WireEnd::Fault))
        }
        Err(_) => (Outcome::Memory, Outcome::Memory),
    }
}

/// Whether no id is left for what a request makes. No memory.
fn lacks_id(engine: &Engine, request: &Request) -> bool
    ensures { result ≡ lacks_id engine.now request.now }
{
    match request {
        Request::Create { .. } | Request::MakeNetwork { .. } => engine.next == u64::MAX,
        _ => false,
    }
}

/// The answer of an Engine, twice. Where there is no memory for one of them, the outcome says so.
fn answered_by(alloc: Global, engine: &mut MemoryEngine, request: &Request) -> (Outcome, Outcome)
    ensures same { result.0 ≡ result.1 }
    ensures told { Tells (Some engine.old.engine) request.now result.0 (Some engine.new.engine) }
    ensures served { IsServed engine.old.catalogue engine.old.engine request.now result.0
        engine.new.engine }
    ensures cause { (faults : ℕ) → HasCause request.now None faults faults result.0 }
    ensures script { engine.new.script ≡ engine.old.script }
    ensures faults { engine.new.faults ≡ engine.old.faults }
    ensures made { engine.new.made ≡ engine.old.made }
    ensures catalogue { engine.new.catalogue ≡ engine.old.catalogue }
{
    match engine.serve(alloc, request) {
        Ok(reply) => match reply.copy(alloc) {
            Ok(copy) => (Outcome::Answered(reply), Outcome::Answered(copy)),
            Err(_) => {
                drop(reply);
                (Outcome::Memory, Outcome::Memory)
            }
        },
        Err(_) => (Outcome::Memory, Outcome::Memory),
    }
}
