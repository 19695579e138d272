ghost use Rattle.std.specs.Prelude.{◌≡◌, ℕ, ◌+◌, [], Some, None, OnErr, OnOk, min};
ghost use Rattle.run_model.specs.EngineRules.{DriftsTold, Tells};
ghost use Rattle.outside_api.specs.Hands.{HasCause};
ghost use Rattle.outside_files.specs.Counts.{one_more};
ghost use Rattle.memory_engine.specs.Ticking.{later, ticked};
ghost use Rattle.engine_hand.specs.Fates.{IsServed, is_asked};
ghost use Rattle.shared_hand.specs.Exchanged.{IsExchanged, answering};
ghost use Rattle.shared_hand.specs.Outcomes.{IsOfShared};
ghost use Rattle.shared_hand.specs.Settling.{looks_after};

use crate::settling::settle_at;
use engine_types::{Outcome, Request};
use memory_engine::MemoryEngine;
use std::alloc::Global;
use tree_base::{Memory, Text, TextMap, TryCopy};

/// An Engine in memory with the clock of the hands that share it, in milliseconds. Of its plan of faults only the number of
/// exchanges counts after which workers are asked to stop.
///
/// It may settle. At each look at a container that runs, and of which no script speaks, this changes by itself before the answer:
/// with a health check it becomes healthy, and without one, from the second look on, it has exited with 0.
#[derive(Drop)]
pub struct SharedEngine {
    pub engine: MemoryEngine,
    pub clock: u64,
    /// Where it settles, the ids of the containers that were looked at while they could.
    pub looked: Option<TextMap<()>>,
}

impl SharedEngine {
    /// An Engine that doesn't settle, and whose hands' clock stands at 0. No memory.
    pub fn new(engine: MemoryEngine) -> SharedEngine
        ensures engine { result.engine ≡ engine }
        ensures clock { result.clock ≡ 0 }
        ensures looked { result.looked ≡ None }
    {
        SharedEngine {
            engine,
            clock: 0,
            looked: None,
        }
    }

    /// An Engine that settles, at none of whose containers was looked, and whose hands' clock stands at 0. No memory.
    pub fn settling(alloc: Global, engine: MemoryEngine) -> SharedEngine
        ensures engine { result.engine ≡ engine }
        ensures clock { result.clock ≡ 0 }
        ensures looked { result.looked ≡ Some [] }
    {
        SharedEngine {
            engine,
            clock: 0,
            looked: Some(TextMap::new(alloc)),
        }
    }

    /// Makes an exchange, which is counted: its outcome, for the log and for who asked. Where there is no memory for one of them,
    /// the outcome says so.
    pub fn exchange(&mut self, alloc: Global, request: &Request) -> (Outcome, Outcome)
        ensures same { result.0 ≡ result.1 }
        ensures exchanged { IsExchanged self.old request.now result.0 self.new }
        ensures outcome { IsOfShared request.now result.0 }
        ensures cause { (faults : ℕ) → HasCause request.now None faults faults result.0 }
        ensures made { self.new.engine.made ≡ one_more self.old.engine.made }
        ensures script { self.new.engine.script ≡ self.old.engine.script }
        ensures plan { self.new.engine.faults ≡ self.old.engine.faults }
        ensures catalogue { self.new.engine.catalogue ≡ self.old.engine.catalogue }
        ensures clock { self.new.clock ≡ self.old.clock }
    {
        self.engine.made = self.engine.made.saturating_add(1);
        match self.settle(alloc, request) {
            Ok(()) => answered(alloc, &mut self.engine, request),
            Err(_) => (Outcome::Memory, Outcome::Memory),
        }
    }

    /// Lets what a request looks at settle, where the Engine does so.
    fn settle(&mut self, alloc: Global, request: &Request) -> Result<(), Memory>
        ensures engine { OnOk result (self.new.engine.engine ≡ answering self.old request.now) }
        ensures looked { OnOk result (self.new.looked ≡ looks_after self.old.looked
            self.old.engine.script self.old.engine.engine request.now) }
        ensures err { OnErr result (self.new.engine.engine ≡ self.old.engine.engine) }
        ensures unlooked { OnErr result (self.new.looked ≡ self.old.looked) }
        ensures made { self.new.engine.made ≡ self.old.engine.made }
        ensures script { self.new.engine.script ≡ self.old.engine.script }
        ensures plan { self.new.engine.faults ≡ self.old.engine.faults }
        ensures catalogue { self.new.engine.catalogue ≡ self.old.engine.catalogue }
        ensures clock { self.new.clock ≡ self.old.clock }
    {
        match request {
            Request::Inspect { id } => self.look_at(alloc, id),
            _ => Ok(()),
        }
    }

    /// Lets the container with an id settle at a look, where the Engine does so.
    fn look_at(&mut self, alloc: Global, id: &Text) -> Result<(), Memory>
        ensures engine { OnOk result (self.new.engine.engine
            ≡ answering self.old (Request.Inspect id.now)) }
        ensures looked { OnOk result (self.new.looked ≡ looks_after self.old.looked
            self.old.engine.script self.old.engine.engine (Request.Inspect id.now)) }
        ensures err { OnErr result (self.new.engine.engine ≡ self.old.engine.engine) }
        ensures unlooked { OnErr result (self.new.looked ≡ self.old.looked) }
        ensures made { self.new.engine.made ≡ self.old.engine.made }
        ensures script { self.new.engine.script ≡ self.old.engine.script }
        ensures plan { self.new.engine.faults ≡ self.old.engine.faults }
        ensures catalogue { self.new.engine.catalogue ≡ self.old.engine.catalogue }
        ensures clock { self.new.clock ≡ self.old.clock }
    {
        match &mut self.looked {
            Some(looked) => {
                settle_at(alloc, &mut self.engine, looked, id)?;
                Ok(())
            }
            None => Ok(()),
        }
    }

    /// Lets so many milliseconds go by, in which the Engine makes the next change of its script; the clock stands still at the
    /// greatest `u64`. No memory.
    pub fn pause(&mut self, ms: u32)
        ensures ticked { self.new.engine.engine ≡
            ticked self.old.engine.engine self.old.engine.script }
        ensures drifts { DriftsTold (Some self.old.engine.engine) (Some self.new.engine.engine) }
        ensures script { self.new.engine.script ≡ later self.old.engine.script }
        ensures plan { self.new.engine.faults ≡ self.old.engine.faults }
        ensures made { self.new.engine.made ≡ self.old.engine.made }
        ensures catalogue { self.new.engine.catalogue ≡ self.old.engine.catalogue }
        ensures looked { self.new.looked ≡ self.old.looked }
        ensures clock { self.new.clock ≡ min (self.old.clock + ms) 18446744073709551615 }
    {
        self.engine.tick();
        self.clock = self.clock.saturating_add(u64::from(ms));
    }

    /// Whether workers are asked to stop: once as many exchanges were made as the plan of faults says. No memory.
    pub fn is_asked(&self) -> bool
        ensures { result ≡ is_asked self.now.engine.faults.asked_from self.now.engine.made }
    {
        match self.engine.faults.asked_from {
            Some(from) => from <= self.engine.made,
            None => false,
        }
    }
}

/// The answer of an Engine, twice. Where there is no memory for one of them, the outcome says so.
fn answered(alloc: Global, engine: &mut MemoryEngine, request: &Request) -> (Outcome, Outcome)
    ensures same { result.0 ≡ result.1 }
    ensures told { Tells (Some engine.old.engine) request.now result.0 (Some engine.new.engine) }
    ensures served { IsServed engine.old.catalogue engine.old.engine request.now result.0
        engine.new.engine }
    ensures made { engine.new.made ≡ engine.old.made }
    ensures script { engine.new.script ≡ engine.old.script }
    ensures plan { engine.new.faults ≡ engine.old.faults }
    ensures catalogue { engine.new.catalogue ≡ engine.old.catalogue }
{
    match engine.serve(alloc, request) {
        Ok(reply) => match reply.copy(alloc) {
            Ok(copy) => (Outcome::Answered(reply), Outcome::Answered(copy)),
            Err(_) => {
                drop(reply);
                (Outcome::Memory, Outcome::Memory)
            }
        },
        Err(_) => (Outcome::Memory, Outcome::Memory),
    }
}
