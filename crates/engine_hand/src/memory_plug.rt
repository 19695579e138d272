ghost use Rattle.std.specs.Prelude.{◌≡◌, [], Some};
ghost use Rattle.std.specs.Option.{option_map};

use crate::memory_hand::MemoryHand;
use memory_engine::MemoryEngine;
use memory_wire::{MemoryDoor, MemoryDoors, MemoryPipe, MemoryStreams, MemoryWire};
use outside_api::{Dial, DialAnswer, Plug, Target, Wire, note_dial};
use std::alloc::Global;
use tree_base::{List, Text};

/// A plug that makes one hand, which owns an Engine in memory, whatever target it is asked for; a further dial fails. It has the
/// streams and the door that it was told.
#[derive(Drop)]
pub struct MemoryPlug {
    engine: Option<MemoryEngine>,
    dials: List<Dial>,
    dialled: u64,
    streams: MemoryStreams,
    doors: MemoryDoors,
    failed: u64,
}

impl MemoryPlug {
    ghost use Rattle.memory_wire.specs.DoorsInMemory.{IsNew};

    /// A plug for this Engine and so many hands, of which one can be made so far. No memory.
    pub fn new(alloc: Global, engine: MemoryEngine, hands: u32) -> MemoryPlug
        requires { hands ≡ 1 }
        ensures engine { ⟦<MemoryPlug as Plug>⟧.engine result ≡ Some engine.engine }
        ensures dials { ⟦<MemoryPlug as Plug>⟧.dials result ≡ [] }
        ensures dialled { ⟦<MemoryPlug as Plug>⟧.dialled result ≡ Some 0 }
        ensures streams { ⟦<MemoryPlug as Plug>⟧.streams result ≡ [] }
        ensures opened { ⟦<MemoryPlug as Plug>⟧.opened result ≡ 0 }
        ensures talks { ⟦<MemoryPlug as Plug>⟧.talks result ≡ Some [] }
        ensures doors { ⟦<MemoryPlug as Plug>⟧.doors result ≡ [] }
        ensures doors_opened { ⟦<MemoryPlug as Plug>⟧.doors_opened result ≡ 0 }
        ensures received { ⟦<MemoryPlug as Plug>⟧.received result ≡ Some [] }
        ensures faults { ⟦<MemoryPlug as Plug>⟧.faults result ≡ 0 }
    {
        let _ = hands;
        MemoryPlug {
            engine: Some(engine),
            dials: List::new(alloc),
            dialled: 0,
            streams: MemoryStreams::none(alloc),
            doors: MemoryDoors::none(alloc),
            failed: 0,
        }
    }

    /// The same, which gives the connections of a wire as its streams, in order. No memory.
    pub fn with_streams(self, alloc: Global, wire: MemoryWire) -> MemoryPlug
        ensures engine { ⟦<MemoryPlug as Plug>⟧.engine result ≡ ⟦<MemoryPlug as Plug>⟧.engine self }
        ensures dials { ⟦<MemoryPlug as Plug>⟧.dials result ≡ ⟦<MemoryPlug as Plug>⟧.dials self }
        ensures dialled { ⟦<MemoryPlug as Plug>⟧.dialled result
            ≡ ⟦<MemoryPlug as Plug>⟧.dialled self }
        ensures streams { ⟦<MemoryPlug as Plug>⟧.streams result ≡ [] }
        ensures opened { ⟦<MemoryPlug as Plug>⟧.opened result
            ≡ ⟦<MemoryWire as Wire>⟧.dialled wire }
        ensures talks { ⟦<MemoryPlug as Plug>⟧.talks result ≡ ⟦<MemoryWire as Wire>⟧.past wire }
        ensures doors { ⟦<MemoryPlug as Plug>⟧.doors result ≡ ⟦<MemoryPlug as Plug>⟧.doors self }
        ensures doors_opened { ⟦<MemoryPlug as Plug>⟧.doors_opened result
            ≡ ⟦<MemoryPlug as Plug>⟧.doors_opened self }
        ensures received { ⟦<MemoryPlug as Plug>⟧.received result
            ≡ ⟦<MemoryPlug as Plug>⟧.received self }
        ensures faults { ⟦<MemoryPlug as Plug>⟧.faults result ≡ ⟦<MemoryPlug as Plug>⟧.faults self }
    {
        let mut plug = self;
        plug.streams = MemoryStreams::new(alloc, wire);
        plug
    }

    /// The same, which gives this door once, that took no connection yet. No memory.
    pub fn with_door(self, alloc: Global, door: MemoryDoor) -> MemoryPlug
        requires { IsNew door }
        ensures engine { ⟦<MemoryPlug as Plug>⟧.engine result ≡ ⟦<MemoryPlug as Plug>⟧.engine self }
        ensures dials { ⟦<MemoryPlug as Plug>⟧.dials result ≡ ⟦<MemoryPlug as Plug>⟧.dials self }
        ensures dialled { ⟦<MemoryPlug as Plug>⟧.dialled result
            ≡ ⟦<MemoryPlug as Plug>⟧.dialled self }
        ensures streams { ⟦<MemoryPlug as Plug>⟧.streams result
            ≡ ⟦<MemoryPlug as Plug>⟧.streams self }
        ensures opened { ⟦<MemoryPlug as Plug>⟧.opened result ≡ ⟦<MemoryPlug as Plug>⟧.opened self }
        ensures talks { ⟦<MemoryPlug as Plug>⟧.talks result ≡ ⟦<MemoryPlug as Plug>⟧.talks self }
        ensures doors { ⟦<MemoryPlug as Plug>⟧.doors result ≡ [] }
        ensures doors_opened { ⟦<MemoryPlug as Plug>⟧.doors_opened result ≡ 0 }
        ensures received { ⟦<MemoryPlug as Plug>⟧.received result ≡ Some [] }
        ensures faults { ⟦<MemoryPlug as Plug>⟧.faults result ≡ ⟦<MemoryPlug as Plug>⟧.faults self }
    {
        let mut plug = self;
        plug.doors = MemoryDoors::new(alloc, door);
        plug
    }

    /// The dials that it was asked for, in order, whatever came of them. No memory.
    pub fn dials(&self) -> &[Dial]
        ensures { result.now ≡ ⟦<MemoryPlug as Plug>⟧.dials self.now }
    {
        self.dials.as_slice()
    }
}

impl Plug for MemoryPlug {
    type Hand = MemoryHand;

    type Stream = MemoryPipe;

    type Door = MemoryDoor;

    ghost use Rattle.memory_wire.specs.DoorsOfPlugs.{doors_opened_of, paths_of, received_of};
    ghost use Rattle.memory_wire.specs.StreamsInMemory.{asked_of, opened_of, talks_of};

    ghost engine = { λ plug. option_map (λ memory. memory.engine) plug.engine };

    ghost dials = { λ plug. plug.dials };

    ghost dialled = { λ plug. Some plug.dialled };

    ghost streams = { λ plug. asked_of plug.streams };

    ghost opened = { λ plug. opened_of plug.streams };

    ghost talks = { λ plug. Some (talks_of plug.streams) };

    ghost doors = { λ plug. paths_of plug.doors };

    ghost doors_opened = { λ plug. doors_opened_of plug.doors };

    ghost received = { λ plug. Some (received_of plug.doors) };

    ghost faults = { λ plug. plug.failed };

    fn dial(
        &mut self,
        alloc: Global,
        target: &Target,
        stop_file: Option<&Text>,
        number: u32,
    ) -> DialAnswer<MemoryHand> {
        if note_dial(alloc, &mut self.dials, target, stop_file, number).is_err() {
            return DialAnswer::Memory;
        }
        match self.engine.take() {
            Some(engine) => {
                self.dialled += 1;
                DialAnswer::Dialled(MemoryHand::new(alloc, engine))
            }
            None => {
                self.failed = self.failed.saturating_add(1);
                DialAnswer::Failed
            }
        }
    }

    fn stream(&mut self, alloc: Global, target: &Target) -> DialAnswer<MemoryPipe> {
        self.streams.open(alloc, target, &mut self.failed)
    }

    fn close_stream(&mut self, stream: MemoryPipe) {
        self.streams.close(stream, &mut self.failed);
    }

    fn door(&mut self, alloc: Global, path: &Text) -> DialAnswer<MemoryDoor> {
        self.doors.open(alloc, path, &mut self.failed)
    }

    fn close_door(&mut self, door: MemoryDoor) {
        self.doors.close(door, &mut self.failed);
    }
}
