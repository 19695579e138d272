ghost use Rattle.std.specs.Prelude.{◌≡◌, [], None, Some};

use crate::silent_hand::SilentHand;
use memory_wire::{MemoryDoor, MemoryDoors, MemoryPipe, MemoryStreams};
use outside_api::{Dial, DialAnswer, Plug, Target, note_dial};
use std::alloc::Global;
use tree_base::{List, Text};

/// A plug of hands whose peers close each connection without an answer. It tells no Engine, no dial fails, and it has neither
/// streams nor doors.
#[derive(Drop)]
pub struct SilentPlug {
    dials: List<Dial>,
    dialled: u64,
    streams: MemoryStreams,
    doors: MemoryDoors,
    failed: u64,
}

impl SilentPlug {
    /// A plug that made no hand yet. No memory.
    pub fn new(alloc: Global) -> SilentPlug
        ensures dials { ⟦<SilentPlug as Plug>⟧.dials result ≡ [] }
        ensures dialled { ⟦<SilentPlug as Plug>⟧.dialled result ≡ Some 0 }
        ensures streams { ⟦<SilentPlug as Plug>⟧.streams result ≡ [] }
        ensures opened { ⟦<SilentPlug as Plug>⟧.opened result ≡ 0 }
        ensures talks { ⟦<SilentPlug as Plug>⟧.talks result ≡ Some [] }
        ensures doors { ⟦<SilentPlug as Plug>⟧.doors result ≡ [] }
        ensures doors_opened { ⟦<SilentPlug as Plug>⟧.doors_opened result ≡ 0 }
        ensures received { ⟦<SilentPlug as Plug>⟧.received result ≡ Some [] }
        ensures faults { ⟦<SilentPlug as Plug>⟧.faults result ≡ 0 }
    {
        SilentPlug {
            dials: List::new(alloc),
            dialled: 0,
            streams: MemoryStreams::none(alloc),
            doors: MemoryDoors::none(alloc),
            failed: 0,
        }
    }
}

impl Plug for SilentPlug {
    type Hand = SilentHand;

    type Stream = MemoryPipe;

    type Door = MemoryDoor;

    ghost use Rattle.memory_wire.specs.DoorsOfPlugs.{doors_opened_of, paths_of, received_of};
    ghost use Rattle.memory_wire.specs.StreamsInMemory.{asked_of, opened_of, talks_of};

    ghost engine = { λ _. None };

    ghost dials = { λ plug. plug.dials };

    ghost dialled = { λ plug. Some plug.dialled };

    ghost streams = { λ plug. asked_of plug.streams };

    ghost opened = { λ plug. opened_of plug.streams };

    ghost talks = { λ plug. Some (talks_of plug.streams) };

    ghost doors = { λ plug. paths_of plug.doors };

    ghost doors_opened = { λ plug. doors_opened_of plug.doors };

    ghost received = { λ plug. Some (received_of plug.doors) };

    ghost faults = { λ plug. plug.failed };

    fn dial(
        &mut self,
        alloc: Global,
        target: &Target,
        stop_file: Option<&Text>,
        number: u32,
    ) -> DialAnswer<SilentHand> {
        if note_dial(alloc, &mut self.dials, target, stop_file, number).is_err() {
            return DialAnswer::Memory;
        }
        self.dialled += 1;
        DialAnswer::Dialled(SilentHand::new(alloc))
    }

    fn stream(&mut self, alloc: Global, target: &Target) -> DialAnswer<MemoryPipe> {
        self.streams.open(alloc, target, &mut self.failed)
    }

    fn close_stream(&mut self, stream: MemoryPipe) {
        self.streams.close(stream, &mut self.failed);
    }

    fn door(&mut self, alloc: Global, path: &Text) -> DialAnswer<MemoryDoor> {
        self.doors.open(alloc, path, &mut self.failed)
    }

    fn close_door(&mut self, door: MemoryDoor) {
        self.doors.close(door, &mut self.failed);
    }
}
