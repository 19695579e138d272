ghost use Rattle.std.specs.Prelude.{◌≡◌, ◌≤◌, ◌<◌, [], Some, length};
ghost use Rattle.std.specs.Option.{ForSome};
ghost use Rattle.outside_api.specs.Doors.{GrewByDoor};
ghost use Rattle.outside_api.specs.Plugs.{Adds};
ghost use Rattle.outside_api.specs.Wires.{Dials, RoseBy};
ghost use Rattle.memory_wire.specs.DoorsInMemory.{IsNew, faults_of, past_of, torn_of};

use crate::counting::count_fault;
use crate::memory_door::MemoryDoor;
use outside_api::{DialAnswer, note_door};
use std::alloc::Global;
use tree_base::{List, Text};

/// The doors of a plug in memory: the one that it was told, which it gives once, and the paths at which it was asked for doors. The
/// plug's count of faults is its own.
#[derive(Drop)]
pub struct MemoryDoors {
    told: Option<MemoryDoor>,
    asked: List<Text>,
    opened: u64,
    closed: Option<MemoryDoor>,
    ghost fresh: { ForSome told IsNew },
    ghost waiting: { ForSome told (λ _. opened ≡ 0) },
    ghost once: { opened ≤ 1 },
}

impl MemoryDoors {
    ghost use Rattle.memory_wire.specs.DoorsOfPlugs.{doors_opened_of, paths_of, received_of};

    /// This door, which took no connection yet. No memory.
    pub fn new(alloc: Global, door: MemoryDoor) -> MemoryDoors
        requires { IsNew door }
        ensures asked { paths_of result ≡ [] }
        ensures opened { doors_opened_of result ≡ 0 }
        ensures received { Some (received_of result) ≡ Some [] }
    {
        MemoryDoors {
            told: Some(door),
            asked: List::new(alloc),
            opened: 0,
            closed: None,
        }
    }

    /// No door. No memory.
    pub fn none(alloc: Global) -> MemoryDoors
        ensures asked { paths_of result ≡ [] }
        ensures opened { doors_opened_of result ≡ 0 }
        ensures received { Some (received_of result) ≡ Some [] }
    {
        MemoryDoors {
            told: None,
            asked: List::new(alloc),
            opened: 0,
            closed: None,
        }
    }

    /// Opens the door, once, whatever the path. Failed where there is none, or it was given before: then a fault is counted.
    pub fn open(&mut self, alloc: Global, path: &Text, faults: &mut u64) -> DialAnswer<MemoryDoor>
        ensures counted { faults.old ≤ faults.new }
        ensures answer { Dials faults.old faults.new (doors_opened_of self.old)
            (doors_opened_of self.new) result }
        ensures asked { Adds (paths_of self.old) path.now (paths_of self.new) result }
        ensures fresh { (door : _) → result ≡ DialAnswer.Dialled door → IsNew door }
        ensures received { Some (received_of self.new) ≡ Some (received_of self.old) }
    {
        if note_door(alloc, &mut self.asked, path).is_err() {
            return DialAnswer::Memory;
        }
        match self.told.take() {
            Some(door) => {
                self.opened += 1;
                DialAnswer::Dialled(door)
            }
            None => {
                count_fault(faults);
                DialAnswer::Failed
            }
        }
    }

    /// Takes the door back, with what it received. Where it has a fault, one is counted. No memory.
    pub fn close(&mut self, door: MemoryDoor, faults: &mut u64)
        requires { length (received_of self.old) < doors_opened_of self.old }
        ensures told { GrewByDoor (Some (received_of self.old)) (Some (past_of door))
            (torn_of door) (Some (received_of self.new)) }
        ensures counted { faults.old ≤ faults.new }
        ensures faulty { RoseBy (faults_of door) faults.old faults.new }
        ensures asked { paths_of self.new ≡ paths_of self.old }
        ensures opened { doors_opened_of self.new ≡ doors_opened_of self.old }
    {
        if door.has_failed() {
            count_fault(faults);
        }
        self.closed = Some(door);
    }
}
