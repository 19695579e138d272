ghost use Rattle.std.specs.Prelude.{◌≡◌, ◌<◌, ◌≤◌, [], IfOk};
ghost use Rattle.shared_hand.specs.SharedPlugs.{dialled_of, dials_of, faults_of, hands_of};
ghost use Rattle.tree_base.specs.Limits.{most_workers};

use crate::meeting::Meeting;
use crate::meeting_hand::MeetingHand;
use engine_types::{ContainerRow, ContainerState};
use memory_engine::MemoryEngine;
use memory_wire::{MemoryDoor, MemoryPipe};
use outside_api::{DialAnswer, Plug, Target};
use shared_hand::SharedPlug;
use std::alloc::Global;
use std::sync::{Arc, Wait};
use std::time::Clock;
use tree_base::{Memory, Text};

/// A plug of hands that share an Engine in memory, and meet in their first create. It is in all that it tells the plug that it is made
/// of.
#[derive(Drop)]
pub struct MeetingPlug<'r, R> {
    rt: &'r R,
    pub plug: SharedPlug<'r, R>,
    meeting: Arc<Meeting>,
}

impl<'r, R: Wait + Sync + Clock> MeetingPlug<'r, R> {
    /// A plug of 1 to 16 hands for this Engine, whose clock stands at 0, and which meet so. Fewer or more of them may come than are to.
    pub fn new(
        alloc: Global,
        rt: &'r R,
        engine: MemoryEngine,
        hands: u32,
        meeting: Meeting,
    ) -> Result<MeetingPlug<'r, R>, Memory>
        requires some { 0 < hands }
        requires few { hands ≤ most_workers }
        ensures hands { IfOk result (λ plug. hands_of plug.plug ≡ hands) }
        ensures dials { IfOk result (λ plug. dials_of plug.plug ≡ []) }
        ensures faults { IfOk result (λ plug. faults_of plug.plug ≡ 0) }
        ensures dialled { IfOk result (λ plug. dialled_of plug.plug ≡ 0) }
    {
        let meeting = Arc::new(alloc, meeting)?;
        let plug = SharedPlug::new(alloc, rt, engine, hands)?;
        Ok(MeetingPlug { rt, plug, meeting })
    }

    /// Whether all hands that were to come met, and none waited in vain.
    pub fn was_whole(&self) -> bool {
        self.meeting.was_whole()
    }

    /// How many exchanges its hands made.
    pub fn exchange_count(&self) -> u64 {
        self.plug.shared.lock(self.rt).engine.made
    }

    /// How many containers its Engine has.
    pub fn container_count(&self) -> usize {
        self.plug
            .shared
            .lock(self.rt)
            .engine
            .engine
            .containers
            .len()
    }

    /// Whether its Engine has a container with this name that runs.
    pub fn runs(&self, name: &str) -> bool {
        let shared = self.plug.shared.lock(self.rt);
        is_running(shared.engine.engine.containers.as_slice(), name)
    }
}

fn is_running(rows: &[ContainerRow], name: &str) -> bool {
    for row in rows {
        if row.name.as_str() == name {
            return row.report.state == ContainerState::Running;
        }
    }
    false
}

impl<'r, R: Wait + Sync + Clock> Plug for MeetingPlug<'r, R> {
    type Hand = MeetingHand<'r, R>;

    type Stream = MemoryPipe;

    type Door = MemoryDoor;

    ghost use Rattle.std.specs.Prelude.{None, Some};
    ghost use Rattle.shared_hand.specs.SharedPlugs.{dialled_of, dials_of, doors_of, doors_opened_by, faults_of, opened_by, received_by, streams_of, talks_by};

    ghost engine = { λ _. None };

    ghost dials = { λ plug. dials_of plug.plug };

    ghost dialled = { λ plug. Some (dialled_of plug.plug) };

    ghost streams = { λ plug. streams_of plug.plug };

    ghost opened = { λ plug. opened_by plug.plug };

    ghost talks = { λ plug. talks_by plug.plug };

    ghost doors = { λ plug. doors_of plug.plug };

    ghost doors_opened = { λ plug. doors_opened_by plug.plug };

    ghost received = { λ plug. received_by plug.plug };

    ghost faults = { λ plug. faults_of plug.plug };

    fn dial(
        &mut self,
        alloc: Global,
        target: &Target,
        stop_file: Option<&Text>,
        number: u32,
    ) -> DialAnswer<MeetingHand<'r, R>> {
        let Ok(meeting) = Arc::try_clone(&self.meeting) else {
            return DialAnswer::Memory;
        };
        match self.plug.dial(alloc, target, stop_file, number) {
            DialAnswer::Dialled(hand) => {
                DialAnswer::Dialled(MeetingHand::new(self.rt, hand, meeting, number))
            }
            DialAnswer::Failed => DialAnswer::Failed,
            DialAnswer::Memory => DialAnswer::Memory,
        }
    }

    fn stream(&mut self, alloc: Global, target: &Target) -> DialAnswer<MemoryPipe> {
        self.plug.stream(alloc, target)
    }

    fn close_stream(&mut self, stream: MemoryPipe) {
        self.plug.close_stream(stream);
    }

    fn door(&mut self, alloc: Global, path: &Text) -> DialAnswer<MemoryDoor> {
        self.plug.door(alloc, path)
    }

    fn close_door(&mut self, door: MemoryDoor) {
        self.plug.close_door(door);
    }
}
