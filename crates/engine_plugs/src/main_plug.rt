ghost use Rattle.std.specs.Prelude.{◌≡◌, ℕ, ◌≤◌, ◌<◌, ◌^◌, List as Items, [], Some, None, IfOk, IfSome, is_some};
ghost use Rattle.std.specs.Option.{ForSome, option_copied};
ghost use Rattle.engine_plugs.specs.MainHands.{IsFresh, IsSocketHand, no_engine};
ghost use Rattle.engine_types.specs.declared.Exchange.{Exchange};
ghost use Rattle.outside_api.specs.Clock.{Clock, new_clock};
ghost use Rattle.outside_api.specs.Hands.{BeginsWith, HeardNothing};
ghost use Rattle.outside_api.specs.Plugs.{AddsDial, CountsDial, dial_of};
ghost use Rattle.outside_files.specs.Counts.{Rose};
ghost use Rattle.shared_hand.specs.SharedHands.{clock_of, log_of};
ghost use Rattle.socket_wire.specs.PipesOfSockets.{failed_calls};
ghost use Rattle.socket_wire.specs.WiresOfSockets.{path_of, stop_file_of};

use crate::main_hand::MainHand;
use crate::socket_hand::SocketHand;
use http_hand::HttpHand;
use memory_engine::MemoryEngine;
use outside_api::{
    Dial, DialAnswer, Hand, Plug, Target, copied_stop_file, note_dial, note_door, note_stream,
};
use progress_board::{SharedBoard, another};
use shared_hand::{SharedEngine, SharedHand};
use socket_wire::{Patience, SocketDoor, SocketPipe, SocketWire, connect, milliseconds};
use std::alloc::Global;
use std::sync::{Arc, Mutex, Wait};
use tree_base::{List, Memory, Text};

/// The plug of the program. It tells no Engine, and nothing of what is said on streams and at doors. It keeps the dials, streams and
/// doors that it was asked for, and counts those that it made. No dial fails: the hand of a socket connects at its exchanges, and all
/// hands in memory share one Engine, which is fresh for the first of them and settles. Where the call has a deadline, that is so many
/// seconds after the first dial or stream, and hands and streams over sockets wait for their Engine no longer than their patience lasts
/// behind it.
#[derive(Drop)]
pub struct MainPlug<'r, R> {
    host: &'r HostRuntime,
    rt: &'r R,
    wait_seconds: Option<u32>,
    /// The call's deadline in milliseconds of the system's clock, once a hand over a socket or a stream was asked for.
    deadline: Option<u64>,
    /// What its hands over sockets tell of their exchanges.
    board: Option<SharedBoard>,
    /// The Engine in memory, once a hand was made for it.
    memory: Option<Arc<Mutex<SharedEngine>>>,
    dials: List<Dial>,
    dialled: u64,
    streams: List<Target>,
    opened: u64,
    doors: List<Text>,
    doors_opened: u64,
    failed: u64,
}

impl<'r, R: Wait + Sync> MainPlug<'r, R> {
    /// A plug that made no hand yet, of a call that has so many seconds. Its hands over sockets are the host's, and those in memory
    /// wait for their lock by the other handle. No memory.
    pub fn new(
        host: &'r HostRuntime,
        rt: &'r R,
        wait_seconds: Option<u32>,
        board: Option<SharedBoard>,
    ) -> MainPlug<'r, R>
        ensures dials { ⟦<MainPlug<'r, R> as Plug>⟧.dials result ≡ [] }
        ensures dialled { ⟦<MainPlug<'r, R> as Plug>⟧.dialled result ≡ Some 0 }
        ensures streams { ⟦<MainPlug<'r, R> as Plug>⟧.streams result ≡ [] }
        ensures opened { ⟦<MainPlug<'r, R> as Plug>⟧.opened result ≡ 0 }
        ensures talks { ⟦<MainPlug<'r, R> as Plug>⟧.talks result ≡ None }
        ensures doors { ⟦<MainPlug<'r, R> as Plug>⟧.doors result ≡ [] }
        ensures doors_opened { ⟦<MainPlug<'r, R> as Plug>⟧.doors_opened result ≡ 0 }
        ensures received { ⟦<MainPlug<'r, R> as Plug>⟧.received result ≡ None }
        ensures faults { ⟦<MainPlug<'r, R> as Plug>⟧.faults result ≡ 0 }
    {
        MainPlug {
            host,
            rt,
            wait_seconds,
            deadline: None,
            board,
            memory: None,
            dials: List::new(host.alloc()),
            dialled: 0,
            streams: List::new(host.alloc()),
            opened: 0,
            doors: List::new(host.alloc()),
            doors_opened: 0,
            failed: 0,
        }
    }
}

impl<'r, R> MainPlug<'r, R> {
    /// A new hand that speaks with the Engine of a target. What it tells is said by its variants, and not as of a `Hand`: that asks of
    /// the handle what a method of a plug doesn't know of it.
    fn hand_for(
        &mut self,
        alloc: Global,
        target: &Target,
        stop_file: Option<&Text>,
        number: u32,
    ) -> Result<MainHand<'r, R>, Memory>
        ensures log { IfOk result (λ hand. (elim hand as (λ _. Items Exchange) [
          | MainHand.Http http ↦ ⟦<HttpHand<SocketWire<'r>> as Hand>⟧.log http.hand
          | MainHand.Memory memory ↦ log_of memory
        ]) ≡ []) }
        ensures heard { IfOk result (λ hand. HeardNothing (elim hand [
          | MainHand.Http http ↦ ⟦<HttpHand<SocketWire<'r>> as Hand>⟧.heard http.hand
          | MainHand.Memory memory ↦ None
        ])) }
        ensures clock { IfOk result (λ hand. (elim hand as (λ _. Clock) [
          | MainHand.Http http ↦ ⟦<HttpHand<SocketWire<'r>> as Hand>⟧.clock http.hand
          | MainHand.Memory memory ↦ clock_of memory
        ]) ≡ new_clock) }
        ensures faults { IfOk result (λ hand. (elim hand as (λ _. ℕ) [
          | MainHand.Http http ↦ ⟦<HttpHand<SocketWire<'r>> as Hand>⟧.faults http.hand
          | MainHand.Memory memory ↦ 0
        ]) ≡ 0) }
        ensures made { IfOk result (λ hand. elim hand [
          | MainHand.Http http ↦ IsSocketHand target.now (option_copied stop_file.entry)
              (path_of http.hand.wire) (stop_file_of http.hand.wire)
          | MainHand.Memory memory ↦ target.now ≡ Target.InMemory
        ]) }
        ensures dials { self.new.dials ≡ self.old.dials }
        ensures dialled { self.new.dialled ≡ self.old.dialled }
        ensures streams { self.new.streams ≡ self.old.streams }
        ensures opened { self.new.opened ≡ self.old.opened }
        ensures doors { self.new.doors ≡ self.old.doors }
        ensures doors_opened { self.new.doors_opened ≡ self.old.doors_opened }
        ensures failed { self.new.failed ≡ self.old.failed }
    {
        match target {
            Target::Socket(path) => {
                let deadline = self.deadline();
                let board = another(self.board.as_ref());
                let hand = socket_hand(alloc, self.host, path, stop_file, deadline, board)?;
                let board = another(self.board.as_ref());
                let hand = SocketHand::new(self.host, self.rt, hand, board, number);
                Ok(MainHand::Http(hand))
            }
            Target::InMemory => Ok(MainHand::Memory(self.memory_hand(alloc)?)),
        }
    }

    /// The call's deadline, which the first dial or stream sets. No memory.
    fn deadline(&mut self) -> Option<u64>
        ensures dials { self.new.dials ≡ self.old.dials }
        ensures dialled { self.new.dialled ≡ self.old.dialled }
        ensures streams { self.new.streams ≡ self.old.streams }
        ensures opened { self.new.opened ≡ self.old.opened }
        ensures doors { self.new.doors ≡ self.old.doors }
        ensures doors_opened { self.new.doors_opened ≡ self.old.doors_opened }
        ensures failed { self.new.failed ≡ self.old.failed }
    {
        if self.deadline.is_none() {
            self.deadline = deadline_from(self.host, self.wait_seconds);
        }
        self.deadline
    }

    /// The patience of a new stream, which no stop file ends.
    fn patience(&mut self, alloc: Global) -> Result<Arc<Patience>, Memory>
        ensures dials { self.new.dials ≡ self.old.dials }
        ensures dialled { self.new.dialled ≡ self.old.dialled }
        ensures streams { self.new.streams ≡ self.old.streams }
        ensures opened { self.new.opened ≡ self.old.opened }
        ensures doors { self.new.doors ≡ self.old.doors }
        ensures doors_opened { self.new.doors_opened ≡ self.old.doors_opened }
        ensures failed { self.new.failed ≡ self.old.failed }
    {
        let deadline = self.deadline();
        Ok(Arc::new(alloc, Patience::new(deadline, None))?)
    }

    /// A new hand that shares the Engine in memory.
    fn memory_hand(&mut self, alloc: Global) -> Result<SharedHand<'r, R>, Memory>
        ensures log { IfOk result (λ hand. log_of hand ≡ []) }
        ensures clock { IfOk result (λ hand. clock_of hand ≡ new_clock) }
        ensures dials { self.new.dials ≡ self.old.dials }
        ensures dialled { self.new.dialled ≡ self.old.dialled }
        ensures streams { self.new.streams ≡ self.old.streams }
        ensures opened { self.new.opened ≡ self.old.opened }
        ensures doors { self.new.doors ≡ self.old.doors }
        ensures doors_opened { self.new.doors_opened ≡ self.old.doors_opened }
        ensures failed { self.new.failed ≡ self.old.failed }
    {
        let shared = self.shared(alloc)?;
        Ok(SharedHand::new(alloc, self.rt, shared))
    }

    /// The Engine that hands in memory share, which is made for the first of them.
    fn shared(&mut self, alloc: Global) -> Result<Arc<Mutex<SharedEngine>>, Memory>
        ensures dials { self.new.dials ≡ self.old.dials }
        ensures dialled { self.new.dialled ≡ self.old.dialled }
        ensures streams { self.new.streams ≡ self.old.streams }
        ensures opened { self.new.opened ≡ self.old.opened }
        ensures doors { self.new.doors ≡ self.old.doors }
        ensures doors_opened { self.new.doors_opened ≡ self.old.doors_opened }
        ensures failed { self.new.failed ≡ self.old.failed }
    {
        if let Some(shared) = &self.memory {
            return Ok(Arc::try_clone(shared)?);
        }
        let shared = Arc::new(alloc, Mutex::new(fresh_engine(alloc)?))?;
        let own = Arc::try_clone(&shared)?;
        self.memory = Some(own);
        Ok(shared)
    }
}

impl<'r, R: Wait + Sync> Plug for MainPlug<'r, R> {
    type Hand = MainHand<'r, R>;

    type Stream = SocketPipe<'r>;

    type Door = SocketDoor<'r>;

    ghost engine = { λ _. None };

    ghost dials = { λ plug. plug.dials };

    ghost dialled = { λ plug. Some plug.dialled };

    ghost streams = { λ plug. plug.streams };

    ghost opened = { λ plug. plug.opened };

    ghost talks = { λ _. None };

    ghost doors = { λ plug. plug.doors };

    ghost doors_opened = { λ plug. plug.doors_opened };

    ghost received = { λ _. None };

    ghost faults = { λ plug. plug.failed };

    /// Makes a hand that speaks with the Engine of a target. Memory only where there is none for the dial, for the paths, or for an
    /// Engine in memory.
    fn dial(
        &mut self,
        alloc: Global,
        target: &Target,
        stop_file: Option<&Text>,
        number: u32,
    ) -> DialAnswer<MainHand<'r, R>>
        requires { ForSome (Some self.old.dialled) (λ n. n < 2 ^ 62) }
        ensures counted { self.old.failed ≤ self.new.failed }
        ensures failed { result ≡ DialAnswer.Failed → Rose self.old.failed self.new.failed }
        ensures never_fails { result ≡ DialAnswer.Failed → ⊥ }
        ensures dials { AddsDial self.old.dials
            (dial_of target.now (option_copied stop_file.entry) number) self.new.dials result }
        ensures dialled { CountsDial (Some self.old.dialled) (Some self.new.dialled) result }
        ensures log { (hand : _) → result ≡ DialAnswer.Dialled hand
            → ⟦<MainHand<'r, R> as Hand>⟧.log hand ≡ [] }
        ensures heard { (hand : _) → result ≡ DialAnswer.Dialled hand
            → HeardNothing (⟦<MainHand<'r, R> as Hand>⟧.heard hand) }
        ensures clock { (hand : _) → result ≡ DialAnswer.Dialled hand
            → ⟦<MainHand<'r, R> as Hand>⟧.clock hand ≡ new_clock }
        ensures faults { (hand : _) → result ≡ DialAnswer.Dialled hand
            → ⟦<MainHand<'r, R> as Hand>⟧.faults hand ≡ 0 }
        ensures engine { (hand : _) → result ≡ DialAnswer.Dialled hand
            → BeginsWith no_engine (⟦<MainHand<'r, R> as Hand>⟧.engine hand) }
        ensures made { (hand : _) → result ≡ DialAnswer.Dialled hand
            → elim hand [
              | MainHand.Http http ↦ IsSocketHand target.now (option_copied stop_file.entry)
                  (path_of http.hand.wire) (stop_file_of http.hand.wire)
              | MainHand.Memory memory ↦ target.now ≡ Target.InMemory
            ] }
        ensures streams { self.new.streams ≡ self.old.streams }
        ensures opened { self.new.opened ≡ self.old.opened }
        ensures doors { self.new.doors ≡ self.old.doors }
        ensures doors_opened { self.new.doors_opened ≡ self.old.doors_opened }
        ensures no_fault { self.new.failed ≡ self.old.failed }
    {
        let Ok(()) = note_dial(alloc, &mut self.dials, target, stop_file, number) else {
            return DialAnswer::Memory;
        };
        match self.hand_for(alloc, target, stop_file, number) {
            Ok(hand) => {
                self.dialled += 1;
                DialAnswer::Dialled(hand)
            }
            Err(Memory) => DialAnswer::Memory,
        }
    }

    /// Connects to the socket of a target. Failed where that fails, and for an Engine in memory, which has no stream: then a fault is
    /// counted. Memory only where there is none to keep what was asked for, or for the stream's patience.
    fn stream(&mut self, alloc: Global, target: &Target) -> DialAnswer<SocketPipe<'r>> {
        if note_stream(alloc, &mut self.streams, target).is_err() {
            return DialAnswer::Memory;
        }
        let Ok(patience) = self.patience(alloc) else {
            return DialAnswer::Memory;
        };
        match stream_to(self.host, target, patience) {
            Some(stream) => {
                self.opened += 1;
                DialAnswer::Dialled(stream)
            }
            None => {
                count_fault(&mut self.failed);
                DialAnswer::Failed
            }
        }
    }

    fn close_stream(&mut self, stream: SocketPipe<'r>) {
        if stream.has_failed() {
            count_fault(&mut self.failed);
        }
    }

    /// Makes a socket at a path. Failed where that fails: then a fault is counted. Memory only where there is none to keep what was
    /// asked for.
    fn door(&mut self, alloc: Global, path: &Text) -> DialAnswer<SocketDoor<'r>> {
        if note_door(alloc, &mut self.doors, path).is_err() {
            return DialAnswer::Memory;
        }
        match SocketDoor::open(self.host, path) {
            Some(door) => {
                self.doors_opened += 1;
                DialAnswer::Dialled(door)
            }
            None => {
                count_fault(&mut self.failed);
                DialAnswer::Failed
            }
        }
    }

    fn close_door(&mut self, door: SocketDoor<'r>) {
        if door.has_failed() {
            count_fault(&mut self.failed);
        }
    }
}

/// Counts a fault. The count stands still at the greatest `u64`. No memory.
fn count_fault(faults: &mut u64)
    ensures rose { Rose faults.old faults.new }
    ensures never_falls { faults.old ≤ faults.new }
{
    *faults = faults.saturating_add(1);
}

/// A connection to the socket of a target; none where it can't be made, and to an Engine in memory. No memory.
fn stream_to<'r>(
    host: &'r HostRuntime,
    target: &Target,
    patience: Arc<Patience>,
) -> Option<SocketPipe<'r>>
    ensures { IfSome result (λ stream. failed_calls stream ≡ 0) }
{
    match target {
        Target::Socket(path) => connect(host, path, Some(patience), None),
        Target::InMemory => None,
    }
}

/// A fresh Engine in memory that settles, with a clock at 0.
fn fresh_engine(alloc: Global) -> Result<SharedEngine, Memory>
    ensures engine { IfOk result (λ shared. IsFresh shared.engine) }
    ensures clock { IfOk result (λ shared. shared.clock ≡ 0) }
    ensures looked { IfOk result (λ shared. shared.looked ≡ Some []) }
{
    Ok(SharedEngine::settling(alloc, MemoryEngine::fresh(alloc)?))
}

/// The deadline of a call that has so many seconds from now on, in milliseconds of the system's clock. No memory.
fn deadline_from(rt: &HostRuntime, seconds: Option<u32>) -> Option<u64>
    ensures { is_some result ≡ is_some seconds }
{
    let seconds = seconds?;
    let now = milliseconds(rt, u64::MAX);
    Some(now.saturating_add(1_000 * u64::from(seconds)))
}

/// A new hand over the socket at a path, which doesn't connect yet.
fn socket_hand<'r>(
    alloc: Global,
    rt: &'r HostRuntime,
    path: &Text,
    stop_file: Option<&Text>,
    deadline: Option<u64>,
    board: Option<SharedBoard>,
) -> Result<HttpHand<SocketWire<'r>>, Memory>
    ensures log { IfOk result (λ hand. ⟦<HttpHand<SocketWire<'r>> as Hand>⟧.log hand ≡ []) }
    ensures clock { IfOk result (λ hand.
        ⟦<HttpHand<SocketWire<'r>> as Hand>⟧.clock hand ≡ new_clock) }
    ensures faults { IfOk result (λ hand.
        ⟦<HttpHand<SocketWire<'r>> as Hand>⟧.faults hand ≡ 0) }
    ensures path { IfOk result (λ hand. path_of hand.wire ≡ path.now) }
    ensures stop_file { IfOk result (λ hand.
        stop_file_of hand.wire ≡ option_copied stop_file.entry) }
{
    let stop_file = copied_stop_file(alloc, stop_file)?;
    let path = path.copy(alloc)?;
    let patience = Arc::new(alloc, Patience::new(deadline, stop_file))?;
    Ok(HttpHand::new(alloc, SocketWire::new(rt, path, patience, board)))
}
