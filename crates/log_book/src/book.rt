ghost use Rattle.std.specs.Prelude.{◌≡◌, ◌∷◌, ◌++◌, ◌+◌, ◌<◌, ◌≤◌, [], false, true, IfOk};
ghost use Rattle.tree_base.specs.Limits.{most_workers};
ghost use Rattle.turn_ledger.specs.Own.{own};
ghost use Rattle.log_book.specs.declared.entries.LogCall.TheVariants as calls;
ghost use Rattle.log_book.specs.Books.{IsBook, bytes_of, grown, most_log_bytes, opening};
ghost use Rattle.log_book.specs.Calls.{MayAdd, answered, entered};

use crate::entries::{LogAnswer, LogCall, LogEntry};
use crate::sizes::room_behind;
use log_frames::LogLine;
use std::alloc::Global;
use std::marker::Model;
use tree_base::limits::MOST_LOG_BYTES;
use tree_base::{List, Memory, ReservedList};
use turn_ledger::Serial;

/// How many entries a container has at most: one for each part of its reply.
const MOST_PARTS: usize = 8;

/// A book of several containers' lines, which workers share. Contracts see how many slots and workers it is for, and its entries.
#[derive(Drop)]
pub struct LogBook {
    alloc: Global,
    slots: u32,
    workers: u32,
    /// How many bytes its lines may still have.
    room: usize,
    /// The entries, with room for all that may come.
    entries: ReservedList<LogEntry>,
}

impl Model for LogBook {
    ghost use Rattle.log_book.specs.Books.{Book, IsKept};

    ghost Value = { Book };

    ghost view = { λ b. record { slots = b.slots; workers = b.workers; entries = b.entries.items } };

    ghost invariant = { λ b. IsKept b.slots b.workers b.room b.entries };
}

impl LogBook {
    /// A book for so many slots and 1 to 16 workers, with the room of all entries.
    #[tactic(auto, using(crate::proofs::Growing::begun))]
    pub fn begin(alloc: Global, slots: u32, workers: u32) -> Result<LogBook, Memory>
        requires { (0 < workers) × (workers ≤ most_workers) }
        ensures { IfOk result (λ book.
            book ≡ record { slots = slots; workers = workers; entries = [] }) }
    {
        let mut entries = ReservedList::new(alloc);
        entries.reserve(MOST_PARTS * slots as usize)?;
        Ok(LogBook {
            alloc,
            slots,
            workers,
            room: MOST_LOG_BYTES,
            entries,
        })
    }

    /// The entries, in the order of their turns. No memory.
    pub fn finish(self) -> List<LogEntry>
        ensures entries { result ≡ self.entries }
        ensures book { IsBook self }
    {
        self.entries.into_list()
    }

    /// Adds lines, or a full entry where they have no room.
    fn add(&mut self, who: u32, container: u32, lines: List<LogLine>) -> LogAnswer
        requires { MayAdd (opening self.old) who (own (λ e. e.worker) who self.old.entries)
            container }
        ensures answer { result ≡ answered self.old.entries (calls.Add container lines) }
        ensures entry { self.new
            ≡ grown self.old (entered self.old.entries who (calls.Add container lines)) }
        ensures book { IsBook self.new }
    {
        match room_behind(lines.as_slice(), self.room) {
            Some(room) => {
                self.put_lines(who, container, lines, room);
                LogAnswer::Added
            }
            None => {
                drop(lines);
                self.put_full(who, container);
                LogAnswer::Full
            }
        }
    }

    /// Puts an entry with its lines, behind which so much room is left.
    fn put_lines(&mut self, worker: u32, container: u32, lines: List<LogLine>, room: usize)
        requires book { IsBook (grown self.old
            (record { worker = worker; container = container; lines = lines; full = false })) }
        requires room { room + bytes_of (self.old.entries
            ++ record { worker = worker; container = container; lines = lines; full = false } ∷ [])
            ≡ most_log_bytes }
        ensures { self.new ≡ grown self.old
            (record { worker = worker; container = container; lines = lines; full = false }) }
    {
        self.room = room;
        let entry = LogEntry {
            worker,
            container,
            lines,
            full: false,
        };
        self.entries.push(entry).unwrap();
    }

    /// Puts an entry that is full.
    fn put_full(&mut self, worker: u32, container: u32)
        requires { IsBook (grown self.old
            (record { worker = worker; container = container; lines = []; full = true })) }
        ensures { self.new ≡ grown self.old
            (record { worker = worker; container = container; lines = []; full = true }) }
    {
        let entry = LogEntry {
            worker,
            container,
            lines: List::new(self.alloc),
            full: true,
        };
        self.entries.push(entry).unwrap();
    }
}

impl Serial for LogBook {
    type Call = LogCall;

    type Answer = LogAnswer;

    type Entry = LogEntry;

    type Origin = LogBook;

    ghost use Rattle.std.specs.Prelude.{ℕ};
    ghost use Rattle.log_book.specs.Books.{opening};
    ghost use Rattle.log_book.specs.Calls.{Gives, MayCall, most, most_small};

    ghost journal = { λ book. book.entries };

    ghost origin = { λ book. opening book };

    ghost by = { λ e. e.worker };

    ghost allows = { λ opened w mine call. MayCall opened w mine call };

    ghost gives = { λ opened before w call answer e. Gives before w call answer e };

    ghost most = { most };

    fn turn(&mut self, who: u32, call: LogCall) -> LogAnswer {
        match call {
            LogCall::Add { container, lines } => self.add(who, container, lines),
        }
    }

    ghost small = { most_small };
}
