//! Calls of `up` beside a Compose file in memory, with a plug whose hands meet.

ghost use Rattle.std.specs.Prelude.{◌<◌, ◌≤◌, ◌^◌, IfOk, length};
ghost use Rattle.tree_base.specs.Limits.{most_workers};

use crate::ends::{Ends, ends_of};
use meeting_hands::{Meeting, MeetingPlug};
use memory_engine::MemoryEngine;
use outside_files::{MemoryFiles, MemorySink};
use repeated_runs::compose_main;
use std::alloc::Global;
use std::sync::Wait;
use std::thread::Threads;
use std::time::Clock;
use tree_base::{Env, List, Memory, Text, TextMap};

/// For how many bytes each sink has room.
const ROOM: usize = 4096;

/// What a call brings up, and by how many workers.
#[derive(Clone, Copy)]
pub(crate) struct Asked {
    /// The Compose file.
    pub(crate) text: &'static str,
    pub(crate) workers: &'static str,
}

/// A directory's `compose.yaml` with this text.
fn files_of(alloc: Global, text: &str) -> Result<MemoryFiles, Memory> {
    let mut bytes = List::new(alloc);
    bytes.extend_from_slice(text.as_bytes())?;
    let path = Text::from_str(alloc, "/shop/compose.yaml")?;
    let mut files = TextMap::new(alloc);
    let old = files.put(path, bytes)?;
    drop(old);
    Ok(MemoryFiles::new(alloc, files, List::new(alloc)))
}

/// The words of an `up` on an Engine in memory, with so many workers.
fn words_of(alloc: Global, workers: &str) -> Result<List<Text>, Memory>
    ensures { IfOk result (λ words. length words < 2 ^ 32) }
{
    let mut words = List::new(alloc);
    for word in ["--memory", "--parallel", workers, "up"] {
        words.push(Text::from_str(alloc, word)?)?;
    }
    if words.len() < 10 {
        Ok(words)
    } else {
        Err(Memory)
    }
}

/// Makes a call on this Engine, with a plug of so many hands that meet so: what came of it.
pub(crate) fn called<R: Threads + Wait + Sync + Clock>(
    alloc: Global,
    rt: &R,
    asked: Asked,
    engine: MemoryEngine,
    hands: u32,
    meeting: Meeting,
) -> Result<Ends, Memory>
    requires some { 0 < hands }
    requires few { hands ≤ most_workers }
{
    let mut plug = MeetingPlug::new(alloc, rt, engine, hands, meeting)?;
    let words = words_of(alloc, asked.workers)?;
    let directory = Text::from_str(alloc, "/shop")?;
    let mut files = files_of(alloc, asked.text)?;
    let mut out = MemorySink::new(alloc, ROOM, List::new(alloc))?;
    let mut err = MemorySink::new(alloc, ROOM, List::new(alloc))?;
    let variables = Env::new(alloc);
    let attempts = compose_main(
        alloc, rt, &words, &variables, &directory, &mut files, &mut plug, &mut out, &mut err,
    );
    let ends = ends_of(&attempts, &plug);
    drop(attempts);
    Ok(ends)
}
