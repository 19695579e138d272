ghost use Rattle.std.specs.Prelude.{◌≡◌, None, IsFalse};
ghost use Rattle.socket_wire.specs.Patiences.{deadline_of, file_of, has_ended, is_over};

use std::fs;
use std::rt::Files;
use tree_base::Text;

/// How many seconds past its deadline, and behind the coming of its stop file, a call still waits for an Engine.
pub const PATIENCE_SECONDS: u64 = 60;

/// How long the exchanges of a call may last: they end some time past the call's deadline, and behind the coming of its stop
/// file. Without both they have no end.
#[derive(Drop)]
pub struct Patience {
    /// In milliseconds of the system's clock that never goes back.
    deadline: Option<u64>,
    stop_file: Option<Text>,
}

impl Patience {
    /// That of a call with this deadline and this stop file. No memory.
    pub fn new(deadline: Option<u64>, stop_file: Option<Text>) -> Patience
        ensures deadline { deadline_of result ≡ deadline }
        ensures stop_file { file_of result ≡ stop_file }
    {
        Patience {
            deadline,
            stop_file,
        }
    }

    /// Whether there is a file at the path of the stop file. No memory.
    pub fn finds_stop_file<R: Files>(&self, rt: &R) -> bool
        ensures { file_of self.now ≡ None → IsFalse result }
    {
        match &self.stop_file {
            Some(path) => is_there(rt, path.as_str()),
            None => false,
        }
    }

    /// Whether it is over at a time, where the stop file was first found at another. No memory.
    pub fn is_over(&self, stopped: Option<u64>, now: u64) -> bool
        ensures { result ≡ is_over (deadline_of self.now) stopped now }
    {
        has_ended(self.deadline, now) || has_ended(stopped, now)
    }
}

/// Whether so many seconds went by since a time, if there is one. No memory.
fn has_ended(since: Option<u64>, now: u64) -> bool
    ensures { result ≡ has_ended since now }
{
    let Some(since) = since else {
        return false;
    };
    since.saturating_add(1_000 * PATIENCE_SECONDS) <= now
}

/// Whether a file is found at a path. No memory.
fn is_there<R: Files>(rt: &R, path: &str) -> bool {
    match fs::exists(rt, path) {
        Ok(there) => there,
        Err(_) => false,
    }
}
