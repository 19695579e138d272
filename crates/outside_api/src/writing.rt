ghost use Rattle.std.specs.Prelude.{◌≤◌, ◌<◌, length, take};
ghost use Rattle.outside_files.specs.Counts.{Rose};
ghost use Rattle.outside_api.specs.Pipes.{ToldBy, after_write};

use crate::pipe::Pipe;
use outside_files::SinkAnswer;

/// Writes bytes on a connection, piece by piece, and says how many were taken: all, or fewer where it failed. No memory.
pub fn write_on<P: Pipe>(pipe: &mut P, bytes: &[u8]) -> usize
    ensures counted { P.faults pipe.old ≤ P.faults pipe.new }
    ensures within { result ≤ length bytes.now }
    ensures told { ToldBy (after_write (take result bytes.now)) (P.talk pipe.old)
        (P.talk pipe.new) }
    ensures failed { result < length bytes.now → Rose (P.faults pipe.old) (P.faults pipe.new) }
{
    let mut at = 0;
    while at < bytes.len() {
        match pipe.write(bytes.split_at(at).1) {
            SinkAnswer::Took(0) => return at,
            SinkAnswer::Took(taken) => at += taken,
            SinkAnswer::Failed => return at,
        }
    }
    at
}
