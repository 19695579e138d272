ghost use Rattle.std.specs.Prelude.{◌≤◌};
ghost use Rattle.outside_files.specs.Writing.{Wrote};

use crate::sink::{Sink, SinkAnswer};

/// Writes all bytes, piece by piece; false where the sink failed, after a prefix of them. No memory.
pub fn write_all<S: Sink>(sink: &mut S, bytes: &[u8]) -> bool
    ensures counted { S.faults sink.old ≤ S.faults sink.new }
    ensures wrote { Wrote result bytes.now (S.written sink.old) (S.written sink.new)
        (S.faults sink.old) (S.faults sink.new) }
{
    let mut at = 0;
    while at < bytes.len() {
        match sink.write(bytes.split_at(at).1) {
            SinkAnswer::Took(0) => return false,
            SinkAnswer::Took(taken) => at += taken,
            SinkAnswer::Failed => return false,
        }
    }
    true
}
