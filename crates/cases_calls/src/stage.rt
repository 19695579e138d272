use crate::files::files_of;
use crate::piece_sink::PieceSink;
use crate::sinks::sink_at;
use case_files::{Fields, Reading};
use outside_files::MemoryFiles;

/// What a call reads from and writes to.
#[derive(Drop)]
pub struct Stage {
    pub out: PieceSink,
    pub err: PieceSink,
    pub files: MemoryFiles,
}

/// The stage of a case: the sinks of `out_sink` and `err_sink`, and its files, of which those without a slash stand in the
/// directory. None, and the want of memory is kept, where there is none for the sinks.
pub fn stage_of(reading: &mut Reading, fields: &Fields, directory: &str) -> Option<Stage> {
    Some(Stage {
        out: sink_at(reading, fields, "out_sink")?,
        err: sink_at(reading, fields, "err_sink")?,
        files: files_of(reading, fields, directory),
    })
}
