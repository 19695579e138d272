ghost use Rattle.std.specs.Prelude.{◌≡◌, ◌⊎◌, IfOk, Some};
ghost use Rattle.outside_files.specs.Sinks.{GrewBy};
ghost use Rattle.outside_files.specs.Writing.{Says};
ghost use Rattle.compose.specs.Ends.{EndsWith, directory_line, directory_status, notice_text};

use crate::directory::DirectoryRefusal;
use compose_words::{Notice, help_text, version_text};
use outside_files::{Sink, write_all};
use refusals::{Part, Refusal, say_if_any, status_of};
use std::alloc::Global;
use tree_base::{Memory, Text};

/// Writes the line of what a call is refused with, if anything: the exit status.
pub(crate) fn end<G: Sink>(alloc: Global, refusal: Option<Refusal>, err: &mut G) -> u8
    ensures { EndsWith refusal result (G.written err.old) (G.written err.new)
        (G.faults err.old) (G.faults err.new) }
{
    let refusal = say_if_any(alloc, refusal, err);
    let status = status_of(&refusal);
    // By a call, since the drop of each variant of a refusal would be proved at this place.
    drop(refusal);
    status
}

/// Writes why there is no working directory: the exit status. No memory.
pub(crate) fn end_without_directory<G: Sink>(refusal: DirectoryRefusal, err: &mut G) -> u8
    ensures status { result ≡ directory_status refusal }
    ensures line { Says (directory_line refusal) (G.written err.old) (G.written err.new)
        (G.faults err.old) (G.faults err.new) }
{
    write_all(err, directory_line(refusal).as_bytes());
    directory_status(refusal)
}

fn directory_line(refusal: DirectoryRefusal) -> &'static str
    ensures { result.now ≡ directory_line refusal }
{
    match refusal {
        DirectoryRefusal::BadUtf8 => "compose: PWD: BadUtf8\n",
        DirectoryRefusal::ReadFault => "compose: PWD: ReadFault\n",
        DirectoryRefusal::Memory => "compose: memory\n",
    }
}

fn directory_status(refusal: DirectoryRefusal) -> u8
    ensures { result ≡ directory_status refusal }
{
    match refusal {
        DirectoryRefusal::BadUtf8 => 2,
        DirectoryRefusal::ReadFault => 7,
        DirectoryRefusal::Memory => 9,
    }
}

/// Writes what is asked about the program: the exit status, with a line where the output failed or memory was wanted.
pub(crate) fn answer_notice<O: Sink, G: Sink>(
    alloc: Global,
    notice: Notice,
    out: &mut O,
    err: &mut G,
) -> u8
    ensures { ((result ≡ 0) × GrewBy (O.written out.old) (notice_text notice) (O.written out.new))
        ⊎ EndsWith (Some (Refusal.Outside Part.Out)) result (G.written err.old) (G.written err.new)
        (G.faults err.old) (G.faults err.new)
        ⊎ EndsWith (Some Refusal.Memory) result (G.written err.old) (G.written err.new)
        (G.faults err.old) (G.faults err.new) }
{
    match notice_text(alloc, notice) {
        Ok(text) if write_all(out, text.as_str().as_bytes()) => 0,
        Ok(_) => end(alloc, Some(Refusal::Outside(Part::Out)), err),
        Err(_) => end(alloc, Some(Refusal::Memory), err),
    }
}

fn notice_text(alloc: Global, notice: Notice) -> Result<Text, Memory>
    ensures { IfOk result (λ text. text ≡ notice_text notice) }
{
    match notice {
        Notice::Help => help_text(alloc),
        Notice::Version => version_text(alloc),
    }
}
