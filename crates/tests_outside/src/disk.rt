//! The files of the disk.

use outside_files::{DiskFiles, FileAnswer, Files};
use std::alloc::Global;
use std::test::Fail;
use tree_base::{Memory, Text};

fn word_of(answer: &FileAnswer) -> &'static str {
    match answer {
        FileAnswer::Bytes(_) => "bytes",
        FileAnswer::Missing => "missing",
        FileAnswer::Longer => "longer",
        FileAnswer::Failed => "failed",
        FileAnswer::Memory => "memory",
    }
}

/// What a read of a file answers, in a word.
fn read<F: Files>(
    alloc: Global,
    files: &mut F,
    path: &str,
    limit: u64,
) -> Result<&'static str, Memory> {
    let path = Text::from_str(alloc, path)?;
    Ok(word_of(&files.read(alloc, &path, limit)))
}

#[test]
fn files_of_the_disk_are_read(rt: HostRuntime) -> Result<(), Fail> {
    let alloc = rt.alloc();
    let mut files = DiskFiles::new(rt.alloc(), &rt);
    for (path, limit, answer) in [
        ("/dev/null", 0, "bytes"),
        ("/dev/zero", 9, "longer"),
        ("/no such file", 9, "missing"),
        ("/", 9, "failed"),
    ] {
        assert_eq!(rt; read(alloc, &mut files, path, limit)?, answer, "at {path}");
    }
    Ok(())
}
