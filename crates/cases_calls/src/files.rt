use case_files::{Answers, Fields, Line, Lines, Reading};
use outside_files::{FileAnswer, FileRead, Files, MemoryFiles};
use std::alloc::Global;
use std::str;
use tree_base::{List, TextMap, Tree};

/// The files of the field `files`, of which the reads of `failing_reads`, from 1, fail. A path that begins with no
/// slash is one in the directory.
pub fn files_of(reading: &mut Reading, fields: &Fields, directory: &str) -> MemoryFiles {
    let failing = reading.numbers(fields, "failing_reads");
    let contents = contents_of(reading, fields, directory);
    MemoryFiles::new(reading.alloc, contents, failing)
}

/// The files of the field `files`, of which every read goes well.
pub fn sound_files_of(reading: &mut Reading, fields: &Fields, directory: &str) -> MemoryFiles {
    let failing = List::new(reading.alloc);
    let contents = contents_of(reading, fields, directory);
    MemoryFiles::new(reading.alloc, contents, failing)
}

fn contents_of(reading: &mut Reading, fields: &Fields, directory: &str) -> TextMap<List<u8>> {
    let mut contents = TextMap::new(reading.alloc);
    if let Some(files) = reading.fields(fields, "files") {
        let entries = files.entries();
        for (path, tree) in entries.keys().iter().zip(entries.values()) {
            add_file(reading, directory, path.as_str(), tree, &mut contents);
        }
    }
    contents
}

fn add_file(
    reading: &mut Reading,
    directory: &str,
    path: &str,
    tree: &Tree,
    to: &mut TextMap<List<u8>>,
) {
    let bytes = reading.bytes_of(tree, path);
    let path = reading.path_in(directory, path);
    let old = to.put(path, bytes);
    if old.is_err() {
        reading.memory();
    }
}

/// Reads files in memory one after another: `reads` has a mapping `{path: PATH, limit: BYTES}` for each read, and
/// `outcomes` what came of each.
pub fn reads(fields: &Fields, answers: &mut Answers) {
    let mut files = files_of(&mut answers.reading, fields, "");
    let outcomes = read_each(&mut answers.reading, fields, &mut files);
    answers.put_lines("outcomes", outcomes);
}

fn read_each(reading: &mut Reading, fields: &Fields, files: &mut MemoryFiles) -> Lines {
    let mut outcomes = Lines::new(reading.alloc);
    for tree in reading.items(fields, "reads") {
        if let Some(read) = reading.fields_of(tree, "reads") {
            outcomes.push(read_one(reading, &read, files));
        }
    }
    outcomes
}

fn read_one(reading: &mut Reading, read: &Fields, files: &mut MemoryFiles) -> Line {
    let path = reading.text_at(read, "path");
    let limit = reading.number_at(read, "limit");
    outcome_line(reading.alloc, &files.read(reading.alloc, &path, limit))
}

fn outcome_line(alloc: Global, answer: &FileAnswer) -> Line {
    match answer {
        FileAnswer::Bytes(bytes) => {
            let mut line = Line::of_word(alloc, "bytes");
            line.word(str::from_utf8(bytes.as_slice()).unwrap_or("?"));
            line
        }
        FileAnswer::Missing => Line::of_word(alloc, "missing"),
        FileAnswer::Longer => Line::of_word(alloc, "longer"),
        FileAnswer::Failed => Line::of_word(alloc, "failed"),
        FileAnswer::Memory => Line::of_word(alloc, "memory"),
    }
}

/// Puts the reads that files were asked for, a line each: the path, and `failed` where the read failed.
pub fn put_reads(reads: &[FileRead], answers: &mut Answers) {
    let alloc = answers.reading.alloc;
    let mut lines = Lines::new(alloc);
    for read in reads {
        let mut line = Line::of_word(alloc, read.path.as_str());
        if read.failed {
            line.word("failed");
        }
        lines.push(line);
    }
    answers.put_lines("reads", lines);
}
