use case_files::{Fields, Reading};
use outside_files::MemoryFiles;
use tree_base::{List, TextMap, Tree};

/// The files of a case: its text as `compose.yaml`, and those of the field `files`, of which a path without a slash at its
/// beginning is one in the directory. The reads with the numbers of `failing_reads`, from 1, fail.
pub(crate) fn files_of(reading: &mut Reading, fields: &Fields, directory: &str) -> MemoryFiles {
    let failing = reading.numbers(fields, "failing_reads");
    let contents = contents_of(reading, fields, directory);
    MemoryFiles::new(reading.alloc, contents, failing)
}

fn contents_of(reading: &mut Reading, fields: &Fields, directory: &str) -> TextMap<List<u8>> {
    let mut contents = TextMap::new(reading.alloc);
    if let Some(text) = reading.tree_at(fields, "declares") {
        add_file(reading, directory, "compose.yaml", text, &mut contents);
    }
    if let Some(files) = reading.fields(fields, "files") {
        let entries = files.entries();
        for (path, text) in entries.keys().iter().zip(entries.values()) {
            add_file(reading, directory, path.as_str(), text, &mut contents);
        }
    }
    contents
}

fn add_file(
    reading: &mut Reading,
    directory: &str,
    path: &str,
    text: &Tree,
    to: &mut TextMap<List<u8>>,
) {
    let bytes = reading.bytes_of(text, path);
    let path = reading.path_in(directory, path);
    let old = to.put(path, bytes);
    if old.is_err() {
        reading.memory();
    }
}
