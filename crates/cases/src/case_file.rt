use case_files::CaseFault;
use outside_files::{DiskFiles, FileAnswer, Files};
use std::alloc::Global;
use tree_base::{List, Text, Tree};
use yaml_lines::{YamlRefusal, scan};
use yaml_tree::read;

/// The greatest size of a file, in bytes.
const GREATEST: u64 = 4194304;

/// The cases of a file. NoCase where it can't be read, is no YAML, with the place, or has no sequence.
pub fn cases_of(rt: &HostRuntime, file: &Text) -> Result<List<Tree>, CaseFault> {
    let alloc = rt.alloc();
    let mut files = DiskFiles::new(alloc, rt);
    match files.read(alloc, file, GREATEST) {
        FileAnswer::Bytes(bytes) => cases_in(alloc, bytes.as_slice()),
        FileAnswer::Memory => Err(CaseFault::Memory),
        FileAnswer::Missing => Err(CaseFault::no_case(alloc, "there is no such file")),
        FileAnswer::Longer => Err(CaseFault::no_case(alloc, "it has more than 4194304 bytes")),
        FileAnswer::Failed => Err(CaseFault::no_case(alloc, "it can't be read")),
    }
}

fn cases_in(alloc: Global, bytes: &[u8]) -> Result<List<Tree>, CaseFault> {
    match tree_in(alloc, bytes) {
        Ok(Tree::Seq(cases)) => Ok(cases.take(alloc)?),
        Ok(_) => Err(CaseFault::no_case(alloc, "the file wants a sequence")),
        Err(YamlRefusal::Memory) => Err(CaseFault::Memory),
        Err(refusal) => {
            let words = format!(in alloc; "{refusal}")?;
            Err(CaseFault::NoCase(Text::from_string(words)))
        }
    }
}

fn tree_in(alloc: Global, bytes: &[u8]) -> Result<Tree, YamlRefusal> {
    let lines = scan(alloc, bytes, 0)?;
    read(alloc, &lines)
}
