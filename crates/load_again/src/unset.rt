use crate::again::LoadedAgain;
use dotenv::{EnvRefusal, read_env};
use outside_files::{FileAnswer, Files};
use std::alloc::Global;
use tree_base::{Env, List, Memory, Text, TextMap, Tree, TryCopy};
use unset_variables::put_unset;
use yaml_lines::scan;

/// The names of the variables that Compose files take though they are unset and nothing stands in for them, each once.
///
/// Those that the call names are read under the variables of the load. Another one, which they extend or include, may see
/// more: those of env files. So of these only what no env file of the load sets counts.
pub fn unset_names(alloc: Global, again: &mut LoadedAgain) -> Result<TextMap<bool>, Memory> {
    let mut names = TextMap::new(alloc);
    let own = again.loaded.files.copy(alloc)?;
    for path in own.as_slice() {
        if let Some(bytes) = bytes_at(alloc, again, path) {
            put_names(alloc, &bytes, &again.loaded.env, &mut names)?;
        }
    }
    let others = other_paths(alloc, again)?;
    if let Some(seen) = all_seen(alloc, again, &others)? {
        for path in others.keys() {
            put_other(alloc, again, path, &seen, &mut names)?;
        }
    }
    Ok(names)
}

/// The paths of the other files that were read, each once.
fn other_paths(alloc: Global, again: &LoadedAgain) -> Result<TextMap<bool>, Memory> {
    let mut own = TextMap::new(alloc);
    for path in again.loaded.files.as_slice() {
        own.put(path.copy(alloc)?, true)?;
    }
    let mut others = TextMap::new(alloc);
    for read in again.files.reads() {
        if own.get(&read.path).is_none() {
            others.put(read.path.copy(alloc)?, true)?;
        }
    }
    Ok(others)
}

/// The variables of the load with those of each env file among these; None where it isn't known what a file sets.
fn all_seen(
    alloc: Global,
    again: &mut LoadedAgain,
    others: &TextMap<bool>,
) -> Result<Option<Env>, Memory> {
    let mut seen = again.loaded.env.copy(alloc)?;
    for path in others.keys() {
        if let Some(bytes) = bytes_at(alloc, again, path) {
            if !put_settings(alloc, &bytes, &again.loaded.env, &mut seen)? {
                return Ok(None);
            }
        }
    }
    Ok(Some(seen))
}

/// Puts the variables of a file, where it can be an env file. Whether it is known what it sets.
fn put_settings(
    alloc: Global,
    bytes: &List<u8>,
    env: &Env,
    seen: &mut Env,
) -> Result<bool, Memory> {
    match read_env(alloc, bytes.as_slice(), env) {
        Ok(values) => {
            put_all(alloc, &values, seen)?;
            Ok(true)
        }
        Err(EnvRefusal::Memory) => Err(Memory),
        // No env file, under whatever variables.
        Err(EnvRefusal::BadLine { .. }) => Ok(true),
        Err(_) => Ok(false),
    }
}

fn put_all(alloc: Global, values: &Env, seen: &mut Env) -> Result<(), Memory> {
    for at in 0..values.len() {
        if let Some((name, value)) = values.pair(at) {
            seen.put(name.copy(alloc)?, value.copy(alloc)?)?;
        }
    }
    Ok(())
}

/// Puts the names of another file, where it can't be an env file, and so is a Compose file.
fn put_other(
    alloc: Global,
    again: &mut LoadedAgain,
    path: &Text,
    seen: &Env,
    names: &mut TextMap<bool>,
) -> Result<(), Memory> {
    let Some(bytes) = bytes_at(alloc, again, path) else {
        return Ok(());
    };
    match read_env(alloc, bytes.as_slice(), &again.loaded.env) {
        Err(EnvRefusal::BadLine { .. }) => put_names(alloc, &bytes, seen, names),
        Err(EnvRefusal::Memory) => Err(Memory),
        _ => Ok(()),
    }
}

/// Puts the names of a file that spells a tree.
fn put_names(
    alloc: Global,
    bytes: &List<u8>,
    env: &Env,
    names: &mut TextMap<bool>,
) -> Result<(), Memory> {
    if let Some(tree) = tree_in(alloc, bytes) {
        put_unset(alloc, &tree, env, names)?;
    }
    Ok(())
}

/// The tree that bytes spell; None where they spell none.
fn tree_in(alloc: Global, bytes: &List<u8>) -> Option<Tree> {
    let Ok(lines) = scan(alloc, bytes.as_slice(), 0) else {
        return None;
    };
    match yaml_tree::read(alloc, &lines) {
        Ok(tree) => Some(tree),
        Err(_) => None,
    }
}

/// The bytes that were read at a path.
fn bytes_at(alloc: Global, again: &mut LoadedAgain, path: &Text) -> Option<List<u8>> {
    match again.files.read(alloc, path, u64::MAX) {
        FileAnswer::Bytes(bytes) => Some(bytes),
        _ => None,
    }
}
