ghost use Rattle.std.specs.Prelude.{◌≡◌, IfOk, OnOk, map};
ghost use Rattle.file_paths.specs.Paths.{after_part, directory_of, joined, parts_of, path_through};

use std::alloc::Global;
use tree_base::{Memory, Text};

/// A path against a directory, with `.` and `..` resolved in the text: one that begins at the root stays.
/// `Memory` where there is none.
pub fn joined(alloc: Global, directory: &Text, text: &str) -> Result<Text, Memory>
    ensures { IfOk result (λ path. path ≡ joined directory.now text.now) }
{
    if text.starts_with("/") {
        return resolved(alloc, text);
    }
    let mut path = directory.copy(alloc)?;
    path.push_str("/")?;
    path.push_str(text)?;
    resolved(alloc, path.as_str())
}

/// A path with `.` and `..` resolved in the text.
fn resolved(alloc: Global, text: &str) -> Result<Text, Memory>
    ensures { IfOk result (λ path. path ≡ path_through (parts_of text.now)) }
{
    let parts = parts_of(alloc, text)?;
    path_through(alloc, parts.as_slice())
}

/// The parts of a path, taken as if a slash stood before it.
fn parts_of(alloc: Global, text: &str) -> Result<Vec<&str>, Memory>
    ensures { IfOk result (λ parts. map (λ part. part.now) parts.items ≡ parts_of text.now) }
{
    let steps = text.split('/').collect::<Vec<&str>>(alloc)?;
    let mut parts = Vec::new(alloc);
    for step in steps.as_slice() {
        take_step(&mut parts, *step)?;
    }
    Ok(parts)
}

fn take_step<'a>(parts: &mut Vec<&'a str>, step: &'a str) -> Result<(), Memory>
    ensures { OnOk result (map (λ part. part.now) parts.new.items
        ≡ after_part (map (λ part. part.now) parts.old.items) step.now) }
{
    if step.is_empty() || step == "." {
        return Ok(());
    }
    if step == ".." {
        parts.pop();
        return Ok(());
    }
    parts.push(step)?;
    Ok(())
}

/// The path that goes through parts from the root.
fn path_through(alloc: Global, parts: &[&str]) -> Result<Text, Memory>
    ensures { IfOk result (λ path. path ≡ path_through (map (λ part. part.now) parts.now)) }
{
    if parts.is_empty() {
        return Text::from_str(alloc, "/");
    }
    let mut path = Text::new(alloc);
    for part in parts {
        path.push_str("/")?;
        path.push_str(*part)?;
    }
    Ok(path)
}

/// The directory in which a path lies; that of the root is the root. `Memory` where
/// there is none.
pub fn directory_of(alloc: Global, path: &Text) -> Result<Text, Memory>
    ensures { IfOk result (λ directory. directory ≡ directory_of path.now) }
{
    let mut parts = parts_of(alloc, path.as_str())?;
    parts.pop();
    path_through(alloc, parts.as_slice())
}
