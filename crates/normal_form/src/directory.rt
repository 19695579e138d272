ghost use Rattle.std.specs.Prelude.{◌≡◌, ◌<◌, ◌++◌, ◌∷◌, [], IsTrue, IfOk, OnOk, map};
ghost use Rattle.normal_form.specs.ProjectNames.{base_name, goes_on, is_mark, is_name_character, last_part, lower, name_from};

use std::alloc::Global;
use tree_base::{Memory, Text};

/// The base name of a directory by its path, empty at the root.
pub(crate) fn base_name(alloc: Global, directory: &Text) -> Result<&str, Memory>
    ensures { IfOk result (λ base. base.now ≡ base_name directory.now) }
{
    let parts = directory.as_str().split('/').collect::<Vec<&str>>(alloc)?;
    Ok(last_part(parts.as_slice()))
}

fn last_part<'a>(parts: &[&'a str]) -> &'a str
    ensures { result.now ≡ last_part (map (λ part. part.now) parts.now) }
{
    match parts.last() {
        Some(part) => *part,
        None => "",
    }
}

/// The project name that a directory's base name gives, empty where nothing of it is left.
pub(crate) fn name_from(alloc: Global, base: &str) -> Result<Text, Memory>
    ensures { IfOk result (λ name. name ≡ name_from base.now) }
{
    let mut name = Text::new(alloc);
    for byte in base.as_bytes() {
        let character = lower(*byte);
        if goes_on(&name, character) {
            push_ascii(&mut name, character)?;
        }
    }
    Ok(name)
}

fn push_ascii(name: &mut Text, character: u8) -> Result<(), Memory>
    requires { character < 128 }
    ensures { OnOk result (name.new ≡ name.old ++ character ∷ []) }
{
    name.push(char::from(character))
}

fn goes_on(name: &Text, character: u8) -> bool
    ensures value { result ≡ goes_on name.now character }
    ensures ascii { IsTrue result → character < 128 }
{
    if !is_name_character(character) {
        return false;
    }
    if !name.is_empty() {
        return true;
    }
    !is_mark(character)
}

fn lower(byte: u8) -> u8
    ensures { result ≡ lower byte }
{
    if byte.is_ascii_uppercase() {
        byte + 32
    } else {
        byte
    }
}

pub(crate) fn is_mark(byte: u8) -> bool
    ensures { result ≡ is_mark byte }
{
    byte == b'-' || byte == b'_'
}

pub(crate) fn is_name_character(byte: u8) -> bool
    ensures value { result ≡ is_name_character byte }
    ensures ascii { IsTrue result → byte < 128 }
{
    matches!(byte, b'a'..=b'z' | b'0'..=b'9') || is_mark(byte)
}
