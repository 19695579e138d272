ghost use Rattle.std.specs.Prelude.{◌≡◌, ◌≢◌, [], ◌<◌, ◌+◌, ◌^◌, ℕ, IfOk, OnOk, None, Some, drop, if◌then◌else◌, is_some, length, take};
ghost use Rattle.std.specs.Str.{IsCharBoundary};
ghost use Rattle.interpolate.specs.Parts.{parts};
ghost use Rattle.interpolate.specs.Shapes.{tail_start};
ghost use Rattle.interpolate.specs.Substitution.{counted};
ghost use Rattle.tree_base.specs.Entries.{value_at};
ghost use Rattle.unset_variables.specs.Heads.{action_of};
ghost use Rattle.unset_variables.specs.Unset.{GivesFirst, is_taken, unless_set, where_whole, with_form, with_names, with_unset};

use crate::part::{Head, Taking, first_head};
use std::alloc::Global;
use tree_base::{Env, Memory, Text, TextMap};

/// Puts the names of a text, with so many levels left for forms in forms. Whether the text is well formed; where it isn't, some may
/// have been put.
#[cycle(text)]
pub(crate) fn put_text(
    alloc: Global,
    text: &str,
    levels: u32,
    env: &Env,
    names: &mut TextMap<bool>,
) -> Result<bool, Memory>
    ensures { IfOk result (λ whole. (at : ℕ)
        → with_unset (value_at env.now) names.old (parts levels at text.now)
        ≡ where_whole whole names.new) }
{
    let mut rest = text;
    while !rest.is_empty() {
        match put_part(alloc, rest, levels, env, names)? {
            Some(len) => rest = rest_from(rest, len),
            None => return Ok(false),
        }
    }
    Ok(true)
}

/// Puts the names of the first part, and gives its length, where it is well formed.
#[cycle(text)]
fn put_part(
    alloc: Global,
    text: &str,
    levels: u32,
    env: &Env,
    names: &mut TextMap<bool>,
) -> Result<Option<usize>, Memory>
    requires { text.now ≢ [] }
    ensures { IfOk result (λ len. GivesFirst (value_at env.now) names.old levels text.now
        len names.new) }
{
    match first_head(text, levels) {
        Head::Literal { len } => Ok(Some(len)),
        Head::Dollar => Ok(Some(2)),
        Head::Name { len } => {
            put_name(alloc, piece(text, 1, len), env, names)?;
            Ok(Some(len + 1))
        }
        Head::Value { len } => {
            put_name(alloc, piece(text, 2, len), env, names)?;
            Ok(Some(len + 3))
        }
        Head::Form {
            name,
            colon,
            taking,
            tail,
        } => {
            let start = tail_start(name, colon);
            let name = piece(text, 2, name);
            let inner = piece(text, start, tail);
            let whole = put_form(alloc, name, colon, taking, inner, levels - 1, env, names)?;
            Ok(len_if(whole, start + tail + 1))
        }
        Head::Unclosed => Ok(None),
        Head::Wrong => Ok(None),
    }
}

/// Puts the names of a form, where its tail is well formed. A tail that isn't taken is read alone.
#[cycle(text)]
fn put_form(
    alloc: Global,
    name: &str,
    colon: bool,
    taking: Taking,
    tail: &str,
    levels: u32,
    env: &Env,
    names: &mut TextMap<bool>,
) -> Result<bool, Memory>
    ensures { IfOk result (λ whole. (at : ℕ) → with_form (value_at env.now) names.old name.now colon
        (action_of taking) (parts levels at tail.now) ≡ where_whole whole names.new) }
{
    if is_taken(taking, is_set(alloc, name, colon, env)?) {
        put_text(alloc, tail, levels, env, names)
    } else {
        put_text(alloc, tail, levels, env, &mut TextMap::new(alloc))
    }
}

/// Whether the tail of a form is taken, by whether its variable counts as set.
fn is_taken(taking: Taking, is_set: bool) -> bool
    ensures { result ≡ is_taken (action_of taking) is_set }
{
    match taking {
        Taking::Default => !is_set,
        Taking::Require => !is_set,
        Taking::Replace => is_set,
    }
}

/// Whether a variable counts as set: with a colon an empty one doesn't.
fn is_set(alloc: Global, name: &str, colon: bool, env: &Env) -> Result<bool, Memory>
    ensures { IfOk result (λ is_set.
        is_set ≡ is_some (counted colon (value_at env.now name.now))) }
{
    let name = Text::from_str(alloc, name)?;
    match env.value(&name) {
        Some(value) => Ok(!(colon && value.len() == 0)),
        None => Ok(false),
    }
}

/// Puts the name of a variable that is unset.
fn put_name(alloc: Global, name: &str, env: &Env, names: &mut TextMap<bool>) -> Result<(), Memory>
    ensures { OnOk result (names.new
        ≡ with_names names.old (unless_set name.now (value_at env.now name.now))) }
{
    let name = Text::from_str(alloc, name)?;
    if env.value(&name).is_none() {
        names.put(name, true)?;
    }
    Ok(())
}

/// A length, where what has it is well formed.
fn len_if(whole: bool, len: usize) -> Option<usize>
    ensures { result ≡ (if whole then Some len else None) }
{
    if whole { Some(len) } else { None }
}

/// Where the tail of a form begins, from its `$`.
fn tail_start(name: usize, colon: bool) -> usize
    requires { name + 4 < 2 ^ 64 }
    ensures { result ≡ tail_start name colon }
{
    if colon { name + 4 } else { name + 3 }
}

/// So many bytes of a text from a place on.
fn piece(text: &str, from: usize, len: usize) -> &str
    requires from_cut { IsCharBoundary text.now from }
    requires to_cut { IsCharBoundary text.now (from + len) }
    ensures value { result.now ≡ take len (drop from text.now) }
    ensures len { length result.now ≡ len }
{
    &text[from..from + len]
}

/// The text from a place on.
fn rest_from(text: &str, from: usize) -> &str
    requires { IsCharBoundary text.now from }
    ensures value { result.now ≡ drop from text.now }
    ensures len { from + length result.now ≡ length text.now }
{
    let (_, rest) = text.split_at(from);
    rest
}
