ghost use Rattle.std.specs.Prelude.{◌≡◌, ◌≢◌, [], ◌<◌, ◌+◌, ◌^◌, length, false, unwrap_or, OnOk, IfOk, IsOk};
ghost use Rattle.std.specs.Option.{option_copied};
ghost use Rattle.std.specs.Str.{IsCharBoundary};
ghost use Rattle.tree_base.specs.Entries.{value_at};
ghost use Rattle.interpolate.specs.Heads.{IsClosed, inner, own};
ghost use Rattle.interpolate.specs.Lengths.{inside_len};
ghost use Rattle.interpolate.specs.Shapes.{first_part, part_len};
ghost use Rattle.interpolate.specs.Parts.{parts, tails};
ghost use Rattle.interpolate.specs.Substitution.{counted, form_value, missing, text_value, part_value, put_on, appended, result_and, Gives};

use crate::check::place;
use crate::part::{Action, Head, first_head, tail_start};
use crate::piece::{front, piece, rest_from};
use crate::refusal::SubstRefusal;
use crate::scan::{ends, inside_len};
use std::alloc::Global;
use tree_base::limits::MOST_TEXT;
use tree_base::{Env, Memory, Text};

/// Puts bytes last where there is room for them within the limit; where there is none, nothing is kept.
fn put(out: &mut Option<Text>, more: &str) -> Result<(), Memory>
    ensures { OnOk result (out.new ≡ put_on out.old more.now) }
{
    if let Some(text) = out {
        let room = (MOST_TEXT as usize).saturating_sub(text.len());
        if more.len() <= room {
            text.push_str(more)?;
        } else {
            *out = None;
        }
    }
    Ok(())
}

/// The refusal of a required variable that is missing, with its message where that is within the limit.
fn missing(name: Text, message: Option<Text>) -> SubstRefusal
    ensures { result ≡ missing name message }
{
    match message {
        Some(message) => SubstRefusal::RequiredVariable { name, message },
        None => SubstRefusal::TooMuchText,
    }
}

/// The value of a variable, where it counts as set.
fn counted<'a>(env: &'a Env, name: &Text, colon: bool) -> Option<&'a Text>
    ensures { option_copied result ≡ counted colon (value_at env.now name.now) }
{
    let value = env.value(name)?;
    if colon && value.len() == 0 {
        None
    } else {
        Some(value)
    }
}

/// Puts the value of a variable last, where it is set.
#[tactic(auto, using(crate::proofs::Filling::put_nothing))]
fn push_value(alloc: Global, out: &mut Option<Text>, name: &str, env: &Env) -> Result<(), Memory>
    ensures { OnOk result (out.new
        ≡ put_on out.old (unwrap_or (value_at env.now name.now) [])) }
{
    let name = Text::from_str(alloc, name)?;
    match env.value(&name) {
        Some(value) => put(out, value.as_str()),
        None => Ok(()),
    }
}

/// Puts the value of a well-formed text last; past the limit nothing is kept, and the text is still gone through. A text
/// that stands in a form ends at the form's `}`: the result is how long it is.
#[cycle(join)]
pub fn join(
    alloc: Global,
    out: &mut Option<Text>,
    text: &str,
    at: usize,
    levels: u32,
    inside: bool,
    env: &Env,
) -> Result<usize, SubstRefusal>
    requires place { at + length text.now < 2 ^ 64 }
    requires closed { IsClosed inside text.now }
    requires fine { IsOk (parts levels at (own inside text.now)) }
    ensures value { Gives (result_and result out.new)
        (appended out.old (text_value (parts levels) (value_at env.now) at (own inside text.now))) }
    ensures len { IfOk result (λ len. len ≡ length (own inside text.now)) }
{
    let mut at = at;
    let mut len = 0;
    let mut rest = text;
    while !ends(rest, inside) {
        let more = join_part(alloc, out, rest, at, levels, inside, env)?;
        at += more;
        len += more;
        rest = rest_from(rest, more);
    }
    Ok(len)
}

/// Puts the value of the first part last, and gives its length.
#[cycle(join)]
fn join_part(
    alloc: Global,
    out: &mut Option<Text>,
    text: &str,
    at: usize,
    levels: u32,
    inside: bool,
    env: &Env,
) -> Result<usize, SubstRefusal>
    requires some { own inside text.now ≢ [] }
    requires place { at + length text.now < 2 ^ 64 }
    requires closed { IsClosed inside text.now }
    requires fine { IsOk (parts levels at (own inside text.now)) }
    ensures value { Gives (result_and result out.new)
        (appended out.old (part_value (tails levels) (value_at env.now) at text.now
        (first_part levels (own inside text.now)))) }
    ensures len { IfOk result (λ len. len ≡ part_len (first_part levels (own inside text.now))) }
    ensures cut { IfOk result (λ len. (0 < len) × IsCharBoundary text.now len) }
{
    match first_head(text, levels, inside) {
        Head::Literal { len } => {
            put(out, front(text, len))?;
            Ok(len)
        }
        Head::Dollar => {
            put(out, "$")?;
            Ok(2)
        }
        Head::Name { len } => {
            push_value(alloc, out, piece(text, 1, len), env)?;
            Ok(len + 1)
        }
        Head::Value { len } => {
            push_value(alloc, out, piece(text, 2, len), env)?;
            Ok(len + 3)
        }
        Head::Form {
            name,
            colon,
            action,
        } => {
            let start = tail_start(name, colon);
            let name = Text::from_str(alloc, piece(text, 2, name))?;
            let tail = rest_from(text, start);
            let len = join_form(
                alloc,
                out,
                &name,
                colon,
                action,
                tail,
                at + start,
                levels - 1,
                env,
            )?;
            Ok(start + len + 1)
        }
        Head::Unclosed => Err(SubstRefusal::Unclosed { at: place(at) }),
        Head::Wrong => Err(SubstRefusal::BadForm { at: place(at) }),
    }
}

/// Puts what a form gives last, and gives the length of its tail, from whose first byte the text is passed. A tail
/// that isn't taken is passed over.
#[cycle(join)]
#[tactic(auto, using(crate::proofs::Filling::put_nothing))]
fn join_form(
    alloc: Global,
    out: &mut Option<Text>,
    name: &Text,
    colon: bool,
    action: Action,
    text: &str,
    at: usize,
    levels: u32,
    env: &Env,
) -> Result<usize, SubstRefusal>
    requires place { at + length text.now < 2 ^ 64 }
    requires closed { inside_len 0 false text.now < length text.now }
    requires fine { IsOk (parts levels at (inner text.now)) }
    ensures value { Gives (result_and result out.new) (appended out.old
        (form_value name.now action (counted colon (value_at env.now name.now))
        (text_value (parts levels) (value_at env.now) at (inner text.now)))) }
    ensures len { IfOk result (λ len. len ≡ inside_len 0 false text.now) }
{
    match counted(env, name, colon) {
        Some(value) => match action {
            Action::Default => {
                put(out, value.as_str())?;
                Ok(inside_len(text.as_bytes()))
            }
            Action::Require => {
                put(out, value.as_str())?;
                Ok(inside_len(text.as_bytes()))
            }
            Action::Replace => join(alloc, out, text, at, levels, true, env),
        },
        None => match action {
            Action::Default => join(alloc, out, text, at, levels, true, env),
            Action::Require => {
                let mut message = Some(Text::new(alloc));
                join(alloc, &mut message, text, at, levels, true, env)?;
                Err(missing(name.copy(alloc)?, message))
            }
            Action::Replace => Ok(inside_len(text.as_bytes())),
        },
    }
}
