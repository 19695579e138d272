ghost use Rattle.std.specs.Prelude.{◌≡◌, ◌≢◌, [], ◌∷◌, ◌<◌, ◌≤◌, length, OnOk, IfOk};
ghost use Rattle.std.specs.Str.{chars};
ghost use Rattle.std.specs.Str.Lines.{lines, strip_carriage_return};
ghost use Rattle.tree_base.specs.Entries.{value_at};
ghost use Rattle.dotenv.specs.Variables.{Sees, beneath};
ghost use Rattle.dotenv.specs.Files.{line_number, feed_len, numbered, unsubstituted, with_bytes, with_given, told, with_line, with_lines, env_file, result_and, Gives};

use crate::given::Given;
use crate::line::{Line, read_line};
use crate::refusal::{EnvRefusal, LineRefusal};
use interpolate::{SubstRefusal, subst};
use std::alloc::Global;
use tree_base::limits::{GREATEST_PLACE, MOST_TEXT};
use tree_base::{Env, Memory, Text, TryCopy};

/// The variables that an env file gives, in the order in which their keys first come.
///
/// Lines end with a line feed, or a carriage return and a line feed. Spaces, tabs and `export ` before a key are skipped,
/// and blank lines and those that begin with `#`. A key is an ASCII letter or `_` and then letters, digits, `_`, `.` and
/// `-`. A key alone takes the outer value, and is skipped where there is none. A value in single quotes stays as it is, but
/// for `\'`. One in double quotes knows `\n`, `\r`, `\t`, `\\` and `\"`, and any other ends before a `#` behind a space or
/// tab and is trimmed; both are substituted. They see the outer variables first, and then those of the lines before.
///
/// The refusal is that of the first line that is refused: BadQuote for quotes that aren't closed on their line or have
/// more than a comment behind them, Subst for a value without a substitution, TooMuchText for one with which the values of
/// this line and of those before it have more than 16,777,216 bytes together, once they are substituted, BadLine for anything
/// else. A value that a later line replaces counts, too.
pub fn read_env(alloc: Global, bytes: &[u8], outer: &Env) -> Result<Env, EnvRefusal>
    ensures { Gives result (env_file outer.now bytes.now) }
{
    let mut seen = TryCopy::copy(outer, alloc)?;
    let env = Env::new(alloc);
    let mut given = Given { env, size: 0 };
    match put_lines(alloc, &mut given, &mut seen, outer, bytes) {
        Ok(()) => {
            drop(seen);
            Ok(given.env)
        }
        Err(refusal) => {
            drop(seen);
            drop(given);
            Err(refusal)
        }
    }
}

/// Puts the variables of lines, where `seen` has what a value sees.
fn put_lines(
    alloc: Global,
    given: &mut Given,
    seen: &mut Env,
    outer: &Env,
    bytes: &[u8],
) -> Result<(), EnvRefusal>
    requires { Sees outer.now given.old.env seen.old }
    ensures { Gives (result_and result given.new)
        (with_lines outer.now 1 given.old (lines bytes.now)) }
{
    let mut number = 1usize;
    let mut rest = bytes;
    while !rest.is_empty() {
        let (line, more) = first_line(rest);
        put_line(alloc, given, seen, outer, line_number(number), line)?;
        number += 1;
        rest = more;
    }
    Ok(())
}

/// The number of a line as a `u32`, where one past the greatest is that.
fn line_number(number: usize) -> u32
    ensures { result ≡ line_number number }
{
    number.min(GREATEST_PLACE) as u32
}

/// How many bytes stand before the first line feed.
fn feed_len(bytes: &[u8]) -> usize
    ensures is { result ≡ feed_len bytes.now }
    ensures within { result ≤ length bytes.now }
{
    for (at, c) in bytes.iter().enumerate() {
        if *c == b'\n' {
            return at;
        }
    }
    bytes.len()
}

/// The first line without its end, and what follows it.
fn first_line(bytes: &[u8]) -> (&[u8], &[u8])
    requires { bytes.now ≢ [] }
    ensures lines { lines bytes.now ≡ result.0.now ∷ lines result.1.now }
    ensures shorter { length result.1.now < length bytes.now }
{
    let (line, rest) = bytes.split_at(feed_len(bytes));
    match rest {
        [] => (line, rest),
        [_, more @ ..] => (without_return(line), more),
    }
}

/// A line without the carriage return at its end.
fn without_return(line: &[u8]) -> &[u8]
    ensures { result.now ≡ strip_carriage_return line.now }
{
    let len = line.len();
    if len > 0 && line[len - 1] == b'\r' {
        &line[..len - 1]
    } else {
        line
    }
}

/// Puts the variable of a line.
fn put_line(
    alloc: Global,
    given: &mut Given,
    seen: &mut Env,
    outer: &Env,
    number: u32,
    bytes: &[u8],
) -> Result<(), EnvRefusal>
    requires { Sees outer.now given.old.env seen.old }
    ensures is { Gives (result_and result given.new)
        (with_line outer.now number given.old bytes.now) }
    ensures sees { OnOk result (Sees outer.now given.new.env seen.new) }
{
    match str::from_utf8(bytes) {
        Ok(text) => {
            let chars = chars_of(alloc, text)?;
            match read_line(alloc, chars.as_slice()) {
                Ok(line) => put_told(alloc, given, seen, outer, number, line),
                Err(refusal) => Err(numbered(number, refusal)),
            }
        }
        Err(_) => Err(EnvRefusal::BadLine { line: number }),
    }
}

fn chars_of(alloc: Global, text: &str) -> Result<Vec<char>, Memory>
    ensures { IfOk result (λ v. v.items ≡ chars text.now) }
{
    let chars = text.chars().collect::<Vec<char>>(alloc)?;
    Ok(chars)
}

/// Why a line isn't read, with its number.
fn numbered(number: u32, refusal: LineRefusal) -> EnvRefusal
    ensures { result ≡ numbered number refusal }
{
    match refusal {
        LineRefusal::BadLine => EnvRefusal::BadLine { line: number },
        LineRefusal::BadQuote => EnvRefusal::BadQuote { line: number },
        LineRefusal::Memory => EnvRefusal::Memory,
    }
}

/// Puts the variable that a line tells.
fn put_told(
    alloc: Global,
    given: &mut Given,
    seen: &mut Env,
    outer: &Env,
    number: u32,
    line: Line,
) -> Result<(), EnvRefusal>
    requires { Sees outer.now given.old.env seen.old }
    ensures is { Gives (result_and result given.new) (told outer.now number given.old line) }
    ensures sees { OnOk result (Sees outer.now given.new.env seen.new) }
{
    match line {
        Line::Nothing => Ok(()),
        Line::Alone { key } => match outer.value(&key) {
            Some(value) => put(alloc, given, seen, outer, number, key, value.copy(alloc)?),
            None => Ok(()),
        },
        Line::Literal { key, value } => put(alloc, given, seen, outer, number, key, value),
        Line::Substituted { key, value } => match subst(alloc, &value, seen) {
            Ok(value) => put(alloc, given, seen, outer, number, key, value),
            Err(cause) => Err(unsubstituted(number, cause)),
        },
    }
}

/// Why a value isn't substituted, with its line's number.
fn unsubstituted(number: u32, cause: SubstRefusal) -> EnvRefusal
    ensures { result ≡ unsubstituted number cause }
{
    match cause {
        SubstRefusal::Memory => EnvRefusal::Memory,
        SubstRefusal::Unclosed { at } => EnvRefusal::Subst {
            line: number,
            cause: SubstRefusal::Unclosed { at },
        },
        SubstRefusal::BadForm { at } => EnvRefusal::Subst {
            line: number,
            cause: SubstRefusal::BadForm { at },
        },
        SubstRefusal::RequiredVariable { name, message } => EnvRefusal::Subst {
            line: number,
            cause: SubstRefusal::RequiredVariable { name, message },
        },
        SubstRefusal::TooMuchText => EnvRefusal::TooMuchText { line: number },
    }
}

/// So many bytes of values more, which a line gives.
fn with_bytes(number: u32, size: usize, more: usize) -> Result<usize, EnvRefusal>
    ensures { result ≡ with_bytes number size more }
{
    if size > MOST_TEXT as usize {
        return Err(EnvRefusal::TooMuchText { line: number });
    }
    if more > MOST_TEXT as usize - size {
        return Err(EnvRefusal::TooMuchText { line: number });
    }
    Ok(size + more)
}

/// Puts the value that a line gives under its key, and into what is seen unless the outer variables have one.
fn put(
    alloc: Global,
    given: &mut Given,
    seen: &mut Env,
    outer: &Env,
    number: u32,
    key: Text,
    value: Text,
) -> Result<(), EnvRefusal>
    requires { Sees outer.now given.old.env seen.old }
    ensures is { Gives (result_and result given.new) (with_given number given.old key value) }
    ensures sees { OnOk result (Sees outer.now given.new.env seen.new) }
{
    let size = with_bytes(number, given.size, value.len())?;
    see(alloc, seen, outer, &key, &value)?;
    drop(given.env.put(key, value)?);
    given.size = size;
    Ok(())
}

/// Puts a value under a key into what is seen, unless the outer variables have one.
fn see(alloc: Global, seen: &mut Env, outer: &Env, key: &Text, value: &Text) -> Result<(), Memory>
    ensures { OnOk result (seen.new ≡
        beneath (value_at outer.now key.now) seen.old key.now value.now) }
{
    match outer.value(key) {
        Some(_) => Ok(()),
        None => {
            let key = key.copy(alloc)?;
            drop(seen.put(key, value.copy(alloc)?)?);
            Ok(())
        }
    }
}
