ghost use Rattle.std.specs.Prelude.{◌≡◌, ◌≢◌, ◌≤◌, ◌<◌, ◌+◌, ◌^◌, ◌==◌, [], length, true, false};
ghost use Rattle.interpolate.specs.Cuts.{FitsIn};
ghost use Rattle.interpolate.specs.Heads.{IsClosed, head_of, inner, own, part_of};
ghost use Rattle.interpolate.specs.Lengths.{inside_len};
ghost use Rattle.interpolate.specs.Shapes.{action_part, operator_part, form_part, braced_part, dollar_part, first_part, tail_start};

use crate::scan::{inside_len, literal_len, name_len, starts_name};

/// What a braced form gives where its variable is set, and where it is unset.
#[derive(Clone, Copy)]
pub enum Action {
    /// `-`: the value, else the tail.
    Default,
    /// `?`: the value, else a refusal with the tail as its message.
    Require,
    /// `+`: the tail, else nothing.
    Replace,
}

/// What a text begins with, by how many bytes it is made of. Of a form it is what stands before the tail, so that a
/// tail is gone through once, when it is read.
#[derive(Clone, Copy)]
pub enum Head {
    /// Bytes that stand for themselves.
    Literal {
        len: usize,
    },
    /// `$$`
    Dollar,
    /// `$NAME`, by the length of the name.
    Name {
        len: usize,
    },
    /// `${NAME}`, by the length of the name.
    Value {
        len: usize,
    },
    /// `${NAME-tail}` and its kin, by the length of the name. A colon counts an empty value as unset.
    Form {
        name: usize,
        colon: bool,
        action: Action,
    },
    /// A `${` that no `}` closes.
    Unclosed,
    /// A `${` that is closed and wrong.
    Wrong,
}

/// Where the tail of a form begins, from its `$`.
pub fn tail_start(name: usize, colon: bool) -> usize
    requires { name + 4 < 2 ^ 64 }
    ensures { result ≡ tail_start name colon }
{
    if colon { name + 4 } else { name + 3 }
}

/// What stands behind a name and the colon, where one stands there.
fn action_head(text: &[u8], name: usize, colon: bool) -> Head
    ensures { result ≡ head_of (action_part name colon text.now) }
{
    match text {
        [] => Head::Wrong,
        [c, ..] => match *c {
            b'-' => Head::Form {
                name,
                colon,
                action: Action::Default,
            },
            b'?' => Head::Form {
                name,
                colon,
                action: Action::Require,
            },
            b'+' => Head::Form {
                name,
                colon,
                action: Action::Replace,
            },
            _ => Head::Wrong,
        },
    }
}

/// What stands behind a name in braces.
#[tactic(auto, using(crate::proofs::Inside::operator_inner))]
fn operator_head(text: &[u8], name: usize) -> Head
    ensures { result ≡ head_of (operator_part name (inner text.now)) }
{
    match text {
        [] => Head::Value { len: name },
        [c, rest @ ..] => {
            if *c == b'}' {
                Head::Value { len: name }
            } else if *c == b':' {
                action_head(rest, name, true)
            } else {
                action_head(text, name, false)
            }
        }
    }
}

/// What stands in the braces of a form, from behind its `${`.
#[tactic(auto, using(crate::proofs::Inside::form_inner))]
fn form_head(text: &[u8]) -> Head
    ensures { result ≡ head_of (form_part (inner text.now)) }
{
    let name = name_len(text);
    if name == 0 {
        Head::Wrong
    } else {
        operator_head(&text[name..], name)
    }
}

/// Whether no `}` closes a form, from behind its `${`. In another form, which is closed, there is one.
fn is_unclosed(text: &[u8], inside: bool) -> bool
    requires { inside ≡ true → inside_len 0 false text.now < length text.now }
    ensures { result ≡ (inside_len 0 false text.now == length text.now) }
{
    !inside && inside_len(text) == text.len()
}

/// What a `${` begins, from what stands behind it, with so many levels left for forms in forms.
fn braced_head(text: &[u8], levels: u32, inside: bool) -> Head
    requires { inside ≡ true → inside_len 0 false text.now < length text.now }
    ensures { result ≡ head_of (braced_part levels text.now) }
{
    if is_unclosed(text, inside) {
        Head::Unclosed
    } else if levels == 0 {
        Head::Wrong
    } else {
        form_head(text)
    }
}

/// What a `$` begins, from what stands behind it.
fn dollar_head(text: &[u8], levels: u32, inside: bool) -> Head
    requires { inside ≡ true → inside_len 0 true text.now < length text.now }
    ensures { result ≡ head_of (dollar_part levels text.now) }
{
    match text {
        [] => Head::Literal { len: 1 },
        [c, rest @ ..] => {
            if *c == b'$' {
                Head::Dollar
            } else if *c == b'{' {
                braced_head(rest, levels, inside)
            } else if starts_name(*c) {
                Head::Name {
                    len: name_len(text),
                }
            } else {
                Head::Literal { len: 1 }
            }
        }
    }
}

/// What bytes begin with.
fn front_head(text: &[u8], levels: u32, inside: bool) -> Head
    requires { IsClosed inside text.now }
    ensures { result ≡ head_of (first_part levels (own inside text.now)) }
{
    match text {
        [] => Head::Literal { len: 0 },
        [c, rest @ ..] => {
            if *c == b'$' {
                dollar_head(rest, levels, inside)
            } else {
                Head::Literal {
                    len: literal_len(text, inside),
                }
            }
        }
    }
}

/// What a text begins with, which may stand in a form, with so many levels left for forms in forms.
pub fn first_head(text: &str, levels: u32, inside: bool) -> Head
    requires some { own inside text.now ≢ [] }
    requires closed { IsClosed inside text.now }
    ensures is { part_of text.now result ≡ first_part levels (own inside text.now) }
    ensures fits { FitsIn levels text.now (part_of text.now result) }
{
    front_head(text.as_bytes(), levels, inside)
}
