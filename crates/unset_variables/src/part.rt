ghost use Rattle.std.specs.Prelude.{◌≡◌, ◌≢◌, []};
ghost use Rattle.interpolate.specs.Cuts.{FitsIn};
ghost use Rattle.interpolate.specs.Shapes.{action_part, braced_part, dollar_part, first_part, form_part, operator_part};
ghost use Rattle.unset_variables.specs.Heads.{part_of};

use crate::scan::{inside_len, literal_len, name_len, starts_name};

/// When the tail of a form is taken.
#[derive(Clone, Copy)]
pub(crate) enum Taking {
    /// `-`: where the variable is unset.
    Default,
    /// `?`: the same, as a message.
    Require,
    /// `+`: where it is set.
    Replace,
}

/// What a text begins with, by how many bytes it is made of.
#[derive(Clone, Copy)]
pub(crate) enum Head {
    /// Bytes that stand for themselves.
    Literal {
        len: usize,
    },
    /// `$$`
    Dollar,
    /// `$NAME`, by the length of the name.
    Name {
        len: usize,
    },
    /// `${NAME}`, by the length of the name.
    Value {
        len: usize,
    },
    /// `${NAME-tail}` and its kin, by the lengths of the name and the tail. A colon counts an empty value as unset.
    Form {
        name: usize,
        colon: bool,
        taking: Taking,
        tail: usize,
    },
    /// A `${` that no `}` closes.
    Unclosed,
    /// A `${` that is closed and wrong.
    Wrong,
}

/// What stands behind a name and the colon, where one stands there.
fn action_part(text: &[u8], name: usize, colon: bool) -> Head
    ensures { part_of result ≡ action_part name colon text.now }
{
    match text {
        [] => Head::Wrong,
        [c, rest @ ..] => match *c {
            b'-' => Head::Form {
                name,
                colon,
                taking: Taking::Default,
                tail: rest.len(),
            },
            b'?' => Head::Form {
                name,
                colon,
                taking: Taking::Require,
                tail: rest.len(),
            },
            b'+' => Head::Form {
                name,
                colon,
                taking: Taking::Replace,
                tail: rest.len(),
            },
            _ => Head::Wrong,
        },
    }
}

/// What stands behind a name in braces.
fn operator_part(text: &[u8], name: usize) -> Head
    ensures { part_of result ≡ operator_part name text.now }
{
    match text {
        [] => Head::Value { len: name },
        [c, rest @ ..] => {
            if *c == b':' {
                action_part(rest, name, true)
            } else {
                action_part(text, name, false)
            }
        }
    }
}

/// What stands in the braces of a form.
fn form_part(text: &[u8]) -> Head
    ensures { part_of result ≡ form_part text.now }
{
    let name = name_len(text);
    if name == 0 {
        Head::Wrong
    } else {
        operator_part(&text[name..], name)
    }
}

/// What a `${` begins, from what stands behind it, with so many levels left for forms in forms.
fn braced_part(text: &[u8], levels: u32) -> Head
    ensures { part_of result ≡ braced_part levels text.now }
{
    let len = inside_len(text);
    if len == text.len() {
        Head::Unclosed
    } else if levels == 0 {
        Head::Wrong
    } else {
        form_part(&text[..len])
    }
}

/// What a `$` begins, from what stands behind it.
fn dollar_part(text: &[u8], levels: u32) -> Head
    ensures { part_of result ≡ dollar_part levels text.now }
{
    match text {
        [] => Head::Literal { len: 1 },
        [c, rest @ ..] => {
            if *c == b'$' {
                Head::Dollar
            } else if *c == b'{' {
                braced_part(rest, levels)
            } else if starts_name(*c) {
                Head::Name {
                    len: name_len(text),
                }
            } else {
                Head::Literal { len: 1 }
            }
        }
    }
}

/// What bytes begin with, with so many levels left for forms in forms.
fn first_part(text: &[u8], levels: u32) -> Head
    ensures { part_of result ≡ first_part levels text.now }
{
    match text {
        [] => Head::Literal { len: 0 },
        [c, rest @ ..] => {
            if *c == b'$' {
                dollar_part(rest, levels)
            } else {
                Head::Literal {
                    len: literal_len(text),
                }
            }
        }
    }
}

/// What a text begins with. It and what it is made of end between characters.
pub(crate) fn first_head(text: &str, levels: u32) -> Head
    requires { text.now ≢ [] }
    ensures is { part_of result ≡ first_part levels text.now }
    ensures fits { FitsIn levels text.now (part_of result) }
{
    first_part(text.as_bytes(), levels)
}
