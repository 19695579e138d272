ghost use Rattle.std.specs.Prelude.{◌≡◌, ◌++◌, OnOk, codes, decimal};
ghost use Rattle.std.specs.Option.{option_copied};
ghost use Rattle.std.specs.String.{string_bytes};
ghost use Rattle.http_request.specs.Requests.{header_lines, length_line, type_line};

use crate::method::Method;
use std::alloc::Global;
use tree_base::{Memory, Text};

/// Puts the header lines of a request last.
#[tactic(auto, unfolding(crate::specs::Requests::header_lines))]
pub(crate) fn push_fields(
    alloc: Global,
    to: &mut String,
    method: Method,
    body: Option<&Text>,
) -> Result<(), Memory>
    ensures { OnOk result (string_bytes to.new ≡ string_bytes to.old
        ++ header_lines method (option_copied body.entry)) }
{
    to.push_str("Host: localhost\r\nConnection: close\r\n")?;
    push_type(to, body)?;
    push_length(alloc, to, method, body)
}

fn push_type(to: &mut String, body: Option<&Text>) -> Result<(), Memory>
    ensures { OnOk result (string_bytes to.new ≡ string_bytes to.old
        ++ type_line (option_copied body.entry)) }
{
    match body {
        Some(_) => {
            to.push_str("Content-Type: application/json\r\n")?;
            Ok(())
        }
        None => Ok(()),
    }
}

fn push_length(
    alloc: Global,
    to: &mut String,
    method: Method,
    body: Option<&Text>,
) -> Result<(), Memory>
    ensures { OnOk result (string_bytes to.new ≡ string_bytes to.old
        ++ length_line method (option_copied body.entry)) }
{
    match method {
        Method::Post => push_number(alloc, to, body.map_or(0, Text::len)),
        Method::Get => Ok(()),
        Method::Delete => Ok(()),
    }
}

fn push_number(alloc: Global, to: &mut String, length: usize) -> Result<(), Memory>
    ensures { OnOk result (string_bytes to.new ≡ string_bytes to.old
        ++ (codes "Content-Length: " ++ decimal length ++ codes "\r\n")) }
{
    let length = format!(in alloc; "{length}")?;
    to.push_str("Content-Length: ")?;
    to.push_str(length.as_str())?;
    to.push_str("\r\n")?;
    Ok(())
}
