ghost use Rattle.std.specs.Prelude.{◌≡◌, ◌++◌, OnOk};
ghost use Rattle.std.specs.String.{string_bytes};
ghost use Rattle.http_request.specs.Escapes.{escaped, stays_in_path, stays_in_query};

use percent_encoding::{AsciiSet, NON_ALPHANUMERIC, ascii_set, percent_encode};
use tree_base::Memory;

const QUERY_ESCAPES: AsciiSet = ascii_set!(
    NON_ALPHANUMERIC
        .remove(b'-')
        .remove(b'.')
        .remove(b'_')
        .remove(b'~')
);

const PATH_ESCAPES: AsciiSet = ascii_set!(QUERY_ESCAPES.remove(b'/').remove(b':').remove(b'@'));

/// Puts a path last, escaped.
pub(crate) fn push_path(to: &mut String, path: &[u8]) -> Result<(), Memory>
    ensures { OnOk result (string_bytes to.new ≡
        string_bytes to.old ++ escaped stays_in_path path.now) }
{
    percent_encode(path, PATH_ESCAPES).append_to(to)?;
    Ok(())
}

/// Puts a query's value last, escaped.
pub(crate) fn push_value(to: &mut String, value: &[u8]) -> Result<(), Memory>
    ensures { OnOk result (string_bytes to.new ≡
        string_bytes to.old ++ escaped stays_in_query value.now) }
{
    percent_encode(value, QUERY_ESCAPES).append_to(to)?;
    Ok(())
}
