ghost use Rattle.std.specs.Prelude.{◌≡◌, ◌<◌, ◌+◌, ◌++◌, ◌^◌, length};
ghost use Rattle.yaml_groups.specs.Grouped.{begins_flow, flow_lines};
ghost use Rattle.yaml_groups.specs.Parts.{led};

use crate::scan::{Scan, scanned};
use yaml_lines::Row;
use yaml_nodes::starts;

/// Whether a flow collection begins here.
pub fn begins_flow(chars: &[char]) -> bool
    ensures { result ≡ begins_flow chars.now }
{
    starts(chars, '[') || starts(chars, '{')
}

/// How many of the rows that follow belong to a flow collection, of which the characters are given that stand behind
/// its opening bracket on its first line: those up to the row in which it is closed, else all. No token goes over a
/// line's end.
pub fn flow_lines(first: &[char], rows: &[Row]) -> usize
    requires { length first.now + length (led rows.now) < 2 ^ 64 }
    ensures { result ≡ flow_lines (first.now ++ led rows.now) (length rows.now) }
{
    let begun = Scan {
        ends: 0,
        brackets: 0,
        closed: false,
    };
    let mut scan = scanned(begun, false, first);
    for row in rows {
        if scan.closed {
            return scan.ends;
        }
        let next = Scan {
            ends: scan.ends + 1,
            brackets: scan.brackets,
            closed: false,
        };
        scan = scanned(next, true, row.chars.as_slice());
    }
    if scan.closed { scan.ends } else { rows.len() }
}
