ghost use Rattle.std.specs.Prelude.{◌≤◌, length, IfOk};
ghost use Rattle.yaml_flow.specs.Flow.{flow_properties};
ghost use Rattle.yaml_lines.specs.Answers.{Gives};

use crate::gap::next_place;
use std::alloc::Global;
use yaml_lines::{Row, YamlRefusal, text_at};
use yaml_nodes::{Progress, Properties, is_property, properties_from, properties_len};

/// The properties that stand from a place of a row on, beside those before them, and the place behind them. They may
/// stand on several lines, in so many runs at most.
pub fn flow_properties(
    alloc: Global,
    progress: &Progress,
    row: &Row,
    at: usize,
    found: Properties,
    may_be_marked: bool,
    runs: u32,
) -> Result<(Properties, usize), YamlRefusal>
    requires { at ≤ length row.now.chars }
    ensures is { Gives result (flow_properties runs may_be_marked progress.now row.now found at) }
    ensures within { IfOk result (λ got. got.1 ≤ length row.now.chars) }
{
    let rest = text_at(row, at);
    if runs == 0 || !is_property(rest) {
        return Ok((found, at));
    }
    let found = properties_from(alloc, progress, row, at, found, may_be_marked)?;
    let at = next_place(progress, row, at + properties_len(rest), true)?;
    flow_properties(alloc, progress, row, at, found, may_be_marked, runs - 1)
}
