ghost use Rattle.std.specs.Prelude.{◌≡◌, ◌≤◌, ◌+◌, length, if◌then◌else◌};
ghost use Rattle.yaml_lines.specs.declared.plain.Context.TheVariants.{Flow};
ghost use Rattle.yaml_lines.specs.declared.refusal.YamlFault.TheVariants.{Unsupported};
ghost use Rattle.yaml_lines.specs.Rows.{text_at};
ghost use Rattle.yaml_nodes.specs.Marks.{before_colon, is_colon_of, is_property};
ghost use Rattle.yaml_nodes.specs.Properties.{fault_of_key};

use yaml_lines::{Context, Row, YamlFault, text_at};
use yaml_nodes::{Key, before_colon, fault_of_key, is_colon_of, is_property};

/// The fault of a pair that stands in a sequence.
pub fn fault_of_pair(chars: &[char]) -> YamlFault
    ensures { result ≡ (if is_property chars.now then fault_of_key chars.now else Unsupported) }
{
    if is_property(chars) {
        fault_of_key(chars)
    } else {
        YamlFault::Unsupported
    }
}

/// Where the value of a key may begin that stands at a place of a row: behind its colon, if it has one on its line, or
/// behind itself. With it, whether it has one.
pub fn behind_key(row: &Row, at: usize, key: &Key) -> (usize, bool)
    requires { at + key.now.len ≤ length row.now.chars }
    ensures has_colon { result.1 ≡ is_colon_of Flow (text_at row.now at)
        (text_at row.now (at + before_colon Flow (text_at row.now at))) }
    ensures behind { result.0 ≡ (if result.1 then at + before_colon Flow
        (text_at row.now at) + 1 else at + key.now.len) }
    ensures within { result.0 ≤ length row.now.chars }
{
    let chars = text_at(row, at);
    let colon = at + before_colon(chars, Context::Flow);
    if is_colon_of(chars, text_at(row, colon), Context::Flow) {
        (colon + 1, true)
    } else {
        (at + key.len, false)
    }
}
