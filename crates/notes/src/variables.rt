ghost use Rattle.std.specs.Prelude.{◌≡◌, IfOk};
ghost use Rattle.notes.specs.Variables.{unset_note};

use std::alloc::Global;
use tree_base::{Memory, Text};

/// What is said of a variable that a Compose file takes, that is unset, and for which nothing stands in.
pub fn unset_note(alloc: Global, name: &Text) -> Result<Text, Memory>
    ensures { IfOk result (λ note. note ≡ unset_note name.now) }
{
    let note = format!(in alloc;
        "the variable {name} is unset and has no default: it counts as empty"
    )?;
    Ok(Text::from_string(note))
}
