ghost use Rattle.std.specs.Prelude.{◌≡◌, ◌++◌, IfOk, OnOk, codes};
ghost use Rattle.std.specs.List.{flat_map, join_by};
ghost use Rattle.declared_set.specs.Labels.{config_files_text};

use std::alloc::Global;
use tree_base::{Memory, Text};

/// The paths of a project's own Compose files, as Docker Compose's label has them: with commas between them.
pub(crate) fn config_files_text(alloc: Global, files: &[Text]) -> Result<Text, Memory>
    ensures { IfOk result (λ text. text ≡ config_files_text files.now) }
{
    let mut text = Text::new(alloc);
    push_all(&mut text, files)?;
    Ok(text)
}

fn push_all(text: &mut Text, files: &[Text]) -> Result<(), Memory>
    ensures { OnOk result (text.new ≡ text.old ++ join_by (λ path. path) (codes ",") files.now) }
{
    match files {
        [first, later @ ..] => {
            text.push_str(first.as_str())?;
            push_later(text, later)?;
        }
        [] => {}
    }
    Ok(())
}

fn push_later(text: &mut Text, files: &[Text]) -> Result<(), Memory>
    ensures { OnOk result (text.new ≡ text.old
        ++ flat_map (λ path. codes "," ++ path) files.now) }
{
    for file in files {
        text.push_str(",")?;
        text.push_str(file.as_str())?;
    }
    Ok(())
}
