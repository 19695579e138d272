ghost use Rattle.std.specs.Prelude.{◌≡◌, ◌++◌, IfOk, OnOk};
ghost use Rattle.std.specs.List.{flat_map};
ghost use Rattle.loading_words.specs.Paths.{path_words, step_words};

use std::alloc::Global;
use tree_base::{Memory, Path, Step, Text};

/// A path as it is printed: its keys joined by dots, and each place in brackets.
pub(crate) fn path_words(alloc: Global, path: &Path) -> Result<Text, Memory>
    ensures { IfOk result (λ words. words ≡ path_words path.now) }
{
    let mut words = Text::new(alloc);
    match path.as_slice() {
        [Step::Key(key), later @ ..] => {
            words.push_str(key.as_str())?;
            push_steps(alloc, &mut words, later)?;
        }
        steps => push_steps(alloc, &mut words, steps)?,
    }
    Ok(words)
}

fn push_steps(alloc: Global, words: &mut Text, steps: &[Step]) -> Result<(), Memory>
    ensures { OnOk result (words.new ≡ words.old ++ flat_map step_words steps.now) }
{
    for step in steps {
        push_step(alloc, words, step)?;
    }
    Ok(())
}

fn push_step(alloc: Global, words: &mut Text, step: &Step) -> Result<(), Memory>
    ensures { OnOk result (words.new ≡ words.old ++ step_words step.now) }
{
    match step {
        Step::Key(key) => {
            words.push_str(".")?;
            words.push_str(key.as_str())?;
        }
        Step::Index(at) => {
            let place = format!(in alloc; "[{at}]")?;
            words.push_str(place.as_str())?;
        }
    }
    Ok(())
}
