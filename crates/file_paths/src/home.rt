ghost use Rattle.std.specs.Prelude.{◌≡◌, ◌∷◌, ◌++◌, IfOk, codes};
ghost use Rattle.file_paths.specs.Answers.{Gives};
ghost use Rattle.file_paths.specs.Paths.{all_homed, home_in, homed, joined};
ghost use Rattle.tree_base.specs.Entries.{value_at};

use crate::path::joined;
use crate::refusal::PathRefusal;
use std::alloc::Global;
use tree_base::{Env, List, Memory, Text};

/// A path against a directory, where the `~` of a leading `~/` is the value of `HOME`. `NoHome` with the path as it
/// is written where that is unset, and `Memory`.
pub fn homed(alloc: Global, directory: &Text, env: &Env, text: &Text) -> Result<Text, PathRefusal>
    ensures { Gives result (homed directory.now env.now text.now) }
{
    match text.as_str().strip_prefix("~/") {
        Some(rest) => home_in(alloc, directory, env, text, rest),
        None => Ok(joined(alloc, directory, text.as_str())?),
    }
}

/// A path that begins at the home directory, behind which `rest` stands.
fn home_in(
    alloc: Global,
    directory: &Text,
    env: &Env,
    text: &Text,
    rest: &str,
) -> Result<Text, PathRefusal>
    ensures { Gives result
        (home_in directory.now text.now rest.now (value_at env.now (codes "HOME"))) }
{
    let name = Text::from_str(alloc, "HOME")?;
    match env.get(&name) {
        Some(home) => Ok(joined_behind(alloc, directory, home, rest)?),
        None => Err(PathRefusal::NoHome {
            path: text.copy(alloc)?,
        }),
    }
}

fn joined_behind(alloc: Global, directory: &Text, home: &Text, rest: &str) -> Result<Text, Memory>
    ensures { IfOk result (λ path. path ≡ joined directory.now (home.now ++ 47 ∷ rest.now)) }
{
    let mut path = home.copy(alloc)?;
    path.push_str("/")?;
    path.push_str(rest)?;
    joined(alloc, directory, path.as_str())
}

/// Paths against a directory, in their order. `NoHome` with the first that has no home, and `Memory`.
pub fn all_homed(
    alloc: Global,
    directory: &Text,
    env: &Env,
    paths: &[Text],
) -> Result<List<Text>, PathRefusal>
    ensures { Gives result (all_homed directory.now env.now paths.now) }
{
    let mut homes = List::new(alloc);
    for path in paths {
        homes.push(homed(alloc, directory, env, path)?)?;
    }
    Ok(homes)
}
