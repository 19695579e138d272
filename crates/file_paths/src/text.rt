ghost use Rattle.std.specs.Prelude.{◌≡◌, Ok, Some, codes};
ghost use Rattle.file_paths.specs.Answers.{Gives};
ghost use Rattle.file_paths.specs.Paths.{homed};
ghost use Rattle.file_paths.specs.Resolving.{has_scheme, is_bind, mount_homed, path_homed, text_homed};
ghost use Rattle.file_paths.specs.declared.spot.PathKind.{PathKind};
ghost use Rattle.tree_base.specs.Entries.{with_entry};

use crate::home::homed;
use crate::refusal::PathRefusal;
use crate::spot::PathKind;
use std::alloc::Global;
use tree_base::{Env, Map, Text, Tree};

/// A text of a file, with a path taken absolute.
pub(crate) fn text_homed(
    kind: Option<PathKind>,
    text: &Text,
    directory: &Text,
    env: &Env,
    alloc: Global,
) -> Result<Tree, PathRefusal>
    ensures { Gives result (text_homed (homed directory.now env.now) kind text.now) }
{
    match kind {
        Some(PathKind::Text) => path_homed(text, directory, env, alloc),
        Some(PathKind::Context) => context_homed(text, directory, env, alloc),
        _ => Ok(Tree::Scalar(text.copy(alloc)?)),
    }
}

/// A path as it is then.
fn path_homed(text: &Text, directory: &Text, env: &Env, alloc: Global) -> Result<Tree, PathRefusal>
    ensures { Gives result (path_homed (homed directory.now env.now) text.now) }
{
    Ok(Tree::Scalar(homed(alloc, directory, env, text)?))
}

/// The context of a build, which may name a scheme.
fn context_homed(
    text: &Text,
    directory: &Text,
    env: &Env,
    alloc: Global,
) -> Result<Tree, PathRefusal>
    ensures { Gives result
        (text_homed (homed directory.now env.now) (Some PathKind.Context) text.now) }
{
    if has_scheme(text) {
        Ok(Tree::Scalar(text.copy(alloc)?))
    } else {
        path_homed(text, directory, env, alloc)
    }
}

/// Whether a text names a scheme, as a URL does.
fn has_scheme(text: &Text) -> bool
    ensures { result ≡ has_scheme text.now }
{
    text.as_str().contains("://")
}

/// A mount whose source is a path, where it is a bind.
pub(crate) fn mount_homed(
    entries: Map,
    directory: &Text,
    env: &Env,
    alloc: Global,
) -> Result<Map, PathRefusal>
    ensures { Gives result (mount_homed (homed directory.now env.now) entries) }
{
    if !is_bind(&entries) {
        return Ok(entries);
    }
    let path = match entries.find("source") {
        Some(Tree::Scalar(text)) => Some(path_homed(text, directory, env, alloc)),
        _ => None,
    };
    match path {
        None => Ok(entries),
        Some(Ok(path)) => with_source(entries, path, alloc),
        Some(Err(refusal)) => {
            drop(entries);
            Err(refusal)
        }
    }
}

/// Entries with another source.
fn with_source(entries: Map, source: Tree, alloc: Global) -> Result<Map, PathRefusal>
    ensures { Gives result (Ok (with_entry entries (codes "source") source)) }
{
    let mut entries = entries;
    let key = Text::from_str(alloc, "source")?;
    entries.put(key, source)?;
    Ok(entries)
}

/// Whether an entry of `volumes` is a bind.
fn is_bind(entries: &Map) -> bool
    ensures { result ≡ is_bind entries.now }
{
    match entries.find("type") {
        Some(Tree::Scalar(kind)) => kind.as_str() == "bind",
        _ => false,
    }
}
