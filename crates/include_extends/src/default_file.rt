ghost use Rattle.std.specs.Prelude.{◌≡◌, ◌≤◌, ℕ, Err, List, map};
ghost use Rattle.include_extends.specs.Loading.{default_file, files_found};
ghost use Rattle.loaded_files.specs.Reads.{Gives, WentAs};
ghost use Rattle.loaded_files.specs.declared.refusal.LoadRefusal.{LoadRefusal};
ghost use Rattle.outside_files.specs.Counts.{Rose};

use file_paths::joined;
use loaded_files::{LoadRefusal, Seen, look};
use outside_files::Files;
use std::alloc::Global;
use tree_base::{List, Text};

/// The names of a model's file, where none is given, in the order in which it is looked for.
const DEFAULT_NAMES: [&str; 4] = [
    "compose.yaml",
    "compose.yml",
    "docker-compose.yml",
    "docker-compose.yaml",
];

/// The files of a call, and what was seen of the first one: those that are given, or else the default file of the
/// project directory.
pub(crate) fn files_found<F: Files>(
    alloc: Global,
    files: &mut F,
    directory: &Text,
    given: List<Text>,
) -> Result<(List<Text>, Option<Seen>), LoadRefusal>
    ensures given { Gives (F.told files.old) result (files_found directory.now given) }
    ensures fault { (at : List ℕ) → result ≡ Err (LoadRefusal.ReadFault at)
        → Rose (F.faults files.old) (F.faults files.new) }
    ensures reads { WentAs (F.reads files.old) (F.reads files.new) result }
    ensures counted { F.faults files.old ≤ F.faults files.new }
    ensures kept { F.told files.new ≡ F.told files.old }
{
    if !given.is_empty() {
        return Ok((given, None));
    }
    let (path, found) = default_file(alloc, files, directory, &DEFAULT_NAMES)?;
    let mut paths = given;
    paths.push(path)?;
    Ok((paths, Some(found)))
}

/// The first of some names under which a file is in a directory, with what was seen there.
fn default_file<F: Files>(
    alloc: Global,
    files: &mut F,
    directory: &Text,
    names: &[&str],
) -> Result<(Text, Seen), LoadRefusal>
    ensures given { Gives (F.told files.old) result
        (default_file directory.now (map (λ name. name.now) names.now)) }
    ensures fault { (at : List ℕ) → result ≡ Err (LoadRefusal.ReadFault at)
        → Rose (F.faults files.old) (F.faults files.new) }
    ensures reads { WentAs (F.reads files.old) (F.reads files.new) result }
    ensures counted { F.faults files.old ≤ F.faults files.new }
    ensures kept { F.told files.new ≡ F.told files.old }
{
    for name in names {
        let path = joined(alloc, directory, *name)?;
        match look(alloc, files, &path)? {
            Seen::Missing => {}
            found => return Ok((path, found)),
        }
    }
    Err(LoadRefusal::NotFound {
        path: joined(alloc, directory, "compose.yaml")?,
    })
}
