ghost use Rattle.std.specs.Prelude.{◌≡◌, ◌≤◌, ℕ, Err, List};
ghost use Rattle.include_extends.specs.Loading.{loaded_at, loaded_of, loading};
ghost use Rattle.loaded_files.specs.Reads.{Gives, WentAs};
ghost use Rattle.loaded_files.specs.declared.refusal.LoadRefusal.{LoadRefusal};
ghost use Rattle.outside_files.specs.Counts.{Rose};

use crate::default_file::files_found;
use crate::includes::model;
use crate::request::{LoadRequest, Places, places_of};
use loaded_files::{LoadRefusal, Loaded, Seen};
use outside_files::Files;
use std::alloc::Global;
use tree_base::Env;
use tree_base::limits::MOST_FILES;

/// Loads the Compose files of a request, merged in their order, with all that their services extend, with the
/// environments of their services, and with all that they include, under the variables of the caller and of the env
/// files. What was loaded tells the paths of the files of the request, or of the default one, and the project directory.
///
/// The refusals, in their order: `NoHome` for the path of a file, of an env file, and of the project directory;
/// `NotFound` where no file is given and the default one isn't there. Then those of the model: `NotFound`,
/// `TooManyFiles`, `FileTooLarge` and `EnvFile` for each env file; `NotFound`, `TooManyFiles`, `FileTooLarge`, `Yaml`,
/// `Subst` and `Merge` for each file; `BadShape` for what they give, and `NoHome` for the first of its paths; by service
/// in byte order, `ExtendsCycle`, `NoSuchBase` and what is refused of the files that it extends, and `Merge` where it
/// doesn't fit; by service in byte order, what is refused of its env files; `Merge` for a limit that the whole passes;
/// and, by item of `include`, `IncludeCycle`, those of the included model, and `Conflict`, or `Merge` for a limit.
/// `ReadFault` comes where a read failed, and `Memory` where memory was wanted.
pub fn load<F: Files>(
    alloc: Global,
    files: &mut F,
    request: &LoadRequest,
) -> Result<Loaded, LoadRefusal>
    ensures given { Gives (F.told files.old) result (loading request.now) }
    ensures fault { (at : List ℕ) → result ≡ Err (LoadRefusal.ReadFault at)
        → Rose (F.faults files.old) (F.faults files.new) }
    ensures reads { WentAs (F.reads files.old) (F.reads files.new) result }
    ensures counted { F.faults files.old ≤ F.faults files.new }
    ensures kept { F.told files.new ≡ F.told files.old }
{
    let places = places_of(alloc, request)?;
    loaded_at(alloc, files, places, &request.env)
}

/// Loads the files of a request, where their places are known: its own files are found first.
fn loaded_at<F: Files>(
    alloc: Global,
    files: &mut F,
    places: Places,
    caller: &Env,
) -> Result<Loaded, LoadRefusal>
    ensures given { Gives (F.told files.old) result (loaded_at places caller.now) }
    ensures fault { (at : List ℕ) → result ≡ Err (LoadRefusal.ReadFault at)
        → Rose (F.faults files.old) (F.faults files.new) }
    ensures reads { WentAs (F.reads files.old) (F.reads files.new) result }
    ensures counted { F.faults files.old ≤ F.faults files.new }
    ensures kept { F.told files.new ≡ F.told files.old }
{
    let Places {
        files: given,
        env_files,
        directory,
    } = places;
    let (paths, found) = files_found(alloc, files, &directory, given)?;
    let whole = Places {
        files: paths,
        env_files,
        directory,
    };
    loaded_of(alloc, files, whole, caller, found)
}

/// Loads the files of a request, where they are known, and the first one may have been looked at before.
fn loaded_of<F: Files>(
    alloc: Global,
    files: &mut F,
    places: Places,
    caller: &Env,
    found: Option<Seen>,
) -> Result<Loaded, LoadRefusal>
    ensures given { Gives (F.told files.old) result (loaded_of places caller.now found) }
    ensures fault { (at : List ℕ) → result ≡ Err (LoadRefusal.ReadFault at)
        → Rose (F.faults files.old) (F.faults files.new) }
    ensures reads { WentAs (F.reads files.old) (F.reads files.new) result }
    ensures counted { F.faults files.old ≤ F.faults files.new }
    ensures kept { F.told files.new ≡ F.told files.old }
{
    let begun = places.files.as_slice();
    match model(
        alloc,
        files,
        MOST_FILES + 1,
        &places,
        caller,
        begun,
        found,
        MOST_FILES,
    ) {
        Ok(whole) => Ok(Loaded {
            tree: whole.tree,
            directory: places.directory,
            files: places.files,
            env: whole.env,
        }),
        Err(refusal) => Err(refusal),
    }
}
