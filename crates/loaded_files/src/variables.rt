ghost use Rattle.std.specs.Prelude.{◌≡◌, [], ℕ, ◌≤◌, Err, IfOk, OnOk, List};
ghost use Rattle.dotenv.specs.Files.{env_file};
ghost use Rattle.loaded_files.specs.EnvFiles.{default_env, env_file_if, env_files, environment, file_variables, with_all, with_env_file, with_file, with_file_if};
ghost use Rattle.loaded_files.specs.Refusing.{of_env};
ghost use Rattle.loaded_files.specs.Reads.{Gives, IsGiven, WentAs};
ghost use Rattle.loaded_files.specs.declared.refusal.LoadRefusal.{LoadRefusal};
ghost use Rattle.outside_files.specs.Counts.{Rose};
ghost use Rattle.tree_base.specs.Entries.{with_entry};

use crate::reads::{file_at, file_if_there};
use crate::refusal::LoadRefusal;
use dotenv::{EnvRefusal, read_env};
use file_paths::joined;
use outside_files::Files;
use std::alloc::Global;
use tree_base::{Env, List, Memory, Text, TryCopy};

/// The variables of a model, and how many files may still be read: the caller's win over those of the env files that
/// were given, of which there may be none, or else of `.env` in its directory. The refusals are those of the files, in
/// their order.
pub fn environment<F: Files>(
    alloc: Global,
    files: &mut F,
    directory: &Text,
    paths: &Option<List<Text>>,
    caller: &Env,
    left: u32,
) -> Result<(Env, u32), LoadRefusal>
    ensures given { Gives (F.told files.old) result
        (environment directory.now paths.now caller.now left) }
    ensures fault { (at : List ℕ) → result ≡ Err (LoadRefusal.ReadFault at)
        → Rose (F.faults files.old) (F.faults files.new) }
    ensures reads { WentAs (F.reads files.old) (F.reads files.new) result }
    ensures counted { F.faults files.old ≤ F.faults files.new }
    ensures kept { F.told files.new ≡ F.told files.old }
{
    let (values, left) = file_variables(alloc, files, directory, paths, caller, left)?;
    Ok((with_all(alloc, values, caller)?, left))
}

/// The variables of the env files that were given, or else of `.env`, and how many files may still be read.
fn file_variables<F: Files>(
    alloc: Global,
    files: &mut F,
    directory: &Text,
    paths: &Option<List<Text>>,
    caller: &Env,
    left: u32,
) -> Result<(Env, u32), LoadRefusal>
    ensures given { Gives (F.told files.old) result
        (file_variables directory.now paths.now caller.now left) }
    ensures fault { (at : List ℕ) → result ≡ Err (LoadRefusal.ReadFault at)
        → Rose (F.faults files.old) (F.faults files.new) }
    ensures reads { WentAs (F.reads files.old) (F.reads files.new) result }
    ensures counted { F.faults files.old ≤ F.faults files.new }
    ensures kept { F.told files.new ≡ F.told files.old }
{
    match paths {
        None => default_env(alloc, files, directory, caller, left),
        Some(paths) => env_files(alloc, files, caller, paths.as_slice(), left),
    }
}

/// The variables of env files, in order, and how many files may still be read.
fn env_files<F: Files>(
    alloc: Global,
    files: &mut F,
    caller: &Env,
    paths: &[Text],
    left: u32,
) -> Result<(Env, u32), LoadRefusal>
    ensures given { Gives (F.told files.old) result (env_files caller.now paths.now [] left) }
    ensures fault { (at : List ℕ) → result ≡ Err (LoadRefusal.ReadFault at)
        → Rose (F.faults files.old) (F.faults files.new) }
    ensures reads { WentAs (F.reads files.old) (F.reads files.new) result }
    ensures counted { F.faults files.old ≤ F.faults files.new }
    ensures kept { F.told files.new ≡ F.told files.old }
{
    let mut values = Env::new(alloc);
    let mut left = left;
    for path in paths {
        let (more, rest) = with_file(alloc, files, caller, path, values, left)?;
        values = more;
        left = rest;
    }
    Ok((values, left))
}

/// The variables of an env file that has to be there with those of earlier ones, and how many files may still be read:
/// the caller's win over those of earlier files in what its lines see, and its own over those of earlier files.
///
/// The refusals, in their order: `ReadFault`, `NotFound`, `TooManyFiles`, `FileTooLarge`, `EnvFile`; and `Memory`.
pub fn with_file<F: Files>(
    alloc: Global,
    files: &mut F,
    caller: &Env,
    path: &Text,
    earlier: Env,
    left: u32,
) -> Result<(Env, u32), LoadRefusal>
    ensures given { Gives (F.told files.old) result (with_file caller.now path.now earlier left) }
    ensures fault { (at : List ℕ) → result ≡ Err (LoadRefusal.ReadFault at)
        → Rose (F.faults files.old) (F.faults files.new) }
    ensures reads { WentAs (F.reads files.old) (F.reads files.new) result }
    ensures counted { F.faults files.old ≤ F.faults files.new }
    ensures kept { F.told files.new ≡ F.told files.old }
{
    let (bytes, left) = file_at(alloc, files, path, left)?;
    Ok((
        with_env_file(alloc, caller, path, bytes.as_slice(), earlier)?,
        left,
    ))
}

/// The variables of `.env` in a directory, where it is there, and how many files may still be read.
fn default_env<F: Files>(
    alloc: Global,
    files: &mut F,
    directory: &Text,
    caller: &Env,
    left: u32,
) -> Result<(Env, u32), LoadRefusal>
    ensures given { Gives (F.told files.old) result (default_env directory.now caller.now left) }
    ensures fault { (at : List ℕ) → result ≡ Err (LoadRefusal.ReadFault at)
        → Rose (F.faults files.old) (F.faults files.new) }
    ensures reads { WentAs (F.reads files.old) (F.reads files.new) result }
    ensures counted { F.faults files.old ≤ F.faults files.new }
    ensures kept { F.told files.new ≡ F.told files.old }
{
    let path = joined(alloc, directory, ".env")?;
    with_file_if(alloc, files, caller, &path, Env::new(alloc), left)
}

/// The variables of an env file that may be missing with those of earlier ones, and how many files may still be read.
/// The refusals are those of `with_file` but for `NotFound`.
pub fn with_file_if<F: Files>(
    alloc: Global,
    files: &mut F,
    caller: &Env,
    path: &Text,
    earlier: Env,
    left: u32,
) -> Result<(Env, u32), LoadRefusal>
    ensures given { Gives (F.told files.old) result
        (with_file_if caller.now path.now earlier left) }
    ensures fault { (at : List ℕ) → result ≡ Err (LoadRefusal.ReadFault at)
        → Rose (F.faults files.old) (F.faults files.new) }
    ensures reads { WentAs (F.reads files.old) (F.reads files.new) result }
    ensures counted { F.faults files.old ≤ F.faults files.new }
    ensures kept { F.told files.new ≡ F.told files.old }
{
    let (found, left) = file_if_there(alloc, files, path, left)?;
    Ok((env_file_if(alloc, caller, path, earlier, found)?, left))
}

/// The variables of an env file that may be missing with those of earlier ones.
fn env_file_if(
    alloc: Global,
    caller: &Env,
    path: &Text,
    earlier: Env,
    found: Option<List<u8>>,
) -> Result<Env, LoadRefusal>
    ensures given { IsGiven result (env_file_if caller.now path.now earlier found) }
    ensures fault { (at : List ℕ) → result ≡ Err (LoadRefusal.ReadFault at) → ⊥ }
{
    match found {
        Some(bytes) => with_env_file(alloc, caller, path, bytes.as_slice(), earlier),
        None => Ok(earlier),
    }
}

/// The variables of an env file with those of earlier ones, which it sees below the caller's, and over which it wins.
fn with_env_file(
    alloc: Global,
    caller: &Env,
    path: &Text,
    bytes: &[u8],
    earlier: Env,
) -> Result<Env, LoadRefusal>
    ensures given { IsGiven result (with_env_file caller.now path.now bytes.now earlier) }
    ensures fault { (at : List ℕ) → result ≡ Err (LoadRefusal.ReadFault at) → ⊥ }
{
    let outer = with_all(alloc, TryCopy::copy(&earlier, alloc)?, caller)?;
    let values = values_of(alloc, path, bytes, &outer)?;
    Ok(with_all(alloc, earlier, &values)?)
}

/// The variables of an env file alone.
fn values_of(alloc: Global, path: &Text, bytes: &[u8], outer: &Env) -> Result<Env, LoadRefusal>
    ensures given { IsGiven result (of_env path.now (env_file outer.now bytes.now)) }
    ensures fault { (at : List ℕ) → result ≡ Err (LoadRefusal.ReadFault at) → ⊥ }
{
    match read_env(alloc, bytes, outer) {
        Ok(values) => Ok(values),
        Err(EnvRefusal::Memory) => Err(LoadRefusal::Memory),
        Err(cause) => Err(LoadRefusal::EnvFile {
            path: path.copy(alloc)?,
            cause,
        }),
    }
}

/// Variables with those of a second list, which win.
fn with_all(alloc: Global, base: Env, more: &Env) -> Result<Env, Memory>
    ensures { IfOk result (λ all. all ≡ with_all base more.now) }
{
    let mut all = base;
    for at in 0..more.len() {
        if let Some((name, value)) = more.pair(at) {
            put_copies(alloc, &mut all, name, value)?;
        }
    }
    Ok(all)
}

fn put_copies(alloc: Global, to: &mut Env, name: &Text, value: &Text) -> Result<(), Memory>
    ensures { OnOk result (to.new ≡ with_entry to.old name.now value.now) }
{
    let name = name.copy(alloc)?;
    to.put(name, value.copy(alloc)?)?;
    Ok(())
}
