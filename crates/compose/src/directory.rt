ghost use Rattle.std.specs.Prelude.{◌≡◌, ◌==◌, ◌&&◌, ◌⊎◌, Some, Err, IfSome, codes};
ghost use Rattle.std.specs.List.{list_all, slice_split};
ghost use Rattle.tree_base.specs.Entries.{value_at};
ghost use Rattle.compose.specs.Directories.{directory_given, is_name, is_plain, path_given};

use crate::given::{UNREAD, text_in};
use crate::process::Process;
use std::alloc::Global;
use tree_base::{Env, List, Memory, Text};

/// Why there is no working directory.
#[derive(Debug, Clone, Copy)]
pub(crate) enum DirectoryRefusal {
    /// The variable `PWD`, or the path that the system gives, isn't UTF-8.
    BadUtf8,
    /// The system gives no path.
    ReadFault,
    Memory,
}

impl From<Memory> for DirectoryRefusal {
    ghost use Rattle.compose.specs.declared.directory.DirectoryRefusal.{DirectoryRefusal};

    ghost from_gives = { λ _ refusal. refusal ≡ DirectoryRefusal.Memory };

    fn from(_: Memory) -> DirectoryRefusal {
        DirectoryRefusal::Memory
    }
}

/// The working directory: the process's own. The variable `PWD` gives its name where it leads there from the root,
/// without `.` and `..`, and may go through links; else the path that the system gives stands.
pub(crate) fn working_directory<P: Process>(
    alloc: Global,
    process: &P,
    variables: &Env,
) -> Result<Text, DirectoryRefusal>
    ensures { IfSome (P.told process.now) (λ given.
        (result ≡ Err DirectoryRefusal.Memory)
        ⊎ (result ≡ directory_given given (value_at variables.now (codes "PWD")))) }
{
    match variables.find("PWD") {
        Some(name) if name.as_str() == UNREAD => Err(DirectoryRefusal::BadUtf8),
        Some(name) if leads(process, name.as_str()) => Ok(name.copy(alloc)?),
        _ => own_path(alloc, process),
    }
}

/// Whether a path from the root leads to the working directory as it stands.
fn leads<P: Process>(process: &P, path: &str) -> bool
    ensures { IfSome (P.told process.now) (λ given.
        result ≡ (is_plain path.now && given.leads path.now)) }
{
    is_plain(path) && process.is_directory(path)
}

/// The path that the system gives.
fn own_path<P: Process>(alloc: Global, process: &P) -> Result<Text, DirectoryRefusal>
    ensures { IfSome (P.told process.now) (λ given.
        (result ≡ Err DirectoryRefusal.Memory) ⊎ (result ≡ path_given given.directory)) }
{
    match process.directory(alloc)? {
        Some(path) => text_of(alloc, &path),
        None => Err(DirectoryRefusal::ReadFault),
    }
}

fn text_of(alloc: Global, path: &List<u8>) -> Result<Text, DirectoryRefusal>
    ensures { (result ≡ Err DirectoryRefusal.Memory) ⊎ (result ≡ path_given (Some path.now)) }
{
    match text_in(path.as_slice()) {
        Some(path) => Ok(Text::from_str(alloc, path)?),
        None => Err(DirectoryRefusal::BadUtf8),
    }
}

/// Whether a path begins at the root and has neither `.` nor `..`.
fn is_plain(path: &str) -> bool
    ensures { result ≡ is_plain path.now }
{
    path.starts_with("/") && has_names_alone(path)
}

fn has_names_alone(path: &str) -> bool
    ensures { result ≡ list_all is_name (slice_split (λ b. b == 47) path.now) }
{
    path.split('/').all(|part| is_name(part))
}

fn is_name(part: &str) -> bool
    ensures { result ≡ is_name part.now }
{
    !(part == "." || part == "..")
}
