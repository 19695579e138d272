ghost use Rattle.std.specs.Prelude.{◌≡◌};
ghost use Rattle.loaded_files.specs.declared.refusal.LoadRefusal.TheVariants as refusals;

use dotenv::EnvRefusal;
use interpolate::SubstTreeRefusal;
use merge_tables::MergeRefusal;
use tree_base::{List, Memory, Path, Text};
use yaml_lines::YamlRefusal;

/// What a Compose file declares under names.
#[derive(Clone, Copy, Debug, PartialEq, Eq, Drop)]
pub enum Kind {
    Service,
    Network,
    Volume,
    Secret,
    Config,
}

/// A service of a file.
#[derive(Drop)]
pub struct ServiceAt {
    pub file: Text,
    pub service: Text,
}

/// Why nothing is loaded, with the path of the file, or the place in the tree of several.
#[derive(Drop)]
pub enum LoadRefusal {
    NotFound { path: Text },
    ReadFault { path: Text },
    /// The file has more bytes than the limit.
    FileTooLarge { path: Text },
    /// With this file more are read than the limit.
    TooManyFiles { path: Text },
    /// A path begins at the home directory, and `HOME` is unset.
    NoHome { path: Text },
    /// The file's text is no YAML, or YAML past a limit of its reader.
    Yaml { path: Text, cause: YamlRefusal },
    /// A line of an env file is refused.
    EnvFile { path: Text, cause: EnvRefusal },
    /// A scalar of the file's tree has no value.
    Subst { path: Text, cause: SubstTreeRefusal },
    /// The file's tree has an entry that isn't of its form, doesn't fit what the files before it gave, or passes a
    /// limit with it.
    Merge { path: Text, cause: MergeRefusal },
    /// A part of the merged tree has another form than it has to have.
    BadShape { at: Path },
    /// Services extend one another: each of these the next one, and the last one the first.
    ExtendsCycle { services: List<ServiceAt> },
    /// A service extends one that the file doesn't have.
    NoSuchBase { file: Text, service: Text },
    /// Files include one another: those that are being loaded, from the one on that is included again.
    IncludeCycle { files: List<Text> },
    /// An included file declares what is declared already.
    Conflict { kind: Kind, key: Text, file: Text },
    Memory,
}

impl From<Memory> for LoadRefusal {
    ghost from_gives = { λ _ refusal. refusal ≡ refusals.Memory };

    fn from(_: Memory) -> LoadRefusal {
        LoadRefusal::Memory
    }
}
