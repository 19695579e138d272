ghost use Rattle.std.specs.Prelude.{◌≡◌};
ghost use Rattle.loading_words.specs.Statuses.{active_status, env_status, load_status, merge_status, project_status, refusal_status, tree_status, yaml_status};

use crate::refusal::{ProjectRefusal, TreeRefusal};
use active_services::ActiveRefusal;
use dotenv::EnvRefusal;
use interpolate::SubstTreeRefusal;
use loaded_files::LoadRefusal;
use merge_tables::MergeRefusal;
use yaml_lines::YamlRefusal;

/// The exit status of a refusal of a tree: 2 where it isn't built. No memory.
pub fn refusal_status(refusal: &TreeRefusal) -> u8
    ensures { result ≡ refusal_status refusal.now }
{
    match refusal {
        TreeRefusal::Name(refusal) => project_status(refusal),
        TreeRefusal::Active(refusal) => active_status(refusal),
        TreeRefusal::Project(refusal) => project_status(refusal),
        TreeRefusal::Memory => 9,
    }
}

/// The exit status where the services of a project aren't active: 2, and 9 for memory. No memory.
pub fn active_status(refusal: &ActiveRefusal) -> u8
    ensures { result ≡ active_status refusal.now }
{
    match refusal {
        ActiveRefusal::DependencyDisabled { .. } => 2,
        ActiveRefusal::Memory => 9,
    }
}

/// The exit status where a project is wrong: 8 for a limit, and else 2. No memory.
pub fn project_status(refusal: &ProjectRefusal) -> u8
    ensures { result ≡ project_status refusal.now }
{
    match refusal {
        ProjectRefusal::BadName { .. } => 2,
        ProjectRefusal::TooManyServices { .. } => 8,
        ProjectRefusal::UnknownAttribute { .. } => 2,
        ProjectRefusal::WrongKind { .. } => 2,
        ProjectRefusal::BadValue { .. } => 2,
        ProjectRefusal::Undefined { .. } => 2,
        ProjectRefusal::DependencyCycle { .. } => 2,
    }
}

/// The exit status where files aren't loaded: 2 where one is missing, isn't read, has a scalar without a value or a mark
/// beside `extends`, or doesn't fit those before it, where the home isn't known, where what they give has another form, where services extend
/// one another or one that isn't there, and where files include one another or declare one name twice; 7 for a fault, 8
/// for a limit, 9 for memory. No memory.
pub fn load_status(refusal: &LoadRefusal) -> u8
    ensures { result ≡ load_status refusal.now }
{
    match refusal {
        LoadRefusal::NotFound { .. } => 2,
        LoadRefusal::ReadFault { .. } => 7,
        LoadRefusal::FileTooLarge { .. } => 8,
        LoadRefusal::TooManyFiles { .. } => 8,
        LoadRefusal::NoHome { .. } => 2,
        LoadRefusal::Yaml { cause, .. } => yaml_status(cause),
        LoadRefusal::EnvFile { cause, .. } => env_status(cause),
        LoadRefusal::Subst { cause, .. } => tree_status(cause),
        LoadRefusal::Merge { cause, .. } => merge_status(cause),
        LoadRefusal::BadShape { .. } => 2,
        LoadRefusal::ExtendsCycle { .. } => 2,
        LoadRefusal::NoSuchBase { .. } => 2,
        LoadRefusal::IncludeCycle { .. } => 2,
        LoadRefusal::Conflict { .. } => 2,
        LoadRefusal::Memory => 9,
    }
}

fn yaml_status(refusal: &YamlRefusal) -> u8
    ensures { result ≡ yaml_status refusal.now }
{
    match refusal {
        YamlRefusal::Bad { .. } => 2,
        YamlRefusal::TooDeep { .. } => 8,
        YamlRefusal::TooManyNodes { .. } => 8,
        YamlRefusal::TooMuchText { .. } => 8,
        YamlRefusal::Memory => 9,
    }
}

fn env_status(refusal: &EnvRefusal) -> u8
    ensures { result ≡ env_status refusal.now }
{
    match refusal {
        EnvRefusal::BadLine { .. } => 2,
        EnvRefusal::BadQuote { .. } => 2,
        EnvRefusal::Subst { .. } => 2,
        EnvRefusal::TooMuchText { .. } => 8,
        EnvRefusal::Memory => 9,
    }
}

fn tree_status(refusal: &SubstTreeRefusal) -> u8
    ensures { result ≡ tree_status refusal.now }
{
    match refusal {
        SubstTreeRefusal::At { .. } => 2,
        SubstTreeRefusal::TooMuchText => 8,
        SubstTreeRefusal::Memory => 9,
    }
}

fn merge_status(refusal: &MergeRefusal) -> u8
    ensures { result ≡ merge_status refusal.now }
{
    match refusal {
        MergeRefusal::KindMismatch { .. } => 2,
        MergeRefusal::BadUniqueEntry { .. } => 2,
        MergeRefusal::MarkUnderExtends { .. } => 2,
        MergeRefusal::TooManyNodes => 8,
        MergeRefusal::TooMuchText => 8,
        MergeRefusal::Memory => 9,
    }
}
