ghost use Rattle.std.specs.Prelude.{◌≡◌, ◌++◌, IfOk, codes};
ghost use Rattle.loading_words.specs.Messages.{active_words, cycle_words, load_words, project_words, refusal_words};
ghost use Rattle.active_services.specs.declared.ActiveRefusal.{ActiveRefusal};
ghost use Rattle.loading_words.specs.Paths.{path_words};
ghost use Rattle.loading_words.specs.declared.refusal.ProjectRefusal.{ProjectRefusal};

use crate::load_message::kind_words;
use crate::path::path_words;
use crate::refusal::{ProjectRefusal, TreeRefusal};
use crate::{cycle, load_message};
use active_services::ActiveRefusal;
use loaded_files::LoadRefusal;
use std::alloc::Global;
use tree_base::{Memory, Path, Text};

/// What a refusal of a tree says. Memory where there is no memory for it.
pub fn refusal_words(alloc: Global, refusal: &TreeRefusal) -> Result<Text, Memory>
    ensures { IfOk result (λ words. words ≡ refusal_words refusal.now) }
{
    match refusal {
        TreeRefusal::Name(refusal) => project_words(alloc, refusal),
        TreeRefusal::Active(refusal) => active_words(alloc, refusal),
        TreeRefusal::Project(refusal) => project_words(alloc, refusal),
        TreeRefusal::Memory => Text::from_str(alloc, "memory"),
    }
}

/// What is said of a file that isn't loaded. Memory where there is no memory for it.
pub fn load_words(alloc: Global, refusal: &LoadRefusal) -> Result<Text, Memory>
    ensures { IfOk result (λ words. words ≡ load_words refusal.now) }
{
    match refusal {
        LoadRefusal::NotFound { path } => behind(alloc, path, ": NotFound"),
        LoadRefusal::ReadFault { path } => behind(alloc, path, ": ReadFault"),
        LoadRefusal::FileTooLarge { path } => behind(alloc, path, ": FileTooLarge"),
        LoadRefusal::TooManyFiles { path } => behind(alloc, path, ": TooManyFiles"),
        LoadRefusal::NoHome { path } => behind(alloc, path, ": NoHome"),
        LoadRefusal::Yaml { path, cause } => load_message::yaml_words(alloc, path, cause),
        LoadRefusal::EnvFile { path, cause } => load_message::env_words(alloc, path, cause),
        LoadRefusal::Subst { path, cause } => load_message::tree_words(alloc, path, cause),
        LoadRefusal::Merge { path, cause } => load_message::merge_words(alloc, path, cause),
        LoadRefusal::BadShape { at } => behind_path(alloc, at, ": BadShape"),
        LoadRefusal::ExtendsCycle { services } => cycle::extends_words(alloc, services.as_slice()),
        LoadRefusal::NoSuchBase { file, service } => load_message::base_words(alloc, file, service),
        LoadRefusal::IncludeCycle { files } => cycle::include_words(alloc, files.as_slice()),
        LoadRefusal::Conflict { kind, key, file } => {
            load_message::conflict_words(alloc, file, *kind, key)
        }
        LoadRefusal::Memory => Text::from_str(alloc, "memory"),
    }
}

/// What is said where the services of a project aren't active. Memory where there is no memory for it.
pub fn active_words(alloc: Global, refusal: &ActiveRefusal) -> Result<Text, Memory>
    ensures { IfOk result (λ words. words ≡ active_words refusal.now) }
{
    match refusal {
        ActiveRefusal::DependencyDisabled {
            service,
            dependency,
        } => disabled_words(alloc, service, dependency),
        ActiveRefusal::Memory => Text::from_str(alloc, "memory"),
    }
}

fn disabled_words(alloc: Global, service: &Text, dependency: &Text) -> Result<Text, Memory>
    ensures { IfOk result (λ words. words
        ≡ active_words (ActiveRefusal.DependencyDisabled service.now dependency.now)) }
{
    let words = format!(in alloc; "{service}: dependency {dependency} is disabled")?;
    Ok(Text::from_string(words))
}

/// What is said of a project that is wrong. Memory where there is no memory for it.
pub fn project_words(alloc: Global, refusal: &ProjectRefusal) -> Result<Text, Memory>
    ensures { IfOk result (λ words. words ≡ project_words refusal.now) }
{
    match refusal {
        ProjectRefusal::BadName { name } => name_words(alloc, name),
        ProjectRefusal::TooManyServices { count } => services_words(alloc, *count),
        ProjectRefusal::UnknownAttribute { path } => behind_path(alloc, path, ": UnknownAttribute"),
        ProjectRefusal::WrongKind { path } => behind_path(alloc, path, ": WrongKind"),
        ProjectRefusal::BadValue { path } => behind_path(alloc, path, ": BadValue"),
        ProjectRefusal::Undefined {
            kind,
            service,
            name,
        } => undefined_words(alloc, kind_words(*kind), service, name),
        ProjectRefusal::DependencyCycle { services } => cycle_words(alloc, services.as_slice()),
    }
}

fn name_words(alloc: Global, name: &Text) -> Result<Text, Memory>
    ensures { IfOk result (λ words. words ≡ project_words (ProjectRefusal.BadName name.now)) }
{
    let words = format!(in alloc; "bad project name: {name}")?;
    Ok(Text::from_string(words))
}

fn services_words(alloc: Global, count: u32) -> Result<Text, Memory>
    ensures { IfOk result (λ words. words ≡ project_words (ProjectRefusal.TooManyServices count)) }
{
    let words = format!(in alloc; "TooManyServices: {count}")?;
    Ok(Text::from_string(words))
}

fn undefined_words(alloc: Global, kind: &str, service: &Text, name: &Text) -> Result<Text, Memory>
    ensures { IfOk result (λ words. words
        ≡ service.now ++ codes ": undefined " ++ kind.now ++ codes " " ++ name.now) }
{
    let words = format!(in alloc; "{service}: undefined {kind} {name}")?;
    Ok(Text::from_string(words))
}

fn cycle_words(alloc: Global, services: &[Text]) -> Result<Text, Memory>
    ensures { IfOk result (λ words. words ≡ cycle_words services.now) }
{
    let mut words = Text::from_str(alloc, "dependency cycle:")?;
    for service in services {
        words.push_str(" ")?;
        words.push_str(service.as_str())?;
    }
    Ok(words)
}

/// Words behind a path of a tree, as it is printed.
pub(crate) fn behind_path(alloc: Global, path: &Path, words: &str) -> Result<Text, Memory>
    ensures { IfOk result (λ all. all ≡ path_words path.now ++ words.now) }
{
    let path = path_words(alloc, path)?;
    behind(alloc, &path, words)
}

/// Words behind a text.
pub(crate) fn behind(alloc: Global, text: &Text, words: &str) -> Result<Text, Memory>
    ensures { IfOk result (λ all. all ≡ text.now ++ words.now) }
{
    let all = format!(in alloc; "{text}{words}")?;
    Ok(Text::from_string(all))
}
