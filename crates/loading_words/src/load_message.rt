ghost use Rattle.std.specs.Prelude.{◌≡◌, ◌++◌, IfOk, codes};
ghost use Rattle.loaded_files.specs.declared.refusal.LoadRefusal.{LoadRefusal};
ghost use Rattle.interpolate.specs.declared.refusal.SubstRefusal.{SubstRefusal};
ghost use Rattle.interpolate.specs.declared.refusal.SubstTreeRefusal.{SubstTreeRefusal};
ghost use Rattle.loading_words.specs.Messages.{kind_words, line_words, load_words, merge_words, value_words};
ghost use Rattle.loading_words.specs.Paths.{path_words};

use crate::message::{behind, behind_path};
use crate::path::path_words;
use dotenv::EnvRefusal;
use interpolate::{SubstRefusal, SubstTreeRefusal};
use loaded_files::Kind;
use merge_tables::MergeRefusal;
use std::alloc::Global;
use tree_base::{Memory, Path, Text};
use yaml_lines::YamlRefusal;

/// What is said of a file whose text isn't read.
pub(crate) fn yaml_words(alloc: Global, path: &Text, cause: &YamlRefusal) -> Result<Text, Memory>
    ensures { IfOk result (λ words. words ≡ load_words (LoadRefusal.Yaml path.now cause.now)) }
{
    let words = format!(in alloc; "{path}:{cause}")?;
    Ok(Text::from_string(words))
}

/// What is said of an env file that isn't read.
pub(crate) fn env_words(alloc: Global, path: &Text, cause: &EnvRefusal) -> Result<Text, Memory>
    ensures { IfOk result (λ words. words ≡ load_words (LoadRefusal.EnvFile path.now cause.now)) }
{
    match cause {
        EnvRefusal::BadLine { line } => line_words(alloc, path, *line, "BadLine"),
        EnvRefusal::BadQuote { line } => line_words(alloc, path, *line, "BadQuote"),
        EnvRefusal::Subst { line, .. } => line_words(alloc, path, *line, "Subst"),
        EnvRefusal::TooMuchText { line } => line_words(alloc, path, *line, "TooMuchText"),
        EnvRefusal::Memory => behind(alloc, path, ":memory"),
    }
}

fn line_words(alloc: Global, path: &Text, line: u32, name: &str) -> Result<Text, Memory>
    ensures { IfOk result (λ words. words ≡ path.now ++ codes ":" ++ line_words line name.now) }
{
    let words = format!(in alloc; "{path}:{line}: {name}")?;
    Ok(Text::from_string(words))
}

/// What is said of a file whose scalars have no values.
pub(crate) fn tree_words(
    alloc: Global,
    path: &Text,
    cause: &SubstTreeRefusal,
) -> Result<Text, Memory>
    ensures { IfOk result (λ words. words ≡ load_words (LoadRefusal.Subst path.now cause.now)) }
{
    match cause {
        SubstTreeRefusal::At { path: at, cause } => scalar_words(alloc, path, at, cause),
        SubstTreeRefusal::TooMuchText => behind(alloc, path, ": TooMuchText"),
        SubstTreeRefusal::Memory => behind(alloc, path, ": memory"),
    }
}

/// What is said of a file whose tree isn't merged.
pub(crate) fn merge_words(alloc: Global, path: &Text, cause: &MergeRefusal) -> Result<Text, Memory>
    ensures { IfOk result (λ words. words ≡ load_words (LoadRefusal.Merge path.now cause.now)) }
{
    let cause = misfit_words(alloc, cause)?;
    let words = format!(in alloc; "{path}: {cause}")?;
    Ok(Text::from_string(words))
}

/// What is said of a service that isn't in the file in which it is looked for.
pub(crate) fn base_words(alloc: Global, file: &Text, service: &Text) -> Result<Text, Memory>
    ensures { IfOk result
        (λ words. words ≡ load_words (LoadRefusal.NoSuchBase file.now service.now)) }
{
    let words = format!(in alloc; "{file}: no service {service}")?;
    Ok(Text::from_string(words))
}

/// What is said of a name that an included file declares again.
pub(crate) fn conflict_words(
    alloc: Global,
    file: &Text,
    kind: Kind,
    key: &Text,
) -> Result<Text, Memory>
    ensures { IfOk result
        (λ words. words ≡ load_words (LoadRefusal.Conflict kind key.now file.now)) }
{
    let kind = kind_words(kind);
    let words = format!(in alloc; "{file}: conflict: {kind} {key}")?;
    Ok(Text::from_string(words))
}

/// What a file declares, in the singular.
pub(crate) fn kind_words(kind: Kind) -> &'static str
    ensures { result.now ≡ kind_words kind }
{
    match kind {
        Kind::Service => "service",
        Kind::Network => "network",
        Kind::Volume => "volume",
        Kind::Secret => "secret",
        Kind::Config => "config",
    }
}

fn misfit_words(alloc: Global, cause: &MergeRefusal) -> Result<Text, Memory>
    ensures { IfOk result (λ words. words ≡ merge_words cause.now) }
{
    match cause {
        MergeRefusal::KindMismatch { path } => behind_path(alloc, path, ": KindMismatch"),
        MergeRefusal::BadUniqueEntry { path } => behind_path(alloc, path, ": BadUniqueEntry"),
        MergeRefusal::MarkUnderExtends { path } => behind_path(alloc, path, ": MarkUnderExtends"),
        MergeRefusal::TooManyNodes => Text::from_str(alloc, "TooManyNodes"),
        MergeRefusal::TooMuchText => Text::from_str(alloc, "TooMuchText"),
        MergeRefusal::Memory => Text::from_str(alloc, "memory"),
    }
}

fn scalar_words(alloc: Global, path: &Text, at: &Path, cause: &SubstRefusal) -> Result<Text, Memory>
    ensures { IfOk result (λ words.
        words ≡ load_words (LoadRefusal.Subst path.now (SubstTreeRefusal.At at.now cause.now))) }
{
    let at = path_words(alloc, at)?;
    let cause = value_words(alloc, cause)?;
    let words = format!(in alloc; "{path}: {at}: {cause}")?;
    Ok(Text::from_string(words))
}

fn value_words(alloc: Global, cause: &SubstRefusal) -> Result<Text, Memory>
    ensures { IfOk result (λ words. words ≡ value_words cause.now) }
{
    match cause {
        SubstRefusal::Unclosed { .. } => Text::from_str(alloc, "Unclosed"),
        SubstRefusal::BadForm { .. } => Text::from_str(alloc, "BadForm"),
        SubstRefusal::RequiredVariable { name, message } => required_words(alloc, name, message),
        SubstRefusal::TooMuchText => Text::from_str(alloc, "TooMuchText"),
        SubstRefusal::Memory => Text::from_str(alloc, "memory"),
    }
}

fn required_words(alloc: Global, name: &Text, message: &Text) -> Result<Text, Memory>
    ensures { IfOk result (λ words.
        words ≡ value_words (SubstRefusal.RequiredVariable name.now message.now)) }
{
    let words = format!(in alloc; "required {name}: {message}")?;
    Ok(Text::from_string(words))
}
