ghost use Rattle.std.specs.Prelude.{◌≡◌, ◌∷◌, [], Some, IfOk, codes};
ghost use Rattle.tree_base.specs.declared.Step.TheVariants.{Key};
ghost use Rattle.std.specs.List.{list_all};
ghost use Rattle.std.specs.Option.{option_copied, option_map};
ghost use Rattle.project_meaning.specs.Answers.{Gives};
ghost use Rattle.normal_form.specs.ProjectNames.{base_name, begins_well, is_name, is_name_character, name_from};
ghost use Rattle.normal_form.specs.Projects.{wrong_kind, checked, filled, name_by, name_given, name_in, named, project_name};
ghost use Rattle.tree_base.specs.Entries.{value_at};
ghost use Rattle.tree_base.specs.declared.Tree.{out-Tree};

use crate::directory::{base_name, is_mark, is_name_character, name_from};
use loaded_files::Loaded;
use loading_words::{ProjectRefusal, TreeRefusal};
use std::alloc::Global;
use tree_base::{Env, List, Map, Memory, Path, Step, Text, Tree};

/// The name of the project of what was loaded: the one of the option `-p`, or else of the variable
/// `COMPOSE_PROJECT_NAME`, where it isn't empty, or else the one that stands at `name`, or else the one that the
/// directory's base name gives. `Name(BadName)` for the first of these that is there, where it is no name, and where
/// nothing is left of the directory's; `Memory` where memory was wanted.
pub fn project_name(
    alloc: Global,
    option: Option<&Text>,
    loaded: &Loaded,
) -> Result<Text, TreeRefusal>
    ensures { Gives result (project_name (option_copied option.entry) loaded.now) }
{
    match name_given(option, &loaded.env) {
        Some(name) => checked(alloc, name),
        None => name_in(alloc, &loaded.directory, &loaded.tree),
    }
}

/// The name that a call gives.
fn name_given<'a>(option: Option<&'a Text>, env: &'a Env) -> Option<&'a Text>
    ensures { option_copied result ≡ name_given (option_copied option.entry) env.now }
{
    match option {
        Some(name) => Some(name),
        None => name_of_variable(env),
    }
}

/// The name that the variable gives, which isn't empty.
fn name_of_variable(env: &Env) -> Option<&Text>
    ensures { option_copied result
        ≡ filled (value_at env.now (codes "COMPOSE_PROJECT_NAME")) }
{
    match env.find("COMPOSE_PROJECT_NAME") {
        Some(name) => filled(name),
        None => None,
    }
}

/// A text that isn't empty.
fn filled(text: &Text) -> Option<&Text>
    ensures { option_copied result ≡ filled (Some text.now) }
{
    if text.is_empty() { None } else { Some(text) }
}

/// The name of the project of a tree: the one that stands at `name`, or else the one that the directory's base name
/// gives.
fn name_in(alloc: Global, directory: &Text, tree: &Tree) -> Result<Text, TreeRefusal>
    ensures { Gives result (name_in (base_name directory.now) (out-Tree tree.now)) }
{
    match tree {
        Tree::Map(entries) => name_by(alloc, directory, entries.get()),
        _ => of_directory(alloc, directory),
    }
}

fn name_by(alloc: Global, directory: &Text, entries: &Map) -> Result<Text, TreeRefusal>
    ensures { Gives result (name_by (base_name directory.now)
        (option_map out-Tree (value_at entries.now (codes "name")))) }
{
    match entries.find("name") {
        Some(Tree::Scalar(name)) => checked(alloc, name),
        Some(Tree::Map(_)) => wrong_kind(alloc),
        Some(Tree::Seq(_)) => wrong_kind(alloc),
        _ => of_directory(alloc, directory),
    }
}

/// The name that a directory gives.
fn of_directory(alloc: Global, directory: &Text) -> Result<Text, TreeRefusal>
    ensures { Gives result (named (name_from (base_name directory.now))) }
{
    match name_of_directory(alloc, directory) {
        Ok(name) => whole(name),
        Err(Memory) => Err(TreeRefusal::Memory),
    }
}

fn name_of_directory(alloc: Global, directory: &Text) -> Result<Text, Memory>
    ensures { IfOk result (λ name. name ≡ name_from (base_name directory.now)) }
{
    let base = base_name(alloc, directory)?;
    name_from(alloc, base)
}

fn whole(name: Text) -> Result<Text, TreeRefusal>
    ensures { Gives result (named name) }
{
    if name.is_empty() {
        Err(TreeRefusal::Name(ProjectRefusal::BadName { name }))
    } else {
        Ok(name)
    }
}

/// A name as it is given, which has to be one.
fn checked(alloc: Global, name: &Text) -> Result<Text, TreeRefusal>
    ensures { Gives result (checked name.now) }
{
    let is_name = is_name(name);
    match name.copy(alloc) {
        Ok(name) if is_name => Ok(name),
        Ok(name) => Err(TreeRefusal::Name(ProjectRefusal::BadName { name })),
        Err(Memory) => Err(TreeRefusal::Memory),
    }
}

fn is_name(name: &Text) -> bool
    ensures { result ≡ is_name name.now }
{
    let bytes = name.as_str().as_bytes();
    begins_well(bytes) && are_name_characters(bytes)
}

fn are_name_characters(bytes: &[u8]) -> bool
    ensures { result ≡ list_all is_name_character bytes.now }
{
    bytes.iter().all(|byte| is_name_character(*byte))
}

fn begins_well(bytes: &[u8]) -> bool
    ensures { result ≡ begins_well bytes.now }
{
    match bytes {
        [first, ..] => !is_mark(*first),
        [] => false,
    }
}

/// What a name is refused with that is neither null nor a scalar.
fn wrong_kind(alloc: Global) -> Result<Text, TreeRefusal>
    ensures { Gives result wrong_kind }
{
    match name_path(alloc) {
        Ok(path) => Err(TreeRefusal::Project(ProjectRefusal::WrongKind { path })),
        Err(Memory) => Err(TreeRefusal::Memory),
    }
}

/// The path of the name in the tree.
fn name_path(alloc: Global) -> Result<Path, Memory>
    ensures { IfOk result (λ path. path ≡ Key (codes "name") ∷ []) }
{
    let mut path = List::new(alloc);
    path.push(Step::Key(Text::from_str(alloc, "name")?))?;
    Ok(path)
}
