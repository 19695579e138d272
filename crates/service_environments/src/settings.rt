ghost use Rattle.std.specs.Prelude.{◌≡◌, IfOk, OnOk, map};
ghost use Rattle.service_environments.specs.Environments.{has_settings, settings, settings_over, with_setting, with_values};
ghost use Rattle.tree_base.specs.Entries.{with_entry};
ghost use Rattle.tree_base.specs.declared.Tree.{Tree, out-Tree};
ghost use Rattle.tree_base.specs.declared.Tree.TheOpen.{Tree-F};

use std::alloc::Global;
use tree_base::{Env, List, Map, Memory, Text, Tree};

/// The entries of `environment` over the values of env files.
pub(crate) fn settings_over(
    alloc: Global,
    env: &Env,
    entries: &Map,
    values: Env,
) -> Result<Env, Memory>
    ensures { IfOk result (λ all. all ≡ settings_over env.now entries.now values) }
{
    let mut all = values;
    for at in 0..entries.len() {
        if let Some((name, value)) = entries.pair(at) {
            put_setting(alloc, env, &mut all, name, value)?;
        }
    }
    Ok(all)
}

/// An entry of `environment` over earlier values.
fn put_setting(
    alloc: Global,
    env: &Env,
    values: &mut Env,
    name: &Text,
    value: &Tree,
) -> Result<(), Memory>
    ensures { OnOk result
        (values.new ≡ with_setting env.now values.old name.now (out-Tree value.now)) }
{
    match value {
        Tree::Scalar(text) => put_text(alloc, values, name, text),
        _ => put_variable(alloc, env, values, name),
    }
}

/// The value of a variable under its own name; where there is none, the name goes away.
fn put_variable(alloc: Global, env: &Env, values: &mut Env, name: &Text) -> Result<(), Memory>
    ensures { OnOk result (values.new ≡ with_setting env.now values.old name.now Tree-F.Null) }
{
    match env.value(name) {
        Some(text) => put_text(alloc, values, name, text),
        None => {
            drop(values.remove(name));
            Ok(())
        }
    }
}

fn put_text(alloc: Global, values: &mut Env, name: &Text, text: &Text) -> Result<(), Memory>
    ensures { OnOk result (values.new ≡ with_entry values.old name.now text.now) }
{
    let name = name.copy(alloc)?;
    drop(values.put(name, text.copy(alloc)?)?);
    Ok(())
}

/// A service with these values as its environment, where it says something of it.
pub(crate) fn with_values(alloc: Global, service: Map, values: &Env) -> Result<Map, Memory>
    ensures { IfOk result (λ all. all ≡ with_values service values.now) }
{
    if !has_settings(&service) {
        return Ok(service);
    }
    let mut all = service;
    let env_file = Text::from_str(alloc, "env_file")?;
    drop(all.remove(&env_file));
    let key = Text::from_str(alloc, "environment")?;
    drop(all.put(key, settings(alloc, values)?)?);
    Ok(all)
}

/// Whether a service says something of its environment.
fn has_settings(service: &Map) -> bool
    ensures { result ≡ has_settings service.now }
{
    service.find("env_file").is_some() || service.find("environment").is_some()
}

/// Values as a mapping of a file.
fn settings(alloc: Global, values: &Env) -> Result<Tree, Memory>
    ensures { IfOk result (λ tree. tree ≡ settings values.now) }
{
    let scalars = scalars(alloc, values.values())?;
    Tree::mapping(alloc, values.with_values(alloc, scalars)?)
}

/// Texts as scalars.
fn scalars(alloc: Global, texts: &[Text]) -> Result<List<Tree>, Memory>
    ensures { IfOk result (λ trees. trees ≡ map Tree.Scalar texts.now) }
{
    let mut trees = List::new(alloc);
    trees.reserve(texts.len())?;
    for text in texts {
        trees.push(Tree::Scalar(text.copy(alloc)?))?;
    }
    Ok(trees)
}
