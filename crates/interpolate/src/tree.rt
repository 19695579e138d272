ghost use Rattle.std.specs.Prelude.{◌≡◌, [], length, map, IfOk};
ghost use Rattle.std.specs.List.{zip};
ghost use Rattle.tree_base.specs.Entries.{value_at};
ghost use Rattle.tree_base.specs.declared.Step.TheVariants.{Key, Index};
ghost use Rattle.tree_base.specs.declared.Tree.{Tree};
ghost use Rattle.interpolate.specs.Parts.{place};
ghost use Rattle.interpolate.specs.Substitution.{substituted};
ghost use Rattle.interpolate.specs.Walking.{with_bytes, root_refusal, scalar_walk, under, items_walk, entry_walk, entries_walk, tree_walk, substituted_tree, TreeGives, UpGives, outer, turned, beside};

use crate::check::place;
use crate::refusal::{SubstRefusal, SubstTreeRefusal};
use crate::text::subst;
use crate::unchanged::plain_size;
use std::alloc::Global;
use tree_base::limits::MOST_TEXT;
use tree_base::{Boxed, Env, List, Map, Memory, Step, Text, Tree};

/// A tree with the values of its scalars under variables. Keys and marks stay.
///
/// The refusal is the first in the tree's order, in which a mapping's key comes before its value: that of a scalar,
/// with its path, or TooMuchText at the key or value with which there are more than 16,777,216 bytes of them.
pub fn subst_tree(alloc: Global, tree: &Tree, env: &Env) -> Result<Tree, SubstTreeRefusal>
    ensures { TreeGives result (substituted_tree (value_at env.now) tree.now) }
{
    let mut size = 0;
    match tree_value(tree, alloc, env, &mut size) {
        Ok(value) => Ok(value),
        Err(refusal) => Err(from_root(refusal)),
    }
}

/// A refusal whose path was told from the scalar up, with its path from the root down.
fn from_root(refusal: SubstTreeRefusal) -> SubstTreeRefusal
    ensures { result ≡ turned refusal }
{
    match refusal {
        SubstTreeRefusal::At { path, cause } => {
            let mut steps = path.into_vec();
            steps.reverse();
            SubstTreeRefusal::At {
                path: List::from_vec(steps),
                cause,
            }
        }
        SubstTreeRefusal::TooMuchText => SubstTreeRefusal::TooMuchText,
        SubstTreeRefusal::Memory => SubstTreeRefusal::Memory,
    }
}

/// A refusal whose path is told from the scalar up, with one step more.
fn with_step(refusal: SubstTreeRefusal, step: Step) -> Result<SubstTreeRefusal, Memory>
    ensures { IfOk result (λ r. r ≡ outer step refusal) }
{
    match refusal {
        SubstTreeRefusal::At { path, cause } => {
            let mut path = path;
            match path.push(step) {
                Ok(()) => Ok(SubstTreeRefusal::At { path, cause }),
                Err(Memory) => {
                    drop(cause);
                    Err(Memory)
                }
            }
        }
        SubstTreeRefusal::TooMuchText => Ok(SubstTreeRefusal::TooMuchText),
        SubstTreeRefusal::Memory => Ok(SubstTreeRefusal::Memory),
    }
}

/// The refusal of a scalar, by why it has no value.
fn at_root(alloc: Global, cause: SubstRefusal) -> SubstTreeRefusal
    ensures { result ≡ root_refusal cause }
{
    match cause {
        SubstRefusal::Memory => SubstTreeRefusal::Memory,
        SubstRefusal::TooMuchText => SubstTreeRefusal::TooMuchText,
        SubstRefusal::Unclosed { at } => SubstTreeRefusal::At {
            path: List::new(alloc),
            cause: SubstRefusal::Unclosed { at },
        },
        SubstRefusal::BadForm { at } => SubstTreeRefusal::At {
            path: List::new(alloc),
            cause: SubstRefusal::BadForm { at },
        },
        SubstRefusal::RequiredVariable { name, message } => SubstTreeRefusal::At {
            path: List::new(alloc),
            cause: SubstRefusal::RequiredVariable { name, message },
        },
    }
}

/// So many bytes more.
fn with_bytes(size: usize, more: usize) -> Result<usize, SubstTreeRefusal>
    ensures { result ≡ with_bytes size more }
{
    if size > MOST_TEXT as usize {
        return Err(SubstTreeRefusal::TooMuchText);
    }
    if more > MOST_TEXT as usize - size {
        return Err(SubstTreeRefusal::TooMuchText);
    }
    Ok(size + more)
}

/// The scalar that is the value of a text.
fn scalar_value(
    alloc: Global,
    text: &Text,
    env: &Env,
    size: &mut usize,
) -> Result<Tree, SubstTreeRefusal>
    ensures { UpGives (beside result size.new)
        (scalar_walk (substituted (value_at env.now) text.now) size.old) }
{
    match subst(alloc, text, env) {
        Ok(value) => {
            *size = with_bytes(*size, value.len())?;
            Ok(Tree::Scalar(value))
        }
        Err(cause) => Err(at_root(alloc, cause)),
    }
}

/// A tree with the values of its scalars. One without `$` is shared: it is asked once, and once for each tree above it
/// that has a `$`, and each of these questions ends at the first `$`.
#[cycle(walk)]
fn tree_value(
    tree: &Tree,
    alloc: Global,
    env: &Env,
    size: &mut usize,
) -> Result<Tree, SubstTreeRefusal>
    ensures { UpGives (beside result size.new) (tree_walk (value_at env.now) tree.now size.old) }
{
    match plain_size(tree, *size) {
        Some(more) => {
            let same = tree.copy(alloc)?;
            *size = more;
            Ok(same)
        }
        None => parts_value(tree, alloc, env, size),
    }
}

/// A tree with the values of its scalars, by its parts with theirs.
#[cycle(walk)]
fn parts_value(
    tree: &Tree,
    alloc: Global,
    env: &Env,
    size: &mut usize,
) -> Result<Tree, SubstTreeRefusal>
    ensures { UpGives (beside result size.new) (tree_walk (value_at env.now) tree.now size.old) }
{
    match tree {
        Tree::Null => Ok(Tree::Null),
        Tree::Scalar(text) => scalar_value(alloc, text, env, size),
        Tree::Map(entries) => map_value(entries.get(), alloc, env, size),
        Tree::Seq(items) => {
            let values = item_values(items.as_slice(), alloc, env, size)?;
            Ok(Tree::sequence(alloc, values)?)
        }
        Tree::Reset => Ok(Tree::Reset),
        Tree::Override(inner) => {
            let value = tree_value(inner.get(), alloc, env, size)?;
            Ok(Tree::Override(Boxed::new(alloc, value)?))
        }
    }
}

/// A mapping with the values of its scalars.
#[cycle(walk)]
fn map_value(
    entries: &Map,
    alloc: Global,
    env: &Env,
    size: &mut usize,
) -> Result<Tree, SubstTreeRefusal>
    ensures { UpGives (beside result size.new)
        (tree_walk (value_at env.now) (Tree.Map entries.now) size.old) }
{
    let values = entry_values(entries.values(), entries.keys(), alloc, env, size)?;
    let entries = entries.with_values(alloc, values)?;
    Ok(Tree::mapping(alloc, entries)?)
}

/// The items of a sequence, each with the values of its scalars.
#[cycle(walk)]
fn item_values(
    items: &[Tree],
    alloc: Global,
    env: &Env,
    size: &mut usize,
) -> Result<List<Tree>, SubstTreeRefusal>
    ensures { UpGives (beside result size.new)
        (items_walk ([], size.old) 0 (map (tree_walk (value_at env.now)) items.now)) }
{
    let mut done = List::new(alloc);
    for (at, item) in items.iter().enumerate() {
        let value = item_value(item, at, alloc, env, size)?;
        done.push(value)?;
    }
    Ok(done)
}

#[cycle(walk)]
fn item_value(
    item: &Tree,
    at: usize,
    alloc: Global,
    env: &Env,
    size: &mut usize,
) -> Result<Tree, SubstTreeRefusal>
    ensures { UpGives (beside result size.new)
        (under (Index (place at)) (tree_walk (value_at env.now) item.now size.old)) }
{
    match tree_value(item, alloc, env, size) {
        Ok(value) => Ok(value),
        Err(refusal) => Err(with_step(refusal, Step::Index(place(at)))?),
    }
}

/// The values of a mapping, each with the values of its scalars.
#[cycle(walk)]
fn entry_values(
    values: &[Tree],
    keys: &[Text],
    alloc: Global,
    env: &Env,
    size: &mut usize,
) -> Result<List<Tree>, SubstTreeRefusal>
    requires { length keys.now ≡ length values.now }
    ensures value { UpGives (beside result size.new)
        (entries_walk ([], size.old)
        (zip keys.now (map (tree_walk (value_at env.now)) values.now))) }
    ensures len { IfOk result (λ done. length done ≡ length values.now) }
{
    let mut done = List::new(alloc);
    for (at, value) in values.iter().enumerate() {
        let value = entry_value(value, &keys[at], alloc, env, size)?;
        done.push(value)?;
    }
    Ok(done)
}

#[cycle(walk)]
fn entry_value(
    value: &Tree,
    key: &Text,
    alloc: Global,
    env: &Env,
    size: &mut usize,
) -> Result<Tree, SubstTreeRefusal>
    ensures { UpGives (beside result size.new)
        (entry_walk (key.now, tree_walk (value_at env.now) value.now) size.old) }
{
    *size = with_bytes(*size, key.len())?;
    match tree_value(value, alloc, env, size) {
        Ok(value) => Ok(value),
        Err(refusal) => match key.copy(alloc) {
            Ok(key) => Err(with_step(refusal, Step::Key(key))?),
            Err(Memory) => {
                drop(refusal);
                Err(SubstTreeRefusal::Memory)
            }
        },
    }
}
