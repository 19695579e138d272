ghost use Rattle.std.specs.Prelude.{◌≡◌, ◌++◌, IfOk, OnOk, flat_map, map};
ghost use Rattle.tree_base.specs.Entries.{value_at};
ghost use Rattle.unset_variables.specs.Unset.{texts_in, where_whole, with_texts};

use crate::text::put_text;
use std::alloc::Global;
use tree_base::limits::MOST_FORM_LEVELS;
use tree_base::{Env, Memory, Text, TextMap, Tree};

/// Puts the names of all variables that the scalars of a tree take though they are unset and nothing stands in for them, in the tree's
/// order. A name that is there stays at its place. Whether all scalars are well formed; where one isn't, some names may have been put.
pub fn put_unset(
    alloc: Global,
    tree: &Tree,
    env: &Env,
    names: &mut TextMap<bool>,
) -> Result<bool, Memory>
    ensures { IfOk result (λ whole.
        with_texts (value_at env.now) names.old (texts_in tree.now) ≡ where_whole whole names.new) }
{
    let mut texts = Vec::new(alloc);
    push_texts(tree, &mut texts)?;
    put_texts(alloc, texts.as_slice(), env, names)
}

fn put_texts(
    alloc: Global,
    texts: &[&Text],
    env: &Env,
    names: &mut TextMap<bool>,
) -> Result<bool, Memory>
    ensures { IfOk result (λ whole. with_texts (value_at env.now) names.old
        (map (λ text. text.now) texts.now) ≡ where_whole whole names.new) }
{
    for text in texts {
        if !put_text(alloc, text.as_str(), MOST_FORM_LEVELS, env, names)? {
            return Ok(false);
        }
    }
    Ok(true)
}

/// Puts the scalars of a tree last.
#[cycle(texts)]
fn push_texts<'a>(tree: &'a Tree, texts: &mut Vec<&'a Text>) -> Result<(), Memory>
    ensures { OnOk result (map (λ text. text.now) texts.new.items
        ≡ map (λ text. text.now) texts.old.items ++ texts_in tree.now) }
{
    match tree {
        Tree::Null => Ok(()),
        Tree::Scalar(text) => {
            texts.push(text)?;
            Ok(())
        }
        Tree::Map(entries) => push_all(entries.values(), texts),
        Tree::Seq(items) => push_all(items.as_slice(), texts),
        Tree::Reset => Ok(()),
        Tree::Override(inner) => push_texts(inner.get(), texts),
    }
}

#[cycle(texts)]
fn push_all<'a>(trees: &'a [Tree], texts: &mut Vec<&'a Text>) -> Result<(), Memory>
    ensures { OnOk result (map (λ text. text.now) texts.new.items
        ≡ map (λ text. text.now) texts.old.items ++ flat_map texts_in trees.now) }
{
    for tree in trees {
        push_texts(tree, texts)?;
    }
    Ok(())
}
