ghost use Rattle.std.specs.Prelude.{◌≡◌, [], length, map, IfOk};
ghost use Rattle.std.specs.List.{zip};
ghost use Rattle.tree_base.specs.declared.Step.TheVariants.{Key};
ghost use Rattle.tree_base.specs.declared.Tree.{Tree};
ghost use Rattle.merge_tables.specs.Answers.{Gives, UpGives, under};
ghost use Rattle.long_forms.specs.LongForms.{lengthened, long_forms, values_long};
ghost use Rattle.attribute_paths.specs.Patterns.{below_key};
ghost use Rattle.merge_tables.specs.Spots.{forms_of};

use crate::lists::list_long;
use crate::stay_long::is_long;
use crate::texts::text_long;
use merge_tables::{
    MergeRefusal, ShortSpot, form_at, from_root, short_spot_below, with_step, within,
};
use std::alloc::Global;
use tree_base::{Boxed, List, Map, Step, Text, TextMap, Tree};

/// A file's tree in long forms. What is in long forms already is handed on, and not copied.
///
/// The refusal is BadUniqueEntry at the first text, in the tree's order, of `ports` or `volumes` that isn't of their
/// form, with its path; else TooManyNodes, then TooMuchText, where the result passes a limit.
pub fn long_forms(alloc: Global, tree: Tree) -> Result<Tree, MergeRefusal>
    ensures { Gives result (long_forms tree) }
{
    match lengthen(tree, ShortSpot::Root, alloc) {
        Ok(long) => within(long),
        Err(refusal) => Err(from_root(refusal)),
    }
}

/// A tree in long forms, which is handed on where it is in them already. No spot stands more than five steps deep, so no
/// tree is asked more often.
#[cycle(long)]
fn lengthen(tree: Tree, spot: ShortSpot, alloc: Global) -> Result<Tree, MergeRefusal>
    ensures { UpGives result (lengthened tree (forms_of spot)) }
{
    if is_long(&tree, spot) {
        return Ok(tree);
    }
    let form = form_at(spot);
    match tree {
        Tree::Null => Ok(Tree::Null),
        Tree::Scalar(text) => Ok(text_long(form, &text, alloc)?),
        Tree::Map(entries) => lengthen_map(entries.take(alloc)?, spot, alloc),
        Tree::Seq(items) => list_long(form, &items, alloc),
        Tree::Reset => Ok(Tree::Reset),
        Tree::Override(inner) => {
            let value = lengthen(inner.into_inner(), spot, alloc)?;
            Ok(Tree::Override(Boxed::new(alloc, value)?))
        }
    }
}

/// A mapping in long forms, with the same keys.
#[cycle(long)]
fn lengthen_map(entries: Map, spot: ShortSpot, alloc: Global) -> Result<Tree, MergeRefusal>
    ensures { UpGives result (lengthened (Tree.Map entries) (forms_of spot)) }
{
    let (keys, values) = entries.into_parts();
    let done = lengthen_values(values, keys.as_slice(), spot, alloc)?;
    Ok(Tree::mapping(alloc, TextMap::from_parts(keys, done))?)
}

/// The values of a mapping, each in its place, in long forms.
#[cycle(long)]
fn lengthen_values(
    values: List<Tree>,
    keys: &[Text],
    spot: ShortSpot,
    alloc: Global,
) -> Result<List<Tree>, MergeRefusal>
    requires { length keys.now ≡ length values }
    ensures value { UpGives result
        (values_long (forms_of spot) [] (zip keys.now (map lengthened values))) }
    ensures len { IfOk result (λ done. length done ≡ length values) }
{
    let mut done = values;
    for at in 0..keys.len() {
        let value = done.replace(at, Tree::Null);
        let made = lengthen_value(value, &keys[at], spot, alloc)?;
        drop(done.replace(at, made));
    }
    Ok(done)
}

/// The value of a key in long forms.
#[cycle(long)]
fn lengthen_value(
    value: Tree,
    key: &Text,
    spot: ShortSpot,
    alloc: Global,
) -> Result<Tree, MergeRefusal>
    ensures { UpGives result (under (Key key.now)
        (lengthened value (below_key key.now (forms_of spot)))) }
{
    match lengthen(value, short_spot_below(spot, key.as_str()), alloc) {
        Ok(value) => Ok(value),
        Err(refusal) => Err(with_step(refusal, Step::Key(key.copy(alloc)?))?),
    }
}
