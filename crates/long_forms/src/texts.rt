ghost use Rattle.std.specs.Prelude.{◌≡◌, [], ◌∷◌, IfOk, codes, map};
ghost use Rattle.tree_base.specs.declared.Tree.{Tree};
ghost use Rattle.long_forms.specs.LongForms.{text_long, words_long};

use crate::entries::field_entry;
use merge_tables::ShortForm;
use short_forms::{FormRefusal, shell_words};
use std::alloc::Global;
use tree_base::{List, Memory, Text, Tree};

/// A text in the long form of its attribute.
pub fn text_long(form: Option<ShortForm>, text: &Text, alloc: Global) -> Result<Tree, Memory>
    ensures { IfOk result (λ tree. tree ≡ text_long form text.now) }
{
    match form {
        Some(ShortForm::OneText) => Tree::sequence(alloc, one_scalar(text, alloc)?),
        Some(ShortForm::Context) => field_entry("context", text, alloc),
        Some(ShortForm::Test) => Tree::sequence(alloc, shell_test(text, alloc)?),
        Some(ShortForm::Words) => words_long(text, alloc),
        _ => Ok(Tree::Scalar(text.copy(alloc)?)),
    }
}

/// A list of one text.
fn one_scalar(text: &Text, alloc: Global) -> Result<List<Tree>, Memory>
    ensures { IfOk result (λ items. items ≡ Tree.Scalar text.now ∷ []) }
{
    let mut items = List::new(alloc);
    items.push(Tree::Scalar(text.copy(alloc)?))?;
    Ok(items)
}

/// The test of a health check that a shell runs.
fn shell_test(text: &Text, alloc: Global) -> Result<List<Tree>, Memory>
    ensures { IfOk result (λ items. items ≡
        Tree.Scalar (codes "CMD-SHELL") ∷ Tree.Scalar text.now ∷ []) }
{
    let mut items = List::new(alloc);
    items.push(Tree::Scalar(Text::from_str(alloc, "CMD-SHELL")?))?;
    items.push(Tree::Scalar(text.copy(alloc)?))?;
    Ok(items)
}

/// The words of a command line, and the text itself where it is none.
fn words_long(text: &Text, alloc: Global) -> Result<Tree, Memory>
    ensures { IfOk result (λ tree. tree ≡ words_long text.now) }
{
    match shell_words(alloc, text) {
        Ok(words) => Tree::sequence(alloc, scalars(words.as_slice(), alloc)?),
        Err(FormRefusal::BadForm { which: _ }) => Ok(Tree::Scalar(text.copy(alloc)?)),
        Err(FormRefusal::Memory) => Err(Memory),
    }
}

/// Texts as scalars.
fn scalars(texts: &[Text], alloc: Global) -> Result<List<Tree>, Memory>
    ensures { IfOk result (λ items. items ≡ map Tree.Scalar texts.now) }
{
    let mut items = List::new(alloc);
    for text in texts {
        items.push(Tree::Scalar(text.copy(alloc)?))?;
    }
    Ok(items)
}
