ghost use Rattle.std.specs.Prelude.{◌≡◌, [], List, ℕ, None, IsFalse, IsTrue, Ok, length, map};
ghost use Rattle.std.specs.List.{zip};
ghost use Rattle.tree_base.specs.declared.Tree.{Tree, out-Tree};
ghost use Rattle.long_forms.specs.LongForms.{Made, entries_long, lengthened, list_long, text_long, values_long};
ghost use Rattle.merge_tables.specs.Spots.{forms_of};
ghost use Rattle.merge_tables.specs.Parts.{text_in};

use merge_tables::{ShortForm, ShortSpot, form_at, short_spot_below};
use tree_base::{Text, Tree};

/// Whether a tree at a spot is seen to be in long forms already. It ends at the first part that may have a short one.
/// No memory.
#[cycle(stays)]
pub fn is_long(tree: &Tree, spot: ShortSpot) -> bool
    ensures { IsTrue result → lengthened tree.now (forms_of spot) ≡ Ok tree.now }
{
    match spot {
        ShortSpot::Plain => true,
        _ => has_long_parts(tree, spot),
    }
}

/// Whether a tree is in long forms, by its parts.
#[cycle(stays)]
fn has_long_parts(tree: &Tree, spot: ShortSpot) -> bool
    ensures { IsTrue result → lengthened tree.now (forms_of spot) ≡ Ok tree.now }
{
    match tree {
        Tree::Null => true,
        Tree::Scalar(_) => keeps_texts(form_at(spot)),
        Tree::Map(entries) => are_long(entries.values(), entries.keys(), spot),
        Tree::Seq(items) => keeps_items(form_at(spot), items.as_slice()),
        Tree::Reset => true,
        Tree::Override(inner) => is_long(inner.get(), spot),
    }
}

/// Whether each value is in long forms.
#[cycle(stays)]
fn are_long(values: &[Tree], keys: &[Text], spot: ShortSpot) -> bool
    requires { length keys.now ≡ length values.now }
    ensures { IsTrue result → values_long (forms_of spot) []
        (zip keys.now (map lengthened values.now)) ≡ Ok values.now }
{
    for (at, value) in values.iter().enumerate() {
        if !is_long(value, short_spot_below(spot, keys[at].as_str())) {
            return false;
        }
    }
    true
}

/// Whether a text of an attribute is no short form.
fn keeps_texts(form: Option<ShortForm>) -> bool
    ensures { IsTrue result → (text : List ℕ) → text_long form text ≡ Tree.Scalar text }
{
    match form {
        None => true,
        Some(ShortForm::Mapping(_)) => true,
        Some(ShortForm::Entries(_)) => true,
        Some(ShortForm::OneText) => false,
        Some(ShortForm::Context) => false,
        Some(ShortForm::Test) => false,
        Some(ShortForm::Words) => false,
    }
}

/// Whether a list of an attribute is no short form; a list that may be one of a mapping is taken for it.
fn keeps_items(form: Option<ShortForm>, items: &[Tree]) -> bool
    ensures { IsTrue result → list_long form items.now ≡ Ok (Tree.Seq items.now) }
{
    match form {
        Some(ShortForm::Mapping(_)) => false,
        Some(ShortForm::Entries(_)) => has_no_text(items),
        Some(ShortForm::OneText) => true,
        Some(ShortForm::Context) => true,
        Some(ShortForm::Test) => true,
        Some(ShortForm::Words) => true,
        None => true,
    }
}

/// Whether no item is a text: so each is an entry of its own.
fn has_no_text(items: &[Tree]) -> bool
    ensures { IsTrue result → (form : Made) → entries_long form items.now
        ≡ Ok (Tree.Seq items.now) }
{
    for item in items {
        if is_text(item) {
            return false;
        }
    }
    true
}

fn is_text(tree: &Tree) -> bool
    ensures { IsFalse result → text_in (out-Tree tree.now) ≡ None }
{
    match tree {
        Tree::Scalar(_) => true,
        _ => false,
    }
}
