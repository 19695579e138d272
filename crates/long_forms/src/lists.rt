ghost use Rattle.std.specs.Prelude.{◌≡◌, ◌<◌, [], ◌∷◌, IfOk};
ghost use Rattle.std.specs.Option.{option_and_then, option_copied, option_map};
ghost use Rattle.tree_base.specs.declared.Tree.{Tree, out-Tree};
ghost use Rattle.short_forms.specs.Cuts.{cut_once};
ghost use Rattle.short_forms.specs.Pairs.{keyed};
ghost use Rattle.tree_base.specs.declared.Step.TheVariants.{Index};
ghost use Rattle.merge_tables.specs.Answers.{UpGives, place};
ghost use Rattle.long_forms.specs.LongForms.{cut_by, entries_long, entries_with, list_long, made_by, mapping_of, pairs_from, text_or_null};
ghost use Rattle.merge_tables.specs.Parts.{text_in};

use crate::entries::with_made;
use merge_tables::{EntryForm, MergeRefusal, PairForm, ShortForm, place};
use short_forms::{FormRefusal, key_value};
use std::alloc::Global;
use tree_base::{List, Map, Memory, Shared, Step, Text, TextMap, Tree};

/// A list in the long form of its attribute.
pub fn list_long(
    form: Option<ShortForm>,
    items: &Shared<List<Tree>>,
    alloc: Global,
) -> Result<Tree, MergeRefusal>
    ensures { UpGives result (list_long form items.now) }
{
    match form {
        Some(ShortForm::Mapping(form)) => Ok(mapping_of(form, items, alloc)?),
        Some(ShortForm::Entries(form)) => entries_long(form, items.as_slice(), alloc),
        _ => Ok(Tree::Seq(items.share()?)),
    }
}

/// A list as a mapping; a list with an item that is no text of the form stays.
fn mapping_of(form: PairForm, items: &Shared<List<Tree>>, alloc: Global) -> Result<Tree, Memory>
    ensures { IfOk result (λ tree. tree ≡ mapping_of (cut_by form) items.now) }
{
    match pairs_of(form, items.as_slice(), alloc)? {
        Some(entries) => Tree::mapping(alloc, entries),
        None => Ok(Tree::Seq(items.share()?)),
    }
}

/// The entries of the texts of a list, of which the later wins.
fn pairs_of(form: PairForm, items: &[Tree], alloc: Global) -> Result<Option<Map>, Memory>
    ensures { IfOk result (λ entries. entries ≡ pairs_from (cut_by form) items.now []) }
{
    let mut entries = TextMap::new(alloc);
    for item in items {
        match cut_item(form, item, alloc)? {
            Some((key, value)) => drop(entries.put(key, text_or_null(value))?),
            None => return Ok(None),
        }
    }
    Ok(Some(entries))
}

/// The key and the value of an item that is a text.
fn cut_item(
    form: PairForm,
    item: &Tree,
    alloc: Global,
) -> Result<Option<(Text, Option<Text>)>, Memory>
    ensures { IfOk result (λ pair. pair ≡
        option_and_then (cut_by form) (text_in (out-Tree item.now))) }
{
    match item {
        Tree::Scalar(text) => cut_by(form, text, alloc),
        _ => Ok(None),
    }
}

/// A text, and null where there is none.
fn text_or_null(text: Option<Text>) -> Tree
    ensures { result ≡ text_or_null text }
{
    match text {
        Some(text) => Tree::Scalar(text),
        None => Tree::Null,
    }
}

/// The key and the value of a text by its form.
fn cut_by(
    form: PairForm,
    text: &Text,
    alloc: Global,
) -> Result<Option<(Text, Option<Text>)>, Memory>
    ensures { IfOk result (λ pair. pair ≡ cut_by form text.now) }
{
    match form {
        PairForm::KeyValue => key_value_of(text, alloc),
        PairForm::Host => host_of(text, alloc),
        PairForm::Name => Ok(Some((text.copy(alloc)?, None))),
    }
}

fn key_value_of(text: &Text, alloc: Global) -> Result<Option<(Text, Option<Text>)>, Memory>
    ensures { IfOk result (λ pair. pair ≡ cut_by PairForm.KeyValue text.now) }
{
    match key_value(alloc, text) {
        Ok(pair) => Ok(Some(pair)),
        Err(FormRefusal::BadForm { which: _ }) => Ok(None),
        Err(FormRefusal::Memory) => Err(Memory),
    }
}

/// A host and its address: cut at the first `=`, and without one at the first `:`.
fn host_of(text: &Text, alloc: Global) -> Result<Option<(Text, Option<Text>)>, Memory>
    ensures { IfOk result (λ pair. pair ≡ cut_by PairForm.Host text.now) }
{
    match cut_at(text.as_str(), '=') {
        Some((host, address)) => pair(host, Some(address), alloc),
        None => match cut_at(text.as_str(), ':') {
            Some((host, address)) => pair(host, Some(address), alloc),
            None => pair(text.as_str(), None, alloc),
        },
    }
}

/// What stands before and after the first ASCII character `at`, where there is one.
fn cut_at(text: &str, at: char) -> Option<(&str, &str)>
    requires { at < 128 }
    ensures { option_map (λ p. (p.0.now, p.1.now)) result ≡ cut_once at text.now }
{
    text.split_once(at)
}

/// A key that isn't empty, and its value.
fn pair(
    key: &str,
    value: Option<&str>,
    alloc: Global,
) -> Result<Option<(Text, Option<Text>)>, Memory>
    ensures { IfOk result (λ pair. pair ≡ keyed key.now (option_copied value.entry)) }
{
    if key.is_empty() {
        return Ok(None);
    }
    Ok(Some((Text::from_str(alloc, key)?, copied(value, alloc)?)))
}

/// A copy of a text, where there is one.
fn copied(text: Option<&str>, alloc: Global) -> Result<Option<Text>, Memory>
    ensures { IfOk result (λ copy. copy ≡ option_copied text.entry) }
{
    match text {
        Some(text) => Ok(Some(Text::from_str(alloc, text)?)),
        None => Ok(None),
    }
}

/// A list whose items are entries.
fn entries_long(form: EntryForm, items: &[Tree], alloc: Global) -> Result<Tree, MergeRefusal>
    ensures { UpGives result (entries_long (made_by form) items.now) }
{
    let mut done = List::new(alloc);
    for (at, item) in items.iter().enumerate() {
        done = with_entries(form, at, item, done, alloc)?;
    }
    Ok(Tree::sequence(alloc, done)?)
}

/// The entries that an item stands for, behind others.
fn with_entries(
    form: EntryForm,
    at: usize,
    item: &Tree,
    done: List<Tree>,
    alloc: Global,
) -> Result<List<Tree>, MergeRefusal>
    ensures { UpGives result (entries_with (made_by form) at done item.now) }
{
    match item {
        Tree::Scalar(text) => match with_made(form, text, done, alloc)? {
            Some(all) => Ok(all),
            None => Err(bad_entry(at, alloc)?),
        },
        other => {
            let mut all = done;
            all.push(other.copy(alloc)?)?;
            Ok(all)
        }
    }
}

/// The refusal of the entry at a place.
fn bad_entry(at: usize, alloc: Global) -> Result<MergeRefusal, Memory>
    ensures { IfOk result (λ refusal. refusal ≡
        MergeRefusal.BadUniqueEntry (Index (place at) ∷ [])) }
{
    let mut path = List::new(alloc);
    path.push(Step::Index(place(at)))?;
    Ok(MergeRefusal::BadUniqueEntry { path })
}
