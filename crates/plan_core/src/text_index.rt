ghost use Rattle.std.specs.Prelude.{◌≡◌, ◌++◌, ◌∷◌, List, ℕ, IfOk, OnOk, map, filter, flat_map, bytes_eq, []};
ghost use Rattle.std.specs.HashMap.{get_by};
ghost use Rattle.std.specs.Option.{option_map_or};
ghost use Rattle.plan_core.specs.Index.{is_under, numbers_under, seen_entries, seen_texts, under_each};
ghost use Rattle.run_model.specs.EngineRules.{Among};
ghost use Rattle.std.specs.List.Sorted.{IsStrictlyIncreasing};

use std::alloc::Global;
use std::collections::HashMap;
use std::marker::Model;
use tree_base::Memory;

/// Numbers that stand under texts, and are found by them at once. Contracts see the list of the entries.
#[derive(Drop)]
pub struct TextIndex<'a> {
    entries: Vec<(&'a str, u64)>,
    numbers: HashMap<&'a str, Vec<u64>>,
}

impl<'a> Model for TextIndex<'a> {
    ghost use Rattle.std.specs.Prelude.{◌≡◌, ℕ, List, [], map, filter, bytes_eq};
    ghost use Rattle.std.specs.HashMap.{get_by};
    ghost use Rattle.std.specs.Option.{option_map_or};
    ghost use Rattle.plan_core.specs.Index.{seen_entries};

    ghost Value = { List (List ℕ × ℕ) };

    ghost view = { λ index. seen_entries index.entries.items };

    ghost invariant = { λ index. (text : List ℕ) →
        option_map_or (λ numbers. numbers.items)
        (get_by (λ key. bytes_eq text key.now) index.numbers) []
        ≡ map (λ entry. entry.1)
        (filter (λ entry. bytes_eq text entry.0.now) index.entries.items) };
}

impl<'a> TextIndex<'a> {
    /// The index of these entries.
    pub(crate) fn new(alloc: Global, entries: Vec<(&'a str, u64)>) -> Result<TextIndex<'a>, Memory>
        ensures { IfOk result (λ index. index ≡ seen_entries entries.entry.items) }
    {
        let numbers = grouped(alloc, entries.as_slice())?;
        Ok(TextIndex { entries, numbers })
    }

    /// The numbers under a text, in the order of the entries. No memory.
    pub fn find(&self, text: &str) -> &[u64]
        ensures { result.now ≡ numbers_under self.now text.now }
    {
        match self.numbers.get(text) {
            Some(numbers) => numbers.as_slice(),
            None => &[],
        }
    }

    /// Whether numbers stand under a text. No memory.
    pub(crate) fn has(&self, text: &str) -> bool
        ensures { result ≡ is_under self.now text.now }
    {
        match self.find(text) {
            [] => false,
            [_, ..] => true,
        }
    }
}

/// Puts a number last, under a text.
pub(crate) fn push_under<'a>(
    entries: &mut Vec<(&'a str, u64)>,
    text: &'a str,
    number: u64,
) -> Result<(), Memory>
    ensures { OnOk result (seen_entries entries.new.items ≡
        seen_entries entries.old.items ++ under_each (text.now ∷ []) number) }
{
    entries.push((text, number))?;
    Ok(())
}

/// The numbers of entries under each text.
fn grouped<'a>(
    alloc: Global,
    entries: &[(&'a str, u64)],
) -> Result<HashMap<&'a str, Vec<u64>>, Memory>
    ensures { IfOk result (λ groups. (text : List ℕ) →
        option_map_or (λ numbers. numbers.items) (get_by (λ key. bytes_eq text key.now) groups) []
        ≡ map (λ entry. entry.1) (filter (λ entry. bytes_eq text entry.0.now) entries.now)) }
{
    let mut groups: HashMap<&'a str, Vec<u64>> = HashMap::new(alloc);
    for (text, number) in entries {
        groups.entry(*text)?.or_default().push(*number)?;
    }
    Ok(groups)
}

/// The numbers under some texts, in order and each once.
pub(crate) fn places_found(
    alloc: Global,
    index: &TextIndex<'_>,
    texts: &[&str],
) -> Result<Vec<u64>, Memory>
    ensures rises { IfOk result (λ places. IsStrictlyIncreasing places.items) }
    ensures holds { IfOk result (λ places. (text : List ℕ) (place : ℕ)
        → Among (seen_texts texts.now) text
        → Among (numbers_under index.now text) place → Among places.items place) }
{
    let mut places = all_found(alloc, index, texts)?;
    places.sort_unstable();
    places.dedup();
    Ok(places)
}

/// The numbers under some texts, text by text.
fn all_found(alloc: Global, index: &TextIndex<'_>, texts: &[&str]) -> Result<Vec<u64>, Memory>
    ensures { IfOk result (λ found.
        found.items ≡ flat_map (numbers_under index.now) (seen_texts texts.now)) }
{
    let mut found = Vec::new(alloc);
    for text in texts {
        found.extend_from_slice(index.find(text))?;
    }
    Ok(found)
}
