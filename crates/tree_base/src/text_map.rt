ghost use Rattle.std.specs.Prelude.{◌≡◌, [], ◌<◌, length, slice_get, position, ◌↔◌, IsTrue, OnOk, OnErr, IfOk};
ghost use Rattle.std.specs.Option.{option_copied, option_copied_mut, option_map};
ghost use Rattle.std.specs.Borrow.{sem};
ghost use Rattle.std.specs.List.{zip, IsDistinct};
ghost use Rattle.std.specs.Str.{bytes_eq};
ghost use Rattle.std.specs.Map.{keys_of, values_of};
ghost use Rattle.tree_base.specs.Entries.{value_at, with_entry, without_entry, HasDistinctKeys};
ghost use Rattle.tree_base.specs.Lending.{LendsValue};

use crate::list::{List, item_at};
use crate::memory::Memory;
use crate::text::Text;
use indexmap::IndexSet;
use std::alloc::Global;
use std::marker::Model;

/// Values under distinct texts, in the order of their first puts. Contracts see the list of the entries.
#[derive(Drop)]
pub struct TextMap<V> {
    keys: IndexSet<Text>,
    values: List<V>,
}

/// Variables: their values under their distinct names.
pub type Env = TextMap<Text>;

impl<V> Model for TextMap<V> {
    ghost use Rattle.std.specs.Prelude.{◌≡◌, List, ℕ, length};
    ghost use Rattle.std.specs.Coded.{coded_list, coded×, coded_ℕ};
    ghost use Rattle.std.specs.List.{zip};

    ghost Value = { List (List ℕ × V) };

    ghost coded = { coded_list (coded× (coded_list coded_ℕ) V.code) };

    ghost view = { λ d. zip d.keys.keys d.values };

    ghost invariant = { λ d. length d.values ≡ length d.keys.keys };
}

impl<V> TextMap<V> {
    /// The map without entries. No memory.
    pub fn new(alloc: Global) -> TextMap<V>
        ensures { result ≡ [] }
    {
        TextMap {
            keys: IndexSet::new(alloc),
            values: List::new(alloc),
        }
    }

    /// How many entries there are, whose keys differ. No memory.
    pub fn len(&self) -> usize
        ensures len { result ≡ length self.now }
        ensures distinct { HasDistinctKeys self.now }
    {
        self.keys.len()
    }

    /// Whether there is no entry. No memory.
    pub fn is_empty(&self) -> bool
        ensures { IsTrue result ↔ (self.now ≡ []) }
    {
        self.len() == 0
    }

    /// The value under a key; None exactly where the key isn't there. No memory.
    pub fn get(&self, key: &Text) -> Option<&V>
        ensures { option_copied result ≡ value_at self.now key.now }
    {
        let at = self.keys.get_index_of(key)?;
        item_at(self.values.as_slice(), at)
    }

    /// The value under a key that the program names; None exactly where the key isn't there. It goes through the
    /// keys, so a key that comes from outside is looked up by `get`. No memory.
    pub fn find(&self, key: &str) -> Option<&V>
        ensures { option_copied result ≡ value_at self.now key.now }
    {
        let at = place_of(self.keys.as_slice(), key)?;
        item_at(self.values.as_slice(), at)
    }

    /// The keys, in order. No memory.
    pub fn keys(&self) -> &[Text]
        ensures { result.now ≡ keys_of self.now }
    {
        self.keys.as_slice()
    }

    /// The values, in the order of their keys. No memory.
    pub fn values(&self) -> &[V]
        ensures { result.now ≡ values_of self.now }
    {
        self.values.as_slice()
    }

    /// The entry at a place, from 0. No memory.
    pub fn pair(&self, at: usize) -> Option<(&Text, &V)>
        ensures { option_map (λ p. (p.0.now, p.1.now)) result ≡ slice_get self.now at }
    {
        let key = item_at(self.keys.as_slice(), at)?;
        let value = item_at(self.values.as_slice(), at)?;
        Some((key, value))
    }

    /// The same keys, copied, over other values.
    pub fn with_values<W: Drop>(&self, alloc: Global, values: List<W>) -> Result<TextMap<W>, Memory>
        requires { length values ≡ length self.now }
        ensures { IfOk result (λ d. d ≡ zip (keys_of self.now) values) }
    {
        let keys = copy_keys(self.keys.as_slice(), alloc)?;
        Ok(TextMap { keys, values })
    }
}

impl<V: Drop> TextMap<V> {
    /// Puts a value under a key and answers the value that stood there. A key that is there keeps its place,
    /// and a new one goes last.
    pub fn put(&mut self, key: Text, value: V) -> Result<Option<V>, Memory>
        ensures old { IfOk result (λ old. old ≡ value_at self.old key) }
        ensures ok { OnOk result (self.new ≡ with_entry self.old key value) }
        ensures err { OnErr result (self.new ≡ self.old) }
    {
        match self.keys.get_index_of(&key) {
            Some(at) => Ok(Some(self.values.replace(at, value))),
            None => {
                self.keys.reserve(1)?;
                self.values.push(value)?;
                self.keys.insert(key).unwrap();
                Ok(None)
            }
        }
    }
}

impl<V> TextMap<V> {
    /// Takes a key and its value out; None exactly where the key isn't there. No memory.
    pub fn remove(&mut self, key: &Text) -> Option<V>
        ensures value { result ≡ value_at self.old key.now }
        ensures rest { self.new ≡ without_entry self.old key.now }
    {
        match self.keys.shift_remove_full(key) {
            None => None,
            Some((at, found)) => {
                drop(found);
                Some(self.values.remove(at))
            }
        }
    }
}

impl<V> TextMap<V> {
    /// The value under a key, to write; None exactly where the key isn't there. The map ends with what was last
    /// written under the key. No memory.
    pub fn get_mut(&mut self, key: &Text) -> Option<&mut V>
        ensures value { option_copied_mut result ≡ value_at self.old key.now }
        ensures* writes_back { sem 𝓛 (LendsValue V.row self.entry key.now result) }
    {
        let at = self.keys.get_index_of(key)?;
        self.values.get_mut(at)
    }

    /// The values under the keys, one for each, in order: the way back from `into_parts`. No memory.
    pub fn from_parts(keys: IndexSet<Text>, values: List<V>) -> TextMap<V>
        requires { length values ≡ length keys.keys }
        ensures { result ≡ zip keys.keys values }
    {
        TextMap { keys, values }
    }

    /// The keys and the values, in order. No memory.
    pub fn into_parts(self) -> (IndexSet<Text>, List<V>)
        ensures keys { result.0.keys ≡ keys_of self }
        ensures values { result.1 ≡ values_of self }
        ensures length { length result.0.keys ≡ length result.1 }
    {
        let TextMap { keys, values } = self;
        (keys, values)
    }
}

impl TextMap<Text> {
    /// The value of the variable with this name; None where it is unset. No memory.
    pub fn value(&self, name: &Text) -> Option<&Text>
        ensures { option_copied result ≡ value_at self.now name.now }
    {
        self.get(name)
    }
}

/// The place of the first key with these bytes.
fn place_of(keys: &[Text], key: &str) -> Option<usize>
    ensures { result ≡ position (bytes_eq key.now) keys.now }
{
    keys.iter().position(|other| key == other.as_str())
}

fn copy_keys(keys: &[Text], alloc: Global) -> Result<IndexSet<Text>, Memory>
    requires { IsDistinct bytes_eq keys.now }
    ensures { IfOk result (λ s. s.keys ≡ keys.now) }
{
    let mut copies = IndexSet::with_capacity(alloc, keys.len())?;
    for key in keys {
        copies.insert(key.copy(alloc)?)?;
    }
    Ok(copies)
}
