use crate::items::{number_tree, scalar_tree};
use case_files::Reading;
use std::alloc::Global;
use tree_base::{Env, List, Map, Memory, Text, TextMap, Tree};

/// A mapping that is made key by key. Where memory is wanting it remembers that and goes on, as `Items` does.
#[derive(Drop)]
pub struct Entries {
    alloc: Global,
    values: Map,
    failed: bool,
}

impl Entries {
    /// The mapping without keys. No memory.
    pub fn new(alloc: Global) -> Entries {
        Entries {
            alloc,
            values: Map::new(alloc),
            failed: false,
        }
    }

    /// Puts a tree under a key, where there was memory for it.
    pub fn tree(&mut self, key: &str, made: Result<Tree, Memory>) {
        match made {
            Ok(tree) => self.put(key, tree),
            Err(Memory) => self.failed = true,
        }
    }

    fn put(&mut self, key: &str, tree: Tree) {
        match Text::from_str(self.alloc, key) {
            Ok(key) => self.put_under(key, tree),
            Err(Memory) => {
                drop(tree);
                self.failed = true;
            }
        }
    }

    /// What stood under the key is dropped by a call: a drop in place is proved variant by variant.
    fn put_under(&mut self, key: Text, tree: Tree) {
        let old = self.values.put(key, tree);
        if old.is_err() {
            self.failed = true;
        }
        drop(old);
    }

    /// Puts a text under a key.
    pub fn text(&mut self, key: &str, text: &str) {
        self.tree(key, scalar_tree(self.alloc, text));
    }

    /// Puts a number under a key, in decimal.
    pub fn number(&mut self, key: &str, number: u64) {
        self.tree(key, number_tree(self.alloc, number));
    }

    /// Puts a text under a key, or null where there is none.
    pub fn text_or_null(&mut self, key: &str, text: Option<&Text>) {
        match text {
            Some(text) => self.text(key, text.as_str()),
            None => self.put(key, Tree::Null),
        }
    }

    /// The whole mapping.
    pub fn whole(self) -> Result<Tree, Memory> {
        let Entries {
            alloc,
            values,
            failed,
        } = self;
        if failed {
            Err(Memory)
        } else {
            Tree::mapping(alloc, values)
        }
    }
}

/// Variables as a mapping, in their order.
pub fn variables_tree(alloc: Global, variables: &Env) -> Result<Tree, Memory> {
    let mut entries = Entries::new(alloc);
    for (name, value) in variables.keys().iter().zip(variables.values()) {
        entries.text(name.as_str(), value.as_str());
    }
    entries.whole()
}

/// Other values under the same keys; none, which is kept, where there isn't one for each.
pub fn under_keys<U, V: Drop>(
    reading: &mut Reading,
    entries: &TextMap<U>,
    values: List<V>,
) -> TextMap<V> {
    let empty = TextMap::new(reading.alloc);
    if values.len() == entries.len() {
        let made = entries.with_values(reading.alloc, values);
        reading.given(made, empty)
    } else {
        reading.refuse("each key wants a value");
        empty
    }
}
