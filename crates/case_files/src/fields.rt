use tree_base::{Map, Tree};

/// The fields of a case, or of a mapping in one.
#[derive(Clone, Copy)]
pub struct Fields<'c> {
    entries: &'c Map,
}

impl<'c> Fields<'c> {
    /// The fields of a mapping. No memory.
    pub fn new(entries: &'c Map) -> Fields<'c> {
        Fields { entries }
    }

    /// The mapping. No memory.
    pub fn entries(&self) -> &'c Map {
        self.entries
    }

    /// Whether there is such a key. No memory.
    pub fn has(&self, key: &str) -> bool {
        self.find(key).is_some()
    }

    /// What stands under a key; None where the key isn't there. No memory.
    pub fn find(&self, key: &str) -> Option<&'c Tree> {
        self.entries.find(key)
    }
}
