use case_files::Reading;
use tree_base::{List, Text, Tree, item_at};

/// A step of a case: a word, or a mapping of one key, as `pop` or `{push: 3}`.
#[derive(Clone, Copy)]
pub(crate) struct CaseStep<'c> {
    name: &'c str,
    value: &'c Tree,
}

impl<'c> CaseStep<'c> {
    /// The step of a tree, whose name is empty where it has none. No memory.
    pub(crate) fn of_tree(tree: &'c Tree) -> CaseStep<'c> {
        match tree {
            Tree::Scalar(word) => CaseStep::named(word.as_str(), tree),
            Tree::Map(entries) => match entries.get().pair(0) {
                Some((key, value)) => CaseStep::named(key.as_str(), value),
                None => CaseStep::named("", tree),
            },
            _ => CaseStep::named("", tree),
        }
    }

    fn named(name: &'c str, value: &'c Tree) -> CaseStep<'c> {
        CaseStep { name, value }
    }

    /// What is done.
    pub(crate) fn name(&self) -> &'c str {
        self.name
    }

    /// The text that it is done with.
    pub(crate) fn text(&self, reading: &mut Reading) -> Text {
        reading.text_of(self.value, self.name)
    }

    /// The number that it is done with.
    pub(crate) fn number(&self, reading: &mut Reading) -> u64 {
        reading.number_of(self.value, self.name)
    }

    /// The place or the count that it is done with.
    pub(crate) fn count(&self, reading: &mut Reading) -> usize {
        self.number(reading) as usize
    }

    /// The text at a place of the sequence that it is done with.
    pub(crate) fn text_at(&self, reading: &mut Reading, at: usize) -> Text {
        match self.item(reading, at) {
            Some(item) => reading.text_of(item, self.name),
            None => Text::new(reading.alloc),
        }
    }

    /// The number at a place of the sequence that it is done with.
    pub(crate) fn number_at(&self, reading: &mut Reading, at: usize) -> u64 {
        match self.item(reading, at) {
            Some(item) => reading.number_of(item, self.name),
            None => 0,
        }
    }

    fn item(&self, reading: &mut Reading, at: usize) -> Option<&'c Tree> {
        let found = item_at(self.items(reading), at);
        if found.is_none() {
            reading.wants(self.name, "more items");
        }
        found
    }

    fn items(&self, reading: &mut Reading) -> &'c [Tree] {
        match self.value {
            Tree::Seq(items) => items.as_slice(),
            _ => {
                reading.wants(self.name, "a sequence");
                &[]
            }
        }
    }

    /// The numbers that it is done with.
    pub(crate) fn numbers(&self, reading: &mut Reading) -> List<u64> {
        let mut numbers = List::new(reading.alloc);
        for tree in self.items(reading) {
            let number = reading.number_of(tree, self.name);
            reading.push(&mut numbers, number);
        }
        numbers
    }

    /// Keeps that there is no such step.
    pub(crate) fn unknown(&self, reading: &mut Reading) {
        reading.wants(self.name, "to be a step");
    }

    /// Keeps that what it is done to has no such place.
    pub(crate) fn no_place(&self, reading: &mut Reading) {
        reading.wants(self.name, "a place that is there");
    }
}
