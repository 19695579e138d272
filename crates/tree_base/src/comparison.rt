ghost use Rattle.std.specs.Prelude.{◌≡◌, ◌↔◌, IsTrue};

use crate::tree::{Map, Tree};

impl Tree {
    /// Whether two trees are the same, with their marks and the order of their keys. No memory.
    #[cycle(same)]
    pub fn same(&self, other: &Tree) -> bool
        ensures { IsTrue result ↔ (self.now ≡ other.now) }
    {
        match self {
            Tree::Null => matches!(other, Tree::Null),
            Tree::Scalar(text) => match other {
                Tree::Scalar(other) => text == other,
                _ => false,
            },
            Tree::Map(entries) => match other {
                Tree::Map(others) => Tree::same_entries(entries.get(), others.get()),
                _ => false,
            },
            Tree::Seq(items) => match other {
                Tree::Seq(others) => Tree::all_same(items.as_slice(), others.as_slice()),
                _ => false,
            },
            Tree::Reset => matches!(other, Tree::Reset),
            Tree::Override(inner) => match other {
                Tree::Override(other) => inner.get().same(other.get()),
                _ => false,
            },
        }
    }

    #[cycle(same)]
    fn same_entries(entries: &Map, others: &Map) -> bool
        ensures { IsTrue result ↔ (entries.now ≡ others.now) }
    {
        entries.keys() == others.keys() && Tree::all_same(entries.values(), others.values())
    }

    #[cycle(same)]
    fn all_same(items: &[Tree], others: &[Tree]) -> bool
        ensures { IsTrue result ↔ (items.now ≡ others.now) }
    {
        if items.len() != others.len() {
            return false;
        }
        let mut at = 0;
        for item in items {
            if !item.same(&others[at]) {
                return false;
            }
            at += 1;
        }
        true
    }
}
