ghost use Rattle.std.specs.Prelude.{◌≡◌, IfOk};
ghost use Rattle.std.specs.Option.{option_copied};

use crate::boxed::Boxed;
use crate::list::{List, item_at};
use crate::memory::Memory;
use crate::shared::Shared;
use crate::text::Text;
use crate::text_map::TextMap;
use std::alloc::Global;

/// Trees under distinct keys, in the order of their first puts.
pub type Map = TextMap<Tree>;

/// A step from a tree to one that it holds.
#[derive(Debug, PartialEq, Eq, Drop)]
pub enum Step {
    Key(Text),
    /// A place in a sequence, from 0.
    Index(u32),
}

/// Steps from a tree to one deep in it.
pub type Path = List<Step>;

/// A tree of text, as a YAML text spells it. `Reset` and `Override` are the Compose Specification's marks
/// `!reset` and `!override`, which merging takes away. Several trees may hold one mapping or sequence, which stands
/// in memory once.
#[derive(Drop)]
pub enum Tree {
    Null,
    Scalar(Text),
    Map(Shared<Map>),
    Seq(Shared<List<Tree>>),
    Reset,
    Override(Boxed<Tree>),
}

impl Tree {
    ghost use Rattle.tree_base.specs.Paths.{child_at, tree_at, unmarked};
    ghost use Rattle.tree_base.specs.declared.tree.Tree.{Tree};

    /// The mapping of entries.
    pub fn mapping(alloc: Global, entries: Map) -> Result<Tree, Memory>
        ensures { IfOk result (λ t. t ≡ Tree.Map entries) }
    {
        Ok(Tree::Map(Shared::new(alloc, entries)?))
    }

    /// The sequence of items.
    pub fn sequence(alloc: Global, items: List<Tree>) -> Result<Tree, Memory>
        ensures { IfOk result (λ t. t ≡ Tree.Seq items) }
    {
        Ok(Tree::Seq(Shared::new(alloc, items)?))
    }

    /// A tree that equals this one: it holds the same mapping or sequence, and a copy of a scalar's text.
    pub fn copy(&self, alloc: Global) -> Result<Tree, Memory>
        ensures { IfOk result (λ t. t ≡ self.now) }
    {
        match self {
            Tree::Null => Ok(Tree::Null),
            Tree::Scalar(text) => Ok(Tree::Scalar(text.copy(alloc)?)),
            Tree::Map(entries) => Ok(Tree::Map(entries.share()?)),
            Tree::Seq(items) => Ok(Tree::Seq(items.share()?)),
            Tree::Reset => Ok(Tree::Reset),
            Tree::Override(inner) => {
                Ok(Tree::Override(Boxed::new(alloc, inner.get().copy(alloc)?)?))
            }
        }
    }

    /// The tree below the marks `!override` at its root. No memory.
    fn unmarked(&self) -> &Tree
        ensures { result.now ≡ unmarked self.now }
    {
        match self {
            Tree::Override(inner) => inner.get().unmarked(),
            _ => self,
        }
    }

    /// The tree that one step leads to, where a mark `!override` is no step; None exactly where it leads nowhere.
    /// No memory.
    pub fn child(&self, step: &Step) -> Option<&Tree>
        ensures { option_copied result ≡ child_at self.now step.now }
    {
        match step {
            Step::Key(key) => match self.unmarked() {
                Tree::Map(entries) => entries.get().get(key),
                _ => None,
            },
            Step::Index(at) => match self.unmarked() {
                Tree::Seq(items) => item_at(items.as_slice(), *at as usize),
                _ => None,
            },
        }
    }

    /// The tree that a path leads to, as the paths of refusals are told: a mark `!override` is no step. None exactly
    /// where it leads nowhere. No memory.
    pub fn at(&self, path: &Path) -> Option<&Tree>
        ensures { option_copied result ≡ tree_at self.now path.now }
    {
        let mut tree = self;
        for step in path.as_slice() {
            tree = tree.child(step)?;
        }
        Some(tree)
    }
}
