ghost use Rattle.std.specs.Prelude.{◌≡◌, [], ◌∷◌, ◌++◌, Err, IfOk, Ok, reverse};
ghost use Rattle.std.specs.Option.{option_map_or};
ghost use Rattle.merge_tables.specs.Answers.{outer, place, turned, within};
ghost use Rattle.merge_tables.specs.declared.refusal.MergeRefusal.TheVariants as refusals;

use tree_base::limits::{GREATEST_PLACE, MOST_NODES, MOST_TEXT};
use tree_base::{List, Memory, Path, Step, Tree};

/// Why trees aren't merged.
#[derive(Drop)]
pub enum MergeRefusal {
    /// Trees of different kinds stand at one path, as a mapping and a sequence.
    KindMismatch { path: Path },
    /// A text isn't of the form of the entries of its list.
    BadUniqueEntry { path: Path },
    /// A mark stands in a service that extends another one in the same file.
    MarkUnderExtends { path: Path },
    /// The tree has more than 200,000 nodes.
    TooManyNodes,
    /// The keys and the scalars have more than 16,777,216 bytes together.
    TooMuchText,
    Memory,
}

impl From<Memory> for MergeRefusal {
    ghost from_gives = { λ _ e. e ≡ refusals.Memory };

    fn from(_: Memory) -> MergeRefusal {
        MergeRefusal::Memory
    }
}

/// A place as a `u32`, where one past the greatest is that. No memory.
pub fn place(at: usize) -> u32
    ensures { result ≡ place at }
{
    at.min(GREATEST_PLACE) as u32
}

/// A refusal whose path is told from the inside out, with one step more.
pub fn with_step(refusal: MergeRefusal, step: Step) -> Result<MergeRefusal, Memory>
    ensures { IfOk result (λ r. r ≡ outer step refusal) }
{
    match refusal {
        MergeRefusal::KindMismatch { path } => Ok(MergeRefusal::KindMismatch {
            path: with_last(path, step)?,
        }),
        MergeRefusal::BadUniqueEntry { path } => Ok(MergeRefusal::BadUniqueEntry {
            path: with_last(path, step)?,
        }),
        MergeRefusal::MarkUnderExtends { path } => Ok(MergeRefusal::MarkUnderExtends {
            path: with_last(path, step)?,
        }),
        MergeRefusal::TooManyNodes => Ok(MergeRefusal::TooManyNodes),
        MergeRefusal::TooMuchText => Ok(MergeRefusal::TooMuchText),
        MergeRefusal::Memory => Ok(MergeRefusal::Memory),
    }
}

/// A path with one step more at its end.
fn with_last(path: Path, step: Step) -> Result<Path, Memory>
    ensures { IfOk result (λ p. p ≡ path ++ step ∷ []) }
{
    let mut path = path;
    path.push(step)?;
    Ok(path)
}

/// A refusal whose path was told from the inside out, with its path from the root down. No memory.
pub fn from_root(refusal: MergeRefusal) -> MergeRefusal
    ensures { result ≡ turned refusal }
{
    match refusal {
        MergeRefusal::KindMismatch { path } => MergeRefusal::KindMismatch { path: turned(path) },
        MergeRefusal::BadUniqueEntry { path } => MergeRefusal::BadUniqueEntry {
            path: turned(path),
        },
        MergeRefusal::MarkUnderExtends { path } => MergeRefusal::MarkUnderExtends {
            path: turned(path),
        },
        MergeRefusal::TooManyNodes => MergeRefusal::TooManyNodes,
        MergeRefusal::TooMuchText => MergeRefusal::TooMuchText,
        MergeRefusal::Memory => MergeRefusal::Memory,
    }
}

/// A path from its end to its beginning.
fn turned(path: Path) -> Path
    ensures { result ≡ reverse path }
{
    let mut steps = path.into_vec();
    steps.reverse();
    List::from_vec(steps)
}

/// A tree that is within the limits of merged trees: `TooManyNodes`, then `TooMuchText`. No memory.
pub fn within(tree: Tree) -> Result<Tree, MergeRefusal>
    ensures { result ≡ within tree }
{
    match passed(&tree) {
        None => Ok(tree),
        Some(refusal) => {
            drop(tree);
            Err(refusal)
        }
    }
}

/// The limit that a tree passes.
fn passed(tree: &Tree) -> Option<MergeRefusal>
    ensures { within tree.now ≡ option_map_or Err result (Ok tree.now) }
{
    if tree.is_within(MOST_NODES, MOST_TEXT) {
        None
    } else if tree.nodes_within(MOST_NODES).is_none() {
        Some(MergeRefusal::TooManyNodes)
    } else {
        Some(MergeRefusal::TooMuchText)
    }
}
