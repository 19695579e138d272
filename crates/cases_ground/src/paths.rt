use crate::items::Items;
use crate::values::within_u32;
use case_files::Reading;
use std::alloc::Global;
use tree_base::{Memory, Path, Step, Tree};

/// A path as a case has it: keys as scalars, and each place as a sequence of its number.
pub fn path_tree(alloc: Global, path: &Path) -> Result<Tree, Memory> {
    let mut steps = Items::new(alloc);
    for step in path.as_slice() {
        add_step(alloc, step, &mut steps);
    }
    steps.whole()
}

fn add_step(alloc: Global, step: &Step, to: &mut Items) {
    match step {
        Step::Key(key) => to.text(key.as_str()),
        Step::Index(at) => to.tree(place_tree(alloc, *at)),
    }
}

fn place_tree(alloc: Global, at: u32) -> Result<Tree, Memory> {
    let mut items = Items::new(alloc);
    items.number(u64::from(at));
    items.whole()
}

/// The path of a case.
pub(crate) fn path_of(reading: &mut Reading, steps: &[Tree]) -> Path {
    let mut path = Path::new(reading.alloc);
    for tree in steps {
        let step = step_of(reading, tree);
        reading.push(&mut path, step);
    }
    path
}

/// A step of a case: a key, or a place in brackets.
pub(crate) fn step_of(reading: &mut Reading, tree: &Tree) -> Step {
    match tree {
        Tree::Seq(items) => Step::Index(place_in(reading, items.as_slice())),
        _ => Step::Key(reading.text_of(tree, "step")),
    }
}

fn place_in(reading: &mut Reading, items: &[Tree]) -> u32 {
    match items {
        [place] => within_u32(reading.number_of(place, "step")),
        _ => {
            reading.wants("step", "one number in brackets");
            0
        }
    }
}
