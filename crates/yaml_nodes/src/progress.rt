ghost use Rattle.std.specs.Prelude.{◌≡◌, ◌≤◌, ◌+◌, ◌-◌, IfOk, IfErr, SomeIff};
ghost use Rattle.tree_base.specs.Limits.{most_nodes, most_text};
ghost use Rattle.tree_base.specs.Trees.{node_count, depth, text_size};
ghost use Rattle.yaml_lines.specs.Answers.{Fails, Gives};
ghost use Rattle.yaml_lines.specs.declared.refusal.YamlRefusal.TheVariants.{Bad};
ghost use Rattle.yaml_lines.specs.Rows.{place_in};
ghost use Rattle.yaml_nodes.specs.Progress.{result_left, at_start, place_of, more_text, more_nodes, taken, one_node};

use crate::spot::Spot;
use std::alloc::Global;
use tree_base::limits::{MOST_NODES, MOST_TEXT};
use tree_base::{Map, Place, Tree};
use yaml_lines::{Row, YamlFault, YamlRefusal, place_in};

/// What was read so far of a file.
#[derive(Drop)]
pub struct Progress {
    /// The number of the file among those that are read, from 0.
    pub file: u32,
    /// Null, scalars, mappings and sequences; copies count again.
    pub nodes: u64,
    /// Bytes of keys and scalars; those of copies count again.
    pub text: u64,
    /// The latest finished node of each name, which the tree holds too.
    pub names: Map,
}

impl Progress {
    /// Before the first line of a file.
    pub fn new(alloc: Global, file: u32) -> Progress
        ensures { result ≡ at_start file }
    {
        Progress {
            file,
            nodes: 0,
            text: 0,
            names: Map::new(alloc),
        }
    }

    /// A fault at a character of a row.
    pub fn bad(&self, which: YamlFault, row: &Row, at: usize) -> YamlRefusal
        ensures { result ≡ Bad which (place_in self.now.file row.now at) }
    {
        YamlRefusal::Bad {
            which,
            place: place_in(self.file, row, at),
        }
    }

    /// The place of a spot, where a row is being read.
    pub fn place_of(&self, row: &Row, spot: Spot) -> Place
        ensures { result ≡ place_of self.now row.now spot }
    {
        match spot {
            Spot::Here(at) => place_in(self.file, row, at),
            Spot::Before(place) => place,
        }
    }

    /// Counts more bytes of keys and scalars: at most 16,777,216 in all, else `TooMuchText` at the spot.
    pub fn more_text(&mut self, row: &Row, spot: Spot, bytes: u64) -> Result<(), YamlRefusal>
        ensures { Gives (result_left result self.new) (more_text self.old row.now spot bytes) }
    {
        let text = self.text.saturating_add(bytes);
        if text > MOST_TEXT {
            return Err(YamlRefusal::TooMuchText {
                place: self.place_of(row, spot),
            });
        }
        self.text = text;
        Ok(())
    }

    /// Counts more nodes and bytes: `TooManyNodes` past 200,000 and `TooMuchText`, each at the spot.
    pub(crate) fn more_nodes(
        &mut self,
        row: &Row,
        spot: Spot,
        nodes: u64,
        bytes: u64,
    ) -> Result<(), YamlRefusal>
        ensures { Gives (result_left result self.new)
            (more_nodes self.old row.now spot nodes bytes) }
    {
        let nodes = self.nodes.saturating_add(nodes);
        if nodes > MOST_NODES {
            return Err(YamlRefusal::TooManyNodes {
                place: self.place_of(row, spot),
            });
        }
        self.nodes = nodes;
        self.more_text(row, spot, bytes)
    }

    /// Counts a node that has so many bytes of its own, where so many levels are left for it: `TooDeep` where none
    /// is, `TooManyNodes` past 200,000 and `TooMuchText`, each at its first character.
    pub fn one_node(
        &mut self,
        levels: u32,
        row: &Row,
        at: usize,
        bytes: u64,
    ) -> Result<(), YamlRefusal>
        ensures { Gives (result_left result self.new) (one_node levels self.old row.now at bytes) }
    {
        if levels == 0 {
            return Err(YamlRefusal::TooDeep {
                place: place_in(self.file, row, at),
            });
        }
        self.more_nodes(row, Spot::Here(at), 1, bytes)
    }

    /// How many more nodes may be counted; None past the limit.
    pub(crate) fn nodes_left(&self) -> Option<u64>
        ensures { SomeIff result (self.now.nodes ≤ most_nodes) (most_nodes - self.now.nodes) }
    {
        MOST_NODES.checked_sub(self.nodes)
    }

    /// How many more bytes of keys and scalars may be counted; None past the limit.
    pub(crate) fn text_left(&self) -> Option<u64>
        ensures { SomeIff result (self.now.text ≤ most_text) (most_text - self.now.text) }
    {
        MOST_TEXT.checked_sub(self.text)
    }

    /// How many nodes there are with those of a tree; None past the limit, which the walk doesn't pass.
    fn nodes_with(&self, tree: &Tree) -> Option<u64>
        ensures { SomeIff result (self.now.nodes + node_count tree.now ≤ most_nodes)
            (self.now.nodes + node_count tree.now) }
    {
        let more = tree.nodes_within(self.nodes_left()?)?;
        Some(self.nodes + more)
    }

    /// How many bytes of keys and scalars there are with those of a tree; None past the limit, which the walk doesn't
    /// pass.
    fn text_with(&self, tree: &Tree) -> Option<u64>
        ensures { SomeIff result (self.now.text + text_size tree.now ≤ most_text)
            (self.now.text + text_size tree.now) }
    {
        let more = tree.text_within(self.text_left()?)?;
        Some(self.text + more)
    }

    /// How many nodes and bytes there are with a copy of a tree at a place, where so many levels are left for it:
    /// `TooDeep`, `TooManyNodes` and `TooMuchText`, each at the place.
    pub(crate) fn counts_with(
        &self,
        levels: u32,
        row: &Row,
        at: usize,
        tree: &Tree,
    ) -> Result<(u64, u64), YamlRefusal>
        ensures is { IfOk result (λ counts.
            taken levels self.now row.now at
            (depth tree.now) (node_count tree.now) (text_size tree.now)
            ≡ Ok (record self.now { nodes = counts.0; text = counts.1 })) }
        ensures refuses { IfErr result (λ refusal. Fails refusal
            (taken levels self.now row.now at
            (depth tree.now) (node_count tree.now) (text_size tree.now))) }
    {
        if !tree.is_within_depth(levels) {
            return Err(YamlRefusal::TooDeep {
                place: place_in(self.file, row, at),
            });
        }
        let Some(nodes) = self.nodes_with(tree) else {
            return Err(YamlRefusal::TooManyNodes {
                place: place_in(self.file, row, at),
            });
        };
        let Some(text) = self.text_with(tree) else {
            return Err(YamlRefusal::TooMuchText {
                place: place_in(self.file, row, at),
            });
        };
        Ok((nodes, text))
    }
}
