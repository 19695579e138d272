ghost use Rattle.std.specs.Prelude.{◌≡◌, ◌<◌, [], ◌∷◌, ◌++◌, Some, length, slice_get, slice_set, OnOk, OnErr, OnSome};
ghost use Rattle.std.specs.List.{remove};
ghost use Rattle.std.specs.Option.{option_copied};
ghost use Rattle.engine_types.specs.declared.engine.ContainerRow.{ContainerRow};

use crate::engine::ContainerRow;
use crate::reply::Report;
use std::alloc::Global;
use std::marker::Model;
use tree_base::{List, Memory, Text};

/// The containers of an Engine, which contracts see as the list of their rows. The first one is removed without a move of the
/// others: its row stays in front, unseen, until there are more of its kind than others.
#[derive(Drop)]
pub struct Containers {
    rows: Vec<ContainerRow>,
    /// How many rows in front are those of removed containers.
    removed: usize,
}

impl Model for Containers {
    ghost use Rattle.std.specs.Prelude.{List, ◌≤◌, drop, length};
    ghost use Rattle.engine_types.specs.declared.engine.ContainerRow.{ContainerRow};

    ghost Value = { List ContainerRow };

    ghost view = { λ c. drop c.removed c.rows.items };

    ghost invariant = { λ c. c.removed ≤ length c.rows.items };
}

impl Containers {
    /// No containers. No memory.
    pub fn new(alloc: Global) -> Containers
        ensures { result ≡ [] }
    {
        Containers {
            rows: Vec::new(alloc),
            removed: 0,
        }
    }

    /// The containers with these rows. No memory.
    pub fn from_list(rows: List<ContainerRow>) -> Containers
        ensures { result ≡ rows }
    {
        Containers {
            rows: rows.into_vec(),
            removed: 0,
        }
    }

    /// All rows. No memory.
    pub fn as_slice(&self) -> &[ContainerRow]
        ensures { result.now ≡ self.now }
    {
        &self.rows.as_slice()[self.removed..]
    }

    /// How many containers there are. No memory.
    pub fn len(&self) -> usize
        ensures { result ≡ length self.now }
    {
        self.as_slice().len()
    }

    /// The row at a place, from 0. No memory.
    pub fn get(&self, at: usize) -> Option<&ContainerRow>
        ensures value { option_copied result ≡ slice_get self.now at }
        ensures within { OnSome result (at < length self.now) }
    {
        self.as_slice().get(at)
    }

    /// Puts a row last.
    pub fn push(&mut self, row: ContainerRow) -> Result<(), Memory>
        ensures ok { OnOk result (self.new ≡ self.old ++ row ∷ []) }
        ensures err { OnErr result (self.new ≡ self.old) }
    {
        self.rows.push(row)?;
        Ok(())
    }

    /// Gives the container at a place, from 0, another report. No memory.
    pub fn set_report(&mut self, at: usize, report: Report)
        requires { at < length self.old }
        ensures { (row : ContainerRow) → slice_get self.old at ≡ Some row
            → self.new ≡ slice_set self.old at (record row { report = report }) }
    {
        let place = self.removed + at;
        self.rows[place].report = report;
    }

    /// Gives the container at a place, from 0, other networks. No memory.
    pub fn set_networks(&mut self, at: usize, networks: List<Text>)
        requires { at < length self.old }
        ensures { (row : ContainerRow) → slice_get self.old at ≡ Some row
            → self.new ≡ slice_set self.old at (record row { networks = networks }) }
    {
        let place = self.removed + at;
        self.rows[place].networks = networks;
    }

    /// Removes the container at a place, from 0. No memory.
    pub fn remove(&mut self, at: usize)
        requires { at < length self.old }
        ensures { self.new ≡ remove self.old at }
    {
        if at == 0 {
            self.removed += 1;
            self.drop_removed();
        } else {
            let place = self.removed + at;
            drop(self.rows.remove(place));
        }
    }

    /// Drops the rows of removed containers, where there are more of them than of others. No memory.
    fn drop_removed(&mut self)
        ensures { self.new ≡ self.old }
    {
        let kept = self.rows.len() - self.removed;
        if kept < self.removed {
            self.rows.rotate_left(self.removed);
            self.rows.truncate(kept);
            self.removed = 0;
        }
    }
}
