ghost use Rattle.std.specs.Prelude.{◌≡◌, ◌≤◌, [], ◌∷◌, length, drop, take, MatchOption, IfOk, OnOk};

use std::alloc::Global;
use std::marker::Model;
use tree_base::{List, Memory};
use yaml_lines::Row;

/// The rows that are left, in their order. Those that were taken out have left empty ones behind.
#[derive(Drop)]
pub struct Queue {
    rows: List<Row>,
    at: usize,
}

impl Model for Queue {
    ghost use Rattle.std.specs.Prelude.{List as Items, drop, ◌≤◌, length};
    ghost use Rattle.yaml_lines.specs.declared.row.Row.{Row};

    ghost Value = { Items Row };

    ghost view = { λ q. drop q.at q.rows };

    ghost invariant = { λ q. q.at ≤ length q.rows };
}

impl Queue {
    /// A queue of rows.
    pub fn new(rows: List<Row>) -> Queue
        ensures { result ≡ rows }
    {
        Queue { rows, at: 0 }
    }

    /// All rows that are left.
    pub fn rows(&self) -> &[Row]
        ensures { result.now ≡ self.now }
    {
        &self.rows.as_slice()[self.at..]
    }

    /// Takes the next row out.
    pub fn next(&mut self, alloc: Global) -> Option<Row>
        ensures { MatchOption result ((self.old ≡ [])
            × (self.new ≡ [])) (λ row. self.old ≡ row ∷ self.new) }
    {
        if self.at == self.rows.len() {
            return None;
        }
        let empty = Row {
            number: 0,
            indent: 0,
            chars: List::new(alloc),
        };
        let row = self.rows.replace(self.at, empty);
        self.at += 1;
        Some(row)
    }

    /// Takes the next rows out, so many or all.
    pub fn take(&mut self, alloc: Global, count: usize) -> Result<List<Row>, Memory>
        ensures is { IfOk result (λ rows. rows ≡ take count self.old) }
        ensures rest { OnOk result (self.new ≡ drop count self.old) }
    {
        let mut rows = List::new(alloc);
        for _ in 0..count {
            match self.next(alloc) {
                Some(row) => rows.push(row)?,
                None => return Ok(rows),
            }
        }
        Ok(rows)
    }
}
