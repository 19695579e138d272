use std::marker::Model;
use yaml_lines::Row;

/// The key or the dash of which a node is the value or the item.
#[derive(Drop)]
pub(crate) struct Owner<'a> {
    pub(crate) row: &'a Row,
    /// Its column in the row, from 0.
    pub(crate) column: usize,
    /// Whether it is a key, whose value may be marked.
    pub(crate) is_key: bool,
}

impl<'a> Model for Owner<'a> {
    ghost use Rattle.std.specs.Prelude.{◌<◌, ◌^◌};
    ghost use Rattle.yaml_tree.specs.Inline.{Owned};

    ghost Value = { Owned };

    ghost view = { λ o. record { row = o.row.now; column = o.column; is_key = o.is_key } };

    ghost invariant = { λ o. o.column < 2 ^ 63 };
}
