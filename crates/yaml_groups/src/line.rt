use tree_base::List;
use yaml_lines::Row;

/// A line that is read, with the lines that belong to it.
#[derive(Drop)]
pub struct LogicalLine {
    /// The line; those of a flow collection that begins in it follow behind line feeds.
    pub row: Row,
    /// The lines of a block scalar that begins in it.
    pub content: List<Row>,
}
