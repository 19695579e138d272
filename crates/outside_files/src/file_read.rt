use tree_base::Text;

/// A read that files were asked for: the path, and whether the read failed.
#[derive(Drop)]
pub struct FileRead {
    pub path: Text,
    pub failed: bool,
}
