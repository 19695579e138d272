ghost use Rattle.laws_yaml.specs.PrintedLaws.{PrintedPagesReadBack};

/// The law that the bytes of a node's page are read as its tree, where its texts are UTF-8, its words stand as they are, no
/// mapping has a key twice, and the tree is within the limits. Nothing runs.
pub fn printed_pages_read_back()
    ensures { PrintedPagesReadBack }
{}
