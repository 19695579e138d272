ghost use Rattle.laws_yaml.specs.NodeLaws.{PagesReadBack};

/// The law that lines which are the page of a node spell its tree, where the node is readable and its tree within the
/// limits. Nothing runs.
pub fn pages_read_back()
    ensures { PagesReadBack }
{}
