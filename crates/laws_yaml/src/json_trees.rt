ghost use Rattle.laws_yaml.specs.JsonLaws.{JsonReadsBack, PagesAndJsonAgree, PrintedJsonReadsBack};

/// The law that a line which is the JSON of a node spells the tree of the node. Nothing runs.
pub fn json_reads_back()
    ensures { JsonReadsBack }
{}

/// The law that a file which is the JSON of a node, in UTF-8, is read as the tree of the node, byte for byte. Nothing runs.
pub fn printed_json_reads_back()
    ensures { PrintedJsonReadsBack }
{}

/// The law that the page of a node and its JSON are read as one tree, byte for byte. Nothing runs.
pub fn pages_and_json_agree()
    ensures { PagesAndJsonAgree }
{}
