ghost use Rattle.laws_yaml.specs.FlowLaws.{BlocksAndFlowsAgree, FlowsReadBack, PrintedBlocksAndFlowsAgree, PrintedFlowsReadBack};

/// The law that a line which is a node as a flow, its mappings between curly brackets and its sequences between square
/// ones, spells the tree of the node. Nothing runs.
pub fn flows_read_back()
    ensures { FlowsReadBack }
{}

/// The law that a node reads the same from its page, written in blocks, as from one line, written as a flow. Nothing runs.
pub fn blocks_and_flows_agree()
    ensures { BlocksAndFlowsAgree }
{}

/// The law that a file which is a node as a flow, in UTF-8, is read as the tree of the node, byte for byte. Nothing runs.
pub fn printed_flows_read_back()
    ensures { PrintedFlowsReadBack }
{}

/// The law that the page of a node and the file of the node as a flow are read as one tree, byte for byte. Nothing runs.
pub fn printed_blocks_and_flows_agree()
    ensures { PrintedBlocksAndFlowsAgree }
{}
