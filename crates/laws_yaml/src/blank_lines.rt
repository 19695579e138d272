ghost use Rattle.laws_yaml.specs.BlankLines.{BlankLinesChangeNothing};

/// The law that lines which are blank or hold a comment alone change nothing where no block scalar and no flow collection
/// goes over their place: a text with them spells the same tree as without them, or is refused alike, but for the line of
/// the refusal's place. Nothing runs.
pub fn blank_lines_change_nothing()
    ensures { BlankLinesChangeNothing }
{}
