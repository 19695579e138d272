ghost use Rattle.yaml_lines.specs.Laws.{LinesAreTheText, PlacesCountCharacters, DoubleQuotesReadBack};

/// The law that the lines that a scan gives, joined by their ends, are the file. Nothing runs.
pub fn lines_are_the_text()
    ensures { LinesAreTheText }
{}

/// The law that the place behind a text's bytes is the place behind its characters. Nothing runs.
pub fn places_count_characters()
    ensures { PlacesCountCharacters }
{}

/// The law that what a scalar in quotes spelled, put into double quotes, spells the same. Nothing runs.
pub fn double_quotes_read_back()
    ensures { DoubleQuotesReadBack }
{}
