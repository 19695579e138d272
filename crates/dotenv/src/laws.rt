ghost use Rattle.dotenv.specs.Laws.{LaterLineWins, DoubleQuotesReadBack};

/// The law that the last line of a file that has a key gives it its value. Nothing runs.
pub fn later_line_wins()
    ensures { LaterLineWins }
{}

/// The law that characters put into double quotes spell themselves. Nothing runs.
pub fn double_quotes_read_back()
    ensures { DoubleQuotesReadBack }
{}
