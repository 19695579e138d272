ghost use Rattle.interpolate.specs.Laws.{PlainStays, DoubledComesBack};

/// A law: a text without `$`, of at most 16,777,216 bytes, is its own substitution, whatever the variables.
pub fn plain_stays()
    ensures { PlainStays }
{}

/// A law: a text of at most 16,777,216 bytes with each `$` doubled substitutes to the text, whatever the variables.
pub fn doubled_comes_back()
    ensures { DoubledComesBack }
{}
