ghost use Rattle.laws_pages.specs.WordLaws.{PagesArePrintable};

/// The law that the page of each project, and its JSON, is read back, where its texts and keys are UTF-8 and no mapping in it
/// has a key twice: its words are numbers, below zero too, and flags, which are read as they stand. Nothing runs.
pub fn pages_are_printable()
    ensures { PagesArePrintable }
{}
