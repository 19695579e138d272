ghost use Rattle.laws_pages.specs.JsonNodeLaws.{JsonPagesTellNodes, JsonTellsNodes, PageWordsAreNumbersAndFlags};

/// The law that two nodes which have the same JSON are the same, where their words are numbers and
/// flags, whether dollars stand twice in it or once. Nothing runs.
pub fn json_tells_nodes()
    ensures { JsonTellsNodes }
{}

/// The law that the words in the page of a project are numbers, also below zero, and flags. Nothing
/// runs.
pub fn page_words_are_numbers_and_flags()
    ensures { PageWordsAreNumbersAndFlags }
{}

/// The law that two projects which have the same page as JSON show the same on it. Nothing runs.
pub fn json_pages_tell_nodes()
    ensures { JsonPagesTellNodes }
{}
