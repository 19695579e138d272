ghost use Rattle.laws_yaml.specs.PageLaws.{TextPagesReadBack};

/// The law that lines which are the page of one text, in quotes or not, spell that text, with its dollars as they are
/// printed. Nothing runs.
pub fn text_pages_read_back()
    ensures { TextPagesReadBack }
{}
