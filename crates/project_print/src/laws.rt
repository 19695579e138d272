ghost use Rattle.project_print.specs.Laws.{DollarsReadBack, ScalarsReadBack};

/// The law that the words of a page read back: a key or a text, as `page` writes it and before what may follow
/// it, spells itself by the profile of YAML, and never null. Nothing runs.
pub fn scalars_read_back()
    ensures { ScalarsReadBack }
{}

/// The law that two dollars, read as one, give back the text. Nothing runs.
pub fn dollars_read_back()
    ensures { DollarsReadBack }
{}
