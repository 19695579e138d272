ghost use Rattle.service_hashes.specs.Laws.{AdditionsShow, ChangesShow, TextsTell, UnhashedDoNotMatter};

/// The law that two services which are the same but for `build`, `depends_on`, `deploy`, `profiles`, `pull_policy` and `scale` have
/// the same texts under their hashes, and so the same hashes. Nothing runs.
pub fn unhashed_do_not_matter()
    ensures { UnhashedDoNotMatter }
{}

/// The law that the text under the second hash tells which secrets and configs a service uses, the digest of the file of each, and
/// the text under the first hash. Nothing runs.
pub fn texts_tell()
    ensures { TextsTell }
{}

/// The law that the text under the first hash changes where what is shown of one attribute in JSON changes, unless the attribute is
/// `build`, `depends_on`, `deploy`, `profiles`, `pull_policy` or `scale`. Nothing runs.
pub fn changes_show()
    ensures { ChangesShow }
{}

/// The law that the text under the first hash changes where another attribute than these is added or taken away. Nothing runs.
pub fn additions_show()
    ensures { AdditionsShow }
{}
