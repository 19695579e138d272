ghost use Rattle.laws_hashes.specs.Laws.{OwnTextsTellServices, TextsTellNothingElse, TextsTellServices};

/// The law that two services of projects which have the same text under the first hash are the same
/// but for their keys and for `build`, `depends_on`, `deploy`, `profiles`, `pull_policy` and `scale`.
/// Nothing runs.
pub fn own_texts_tell_services()
    ensures { OwnTextsTellServices }
{}

/// The law that two services of projects which have the same text under the second hash are the same
/// but for these, and that the secrets and configs which they use have the same digests. Nothing
/// runs.
pub fn texts_tell_services()
    ensures { TextsTellServices }
{}

/// The law that two such services have the same texts under their hashes, and the same hashes.
/// Nothing runs.
pub fn texts_tell_nothing_else()
    ensures { TextsTellNothingElse }
{}
