ghost use Rattle.asked_run.specs.Laws.{ToldFilesHaveDigests};

/// The law that files which tell what they hold have one list of digests, or one first refusal of these, but for a read that
/// failed and a want of memory. Nothing runs.
pub fn told_files_have_digests()
    ensures { ToldFilesHaveDigests }
{}
