ghost use Rattle.log_book.specs.Laws.{ContainersHaveOneWorker};

/// The law that the entries of a container are those that one worker added, in that worker's order. Nothing runs.
pub fn containers_have_one_worker()
    ensures { ContainersHaveOneWorker }
{}
