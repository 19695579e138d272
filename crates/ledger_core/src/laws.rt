ghost use Rattle.ledger_core.specs.Laws.{AnswersAreLegal, GoodEndsKeepLedgers};

/// Whatever a worker that may call is answered, the journal stays legal with the entry that the answer leaves.
pub fn answers_are_legal()
    ensures { AnswersAreLegal }
{}

/// What a ledger keeps stays true of it after the good end of an action that a worker holds.
pub fn good_ends_keep_ledgers()
    ensures { GoodEndsKeepLedgers }
{}
