// What a ledger that has seen each generation answers.
ghost use Rattle.reclaim.specs.Released.{KeepsSight, AnswersReleased};

/// Whatever calls are made on a ledger, one `seen` for each generation among them, its notes tell the last generation that names each
/// region; and the dropped regions that are due from the least number that is held on are just those that a reap releases.
pub fn released_are_those_due()
    ensures sight { KeepsSight }
    ensures released { AnswersReleased }
{}
