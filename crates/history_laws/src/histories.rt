// Laws of the pure machine's histories.
ghost use Rattle.history_laws.specs.Published.{GenerationsAreCommitted, PublishesAreCommitted};
ghost use Rattle.history_laws.specs.Histories.{EachEventKeepsOrder, LegalHistoriesAreInOrder, FewGenerationsAreKept};

/// Each possible event keeps four facts of every pass (`IsInOrder`): how its lowest number stands to the current one, how it
/// stands to what a sweep found, which numbers the pass may have looked at, announced and entered, and how near the lowest number
/// is to the current one while a publish is due.
pub fn each_event_keeps_order()
    ensures { EachEventKeepsOrder }
{}

/// The four facts hold of every pass after every legal history.
pub fn legal_histories_are_in_order()
    ensures { LegalHistoriesAreInOrder }
{}

/// After every legal history at most eight generations are held, and each is kept.
pub fn few_generations_are_kept()
    ensures { FewGenerationsAreKept }
{}

/// After every legal history the generations that are kept carry the committed forests of the calls, begins and
/// commits that were accepted, each the one of its number; while a publish is due, the last of them waits for it.
pub fn generations_are_committed()
    ensures { GenerationsAreCommitted }
{}

/// In every legal history the empty forest, the forests that are published and the one that waits for its publish are
/// the committed forests of the calls, begins and commits that were accepted.
pub fn publishes_are_committed()
    ensures { PublishesAreCommitted }
{}
