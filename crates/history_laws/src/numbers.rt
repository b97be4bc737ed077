// Laws of the running machine's histories, by their shared part alone.
ghost use Rattle.history_laws.specs.Numbers.{OwnEntriesAreTheWriters, SharedHistoriesAreSound};

/// What holds after every legal history of the running machine, whoever makes its events: how the numbers of a pass
/// stand to the current one, that the current number is the number of Publishes, and that the last eight generations
/// are kept as they were published.
pub fn shared_histories_are_sound()
    ensures { SharedHistoriesAreSound }
{}

/// The entries of the writer are the same by both ways to find them: by their actor, as what a seat has seen is told, and by
/// the kind of the event, as turns are made.
pub fn own_entries_are_the_writers()
    ensures { OwnEntriesAreTheWriters }
{}
