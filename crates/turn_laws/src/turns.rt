// The law that joins the running machine to the pure one.
ghost use Rattle.mem_base.specs.machine.JoinedHistory.{TurnsJoin};
ghost use Rattle.turn_laws.specs.Replayed.{TurnsReplay};
ghost use Rattle.turn_laws.specs.Shown.{TurnsHoldTogether};

/// Take a legal history of the running machine in which the writer's entries are those of turns from the first one on,
/// with the replies that stand there.
///
/// Read over the cells that its events name, with the private events of these turns put in, it is a legal history of
/// the pure machine; each of its entries is kept, and each private one stands at the place that the three rules give
/// it. It ends in the writer's part of the last turn, and the forest of its n-th Publish is the n-th committed forest.
pub fn turns_join()
    ensures { TurnsJoin }
{}

/// In a legal history of the running machine in which the writer's entries are those of turns, all calls that an id got
/// replay to what its listener is to have, in the writer's part that the last turn leaves.
pub fn turns_replay()
    ensures { TurnsReplay }
{}

/// In such a history the places of the writer's part that the last turn leaves back its forest, each generation that is
/// kept shows just the places of its forest, and no region was dropped twice.
pub fn turns_hold_together()
    ensures { TurnsHoldTogether }
{}
