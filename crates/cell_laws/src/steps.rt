// What may stand next in a history of the running machine.
ghost use Rattle.cell_laws.specs.MayFollow.{AccessesMayFollow, TurnsMayFollow};

/// After a legal history of the running machine in which the writer's entries are those of turns, the entries of any further
/// turn may stand next, with the replies of the pure machine in the world that is shown.
pub fn turns_may_follow()
    ensures { TurnsMayFollow }
{}

/// After such a history, with 16 passes and forests that fitting calls made, the entries of any access that a pass may make in the
/// world that is shown may stand next.
pub fn accesses_may_follow()
    ensures { AccessesMayFollow }
{}
