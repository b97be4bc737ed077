// Laws of walks and of what listeners make of them.
ghost use Rattle.view_laws.specs.Walks.{WalkReplays};

/// A walk from one view to another, replayed on the one, fits call by call and gives the other.
pub fn a_walk_replays()
    ensures { WalkReplays }
{}
