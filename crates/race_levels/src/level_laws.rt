// Laws of what came to pass between two levels.
ghost use Rattle.race_levels.specs.Settling.{DeskSettles, PassSettles};

/// Where all passes were level before some orders and met the record after them, the history grew by just the turns of the
/// orders, and all are level again.
pub fn desk_settles()
    ensures { DeskSettles }
{}

/// Where all passes were level before one of them did a line, and met the record after it, the history grew by just the
/// entries of that line, and all are level again.
pub fn pass_settles()
    ensures { PassSettles }
{}
