// Laws of one line outside the block.
ghost use Rattle.race_levels.specs.ActorLevels.{ActorsAreLevel};
ghost use Rattle.race_levels.specs.Steps.{DeskLinesStep, OrdersAreWritten, PassLinesStep};

/// The entries that the record has of one order, or of two, one after another.
pub fn orders_are_written()
    ensures { OrdersAreWritten }
{}

/// A race so far takes a line of the desk, where the desk was given the orders that the line asks for, and the line was told
/// the generation that is current after them.
pub fn desk_lines_step()
    ensures { DeskLinesStep }
{}

/// A race so far takes a line of a pass, where the pass made just the entries of the line, and gave the orders that it asks for.
pub fn pass_lines_step()
    ensures { PassLinesStep }
{}

/// Once all have seen the same history, it grew by just what one actor made, where no other made anything.
pub fn actors_are_level()
    ensures { ActorsAreLevel }
{}
