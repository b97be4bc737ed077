// Laws of a block that ran.
ghost use Rattle.race_seats.specs.Laws.{BlocksMayStop, BlocksStepOn};

/// A race so far takes a block, where each actor did all its lines: then it is known what the desk knows, and the text is what the desk's lines
/// write, then each pass's, ascending, and where what an actor got differs from the record.
pub fn blocks_step_on()
    ensures { BlocksStepOn }
{}

/// A race so far could have gone on within a block: there is a history of its script which begins with what was seen, and a text of that which
/// begins with what was written before the block.
pub fn blocks_may_stop()
    ensures { BlocksMayStop }
{}
