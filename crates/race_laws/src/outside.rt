// What a runner cites at each line.
ghost use Rattle.race_laws.specs.Outside.{DeskLineIsPhase, DeskLineStops, FaultsWrite, HasPhases, OrdersFit, PassLineIsPhase, PublishStands, RecordTells};

/// Which phases a script has: each line outside the block by itself, and the block, where it has lines.
pub fn has_phases()
    ensures { HasPhases }
{}

/// An order that a line asks for fits its types where the numbers of the line do.
pub fn orders_fit()
    ensures { OrdersFit }
{}

/// A line of the desk outside the block is a phase, where the desk gives just the orders that it asks for; and the text of that.
pub fn desk_line_is_phase()
    ensures { DeskLineIsPhase }
{}

/// A desk that stops after the order of such a line, before it asks what is current, has begun the line.
pub fn desk_line_stops()
    ensures { DeskLineStops }
{}

/// A line of a pass outside the block is a phase, where the pass makes just its entries and gives its orders; and the text of that.
pub fn pass_line_is_phase()
    ensures { PassLineIsPhase }
{}

/// Where the actors got what the record has of them, each number that a Look told is that of a generation that was published.
pub fn record_tells()
    ensures { RecordTells }
{}

/// A generation that was published, but for the first, was published by an entry of the history.
pub fn publish_stands()
    ensures { PublishStands }
{}

/// What a fault says, from a race that goes on and the part of its text that was written.
pub fn faults_write()
    ensures { FaultsWrite }
{}
