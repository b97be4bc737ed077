// Laws of lines that were done, each a clause of a function that does nothing.
ghost use Rattle.pass_lines.specs.Laws.{LinesAreDone, PassesGoOn};

/// A line that was done is, among the lines of a race, the line that the script's definition has: it makes just these entries, leaves the pass
/// in this state, and writes what its answer says, whatever is published later.
pub fn lines_are_done()
    ensures { LinesAreDone }
{}

/// What a pass keeps from line to line holds after one more line that was done.
pub fn passes_go_on()
    ensures { PassesGoOn }
{}
