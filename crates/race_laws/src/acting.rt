// What an actor keeps from line to line.
ghost use Rattle.race_laws.specs.Acting.{DeskActs, LinesDo, PassActs};

/// What the desk keeps holds at first, after one more of its lines, and after more was published; and at the end of a phase it is what the
/// phase asks of the desk.
pub fn desk_acts()
    ensures { DeskActs }
{}

/// The same of a pass.
pub fn pass_acts()
    ensures { PassActs }
{}

/// What the lines of a pass do by the replies of their entries: an enter, a leave, an access, a copy.
pub fn lines_do()
    ensures { LinesDo }
{}
