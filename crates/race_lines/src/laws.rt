// Laws of what the lines of a script say.
ghost use Rattle.race_lines.specs.DeskLines.{LinesGoByAnswers};
ghost use Rattle.race_lines.specs.PassLines.{LinesAreKept};

/// A line of the desk goes by the answer to its order and by the deliveries that this caused, whoever is told to have given it.
pub fn lines_go_by_answers()
    ensures { LinesGoByAnswers }
{}

/// What a pass keeps of a line gives what the line says, whatever the names at the end of the phase are.
pub fn lines_are_kept()
    ensures { LinesAreKept }
{}
