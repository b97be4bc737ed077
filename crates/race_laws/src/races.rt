// Laws of what a race is.
ghost use Rattle.mem_base.specs.script.Race.{RaceHasTurns, RaceIsRun};
ghost use Rattle.race_laws.specs.OutsideRuns.{OutsideIsRun, ReadRaceIsRun};

/// In the history of a race the writer's entries are those of the turns of all orders that stand in the record.
pub fn race_has_turns()
    ensures { RaceHasTurns }
{}

/// A race of a script without a block, or with an empty one, is the run of its lines, where each command of a pass names one of
/// the machine's. So it is of every script that was read.
pub fn race_is_run()
    ensures named { RaceIsRun }
    ensures read { ReadRaceIsRun }
{}

/// What a race writes before its block, and what it leaves there, is what the run of those lines writes and leaves. What it
/// writes after the block is what the run of those lines writes from where the block left the machine, unless an actor of the
/// block got something else than the record of the desk has.
pub fn outside_is_run()
    ensures { OutsideIsRun }
{}
