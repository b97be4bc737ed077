// What a runner keeps of a race.
ghost use Rattle.race_laws.specs.SoFar.{RaceStarts, RaceStops, RaceTakesPhase};

/// Nothing was done yet.
pub fn race_starts()
    ensures { RaceStarts }
{}

/// One more phase was done.
pub fn race_takes_phase()
    ensures { RaceTakesPhase }
{}

/// All phases were done, and each pass left.
pub fn race_stops()
    ensures { RaceStops }
{}
