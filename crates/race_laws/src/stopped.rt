// How a race that stopped could have gone on.
ghost use Rattle.race_laws.specs.Stopped.{ActorsMakePhase, RaceGoesOn, RacesExist, StoppedActorsGoOn, StoppedRaceGoesOn};

/// A race that stops between two phases could have gone on: there is a history of its script that begins with its history, and the
/// text of that begins with its text.
pub fn race_goes_on()
    ensures { RaceGoesOn }
{}

/// Each script has a race: a legal history, and its text.
pub fn races_exist()
    ensures { RacesExist }
{}

/// So it is of a race that stops within a phase, where each actor has done the first of its lines.
pub fn stopped_race_goes_on()
    ensures { StoppedRaceGoesOn }
{}

/// The same, by what each actor keeps from line to line.
pub fn stopped_actors_go_on()
    ensures { StoppedActorsGoOn }
{}

/// Where the actors have done all of their lines of a phase, it is whole.
pub fn actors_make_phase()
    ensures { ActorsMakePhase }
{}
