// Laws of what listeners make of their calls.
ghost use Rattle.history_laws.specs.Replayed.{AllCallsReplay, ListenersReplay, LaterCallsReplay};

/// After every legal history, all calls that an id ever got replay to what its space shows in the forest that listeners
/// were told of last, where it listens, and to nothing where it does not.
pub fn all_calls_replay()
    ensures { AllCallsReplay }
{}

/// After every legal history, the calls that a listener got since it joined last replay to the ranges and the live
/// ioeventfds of its space: in the current generation, or while a publish is due in the desk's forest.
pub fn listeners_replay()
    ensures { ListenersReplay }
{}

/// The calls that an id gets from a moment on at which no listener has it replay to what the space of the listener that has it
/// in the end shows, ranges and live ioeventfds, or to nothing where none has it.
pub fn later_calls_replay()
    ensures { LaterCallsReplay }
{}
