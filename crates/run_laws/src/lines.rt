// Laws of the lines of a script.
ghost use Rattle.run_laws.specs.LineLaws.{LinesAreTasks, OrdersAreKnown, TurnsKeepNames};

/// Each command of a run does what its task says: names are resolved by what the desk knows, and then no machine is needed to
/// tell what is asked for. After a command of the desk the watchers catch up.
pub fn lines_are_tasks()
    ensures { LinesAreTasks }
{}

/// What the desk knows of names after an order of its own, by the answer, is what the machine has; and a change of the map by a
/// pass leaves it so. It holds of the pure machine's calls, and of turns on the running machine.
pub fn orders_are_known()
    ensures call { OrdersAreKnown }
    ensures turn { TurnsKeepNames }
{}
