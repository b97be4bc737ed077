// Laws of the calls that one listener gets, and of the order in which two hear them.
ghost use Rattle.view_laws.specs.Deliveries.{EachHearsItsOwn};
ghost use Rattle.view_laws.specs.Priorities.{CallsGoByPriority};

/// Of all calls of a publish a listener gets Begin, the calls of its own space in their order, and Commit, whoever else
/// listens and whatever the priorities are.
pub fn each_hears_its_own()
    ensures { EachHearsItsOwn }
{}

/// Of two listeners of one space, each call of a publish is told to both before the next call: a delete, the end of
/// logging and a new ioeventfd to the one of higher priority first, all else to the one of lower priority first. Of
/// equal priorities the one that joined first counts as the lower.
pub fn calls_go_by_priority()
    ensures { CallsGoByPriority }
{}
