// The plan of an access, and what this project's words do for it.
ghost use Rattle.plan_laws.specs.PlanLaws.{AccessIsPlanned};

/// An access does, in order, what the words do for each thing that its plan reaches. This holds of every forest.
pub fn access_is_planned()
    ensures { AccessIsPlanned }
{}
