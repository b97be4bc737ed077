// Where no memory is the host's, the plans are the defined ones.
ghost use Rattle.access_plan.specs.HostLaws.{CorePlanIsDefined, PlanIsDefined};

/// Where no region is memory of the host, an access reaches what its plan is defined to be.
pub fn plan_is_defined()
    ensures { PlanIsDefined }
{}

/// Where no region is memory of the host, an access reaches by QEMU's core what is defined of it.
pub fn core_plan_is_defined()
    ensures { CorePlanIsDefined }
{}
