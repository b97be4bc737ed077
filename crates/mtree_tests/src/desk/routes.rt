// The route of an access that no script makes: of all addresses but the first.
use iommu::route;
use mem_base::{SpaceId, Target};
use std::sync::ledger::Ledger;
use step_counter::Steps;
use transact::BackedDesk;

/// Whether the route in a space that is not there has all addresses but the first, nothing answers it and no translation is used.
pub(crate) fn is_all_but_the_first<L: Ledger>(desk: &BackedDesk, steps: &mut Steps<L>) -> bool {
    let route = route(desk.desk().current(), SpaceId(9), 1, u64::MAX, false, steps);
    let unassigned = route.target == Target::Unassigned && route.used.as_slice().is_empty();
    route.len == u64::MAX && unassigned
}
