// Calls at a desk with a pool, each change published by itself.
use mem_base::{Applied, Call, Refusal, RegionId};
use std::sync::ledger::Ledger;
use step_counter::Steps;
use transact::{BackedDesk, Step};

/// Does a call, and publishes it where it is a change outside all transactions; the region that it makes.
pub(crate) fn apply<L: Ledger>(
    desk: &mut BackedDesk,
    call: &Call,
    steps: &mut Steps<L>,
) -> Result<Option<RegionId>, Refusal> {
    if desk.desk().depth() != 0 || call.is_quiet() {
        return Ok(match desk.call(call)? {
            Applied::Made(region) => Some(region),
            Applied::Done => None,
        });
    }
    let prepared = desk.call_prepare(call, &[], steps)?;
    desk.done(prepared);
    Ok(None)
}

/// Does these calls.
pub(crate) fn run<L: Ledger>(
    desk: &mut BackedDesk,
    calls: &[Call],
    steps: &mut Steps<L>,
) -> Result<(), Refusal> {
    for call in calls {
        apply(desk, call, steps)?;
    }
    Ok(())
}

/// Commits, and publishes what is pending.
pub(crate) fn commit<L: Ledger>(
    desk: &mut BackedDesk,
    steps: &mut Steps<L>,
) -> Result<(), Refusal> {
    if let Step::Ready(prepared) = desk.commit_prepare(&[], steps)? {
        desk.done(prepared);
    }
    Ok(())
}
