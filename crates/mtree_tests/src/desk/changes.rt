// What generations share and name, by worked cases.
use crate::desk::calls::{add, region, space};
use crate::desk::desks::{apply, run};
use generation::Generation;
use mem_base::{Call, Edition, Kind, Refusal, RegionId, SpaceId, What};
use std::sync::Arc;
use std::sync::ledger::Ledger;
use step_counter::Steps;
use transact::BackedDesk;

static FIRST: SpaceId = SpaceId(0);

static SECOND: SpaceId = SpaceId(1);

/// Two spaces: the first has two reservations, the second one.
fn two_spaces() -> [Call; 10] {
    [
        region(Kind::Container, 0x10000),
        region(Kind::Reserve, 0x1000),
        region(Kind::Reserve, 0x1000),
        region(Kind::Container, 0x10000),
        region(Kind::Reserve, 0x100),
        add(0, 0, 1),
        add(0, 0x2000, 2),
        add(3, 0, 4),
        space(FIRST, 0),
        space(SECOND, 3),
    ]
}

/// How many generations share the atlas of a space.
fn sharers(generation: &Generation, space: SpaceId) -> usize {
    match generation.shared_atlas(space) {
        Some(atlas) => Arc::strong_count(atlas),
        None => 0,
    }
}

/// How many generations share the atlases of the first two spaces after a change, where the one before it is still there.
pub(crate) fn shared_after<L: Ledger>(
    desk: &mut BackedDesk,
    one: &Call,
    steps: &mut Steps<L>,
) -> Result<(usize, usize), Refusal> {
    let before = Arc::try_clone(desk.desk().current())?;
    let applied = apply(desk, one, steps);
    let now = desk.desk().current();
    let shared = (sharers(now, FIRST), sharers(now, SECOND));
    drop(before);
    applied?;
    Ok(shared)
}

/// Whether atlases are shared after a move in the second space, after global logging is on, and after a change of no view.
fn shared<L: Ledger>(
    desk: &mut BackedDesk,
    steps: &mut Steps<L>,
) -> Result<[(usize, usize); 3], Refusal> {
    run(desk, &two_spaces(), steps)?;
    let shift = Call::Move {
        child: RegionId(4),
        offset: 0x40,
    };
    let moved = shared_after(desk, &shift, steps)?;
    let global = shared_after(desk, &Call::Global { on: true }, steps)?;
    let again = shared_after(desk, &Call::Global { on: true }, steps)?;
    Ok([moved, global, again])
}

/// Whether they are shared as they have to be.
pub(crate) fn is_shared<L: Ledger>(
    desk: &mut BackedDesk,
    steps: &mut Steps<L>,
) -> Result<bool, Refusal> {
    let shared = shared(desk, steps)?;
    Ok(shared == [(2, 1), (1, 1), (2, 2)])
}

/// Whether a generation names a leaf, and not a container, nor a region that is not there; and a call that is refused publishes none.
pub(crate) fn is_named<L: Ledger>(
    desk: &mut BackedDesk,
    steps: &mut Steps<L>,
) -> Result<bool, Refusal> {
    run(desk, &two_spaces(), steps)?;
    let refused = apply(desk, &add(0, 0, 99), steps).err();
    let generation = desk.desk().current();
    let names_leaves = generation.names(RegionId(1))
        && !generation.names(RegionId(0))
        && !generation.names(RegionId(99));
    let unknown = Some(Refusal::Unknown(What::Region(RegionId(99))));
    Ok(names_leaves && refused == unknown && generation.number() == 5)
}
