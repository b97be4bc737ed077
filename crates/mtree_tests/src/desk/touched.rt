// Which spaces a change carves anew: a large one, and a small one beside it.
use crate::desk::calls::{add, event, map, region, space};
use crate::desk::changes::shared_after;
use crate::desk::desks::{apply, commit, run};
use mem_base::{Call, Device, DeviceKind, Kind, Perm, Refusal, RegionId, SpaceId};
use region_tree::Tree;
use std::alloc::AllocError;
use std::sync::ledger::Ledger;
use step_counter::Steps;
use transact::BackedDesk;

static LARGE: SpaceId = SpaceId(0);

static SMALL: SpaceId = SpaceId(1);

/// How many regions the large space has, its root included.
const MANY: u32 = 2000;

/// A device, a reservation, or a translation.
fn kind(number: u32) -> Kind {
    match number % 3 {
        0 => Kind::Io(Device::plain(DeviceKind::Latch)),
        1 => Kind::Reserve,
        _ => Kind::Iommu,
    }
}

/// Does this call.
fn call<L: Ledger>(desk: &mut BackedDesk, call: Call, steps: &mut Steps<L>) -> Result<(), Refusal> {
    apply(desk, &call, steps)?;
    Ok(())
}

/// Publishes a space of 2,000 regions, and after it one of a container and a device, in one generation.
fn build<L: Ledger>(desk: &mut BackedDesk, steps: &mut Steps<L>) -> Result<(), Refusal> {
    desk.begin()?;
    call(desk, region(Kind::Container, 0x100_0000), steps)?;
    for number in 1..MANY {
        call(desk, region(kind(number), 0x1000), steps)?;
        call(desk, add(0, u64::from(number) * 0x1000, number), steps)?;
    }
    let small = [
        region(Kind::Container, 0x10000),
        region(Kind::Io(Device::plain(DeviceKind::Latch)), 0x1000),
        add(MANY, 0, MANY + 1),
        space(LARGE, 0),
        space(SMALL, MANY),
    ];
    run(desk, &small, steps)?;
    commit(desk, steps)
}

/// What is changed, and how many generations share the atlases of the two spaces then: two where nothing is carved by the change.
fn cases() -> [(Call, (usize, usize)); 5] {
    let moved = Call::Move {
        child: RegionId(MANY + 1),
        offset: 0x1000,
    };
    [
        (moved, (2, 1)),
        (map(2, 0, 0x1000, SMALL, 0, Perm::Both), (2, 2)),
        (event(3, 0, 4, 1, None), (2, 2)),
        (event(MANY + 1, 0, 4, 1, None), (2, 2)),
        (Call::Global { on: true }, (1, 1)),
    ]
}

/// Whether all cases come out so, and a change of the small space, of which two regions are reached, carves at most four times: the
/// square of its root's weight.
pub(crate) fn come_out<L: Ledger>(
    desk: &mut BackedDesk,
    steps: &mut Steps<L>,
) -> Result<bool, Refusal> {
    build(desk, steps)?;
    let is_small = is_small(desk.desk().tree())?;
    for (call, shared) in &cases() {
        if shared_after(desk, call, steps)? != *shared {
            return Ok(false);
        }
    }
    Ok(is_small)
}

/// Whether just the container and its device are reached in the small space, and the square of its root's weight is 4.
fn is_small(tree: &Tree) -> Result<bool, AllocError> {
    let reached = tree.reach(SMALL)?;
    let root = RegionId(MANY);
    let weighs_two = tree.node(root).is_some() && tree.weight(root) == 2;
    let is_root = tree.root(SMALL) == Some(root);
    Ok(weighs_two && is_root && reached.as_slice() == [root, RegionId(MANY + 1)].as_slice())
}
