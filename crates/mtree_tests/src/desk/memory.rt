// Changes that want memory: where there is none the desk is as it was, and the same change is done as soon as there is some.
use crate::desk::calls::{add, region, space};
use crate::desk::desks::{apply, run};
use crate::desk::trials::{Trial, comes_out};
use crate::maps::listener;
use mem_base::{Call, Device, DeviceKind, Edition, Kind, Listener, Refusal, RegionId, SpaceId};
use std::sync::ledger::Ledger;
use std::test::Fail;
use step_counter::Steps;
use transact::{BackedDesk, Step};
use tree_find::find;

static WHOLE: SpaceId = SpaceId(0);

static PART: SpaceId = SpaceId(1);

/// Who listens: one to each space.
fn listeners() -> [Listener; 2] {
    [listener(0), listener(1)]
}

/// The pages of memory in the first space.
const PAGES: u32 = 10;

/// A container of memory and a device, and over a space of its own an alias of a part of it.
fn build<L: Ledger>(desk: &mut BackedDesk, steps: &mut Steps<L>) -> Result<(), Refusal> {
    apply(desk, &region(Kind::Container, 0x2_0000), steps)?;
    for number in 1..=PAGES {
        apply(desk, &region(Kind::Ram, 0x1000), steps)?;
        apply(desk, &add(0, u64::from(number) * 0x1000, number), steps)?;
    }
    let target = RegionId(0);
    let part = Kind::Alias {
        target,
        offset: 0x800,
    };
    let calls = [
        region(Kind::Io(Device::plain(DeviceKind::Latch)), 0x1000),
        add(0, 0x800, PAGES + 1),
        region(part, 0x3000),
        space(WHOLE, 0),
        space(PART, PAGES + 2),
    ];
    run(desk, &calls, steps)
}

/// Changes that hide regions and show them again, in both spaces and in one, and one that no space shows.
fn changes() -> [Call; 8] {
    let child = RegionId(PAGES);
    let alias = RegionId(PAGES + 2);
    [
        Call::Move {
            child,
            offset: 0x1800,
        },
        Call::Move {
            child,
            offset: 0x1_f000,
        },
        Call::Enable {
            region: child,
            on: false,
        },
        Call::Enable {
            region: child,
            on: true,
        },
        Call::Retarget {
            alias,
            offset: 0x4000,
        },
        Call::Del {
            parent: RegionId(0),
            child,
        },
        add(0, 0x4000, PAGES),
        Call::Move {
            child,
            offset: 0x4000,
        },
    ]
}

/// What tells whether a desk was changed: the number of its generation, how many ranges and places that has, and where the regions of
/// its tree stand.
fn look(desk: &BackedDesk) -> (u64, usize, usize, u64) {
    let current = desk.desk().current();
    let mut ranges = 0usize;
    for space in [WHOLE, PART] {
        if let Some(atlas) = current.atlas(space) {
            ranges = ranges.saturating_add(atlas.view().as_slice().len());
        }
    }
    let mut offsets = 0u64;
    for number in 0..=PAGES {
        if let Some(node) = desk.desk().tree().node(RegionId(number)) {
            offsets = offsets.wrapping_add(node.offset);
        }
    }
    (current.number(), ranges, current.places().len(), offsets)
}

/// Prepares a change and publishes it; whether there was memory for it.
fn change<L: Ledger>(desk: &mut BackedDesk, call: &Call, steps: &mut Steps<L>) -> bool {
    if desk.desk().depth() != 0 || call.is_quiet() {
        return false;
    }
    match desk.call_prepare(call, &listeners(), steps) {
        Ok(prepared) => {
            desk.done(prepared);
            true
        }
        Err(_) => false,
    }
}

/// Does a change, where there is no memory for it once more; whether it is done, and nothing was changed before.
fn is_done<L: Ledger>(desk: &mut BackedDesk, call: &Call, steps: &mut Steps<L>) -> bool {
    let before = look(desk);
    if change(desk, call, steps) {
        return true;
    }
    look(desk) == before && change(desk, call, steps)
}

/// Whether a space shows at every half page what the search finds there.
fn shows_what_is_found<L: Ledger>(desk: &BackedDesk, space: SpaceId, steps: &mut Steps<L>) -> bool {
    let Some(atlas) = desk.desk().current().atlas(space) else {
        return false;
    };
    for half in 0..64u64 {
        let addr = half * 0x800;
        if atlas.at(addr, steps) != find(desk.desk().tree(), space, addr) {
            return false;
        }
    }
    true
}

/// How many of the changes are done so, and show what is found then.
fn done<L: Ledger>(desk: &mut BackedDesk, steps: &mut Steps<L>) -> usize {
    for (i, call) in changes().iter().enumerate() {
        let is_so = is_done(desk, call, steps)
            && shows_what_is_found(desk, WHOLE, steps)
            && shows_what_is_found(desk, PART, steps);
        if !is_so {
            return i;
        }
    }
    changes().len()
}

/// Whether all changes are.
pub(crate) fn are_done<L: Ledger>(
    desk: &mut BackedDesk,
    steps: &mut Steps<L>,
) -> Result<bool, Refusal> {
    desk.begin()?;
    build(desk, steps)?;
    if let Step::Ready(prepared) = desk.commit_prepare(&listeners(), steps)? {
        desk.done(prepared);
    }
    Ok(done(desk, steps) == 8)
}

#[test]
fn a_change_for_which_there_is_no_memory_changes_nothing(rt: HostRuntime) -> Result<(), Fail> {
    let is_so = comes_out(rt.alloc(), Trial::Memory, &mut [0; 8])?;
    assert!(rt; is_so);
    Ok(())
}
