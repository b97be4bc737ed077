// Routes in drawn forests of small regions, against the plain program.
use crate::desk::calls::{add, map, region, space};
use crate::desk::desks::{apply, commit};
use crate::desk::plain_trails::{Trail, put_trails, sharing};
use crate::desk::trials::{Counts, Trial, comes_out, tick};
use crate::draws::draw;
use generation::Generation;
use iommu::route;
use mem_base::{Call, Kind, Perm, Refusal, RegionId, SpaceId, Target};
use rand_pcg::Lcg64Xsh32;
use std::alloc::{AllocError, Global};
use std::sync::ledger::Ledger;
use step_counter::Steps;
use transact::BackedDesk;

/// How many forests are drawn.
const FORESTS: u64 = 10;

/// The addresses that are looked at, and the length of each access.
const ADDRS: usize = 72;

const LEN: usize = 16;

/// Three containers of 64 bytes, three IOMMU regions of 48, and small reservations with aliases of them.
fn building(rng: &mut Lcg64Xsh32, number: u32) -> Call {
    match number {
        0..=2 => region(Kind::Container, 64),
        3..=5 => region(Kind::Iommu, 48),
        6..=8 => region(Kind::Reserve, u64::from(draw(rng, 16)) + 8),
        _ => {
            let target = RegionId(draw(rng, 3) + 6);
            let offset = u64::from(draw(rng, 8));
            region(Kind::Alias { target, offset }, u64::from(draw(rng, 8)) + 4)
        }
    }
}

/// A call that places a region: an IOMMU region in the container of its space, any other where it is drawn to.
fn placing(rng: &mut Lcg64Xsh32, number: u32) -> Call {
    match number {
        3..=5 => add(number.saturating_sub(3), u64::from(draw(rng, 16)), number),
        _ => add(draw(rng, 3), u64::from(draw(rng, 56)), number),
    }
}

/// A translation of a drawn page of 1 to 8 bytes.
fn translation(rng: &mut Lcg64Xsh32) -> Call {
    let shift = draw(rng, 4);
    let perm = match draw(rng, 12) {
        0 => Perm::Nothing,
        1 => Perm::Read,
        2 => Perm::Write,
        _ => Perm::Both,
    };
    let number = draw(rng, 3) + 3;
    let iova = u64::from(draw(rng, 48)) >> shift << shift;
    let space = SpaceId(draw(rng, 3));
    let translated = u64::from(draw(rng, 64));
    map(number, iova, 1 << shift, space, translated, perm)
}

/// Does a call in the transaction that is open; one that is refused changes nothing.
fn try_call<L: Ledger>(desk: &mut BackedDesk, one: &Call, steps: &mut Steps<L>) -> bool {
    apply(desk, one, steps).is_ok()
}

/// Publishes a drawn forest.
fn draw_forest<L: Ledger>(
    desk: &mut BackedDesk,
    rng: &mut Lcg64Xsh32,
    steps: &mut Steps<L>,
) -> Result<(), Refusal> {
    desk.begin()?;
    for number in 0..14 {
        try_call(desk, &building(rng, number), steps);
    }
    for number in 0..3 {
        try_call(desk, &space(SpaceId(number), number), steps);
    }
    for number in 3..14 {
        try_call(desk, &placing(rng, number), steps);
        let on = draw(rng, 2) == 0;
        let region = RegionId(number);
        try_call(desk, &Call::Unmergeable { region, on }, steps);
    }
    for _ in 0..60 {
        try_call(desk, &translation(rng), steps);
    }
    commit(desk, steps)
}

/// How many of the trails share the route of the first, at most as many as an access has addresses.
fn shared(trails: &[Trail]) -> usize {
    sharing(trails.get(..LEN).unwrap_or(trails))
}

/// Where a trail ends.
fn target_of(trail: &Trail) -> Target {
    match trail.leaf {
        Some(spot) => Target::Leaf(spot),
        None => Target::Unassigned,
    }
}

/// Whether the route of an access is the one of these trails: the first one's end and translations, and as many as share it.
fn is_route<L: Ledger>(
    g: &Generation,
    (space, addr, write): (SpaceId, u32, bool),
    trails: &[Trail],
    steps: &mut Steps<L>,
) -> bool {
    let Some(first) = trails.first() else {
        return false;
    };
    let route = route(g, space, u64::from(addr), LEN as u64, write, steps);
    let used = route.used.as_slice();
    for n in 0..used.len() {
        if !first.uses(n, &used[n]) {
            return false;
        }
    }
    used.len() == first.count()
        && route.target == target_of(first)
        && route.len == shared(trails) as u64
}

/// Counts a route, whether it uses two translations or more, and whether it ends before its access does.
fn count(counts: &mut Counts, trails: &[Trail]) {
    let is_chained = match trails.first() {
        Some(first) => first.count() > 1,
        None => false,
    };
    tick(counts, 0, true);
    tick(counts, 1, is_chained);
    tick(counts, 2, shared(trails) < LEN);
}

/// Whether the routes of all these trails are theirs.
fn are_routes<L: Ledger>(
    g: &Generation,
    (space, write): (SpaceId, bool),
    trails: &[Trail],
    counts: &mut Counts,
    steps: &mut Steps<L>,
) -> bool {
    for addr in 0..ADDRS as u32 {
        let rest = trails.get(addr as usize..).unwrap_or(&[]);
        count(counts, rest);
        if !is_route(g, (space, addr, write), rest, steps) {
            return false;
        }
    }
    true
}

/// Whether the routes of a space are the plain program's, by its trails of all addresses that are looked at.
fn agrees_by<L: Ledger>(
    alloc: Global,
    trails: &mut Vec<Trail>,
    desk: &BackedDesk,
    (space, write): (SpaceId, bool),
    counts: &mut Counts,
    steps: &mut Steps<L>,
) -> Result<bool, AllocError> {
    let all = (space, 0, write);
    put_trails(alloc, trails, desk.desk().tree(), all, ADDRS + LEN)?;
    let g = desk.desk().current();
    Ok(are_routes(g, (space, write), trails.as_slice(), counts, steps))
}

/// The same with a list of trails of its own.
fn agrees<L: Ledger>(
    alloc: Global,
    desk: &BackedDesk,
    way: (SpaceId, bool),
    counts: &mut Counts,
    steps: &mut Steps<L>,
) -> Result<bool, AllocError> {
    let mut trails = Vec::new(alloc);
    let is_so = agrees_by(alloc, &mut trails, desk, way, counts, steps);
    is_so
}

/// Whether those of the forest of a seed are.
pub(crate) fn are_routes_of<L: Ledger>(
    alloc: Global,
    desk: &mut BackedDesk,
    seed: u64,
    counts: &mut Counts,
    steps: &mut Steps<L>,
) -> Result<bool, Refusal> {
    let mut rng = Lcg64Xsh32::new(seed, 54);
    draw_forest(desk, &mut rng, steps)?;
    for number in 0..3 {
        let space = SpaceId(number);
        let read = agrees(alloc, desk, (space, false), counts, steps)?;
        let write = agrees(alloc, desk, (space, true), counts, steps)?;
        if !read || !write {
            return Ok(false);
        }
    }
    Ok(true)
}

#[test]
fn drawn_routes_are_those_of_a_plain_program(rt: HostRuntime) {
    let mut counts = [0; 8];
    for seed in 0..FORESTS {
        assert!(rt;
            comes_out(rt.alloc(), Trial::Routes(seed), &mut counts) == Ok(true),
            "{seed}"
        );
    }
    assert!(rt; counts[1] > 200 && counts[2] > 1000, "{counts:?}");
}
