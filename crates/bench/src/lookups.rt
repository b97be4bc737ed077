// How long the calls of a map take, its view and a walk to the next one, look-ups, routes, and the cutting of accesses.
ghost use Rattle.std.specs.Prelude.{◌≤◌, ◌+◌, ◌^◌};
ghost use Rattle.access_cut.specs.Conditions.{AreGood};

use crate::maps::Map;
use crate::times::{Bench, Failed, Lcg64Xsh32, Ledger, MICRO, NextWord, Result, drawn, sum_of};
use access_cut::{accesses, cut};
use flat_lookup::Atlas;
use flat_render::render;
use flat_simplify::simplify;
use generation::Generation;
use iommu::route;
use mem_base::{Call, Kind, Ops, SpaceId, Spot, Target, View};
use region_tree::Tree;
use tree_find::find;
use view_walk::walk;

impl<L: Ledger> Bench<L> {
    /// Builds a map, renders its view, moves each of its regions by a byte and back, and looks up a thousand addresses.
    pub fn run_tree(&mut self, map: &Map, views: u32) -> Result<()> {
        let (clock, rt, count) = (self.clock, self.clock.rt, map.calls.len());
        let moves = map.moves(rt, 1, 1)?;
        let (builds, (mut tree, refused)) = clock.least(1, MICRO, || built(rt, &map.calls));
        let (renders, view) = clock.least(views, 1, || self.view(&tree));
        let (moving, _) = clock.least(1, MICRO, || apply_all(&mut tree, &moves));
        let (finds, found) = clock.least(1, 1000, || find_all(&tree));
        drop(tree);
        let ranges = view?.as_slice().len();
        println!(rt; "{map}: calls {count}, refused {refused}, ranges {ranges}, found {found}")?;
        eprint!(rt; "{map}: calls {builds} us, moves {moving} us, ")?;
        Ok(eprintln!(rt; "a look-up {finds} ns, a view {renders} ns")?)
    }

    /// Looks up drawn addresses in the view of a map, fifty times as many as its size, and walks to the view after
    /// every sixteenth of its regions was moved by a page: the least of twenty times as many rounds.
    pub fn run_views(&mut self, map: &Map) -> Result<()> {
        let (mut tree, _) = built(self.clock.rt, &map.calls);
        let done = self.time_views(map, &mut tree);
        done
    }

    fn time_views(&mut self, map: &Map, tree: &mut Tree) -> Result<()> {
        let (clock, rt, count) = (self.clock, self.clock.rt, map.size.saturating_mul(50));
        let moves = map.moves(rt, 16, 0x1000)?;
        let addrs = drawn(rt, 2, count, 0x100_0000)?;
        let (mut atlases, mut looks, mut found) = (u64::MAX, u64::MAX, 0);
        for _ in 0..clock.rounds.saturating_mul(20) {
            let view = self.view(tree)?;
            let start = clock.begin();
            let atlas = Atlas::new(rt.alloc(), view);
            atlases = atlases.min(clock.since(start));
            let atlas = atlas.map_err(|_| Failed)?;
            let start = clock.begin();
            found = self.look_up(&atlas, &addrs);
            looks = looks.min(clock.since(start));
        }
        let old = self.view(tree)?;
        for pair in moves.chunks(2) {
            apply_all(tree, pair.get(..1).unwrap_or(&[]));
        }
        let new = self.view(tree)?;
        let (walks, steps) = clock.least(20, 1, || walk(rt.alloc(), &old, &new));
        let (ranges, looks) = (old.as_slice().len(), looks / 1000);
        drop(old);
        drop(new);
        let changes = steps?.as_slice().len();
        println!(rt; "{map} looked up: ranges {ranges}, found {found}, steps of a walk {changes}")?;
        eprint!(rt; "{map} looked up: an atlas {atlases} ns, ")?;
        Ok(eprintln!(rt; "{count} look-ups {looks} us, a walk {walks} ns")?)
    }

    fn view(&mut self, tree: &Tree) -> Result<View> {
        tree.root(SpaceId(0)).ok_or(Failed)?;
        let pieces = render(self.clock.rt.alloc(), tree, SpaceId(0), &mut self.steps)?;
        Ok(simplify(pieces))
    }

    fn look_up(&mut self, atlas: &Atlas, addrs: &[u32]) -> u64 {
        let steps = &mut self.steps;
        sum_of(addrs, |addr| value_of(atlas.at(u64::from(addr), steps)))
    }

    /// Makes routes of 8-byte reads at addresses of a map's memory, and cuts as many accesses to a register.
    pub fn run_routes(&mut self, map: &Map, g: &Generation, addrs: &[u32]) -> Result<()> {
        let (clock, rt, count) = (self.clock, self.clock.rt, addrs.len());
        let (routes, found) = clock.least(20, MICRO, || self.route_all(g, addrs));
        let (cuts, calls) = clock.least(20, MICRO, || cut_all(addrs));
        println!(rt; "{map} routed: accesses {count}, found {found}, callbacks at {calls}")?;
        Ok(eprintln!(rt; "{map} routed: {count} routes {routes} us, {count} cuts {cuts} us")?)
    }

    /// At most this many addresses of memory, drawn from the multiples of 8 in the 16 megabytes of generated maps.
    pub fn of_memory(&mut self, g: &Generation, count: u32) -> Result<Vec<u32>> {
        let (alloc, draws) = (self.clock.rt.alloc(), count.saturating_mul(64));
        let mut rng = Lcg64Xsh32::new(3, 54);
        let drawn = (0..draws).map(|_| rng.next_word().wrapping_mul(8) % 0x100_0000);
        let found = drawn.filter(|addr| matches!(self.kind_at(g, *addr), Some(Kind::Ram)));
        Ok(found.take(count as usize).collect(alloc)?)
    }

    fn kind_at(&mut self, g: &Generation, addr: u32) -> Option<Kind> {
        let spot = g.atlas(SpaceId(0))?.at(u64::from(addr), &mut self.steps)?;
        Some(g.node(spot.leaf)?.kind)
    }

    /// The regions and offsets that reads at these addresses lead to, with how many addresses share a route, added up.
    fn route_all(&mut self, g: &Generation, addrs: &[u32]) -> u64 {
        sum_of(addrs, |addr| {
            let way = route(g, SpaceId(0), u64::from(addr), 8, false, &mut self.steps);
            match way.target {
                Target::Leaf(spot) => value_of(Some(spot)).wrapping_add(way.len),
                Target::Unassigned => 0,
            }
        })
    }
}

/// The tree after these calls, and how many of them were refused.
fn built(rt: HostRuntime, calls: &[Call]) -> (Tree, u64) {
    let mut tree = Tree::new(rt.alloc());
    let refused = apply_all(&mut tree, calls);
    (tree, refused)
}

fn apply_all(tree: &mut Tree, calls: &[Call]) -> u64 {
    sum_of(calls, |call| u64::from(tree.apply(&call).is_err()))
}

/// Looks up a thousand addresses by the tree alone, and adds up what is found.
fn find_all(tree: &Tree) -> u64 {
    let mut sum: u64 = 0;
    for i in 0..1000_u64 {
        let addr = i.wrapping_mul(0x9e37_79b9) % 0x100_0000;
        sum = sum.wrapping_add(value_of(find(tree, SpaceId(0), addr)));
    }
    sum
}

/// The region and the offset that a look-up finds, added up.
fn value_of(found: Option<Spot>) -> u64 {
    found.map_or(0, |spot| spot.offset.wrapping_add(u64::from(spot.leaf.0)))
}

/// Cuts an access of 1 byte, 2 or 4 to a device at each of these offsets, and adds up where the callbacks are made.
fn cut_all(offsets: &[u32]) -> u64 {
    let (ops, mut sum) = (Ops::default(), 0u64);
    for offset in offsets {
        let len = 1 << (*offset / 8 % 3);
        sum = sum.wrapping_add(callbacks(&ops, u64::from(*offset), len));
    }
    sum
}

/// The offsets of the callbacks that do the first piece of an access, at most eight, with one for each, added up.
fn callbacks(ops: &Ops, offset: u64, len: u64) -> u64
    requires good { AreGood ops.now }
    requires within { offset + len ≤ 2 ^ 64 }
{
    let mut cuts = cut(ops, offset, len);
    let mut sum: u64 = 0;
    if let Some(piece) = cuts.next() {
        let mut places = accesses(ops, &piece);
        for _ in 0..8 {
            if let Some((at, _)) = places.next() {
                sum = sum.wrapping_add(at).wrapping_add(1);
            }
        }
    }
    sum
}
