// The search from a region down. An offset in a region has 128 bits here until it is known to lie in the region: an
// alias may shift an address past 2^64, where nothing is found.
ghost use Rattle.std.specs.Prelude.{◌≡◌, ◌+◌, ◌<◌, ◌≤◌, ◌^◌, ◌++◌, Some, IsSome, length};
ghost use Rattle.mem_base.specs.map.Region.{node_of};
ghost use Rattle.mem_base.specs.map.Order.{children_of};
ghost use Rattle.mem_base.specs.map.Forest.{IsOrderedForest};
ghost use Rattle.mem_base.specs.map.Limits.{most_depth};
ghost use Rattle.mem_base.specs.map.Search.{found_in, at_node, first_of_children, inside, flagged, spot_of, path_of};
ghost use Rattle.region_slots.specs.Told.{IsChild};
ghost use Rattle.tree_find.specs.Children.{tried, holds};

use mem_base::{Kind, Node, Path, RegionId, Spot};
use region_slots::Child;
use region_tree::Tree;

/// The spot that is found from a region at an offset in it, down to this depth. The regions passed go onto the path.
#[cycle(search)]
pub(crate) fn find_from(
    tree: &Tree,
    depth: u32,
    region: RegionId,
    at: u128,
    path: &mut Path,
) -> Option<Spot>
    requires { length path.old + depth ≤ most_depth }
    ensures spot { result ≡ spot_of (found_in tree.now depth region at) }
    ensures path { path.new ≡ path.old ++ path_of (found_in tree.now depth region at) }
    ensures forest { IsOrderedForest tree.now }
{
    let node = tree.node(region)?;
    find_in(tree, depth, node, at, path)
}

/// The same from a node.
#[cycle(search)]
fn find_in(tree: &Tree, depth: u32, node: &Node, at: u128, path: &mut Path) -> Option<Spot>
    requires known { node_of tree.now.nodes node.now.id ≡ Some node.now }
    requires forest { IsOrderedForest tree.now }
    requires room { length path.old + depth ≤ most_depth }
    ensures spot { result ≡ spot_of (found_in tree.now depth node.now.id at) }
    ensures path { path.new ≡ path.old ++ path_of (found_in tree.now depth node.now.id at) }
{
    if depth == 0 {
        return None;
    }
    find_at(tree, depth - 1, node, at, path)
}

/// One step of the search: a region that is disabled, or that the offset lies past, is left out.
#[cycle(search)]
fn find_at(tree: &Tree, depth: u32, node: &Node, at: u128, path: &mut Path) -> Option<Spot>
    requires known { IsSome (node_of tree.now.nodes node.now.id) }
    requires forest { IsOrderedForest tree.now }
    requires room { length path.old + depth + 1 ≤ most_depth }
    ensures spot { result ≡ spot_of (at_node tree.now (found_in tree.now depth) node.now at) }
    ensures path { path.new ≡ path.old ++ path_of (at_node tree.now (found_in tree.now depth) node.now at) }
{
    if !node.enabled {
        return None;
    }
    if at >= node.size.get() {
        return None;
    }
    let passed = path.len();
    path.push(node.id);
    match find_inside(tree, depth, node, at, path) {
        Some(spot) => Some(through(node, spot)),
        None => {
            path.truncate(passed);
            None
        }
    }
}

/// What is found inside a region, once the region is passed.
fn through(node: &Node, spot: Spot) -> Spot
    ensures { result ≡ flagged node.now spot }
{
    Spot {
        attrs: spot.attrs.passing(node),
        ..spot
    }
}

/// The search at an alias's target, or among a region's children and then in the region itself.
#[cycle(search)]
fn find_inside(tree: &Tree, depth: u32, node: &Node, at: u128, path: &mut Path) -> Option<Spot>
    requires known { IsSome (node_of tree.now.nodes node.now.id) }
    requires forest { IsOrderedForest tree.now }
    requires at { at < 2 ^ 64 }
    requires room { length path.old + depth ≤ most_depth }
    ensures spot { result ≡ spot_of (inside tree.now (found_in tree.now depth) node.now.kind node.now at) }
    ensures path { path.new ≡ path.old ++ path_of (inside tree.now (found_in tree.now depth) node.now.kind node.now at) }
{
    if let Kind::Alias { target, offset } = node.kind {
        return find_from(tree, depth, target, at + u128::from(offset), path);
    }
    let at = at as u64;
    match find_below(tree, depth, node.id, at, path) {
        Some(spot) => Some(spot),
        None => node.own_spot(tree.is_global(), at),
    }
}

/// The search among the children of a region, in the order in which they are tried.
#[cycle(search)]
fn find_below(tree: &Tree, depth: u32, region: RegionId, at: u64, path: &mut Path) -> Option<Spot>
    requires known { IsSome (node_of tree.now.nodes region) }
    requires forest { IsOrderedForest tree.now }
    requires room { length path.old + depth ≤ most_depth }
    ensures spot { result ≡ spot_of (first_of_children (found_in tree.now depth) (children_of tree.now.nodes region) at) }
    ensures path { path.new ≡ path.old ++ path_of (first_of_children (found_in tree.now depth) (children_of tree.now.nodes region) at) }
{
    for child in tree.placed_children(region) {
        if let Some(spot) = find_child(tree, depth, child, at, path) {
            return Some(spot);
        }
    }
    None
}

/// Whether a child holds an offset of its container. One test, which a processor foresees: that the offset lies below the
/// child is a distance past all that are possible, and nothing of a child lies past 2^64.
#[inline(always)]
fn holds(child: &Child, at: u64) -> bool
    ensures { result ≡ holds child.now at }
{
    at.wrapping_sub(child.offset) <= child.last.min(u64::MAX - child.offset)
}

/// The search in one child, at an offset in its container. A child that lies above the offset, or ends before it, is
/// passed over without a look at the region.
#[cycle(search)]
#[inline(always)]
fn find_child(tree: &Tree, depth: u32, child: &Child, at: u64, path: &mut Path) -> Option<Spot>
    requires child { IsChild tree.now.nodes child.now }
    requires room { length path.old + depth ≤ most_depth }
    ensures spot { result ≡ spot_of (tried (found_in tree.now depth) child.now at) }
    ensures path { path.new ≡ path.old ++ path_of (tried (found_in tree.now depth) child.now at) }
{
    if !holds(child, at) {
        return None;
    }
    find_from(tree, depth, child.id, u128::from(at - child.offset), path)
}
