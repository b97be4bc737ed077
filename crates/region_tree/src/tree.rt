// The forest of regions: what it is seen as, and what it tells.

ghost use Rattle.std.specs.Prelude.{◌≡◌, ◌≤◌, [], length, filter, nat_lt, Option, None, Some, option_copied, IsSome, IfSome};
ghost use Rattle.std.specs.Prelude.{IfOk, OnOk, ◌++◌, ◌∷◌, if◌then◌else◌};
ghost use Rattle.std.specs.List.{list_any};
ghost use Rattle.mem_base.specs.map.Region.{IsAscending, node_of};
ghost use Rattle.mem_base.specs.map.Kinds.{is_iommu};
ghost use Rattle.mem_base.specs.map.Order.{children_of, ids_of};
ghost use Rattle.mem_base.specs.map.Refusals.{targets};
ghost use Rattle.mem_base.specs.map.Search.{root_of};
ghost use Rattle.mem_base.specs.map.Forest.{IsOrderedForest, IsClosedForest};
ghost use Rattle.mem_base.specs.map.Calls.{empty};
ghost use Rattle.mem_base.specs.map.Limits.{most_depth, most_weight};
ghost use Rattle.mem_base.specs.map.Steps.{reaches, depth_of, weight_of};
ghost use Rattle.mem_base.specs.map.Touched.{reached};
ghost use Rattle.region_slots.specs.Slots.{nodes_of, placed_of};
ghost use Rattle.region_extents.specs.Kept.{aliases_of, aliases_in};
ghost use Rattle.node_chunks.specs.Near.{OthersAre};
ghost use Rattle.region_tree.specs.Reach.{picked};

use mem_base::{Forest, MOST_DEPTH, Node, Nodes, RegionId, SpaceId, Spaces};
use node_chunks::{Features, is_sparse, nodes_anew, nodes_near};
use region_extents::{Ids, Kept, depth_within, kept_extent, mark_within, weight_within};
use region_slots::{Child, Slot, Slots, place_of};
use std::alloc::{AllocError, Global};
use std::marker::Model;

/// The forest of regions and the address spaces over it.
///
/// It is seen as a `Forest`. A region is found by one look at its place as long as none was dropped, and else in time
/// that grows with the logarithm of the number of regions. Depth and weight are kept: a change looks only at what
/// stands above it.
#[derive(Debug, Drop)]
pub struct Tree {
    pub(crate) alloc: Global,
    pub(crate) slots: Slots,
    pub(crate) kept: Kept,
    pub(crate) spaces: Vec<(SpaceId, RegionId)>,
    pub(crate) made: u32,
    pub(crate) placings: u64,
    pub(crate) calls: u64,
    pub(crate) global: bool,
}

impl Model for Tree {
    ghost use Rattle.mem_base.specs.declared.map.forests.Forest.{Forest};

    ghost Value = { Forest };

    ghost use Rattle.region_tree.specs.Tree.{forest_of, IsTree};

    ghost view = { forest_of };

    ghost invariant = { IsTree };
}

/// The same spaces once more.
fn copied_spaces(spaces: &Vec<(SpaceId, RegionId)>) -> Result<Vec<(SpaceId, RegionId)>, AllocError>
    ensures { IfOk result (λ copy. copy.items ≡ spaces.now.items) }
{
    Ok(spaces.clone()?)
}

impl Tree {
    /// The empty forest: no region, no space, and nothing done yet. It takes no memory.
    pub fn new(alloc: Global) -> Tree
        ensures { result ≡ empty }
    {
        Tree {
            alloc,
            slots: Slots::new(alloc),
            kept: Kept::new(alloc),
            spaces: Vec::new(alloc),
            made: 0,
            placings: 0,
            calls: 0,
            global: false,
        }
    }

    /// The region with this id, or `None` where it is not in the forest.
    pub fn node(&self, region: RegionId) -> Option<&Node>
        ensures value { option_copied result ≡ node_of self.now.nodes region }
        ensures forest { IsOrderedForest self.now }
        ensures sound { IsClosedForest self.now }
    {
        self.slots.get(region)
    }

    /// The children of a region, in the order in which they are tried: by priority descending, and among
    /// equals the one that was placed last first.
    ///
    /// QEMU's manual, "The memory API", "Overlapping regions and priority", and QEMU's core.
    pub fn children(&self, region: RegionId) -> &[RegionId]
        requires { IsSome (node_of self.now.nodes region) }
        ensures { result.now ≡ ids_of (children_of self.now.nodes region) }
    {
        self.slots.child_ids(region)
    }

    /// The children of a region, in the same order, each with its offset, its last offset and its priority: what a search
    /// and a rendering need of a child before they look at the region itself.
    pub fn placed_children(&self, region: RegionId) -> &[Child]
        requires { IsSome (node_of self.now.nodes region) }
        ensures { result.now ≡ placed_of (children_of self.now.nodes region) }
    {
        self.slots.children(region).as_slice()
    }

    /// The root of a space, or `None` where there is no such space.
    pub fn root(&self, space: SpaceId) -> Option<RegionId>
        ensures { result ≡ root_of self.now space }
    {
        for (s, root) in self.spaces.iter() {
            if s.0 == space.0 {
                return Some(*root);
            }
        }
        None
    }

    /// Whether global logging is on.
    pub fn is_global(&self) -> bool
        ensures { result ≡ self.now.global }
    {
        self.global
    }

    /// The number of accepted calls.
    pub(crate) fn calls(&self) -> u64
        ensures { result ≡ self.now.calls }
    {
        self.calls
    }

    /// The number of regions made.
    pub(crate) fn made(&self) -> u32
        ensures { result ≡ self.now.made }
    {
        self.made
    }

    /// The spaces and their roots, in order of making.
    pub(crate) fn spaces(&self) -> &[(SpaceId, RegionId)]
        ensures { result.now ≡ self.now.spaces }
    {
        self.spaces.as_slice()
    }

    /// All regions, by ascending id.
    pub(crate) fn slots(&self) -> &Slots
        ensures { result.now ≡ self.now.nodes }
    {
        &self.slots
    }

    /// The regions on the longest path of steps from a region to a child, or from an alias to its target.
    ///
    /// It takes no memory. Flags do not count.
    pub fn depth(&self, region: RegionId) -> u32
        requires { IsSome (node_of self.now.nodes region) }
        ensures value { result ≡ depth_of self.now.nodes region }
        ensures within { result ≤ most_depth }
    {
        let _ = &self.alloc;
        match kept_extent(self.slots.as_slice(), &self.kept, region) {
            Some(extent) => extent.depth,
            None => depth_within(&self.slots, 2 * MOST_DEPTH, region),
        }
    }

    /// 1 plus the weights of all children of a region, and for an alias 1 plus the weight of its target.
    ///
    /// It takes no memory. Flags do not count.
    pub fn weight(&self, region: RegionId) -> u64
        requires { IsSome (node_of self.now.nodes region) }
        ensures value { result ≡ weight_of self.now.nodes region }
        ensures within { result ≤ most_weight }
    {
        let _ = &self.alloc;
        match kept_extent(self.slots.as_slice(), &self.kept, region) {
            Some(extent) => extent.weight,
            None => weight_within(&self.slots, 2 * MOST_DEPTH, region),
        }
    }

    /// The aliases of a region, by ascending id; `None` where it is not in the forest, or where they are not kept since memory ran out.
    ///
    /// It takes no memory.
    pub fn aliases(&self, region: RegionId) -> Option<&[RegionId]>
        ensures { IfSome result (λ ids. ids.now ≡ ids_of (filter (λ n. targets region n.kind) self.now.nodes)) }
    {
        let _ = &self.alloc;
        if !self.kept.fresh {
            return None;
        }
        aliases_at(self.slots.as_slice(), self.kept.aliases.as_slice(), region)
    }

    /// The regions that are reached in a space, by ascending id: its root, and the children and the alias target of each
    /// reached region. The list is empty where there is no such space.
    ///
    /// It fails only where memory runs out.
    pub fn reach(&self, space: SpaceId) -> Result<Vec<RegionId>, AllocError>
        ensures { IfOk result (λ list. list.items ≡ reached self.now space) }
    {
        match self.root(space) {
            Some(root) => Ok(reached_from(self.alloc, &self.slots, root)?),
            None => Ok(Vec::new(self.alloc)),
        }
    }

    /// A tree of the same forest, which shares nothing with this one.
    pub fn try_copy(&self) -> Result<Tree, AllocError>
        ensures { IfOk result (λ copy. copy ≡ self.now) }
    {
        let slots = self.slots.try_copy(self.alloc)?;
        let kept = self.kept.try_copy(self.alloc)?;
        let spaces = copied_spaces(&self.spaces)?;
        Ok(Tree {
            alloc: self.alloc,
            slots,
            kept,
            spaces,
            made: self.made,
            placings: self.placings,
            calls: self.calls,
            global: self.global,
        })
    }

    /// The forest that the tree is seen as.
    pub fn forest(&self) -> Result<Forest, AllocError>
        ensures { IfOk result (λ forest. forest ≡ self.now) }
    {
        let (forest, _) = self.forest_with_features()?;
        Ok(forest)
    }

    /// The forest that the tree is seen as, and what a generation asks of all its regions.
    pub fn forest_with_features(&self) -> Result<(Forest, Features), AllocError>
        ensures forest { IfOk result (λ both. both.0 ≡ self.now) }
        ensures iommu { IfOk result (λ both. both.1.has_iommu ≡ list_any (λ n. is_iommu n.kind) self.now.nodes) }
        ensures events { IfOk result (λ both. both.1.with_events.items ≡ ids_of (filter (λ n. nat_lt 0 (length n.events)) self.now.nodes)) }
    {
        let both = self.forest_of(nodes_anew(self.alloc, self.slots.as_slice())?)?;
        Ok(both)
    }

    /// What `forest_with_features` gives, where a forest is at hand that differs from the tree in some regions alone. Of its chunks of
    /// regions the new forest shares those in which no region changed.
    pub fn forest_after(
        &self,
        old: &Forest,
        changed: &[RegionId],
    ) -> Result<(Forest, Features), AllocError>
        requires { OthersAre old.now.nodes self.now.nodes changed.now }
        ensures forest { IfOk result (λ both. both.0 ≡ self.now) }
        ensures iommu { IfOk result (λ both. both.1.has_iommu ≡ list_any (λ n. is_iommu n.kind) self.now.nodes) }
        ensures events { IfOk result (λ both. both.1.with_events.items ≡ ids_of (filter (λ n. nat_lt 0 (length n.events)) self.now.nodes)) }
    {
        let slots = self.slots.as_slice();
        if is_sparse(old.nodes.chunks().len(), slots.len()) {
            let both = self.forest_with_features()?;
            return Ok(both);
        }
        let both = self.forest_of(nodes_near(self.alloc, &old.nodes, changed, slots)?)?;
        Ok(both)
    }

    // The forest that the tree is seen as, by its regions, and what a generation asks of them.
    fn forest_of(&self, nodes: Nodes) -> Result<(Forest, Features), AllocError>
        requires { nodes ≡ self.now.nodes }
        ensures forest { IfOk result (λ both. both.0 ≡ self.now) }
        ensures iommu { IfOk result (λ both. both.1.has_iommu ≡ list_any (λ n. is_iommu n.kind) self.now.nodes) }
        ensures events { IfOk result (λ both. both.1.with_events.items ≡ ids_of (filter (λ n. nat_lt 0 (length n.events)) self.now.nodes)) }
    {
        let features = Features::of(self.alloc, &nodes)?;
        let forest = Forest {
            nodes,
            spaces: Spaces::new(self.spaces.clone()?),
            made: self.made,
            placings: self.placings,
            calls: self.calls,
            global: self.global,
        };
        Ok((forest, features))
    }
}

/// The aliases of a region, of a list for each region.
fn aliases_at<'a>(slots: &[Slot], lists: &'a [Ids], region: RegionId) -> Option<&'a [RegionId]>
    requires ascending { IsAscending (nodes_of slots.now) }
    requires lists { lists.now ≡ aliases_in (nodes_of slots.now) }
    ensures { IfSome result (λ ids. ids.now ≡ aliases_of (nodes_of slots.now) region) }
{
    let at = place_of(slots, region)?;
    Some(lists[at].as_slice())
}

/// The regions that are reached from one of them, by ascending id.
fn reached_from(alloc: Global, slots: &Slots, root: RegionId) -> Result<Vec<RegionId>, AllocError>
    ensures { IfOk result (λ list. list.items ≡ ids_of (filter (λ n. reaches slots.now root n.id) slots.now)) }
{
    let mut marks = vec![in alloc; false; slots.len()]?;
    mark_within(slots, 2 * MOST_DEPTH, root, &mut marks);
    let list = picked(alloc, slots.as_slice(), &marks)?;
    Ok(list)
}

/// The regions that have a mark beside them.
fn picked(alloc: Global, slots: &[Slot], marks: &[bool]) -> Result<Vec<RegionId>, AllocError>
    requires { length marks.now ≡ length slots.now }
    ensures { IfOk result (λ list. list.items ≡ picked (nodes_of slots.now) marks.now) }
{
    let mut list = Vec::new(alloc);
    for (at, slot) in slots.iter().enumerate() {
        pick(&mut list, slot.node.id, marks[at])?;
    }
    Ok(list)
}

/// Puts a region after those that were picked, if it has a mark.
fn pick(list: &mut Vec<RegionId>, region: RegionId, mark: bool) -> Result<(), AllocError>
    ensures { OnOk result (list.new.items ≡ list.old.items ++ (if mark then region ∷ [] else [])) }
{
    if mark {
        list.push(region)?;
    }
    Ok(())
}
