// Regions beside the lists of their children.

ghost use Rattle.std.specs.Prelude.{◌≡◌, ◌≢◌, ◌+◌, ◌++◌, ◌∷◌, ◌<◌, List, [], true, false, length, filter, not, slice_index_or};
ghost use Rattle.std.specs.Prelude.{Some, None, IsSome, OnOk, OnErr, IfOk, MatchOption, option_copied};
ghost use Rattle.mem_base.specs.declared.map.forests.Node.{Node as N};
ghost use Rattle.mem_base.specs.declared.map.forests.Forest.{Forest};
ghost use Rattle.mem_base.specs.lists.Every.{Every};
ghost use Rattle.mem_base.specs.map.Region.{node_of, has_id, is_in, is_child_of};
ghost use Rattle.mem_base.specs.map.Order.{children_of, ids_of};
ghost use Rattle.mem_base.specs.map.Region.{IsAscending};
ghost use Rattle.mem_base.specs.map.Changes.{changed_at, placed, moved, moves};
ghost use Rattle.mem_base.specs.map.Edits.{edited};
ghost use Rattle.region_slots.specs.Edits.{Allows, new_size};
ghost use Rattle.region_slots.specs.Slots.{nodes_of, placed_of, AreKept, AreIn};

use crate::children::{Child, Children, last_in};
use crate::edits::{edit, new_size};
use mem_base::{Call, Node, RegionId, Size};
use std::alloc::{AllocError, Global};
use std::marker::Model;

/// A region and its children.
#[derive(Debug, Drop)]
pub struct Slot {
    pub node: Node,
    pub children: Children,
}

impl Slot {
    /// The same region with the same children once more.
    pub fn try_copy(&self) -> Result<Slot, AllocError>
        ensures { IfOk result (λ copy. copy ≡ self.now) }
    {
        Ok(Slot {
            node: copied(&self.node)?,
            children: self.children.try_copy()?,
        })
    }
}

/// The same region once more. It is inlined, so that it is made where it is to stand: else it is written to memory field by field
/// and read back at once in wider pieces, for which a processor waits until all of it is written.
#[inline(always)]
pub fn copied(node: &Node) -> Result<Node, AllocError>
    ensures { IfOk result (λ copy. copy ≡ node.now) }
{
    Ok(Node {
        id: node.id,
        kind: node.kind,
        size: node.size,
        parent: node.parent,
        offset: node.offset,
        priority: node.priority,
        placing: node.placing,
        enabled: node.enabled,
        readonly: node.readonly,
        nonvolatile: node.nonvolatile,
        romd: node.romd,
        unmergeable: node.unmergeable,
        log: node.log,
        entries: node.entries.try_copy()?,
        events: node.events.try_copy()?,
    })
}

/// The index of a region. As long as none was dropped, a region stands at the index that is its id.
pub fn place_of(slots: &[Slot], region: RegionId) -> Option<usize>
    requires { IsAscending (nodes_of slots.now) }
    ensures { MatchOption result (node_of (nodes_of slots.now) region ≡ None) (λ i.
        (i < length slots.now) × ((d : _) → node_of (nodes_of slots.now) region ≡ Some (slice_index_or slots.now i d).node)) }
{
    let guess = region.0 as usize;
    if guess < slots.len() && slots[guess].node.id.0 == region.0 {
        return Some(guess);
    }
    match slots.binary_search_by_key(&region.0, |slot| slot.node.id.0) {
        Ok(i) => Some(i),
        Err(_) => None,
    }
}

/// The index of the region's container, if there is one.
fn place_of_container(slots: &[Slot], parent: Option<RegionId>) -> Option<usize>
    requires { IsAscending (nodes_of slots.now) }
    ensures { MatchOption result (Every (λ s. is_in s.node.id parent ≡ false) slots.now) (λ i.
        (i < length slots.now) × ((d : _) → is_in (slice_index_or slots.now i d).node.id parent ≡ true)) }
{
    match parent {
        Some(container) => place_of(slots, container),
        None => None,
    }
}

/// Regions by ascending id, each beside its children in the order of search.
#[derive(Debug, Drop)]
pub struct Slots {
    items: Vec<Slot>,
}

impl Model for Slots {
    ghost use Rattle.std.specs.Prelude.{List};
    ghost use Rattle.mem_base.specs.declared.map.forests.Node.{Node};

    ghost Value = { List Node };

    ghost use Rattle.mem_base.specs.map.Edits.{edited};
    ghost use Rattle.region_slots.specs.Edits.{Allows};
    ghost use Rattle.region_slots.specs.Slots.{nodes_of, AreKept};

    ghost view = { λ s. nodes_of s.items.items };

    ghost invariant = { λ s. AreKept s.items.items };
}

impl Slots {
    /// No region.
    pub fn new(alloc: Global) -> Self
        ensures { result ≡ [] }
    {
        Slots {
            items: Vec::new(alloc),
        }
    }

    /// All of them, each with its children.
    pub fn as_slice(&self) -> &[Slot]
        ensures nodes { nodes_of result.now ≡ self.now }
        ensures kept { AreKept result.now }
    {
        self.items.as_slice()
    }

    /// How many regions there are.
    pub fn len(&self) -> usize
        ensures { result ≡ length self.now }
    {
        self.items.len()
    }

    /// The region with this id.
    pub fn get(&self, region: RegionId) -> Option<&Node>
        ensures { option_copied result ≡ node_of self.now region }
    {
        match place_of(&self.items, region) {
            Some(i) => Some(&self.items[i].node),
            None => None,
        }
    }

    /// The children of a region, in the order of search.
    pub fn children(&self, region: RegionId) -> &Children
        requires { IsSome (node_of self.now region) }
        ensures { result.now ≡ placed_of (children_of self.now region) }
    {
        match place_of(&self.items, region) {
            Some(i) => &self.items[i].children,
            None => unreachable!(),
        }
    }

    /// The ids of the children of a region, in the order of search.
    pub fn child_ids(&self, region: RegionId) -> &[RegionId]
        requires { IsSome (node_of self.now region) }
        ensures { result.now ≡ ids_of (children_of self.now region) }
    {
        self.children(region).ids()
    }

    /// Adds a region after all that there are. It is in no container and has no children.
    pub fn push(&mut self, alloc: Global, node: Node) -> Result<(), AllocError>
        requires last { Every (λ n. n.id.0 < node.id.0) self.old }
        requires free { node.parent ≡ None }
        requires childless { children_of self.old node.id ≡ [] }
        ensures ok { OnOk result (self.new ≡ self.old ++ node ∷ []) }
        ensures err { OnErr result (self.new ≡ self.old) }
    {
        let children = Children::new(alloc);
        self.items.push(Slot { node, children })?;
        Ok(())
    }

    /// Places a region in a container.
    pub fn place(
        &mut self,
        parent: RegionId,
        offset: u64,
        child: RegionId,
        priority: i32,
        placing: u64,
    ) -> Result<(), AllocError>
        requires forest { (f : Forest) × AreIn f self.old placing }
        requires apart { parent.0 ≢ child.0 }
        requires parent { IsSome (node_of self.old parent) }
        requires child { (m : N) × (node_of self.old child ≡ Some m) × (m.parent ≡ None) }
        ensures ok { OnOk result (self.new ≡ changed_at child (placed parent offset priority placing) self.old) }
        ensures err { OnErr result (self.new ≡ self.old) }
    {
        let Some(above) = place_of(&self.items, parent) else {
            unreachable!()
        };
        let Some(below) = place_of(&self.items, child) else {
            unreachable!()
        };
        let last = last_in(self.items[below].node.size);
        let placed = Child {
            id: child,
            priority,
            offset,
            last,
        };
        let rank = self.items[above].children.rank(priority);
        self.items[above].children.insert(rank, placed)?;
        let node = &mut self.items[below].node;
        node.parent = Some(parent);
        node.offset = offset;
        node.priority = priority;
        node.placing = placing;
        Ok(())
    }

    /// Takes a region out of its container.
    pub fn take_out(&mut self, parent: RegionId, child: RegionId)
        requires child { (m : N) × (node_of self.old child ≡ Some m) × (is_child_of parent m ≡ true) }
        requires parent { IsSome (node_of self.old parent) }
        ensures { self.new ≡ changed_at child (λ n. record n { parent = None }) self.old }
    {
        let Some(above) = place_of(&self.items, parent) else {
            unreachable!()
        };
        let Some(below) = place_of(&self.items, child) else {
            unreachable!()
        };
        self.items[above].children.remove(child);
        self.items[below].node.parent = None;
    }

    /// Moves a region to another offset of its container, as the one that was placed last, and says how many
    /// placings that was: none where the region is at this offset already.
    pub fn shift(&mut self, child: RegionId, offset: u64, placing: u64) -> Result<u64, AllocError>
        requires forest { (f : Forest) × AreIn f self.old placing }
        requires child { (m : N) × (p : N) × (node_of self.old child ≡ Some m) × (m.parent ≡ Some p.id) × (node_of self.old p.id ≡ Some p) }
        ensures ok { OnOk result (self.new ≡ changed_at child (moved offset placing) self.old) }
        ensures placings { IfOk result (λ count. count ≡ moves offset (node_of self.old child)) }
        ensures err { OnErr result (self.new ≡ self.old) }
    {
        let Some(below) = place_of(&self.items, child) else {
            unreachable!()
        };
        if self.items[below].node.offset == offset {
            return Ok(0);
        }
        let Some(parent) = self.items[below].node.parent else {
            unreachable!()
        };
        let Some(above) = place_of(&self.items, parent) else {
            unreachable!()
        };
        let priority = self.items[below].node.priority;
        let last = last_in(self.items[below].node.size);
        let moved = Child {
            id: child,
            priority,
            offset,
            last,
        };
        self.items[above].children.replace(moved)?;
        let node = &mut self.items[below].node;
        node.offset = offset;
        node.placing = placing;
        Ok(1)
    }

    /// Changes the fields of a region as the call says; a region that is not there stays so.
    pub fn edit(&mut self, region: RegionId, call: &Call) -> Result<(), AllocError>
        requires { (n : N) → node_of self.old region ≡ Some n → Allows call.now n }
        ensures ok { OnOk result (self.new ≡ changed_at region (edited call.now) self.old) }
        ensures err { OnErr result (self.new ≡ self.old) }
    {
        match new_size(call) {
            Some(size) => {
                self.resize(region, size);
                Ok(())
            }
            None => Ok(self.edit_in_place(region, call)?),
        }
    }

    /// The same for a call that leaves the size as it is.
    fn edit_in_place(&mut self, region: RegionId, call: &Call) -> Result<(), AllocError>
        requires allowed { (n : N) → node_of self.old region ≡ Some n → Allows call.now n }
        requires same_size { new_size call.now ≡ None }
        ensures ok { OnOk result (self.new ≡ changed_at region (edited call.now) self.old) }
        ensures err { OnErr result (self.new ≡ self.old) }
    {
        match place_of(&self.items, region) {
            Some(i) => Ok(edit(&mut self.items[i].node, call)?),
            None => Ok(()),
        }
    }

    /// Gives a region another size; a region that is not there stays so.
    fn resize(&mut self, region: RegionId, size: Size)
        ensures { self.new ≡ changed_at region (λ n. record n { size = size }) self.old }
    {
        let Some(below) = place_of(&self.items, region) else {
            return;
        };
        let parent = self.items[below].node.parent;
        match place_of_container(&self.items, parent) {
            Some(above) => {
                self.items[above].children.resize(region, last_in(size));
                self.items[below].node.size = size;
            }
            None => self.items[below].node.size = size,
        }
    }

    /// Removes a region, which is in no container.
    pub fn remove(&mut self, region: RegionId)
        requires free { (m : N) × (node_of self.old region ≡ Some m) × (m.parent ≡ None) }
        ensures { self.new ≡ filter (λ n. not (has_id region n)) self.old }
    {
        if let Some(i) = place_of(&self.items, region) {
            let _ = self.items.remove(i);
        }
    }

    /// The same regions once more.
    pub fn try_copy(&self, alloc: Global) -> Result<Slots, AllocError>
        ensures { IfOk result (λ copy. copy ≡ self.now) }
    {
        let mut items = Vec::new(alloc);
        for slot in self.items.as_slice() {
            items.push(slot.try_copy()?)?;
        }
        Ok(Slots { items })
    }
}
