// Regions of a forest in chunks, which forests share.
ghost use Rattle.std.specs.Prelude.{◌≡◌, ◌↔◌, ◌<◌, ◌≤◌, None, Some, IsNone, IfSome, length, flat_map};
ghost use Rattle.std.specs.List.{list_any};
ghost use Rattle.std.specs.Arc.{arc_value};
ghost use Rattle.mem_base.specs.lists.Every.{Every};
ghost use Rattle.mem_base.specs.map.Chunks.{any_events, any_iommu, first_id};
ghost use Rattle.mem_base.specs.map.Region.{IsAscending, node_of};

use crate::map::forests::Node;
use crate::map::ids::RegionId;
use std::alloc::Global;
use std::marker::Model;
use std::sync::Arc;

/// Regions of a forest, one after another: 1 to 64. A forest that is made of an older one shares with it the chunks in which nothing
/// changed.
#[derive(Debug, Drop)]
pub struct Chunk {
    items: Vec<Node>,
    first: RegionId,
    has_iommu: bool,
    has_events: bool,
}

impl Model for Chunk {
    ghost use Rattle.std.specs.Prelude.{List};
    ghost use Rattle.mem_base.specs.declared.map.forests.Node.{Node};

    ghost Value = { List Node };

    ghost use Rattle.mem_base.specs.map.Chunks.{IsChunk};

    ghost view = { λ c. c.items.items };

    ghost invariant = { λ c. IsChunk c.items.items c.first c.has_iommu c.has_events };
}

impl Chunk {
    /// The most regions of a chunk.
    pub const MOST: usize = 64;

    /// A chunk of these regions. It takes no memory.
    pub fn new(items: Vec<Node>) -> Chunk
        requires some { 0 < length items.items }
        requires few { length items.items ≤ 64 }
        ensures { result ≡ items.items }
    {
        let first = items[0].id;
        let has_iommu = any_iommu(items.as_slice());
        let has_events = any_events(items.as_slice());
        Chunk {
            items,
            first,
            has_iommu,
            has_events,
        }
    }

    /// Its regions, in order.
    pub fn as_slice(&self) -> &[Node]
        ensures value { result.now ≡ self.now }
        ensures some { 0 < length self.now }
        ensures few { length self.now ≤ 64 }
    {
        self.items.as_slice()
    }

    /// The id of its first region.
    pub fn first(&self) -> RegionId
        ensures { result.0 ≡ first_id self.now }
    {
        self.first
    }

    /// Whether one of its regions is an IOMMU region. No region is looked at.
    pub fn has_iommu(&self) -> bool
        ensures { result ≡ any_iommu self.now }
    {
        self.has_iommu
    }

    /// Whether one of its regions has ioeventfds. No region is looked at.
    pub fn has_events(&self) -> bool
        ensures { result ≡ any_events self.now }
    {
        self.has_events
    }
}

// Whether one of these regions is an IOMMU region.
fn any_iommu(nodes: &[Node]) -> bool
    ensures { result ≡ any_iommu nodes.now }
{
    nodes.iter().any(|node| node.kind.is_iommu())
}

// Whether one of these regions has ioeventfds.
fn any_events(nodes: &[Node]) -> bool
    ensures { result ≡ any_events nodes.now }
{
    nodes.iter().any(|node| !node.events.as_slice().is_empty())
}

/// Whether one of these chunks has an IOMMU region.
pub(crate) fn any_chunk_has_iommu(chunks: &[Arc<Chunk, Global>]) -> bool
    ensures { result ≡ list_any (λ c. any_iommu (arc_value c)) chunks.now }
{
    chunks.iter().any(|chunk| chunk.has_iommu())
}

/// Whether one of these chunks has a region with ioeventfds.
pub(crate) fn any_chunk_has_events(chunks: &[Arc<Chunk, Global>]) -> bool
    ensures { result ≡ list_any (λ c. any_events (arc_value c)) chunks.now }
{
    chunks.iter().any(|chunk| chunk.has_events())
}

/// How many regions these chunks have.
pub(crate) fn count_in(chunks: &[Arc<Chunk, Global>]) -> usize
    requires ascending { IsAscending (flat_map arc_value chunks.now) }
    requires filled { Every (λ c. 0 < length (arc_value c)) chunks.now }
    ensures { result ≡ length (flat_map arc_value chunks.now) }
{
    let mut count: usize = 0;
    for chunk in chunks {
        // Regions have different numbers, so those before this one are no more than its number.
        let first = chunk.first().0 as usize;
        prove!(count <= first);
        count += chunk.as_slice().len();
    }
    count
}

/// The region with this id where it would stand if all chunks but the last were full and no region was ever dropped; `None` where
/// it does not stand there.
pub(crate) fn node_near(chunks: &[Arc<Chunk, Global>], region: RegionId) -> Option<&Node>
    requires { IsAscending (flat_map arc_value chunks.now) }
    ensures { IfSome result (λ node. node_of (flat_map arc_value chunks.now) region ≡ Some node.now) }
{
    let number = region.0 as usize;
    let at = number / Chunk::MOST;
    if at >= chunks.len() {
        return None;
    }
    let nodes = chunks[at].as_slice();
    let place = number % Chunk::MOST;
    if place >= nodes.len() {
        return None;
    }
    let node = &nodes[place];
    if node.id.0 == region.0 {
        return Some(node);
    }
    None
}

/// The region with this id, or `None` exactly where there is none: by halving over the chunks, and then in one of them.
pub(crate) fn node_halved(chunks: &[Arc<Chunk, Global>], region: RegionId) -> Option<&Node>
    requires ascending { IsAscending (flat_map arc_value chunks.now) }
    requires filled { Every (λ c. 0 < length (arc_value c)) chunks.now }
    ensures none { IsNone result ↔ node_of (flat_map arc_value chunks.now) region ≡ None }
    ensures some { IfSome result (λ node. node_of (flat_map arc_value chunks.now) region ≡ Some node.now) }
{
    let after = chunks.partition_point(|chunk| chunk.first().0 <= region.0);
    if after == 0 {
        return None;
    }
    node_in(chunks[after - 1].as_slice(), region)
}

// The region with this id, of regions by ascending id.
fn node_in(nodes: &[Node], region: RegionId) -> Option<&Node>
    requires { IsAscending nodes.now }
    ensures none { IsNone result ↔ node_of nodes.now region ≡ None }
    ensures some { IfSome result (λ node. node_of nodes.now region ≡ Some node.now) }
{
    match nodes.binary_search_by_key(&region.0, |node| node.id.0) {
        Ok(i) => Some(&nodes[i]),
        Err(_) => None,
    }
}
