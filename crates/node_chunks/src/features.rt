// What a generation asks of all regions of a forest.
ghost use Rattle.std.specs.Prelude.{◌≡◌, ◌++◌, nat_lt, length, filter, OnOk, IfOk};
ghost use Rattle.std.specs.List.{list_any};
ghost use Rattle.mem_base.specs.map.Kinds.{is_iommu};
ghost use Rattle.mem_base.specs.map.Order.{ids_of};

use mem_base::{Chunk, Node, Nodes, RegionId};
use std::alloc::{AllocError, Global};

/// What a generation asks of all regions of a forest.
#[derive(Debug, Drop)]
pub struct Features {
    /// Whether some region is an IOMMU region.
    pub has_iommu: bool,
    /// The regions that have ioeventfds, by ascending id.
    pub with_events: Vec<RegionId>,
}

impl Features {
    /// Those of these regions. Only chunks in which a region has ioeventfds are gone through.
    pub fn of(alloc: Global, nodes: &Nodes) -> Result<Features, AllocError>
        ensures iommu { IfOk result (λ features. features.has_iommu ≡ list_any (λ n. is_iommu n.kind) nodes.now) }
        ensures events { IfOk result (λ features. features.with_events.items ≡ ids_of (filter (λ n. nat_lt 0 (length n.events)) nodes.now)) }
    {
        Ok(Features {
            has_iommu: nodes.has_iommu(),
            with_events: with_events(alloc, nodes)?,
        })
    }
}

// Puts the ids of those of these regions that have ioeventfds behind the ids that are there.
fn push_with_events(list: &mut Vec<RegionId>, nodes: &[Node]) -> Result<(), AllocError>
    ensures { OnOk result (list.new.items ≡ list.old.items ++ ids_of (filter (λ n. nat_lt 0 (length n.events)) nodes.now)) }
{
    for node in nodes {
        if !node.events.as_slice().is_empty() {
            list.push(node.id)?;
        }
    }
    Ok(())
}

// The same for the regions of a chunk: none of them is looked at where none has ioeventfds.
fn push_of_chunk(list: &mut Vec<RegionId>, chunk: &Chunk) -> Result<(), AllocError>
    ensures { OnOk result (list.new.items ≡ list.old.items ++ ids_of (filter (λ n. nat_lt 0 (length n.events)) chunk.now)) }
{
    if !chunk.has_events() {
        return Ok(());
    }
    push_with_events(list, chunk.as_slice())?;
    Ok(())
}

// The regions that have ioeventfds, by ascending id.
fn with_events(alloc: Global, nodes: &Nodes) -> Result<Vec<RegionId>, AllocError>
    ensures { IfOk result (λ list. list.items ≡ ids_of (filter (λ n. nat_lt 0 (length n.events)) nodes.now)) }
{
    let mut list = Vec::new(alloc);
    let chunks = nodes.chunks();
    for chunk in chunks {
        push_of_chunk(&mut list, chunk)?;
    }
    Ok(list)
}
