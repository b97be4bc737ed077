// Regions with their places, address spaces, and all of them together.
ghost use Rattle.std.specs.Prelude.{◌≡◌, ◌↔◌, ◌<◌, [], None, Some, IsNone, IfSome, option_map, length, flat_map};
ghost use Rattle.std.specs.Arc.{arc_value};
ghost use Rattle.mem_base.specs.lists.Every.{Every};
ghost use Rattle.mem_base.specs.map.Chunks.{any_events, any_iommu};
ghost use Rattle.mem_base.specs.map.Region.{IsAscending, node_of};
ghost use Rattle.mem_base.specs.map.Search.{itself};

use crate::map::chunks::{
    Chunk, any_chunk_has_events, any_chunk_has_iommu, count_in, node_halved, node_near,
};
use crate::{Attrs, Client, Entries, Events, Kind, RegionId, Size, SpaceId, Spot};
use std::alloc::Global;
use std::marker::Model;
use std::sync::Arc;

/// A region of the forest, with its place in its container.
#[derive(Debug, Drop)]
pub struct Node {
    pub id: RegionId,
    pub kind: Kind,
    pub size: Size,
    /// The container that the region is a child of, if any.
    pub parent: Option<RegionId>,
    /// The offset in the container, in bytes.
    pub offset: u64,
    /// Of two children that hold an address, the one of higher priority is tried first.
    pub priority: i32,
    /// How many placings came before the one that put the region where it is.
    pub placing: u64,
    /// A region that is not enabled is left out wherever it stands.
    pub enabled: bool,
    pub readonly: bool,
    pub nonvolatile: bool,
    /// The ROM device mode: off for every region that is no ROM device.
    pub romd: bool,
    /// Whether ranges that are found through the region end where the path to their leaf changes.
    pub unmergeable: bool,
    /// The logging mask: a bit for each `Client`.
    pub log: u8,
    pub entries: Entries,
    pub events: Events,
}

impl Node {
    /// What the region itself answers at an offset in it, where no child does. `global` says whether global logging
    /// is on. A pure container and an alias have nothing of their own; a ROM is read-only.
    ///
    /// The region's own flags are not in the answer: they are added where the region is passed (`Attrs::passing`).
    pub fn own_spot(&self, global: bool, offset: u64) -> Option<Spot>
        ensures { itself global self.now.kind self.now offset ≡ option_map (λ spot. (spot, [])) result }
    {
        let logged = if global {
            self.log | Client::Migration.bit()
        } else {
            self.log
        };
        let (readonly, log) = match self.kind {
            Kind::Container | Kind::Alias { .. } => return None,
            Kind::Ram | Kind::RomDevice(_) | Kind::Host => (false, logged),
            Kind::Rom => (true, logged),
            Kind::Io(_) | Kind::Iommu | Kind::Reserve => (false, self.log),
        };
        Some(Spot {
            leaf: self.id,
            offset,
            attrs: Attrs {
                readonly,
                nonvolatile: false,
                romd: self.romd,
                unmergeable: false,
                log,
            },
        })
    }
}

/// Regions, by ascending id, in chunks that other forests may share.
#[derive(Debug, Drop)]
pub struct Nodes {
    chunks: Vec<Arc<Chunk, Global>>,
}

impl Model for Nodes {
    ghost use Rattle.std.specs.Prelude.{◌<◌, List, length, flat_map};
    ghost use Rattle.std.specs.Arc.{arc_value};
    ghost use Rattle.mem_base.specs.declared.map.forests.Node.{Node};

    ghost Value = { List Node };

    ghost use Rattle.mem_base.specs.lists.Every.{Every};
    ghost use Rattle.mem_base.specs.map.Region.{IsAscending};

    ghost view = { λ n. flat_map arc_value n.chunks.items };

    ghost invariant = { λ n. IsAscending (flat_map arc_value n.chunks.items) × Every (λ c. 0 < length (arc_value c)) n.chunks.items };
}

impl Nodes {
    /// The regions of these chunks. It takes no memory.
    pub fn new(chunks: Vec<Arc<Chunk, Global>>) -> Self
        requires ascending { IsAscending (flat_map arc_value chunks.items) }
        requires filled { Every (λ c. 0 < length (arc_value c)) chunks.items }
        ensures { result ≡ flat_map arc_value chunks.items }
    {
        Nodes { chunks }
    }

    /// All of them, by ascending id: the chunks, each with its regions.
    pub fn chunks(&self) -> &[Arc<Chunk, Global>]
        ensures value { flat_map arc_value result.now ≡ self.now }
        ensures filled { Every (λ c. 0 < length (arc_value c)) result.now }
        ensures ascending { IsAscending self.now }
    {
        self.chunks.as_slice()
    }

    /// A law: the regions stand by ascending id. It does nothing.
    pub fn knows_ascending(&self)
        ensures { IsAscending self.now }
    {
        let _ = &self.chunks;
    }

    /// How many there are. Each chunk is looked at.
    pub fn len(&self) -> usize
        ensures { result ≡ length self.now }
    {
        count_in(self.chunks())
    }

    /// Whether one of them is an IOMMU region. Each chunk is looked at, and no region.
    pub fn has_iommu(&self) -> bool
        ensures { result ≡ any_iommu self.now }
    {
        any_chunk_has_iommu(self.chunks())
    }

    /// Whether one of them has ioeventfds. Each chunk is looked at, and no region.
    pub fn has_events(&self) -> bool
        ensures { result ≡ any_events self.now }
    {
        any_chunk_has_events(self.chunks())
    }

    /// The region with this id, or `None` exactly where there is none: by one look where no region was dropped, since regions are
    /// numbered in the order in which they are made, and else by halving.
    pub fn get(&self, region: RegionId) -> Option<&Node>
        ensures none { IsNone result ↔ node_of self.now region ≡ None }
        ensures some { IfSome result (λ node. node_of self.now region ≡ Some node.now) }
    {
        let chunks = self.chunks();
        match node_near(chunks, region) {
            Some(node) => Some(node),
            None => node_halved(chunks, region),
        }
    }
}

/// The address spaces and their roots, in order of making.
#[derive(Debug, Drop)]
pub struct Spaces {
    items: Vec<(SpaceId, RegionId)>,
}

impl Model for Spaces {
    ghost use Rattle.std.specs.Prelude.{List};
    ghost use Rattle.mem_base.specs.declared.map.ids.SpaceId.{SpaceId};
    ghost use Rattle.mem_base.specs.declared.map.ids.RegionId.{RegionId};

    ghost Value = { List (SpaceId × RegionId) };

    ghost view = { λ s. s.items.items };
}

impl Spaces {
    /// These spaces, each with its root.
    pub fn new(items: Vec<(SpaceId, RegionId)>) -> Self
        ensures { result ≡ items.items }
    {
        Spaces { items }
    }

    /// All of them, in order of making.
    pub fn as_slice(&self) -> &[(SpaceId, RegionId)]
        ensures { result.now ≡ self.now }
    {
        self.items.as_slice()
    }

    /// All of them, in a vector. It takes no memory.
    pub fn into_vec(self) -> Vec<(SpaceId, RegionId)>
        ensures { result.items ≡ self }
    {
        self.items
    }
}

/// All regions and spaces, with the counts of what was done to them.
#[derive(Debug, Drop)]
pub struct Forest {
    pub nodes: Nodes,
    pub spaces: Spaces,
    /// How many regions were made, dropped ones included.
    pub made: u32,
    /// How many times a region was placed in a container or moved in it.
    pub placings: u64,
    /// How many calls were accepted.
    pub calls: u64,
    /// Whether global logging is on: QEMU's dirty tracking for migration.
    pub global: bool,
}
