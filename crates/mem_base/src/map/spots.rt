// What a search finds.
ghost use Rattle.std.specs.Prelude.{◌≡◌};
ghost use Rattle.mem_base.specs.map.Attributes.{passing};

use crate::{Node, RegionId};

/// What a leaf is like where it was reached.
#[derive(Clone, Copy, Debug, PartialEq, Eq)]
pub struct Attrs {
    /// Read-only, by the leaf or by a region passed on the way to it.
    pub readonly: bool,
    /// Non-volatile, likewise.
    pub nonvolatile: bool,
    /// The ROM device mode of the leaf.
    pub romd: bool,
    /// Whether the leaf or a region passed on the way to it keeps its ranges apart: such ranges end where the path
    /// to the leaf changes.
    pub unmergeable: bool,
    /// The logging mask of the leaf: a bit for each `Client`.
    pub log: u8,
}

impl Attrs {
    /// The attributes of what is found inside a region, once the region is passed: read-only, non-volatile and
    /// unmergeable hold of all that is reached through a region that has them.
    pub fn passing(self, node: &Node) -> Attrs
        ensures { result ≡ passing node.now self }
    {
        Attrs {
            readonly: node.readonly || self.readonly,
            nonvolatile: node.nonvolatile || self.nonvolatile,
            romd: self.romd,
            unmergeable: node.unmergeable || self.unmergeable,
            log: self.log,
        }
    }
}

/// A byte of a region: the answer of a search.
#[derive(Clone, Copy, Debug, PartialEq, Eq)]
pub struct Spot {
    /// The region that answers.
    pub leaf: RegionId,
    /// The offset in it, in bytes.
    pub offset: u64,
    pub attrs: Attrs,
}
