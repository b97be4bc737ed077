// Paths of regions.
ghost use Rattle.std.specs.Prelude.{◌≡◌, ◌+◌, ◌<◌, ◌≤◌, ◌↔◌, List, [], ◌∷◌, ◌++◌, IsTrue, length, take};
ghost use Rattle.mem_base.specs.map.Limits.{most_depth};

use crate::{MOST_DEPTH, RegionId};
use std::marker::Model;

/// The most regions on a path: the greatest depth of a forest.
const MOST: usize = MOST_DEPTH as usize;

/// The regions that a search passes, from the root to the leaf: at most `MOST_DEPTH`.
#[derive(Debug, Drop)]
pub struct Path {
    len: u8,
    steps: [RegionId; MOST],
}

impl Model for Path {
    ghost use Rattle.std.specs.Prelude.{List, take, ◌≤◌};
    ghost use Rattle.mem_base.specs.declared.map.ids.RegionId.{RegionId};
    ghost use Rattle.mem_base.specs.map.Limits.{most_depth};

    ghost Value = { List RegionId };

    ghost view = { λ p. take p.len p.steps };

    ghost invariant = { λ p. p.len ≤ most_depth };
}

impl Path {
    /// No region.
    pub fn new() -> Path
        ensures { result ≡ [] }
    {
        Path {
            len: 0,
            steps: [RegionId(0); MOST],
        }
    }

    /// The regions, from the root to the leaf.
    pub fn as_slice(&self) -> &[RegionId]
        ensures value { result.now ≡ self.now }
        ensures bound { length self.now ≤ most_depth }
    {
        &self.steps[..usize::from(self.len)]
    }

    /// How many regions there are.
    pub fn len(&self) -> usize
        ensures value { result ≡ length self.now }
        ensures bound { result ≤ most_depth }
    {
        self.as_slice().len()
    }

    /// Goes one region further.
    pub fn push(&mut self, region: RegionId)
        requires { length self.old < most_depth }
        ensures { self.new ≡ self.old ++ region ∷ [] }
    {
        self.steps[usize::from(self.len)] = region;
        self.len += 1;
    }

    /// Goes back to the first `len` regions.
    pub fn truncate(&mut self, len: usize)
        ensures { self.new ≡ take len self.old }
    {
        if len < usize::from(self.len) {
            self.len = len as u8;
        }
    }

    /// Whether both pass the same regions.
    pub fn is_same(&self, other: &Path) -> bool
        ensures { IsTrue result ↔ self.now ≡ other.now }
    {
        self.as_slice() == other.as_slice()
    }
}
