// Lists of regions.

ghost use Rattle.std.specs.Prelude.{◌≡◌, ◌≤◌, ◌++◌, ◌∷◌, [], length, insert, filter, not, ◌==◌, IfOk, OnOk, OnErr, MatchOption};

use mem_base::RegionId;
use std::alloc::{AllocError, Global};
use std::marker::Model;

/// Regions, one after another.
#[derive(Debug, Drop)]
pub struct Ids {
    items: Vec<RegionId>,
}

impl Model for Ids {
    ghost use Rattle.std.specs.Prelude.{List};
    ghost use Rattle.mem_base.specs.declared.map.ids.RegionId.{RegionId};

    ghost Value = { List RegionId };

    ghost view = { λ c. c.items.items };
}

impl Ids {
    /// No region.
    pub fn new(alloc: Global) -> Ids
        ensures { result ≡ [] }
    {
        Ids {
            items: Vec::new(alloc),
        }
    }

    /// All of them.
    pub fn as_slice(&self) -> &[RegionId]
        ensures { result.now ≡ self.now }
    {
        self.items.as_slice()
    }

    /// Puts a region before the one at this place.
    pub(crate) fn insert(&mut self, rank: usize, id: RegionId) -> Result<(), AllocError>
        requires { rank ≤ length self.old }
        ensures ok { OnOk result (self.new ≡ insert self.old rank id) }
        ensures err { OnErr result (self.new ≡ self.old) }
    {
        self.items.insert(rank, id)?;
        Ok(())
    }

    /// Puts a region after all that there are.
    pub(crate) fn push(&mut self, id: RegionId) -> Result<(), AllocError>
        ensures ok { OnOk result (self.new ≡ self.old ++ id ∷ []) }
        ensures err { OnErr result (self.new ≡ self.old) }
    {
        self.items.push(id)?;
        Ok(())
    }

    /// Takes the last one away, if any.
    pub(crate) fn pop(&mut self) -> Option<RegionId>
        ensures { MatchOption result ((self.old ≡ []) × (self.new ≡ [])) (λ r. self.old ≡ self.new ++ r ∷ []) }
    {
        self.items.pop()
    }

    /// Takes a region out.
    pub(crate) fn remove(&mut self, id: RegionId)
        ensures { self.new ≡ filter (λ q. not (q.0 == id.0)) self.old }
    {
        self.items.retain(|other| other.0 != id.0);
    }

    /// The same regions once more.
    pub(crate) fn try_copy(&self) -> Result<Ids, AllocError>
        ensures { IfOk result (λ copy. copy ≡ self.now) }
    {
        let items = self.items.clone()?;
        Ok(Ids { items })
    }
}
