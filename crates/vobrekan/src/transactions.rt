// Changes that count together, or not at all.
ghost use Rattle.std.specs.Prelude.{◌≡◌, IfOk};

use crate::maps::Map;
use std::alloc::AllocError;

/// Changes of a map that count together, or not at all: `draft` is the map with the changes so far, and the map itself is as it was
/// until `commit`. Where the transaction is dropped, it stays so.
///
/// QEMU's core has `memory_region_transaction_begin` and `memory_region_transaction_commit`, where no change is taken back.
#[derive(Drop)]
pub struct Transaction<'a, M: Drop> {
    pub map: &'a mut M,
    /// The map as it would be.
    pub draft: M,
}

impl Map {
    /// The same map once more, which shares nothing with this one. It fails only where memory runs out.
    pub fn try_copy(&self) -> Result<Map, AllocError>
        ensures { IfOk result (λ copy. copy ≡ self.now) }
    {
        let tree = self.tree.try_copy()?;
        Ok(Map {
            alloc: self.alloc,
            tree,
        })
    }

    /// Begins a transaction, with a copy of the map to draft on. It fails only where memory runs out.
    pub fn begin(&mut self) -> Result<Transaction<'_, Map>, AllocError>
        ensures same_map { IfOk result (λ t. t.map.ghost_name ≡ self.entry.ghost_name) }
        ensures draft { IfOk result (λ t. t.draft ≡ self.old) }
    {
        let draft = self.try_copy()?;
        Ok(Transaction { map: self, draft })
    }
}

impl Transaction<'_, Map> {
    /// Makes the map what was drafted. It takes no memory and cannot fail.
    pub fn commit(self)
        ensures { self.exit.0.now ≡ self.entry.draft }
    {
        let Transaction { map, draft } = self;
        *map = draft;
    }
}
