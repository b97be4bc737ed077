// Levels of keys, and the search through them.
ghost use Rattle.std.specs.Prelude.{◌≡◌, ◌+◌, ◌-◌, ◌*◌, ◌/◌, ◌≤◌, ◌<◌, ℕ, [], length, slice_index, slice_index_or, IfOk, ◌∷◌};
ghost use Rattle.flat_lookup.specs.Levels.{Ascends, IsPlace, IsNode, IsThin, AreLevels, HasTop, IsBuilt};

use std::alloc::{AllocError, Global};
use std::marker::Model;
use std::sync::ledger::Ledger;
use step_counter::Steps;

/// The keys of one level.
#[derive(Debug, Drop)]
pub(crate) struct Level {
    items: Vec<u64>,
}

impl Model for Level {
    ghost use Rattle.std.specs.Prelude.{List, ℕ};

    ghost Value = { List ℕ };

    ghost view = { λ l. l.items.items };
}

impl Level {
    fn as_slice(&self) -> &[u64]
        ensures { result.now ≡ self.now }
    {
        self.items.as_slice()
    }
}

// The last of some keys that is at most the address, where the first is. It reads all of them: a way out of the loop that
// depends on the address takes more time than the rest of a node.
fn last_of(keys: &[u64], count: usize, addr: u64) -> usize
    requires some { 0 < count }
    requires count { count ≡ length keys.now }
    requires first { slice_index keys.now 0 ≤ addr }
    ensures inside { result < length keys.now }
    ensures reached { slice_index keys.now result ≤ addr }
    ensures next { result + 1 < length keys.now → addr < slice_index keys.now (result + 1) }
{
    let mut at = 0;
    for i in 0..count {
        if keys[i] <= addr {
            at = i;
        }
    }
    at
}

// The last key of a node that is at most the address, where its first key is: one probe reads one node. A whole node has
// a call of its own, so that the compiler knows how many keys there are.
fn last_in(node: &[u64], addr: u64) -> usize
    requires some { 0 < length node.now }
    requires few { length node.now ≤ 16 }
    requires first { slice_index node.now 0 ≤ addr }
    ensures inside { result < length node.now }
    ensures reached { slice_index node.now result ≤ addr }
    ensures next { result + 1 < length node.now → addr < slice_index node.now (result + 1) }
{
    if node.len() == 16 {
        return last_of(node, 16, addr);
    }
    last_of(node, node.len(), addr)
}

// The last key of a level that is at most the address, by the node that holds it.
fn place_in(keys: &[u64], node: usize, addr: u64) -> usize
    requires ascends { Ascends keys.now }
    requires node { IsNode keys.now addr node }
    ensures { IsPlace keys.now addr result }
{
    let first = 16 * node;
    let rest = keys.split_at(first).1;
    first + last_in(rest.split_at(rest.len().min(16)).0, addr)
}

// The last key of the lowest level that is at most the address: one probe a level.
pub(crate) fn place<L: Ledger>(levels: &[Level], addr: u64, steps: &mut Steps<L>) -> usize
    requires levels { AreLevels levels.now }
    requires top { HasTop levels.now }
    requires first { slice_index (slice_index_or levels.now 0 []) 0 ≤ addr }
    ensures place { IsPlace (slice_index_or levels.now 0 []) addr result }
    ensures probes { steps.new ≡ steps.old + length levels.now }
{
    let mut node = 0;
    for i in 0..levels.len() {
        steps.tick();
        node = place_in(levels[levels.len() - 1 - i].as_slice(), node, addr);
    }
    node
}

// Every sixteenth key.
fn thinned(alloc: Global, keys: &[u64]) -> Result<Vec<u64>, AllocError>
    ensures { IfOk result (λ above. IsThin keys.now above.items) }
{
    let mut above = Vec::new(alloc);
    for i in 0..(keys.len() + 15) / 16 {
        above.push(keys[16 * i])?;
    }
    Ok(above)
}

// These keys as one level.
fn lowest(alloc: Global, keys: Vec<u64>) -> Result<Vec<Level>, AllocError>
    ensures { IfOk result (λ levels. levels.items ≡ keys.items ∷ []) }
{
    let mut levels = Vec::new(alloc);
    levels.push(Level { items: keys })?;
    Ok(levels)
}

// The levels over these keys.
pub(crate) fn levels_over(alloc: Global, keys: Vec<u64>) -> Result<Vec<Level>, AllocError>
    requires some { 0 < length keys.items }
    requires ascends { Ascends keys.items }
    ensures { IfOk result (λ levels. IsBuilt keys.items levels.items) }
{
    let mut levels = lowest(alloc, keys)?;
    while levels[levels.len() - 1].as_slice().len() > 16 {
        let above = thinned(alloc, levels[levels.len() - 1].as_slice())?;
        levels.push(Level { items: above })?;
    }
    Ok(levels)
}
