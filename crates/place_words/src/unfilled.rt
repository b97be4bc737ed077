// The words of the region that was made last, as long as they are not all cleared.
ghost use Rattle.std.specs.Prelude.{◌≡◌, ◌<◌, ◌≤◌, ◌==◌, true, false, not, [], length, filter, replicate};
ghost use Rattle.std.specs.Prelude.{slice_index_or, slice_set, vec_capacity, OnOk};
ghost use Rattle.std.specs.List.{list_any};
ghost use Rattle.mem_base.specs.access.Cells.{is_same_cell};
ghost use Rattle.mem_base.specs.machine.Desk.{cells_of};
ghost use Rattle.place_words.specs.Unfilled.{Waiting};

use mem_base::{Cell, Place, RegionId};
use std::alloc::{AllocError, Global};
use std::marker::Model;

/// Which words of one region are not cleared yet: a flag for each word of it.
///
/// It is seen as the cells of these words, and the number of flags for which there is room.
#[derive(Drop)]
pub struct Unfilled {
    region: RegionId,
    flags: Vec<bool>,
    // how many flags are on
    left: usize,
}

impl Model for Unfilled {
    ghost use Rattle.std.specs.Prelude.{◌≡◌, length, vec_capacity};
    ghost use Rattle.place_words.specs.Unfilled.{Waiting, waiting, cells_left};

    ghost Value = { Waiting };

    ghost view = { λ u. waiting (cells_left u.region 0 u.flags.items) (vec_capacity u.flags) };

    ghost invariant = { λ u. u.left ≡ length (cells_left u.region 0 u.flags.items) };
}

// As many flags that are on, in place of those that there were. There is room for them.
fn raise(flags: &mut Vec<bool>, count: usize)
    requires room { count ≤ vec_capacity flags.old }
    ensures { flags.new.items ≡ replicate count true }
{
    flags.clear();
    for _ in 0..count {
        let _ = flags.push(true);
    }
}

// A flag; off past the last one.
fn flag_at(flags: &[bool], at: usize) -> bool
    ensures { result ≡ slice_index_or flags.now at false }
{
    if at >= flags.len() {
        return false;
    }
    flags[at]
}

// One flag is off.
fn lower(flags: &mut Vec<bool>, at: usize)
    requires { at < length flags.old.items }
    ensures items { flags.new.items ≡ slice_set flags.old.items at false }
    ensures room { vec_capacity flags.new ≡ vec_capacity flags.old }
{
    flags[at] = false;
}

impl Unfilled {
    /// No word. It takes no memory.
    pub fn none(alloc: Global) -> Unfilled
        ensures { result.cells ≡ [] }
    {
        Unfilled {
            region: RegionId(0),
            flags: Vec::new(alloc),
            left: 0,
        }
    }

    /// Whether the cell is one of them.
    pub fn has(&self, cell: &Cell) -> bool
        ensures { result ≡ list_any (is_same_cell cell.now) self.now.cells }
    {
        if cell.region.0 != self.region.0 {
            return false;
        }
        flag_at(self.flags.as_slice(), cell.word)
    }

    /// Whether each word is cleared.
    pub fn is_empty(&self) -> bool
        ensures { result ≡ (length self.now.cells == 0) }
    {
        self.left == 0
    }

    /// Makes room for the flags of so large a region.
    pub fn reserve(&mut self, words: usize) -> Result<(), AllocError>
        requires none { self.old.cells ≡ [] }
        ensures cells { self.new.cells ≡ [] }
        ensures room { OnOk result (words ≤ self.new.room) }
    {
        self.flags.clear();
        self.flags.reserve(words)?;
        Ok(())
    }

    /// No word of this place is cleared yet.
    pub fn begin(&mut self, place: &Place)
        requires room { place.now.words ≤ self.old.room }
        ensures { self.new.cells ≡ cells_of place.now }
    {
        self.region = place.region;
        raise(&mut self.flags, place.words);
        self.left = place.words;
    }

    /// The cell is cleared.
    pub fn fill(&mut self, cell: &Cell)
        requires waits { list_any (is_same_cell cell.now) self.old.cells ≡ true }
        ensures { self.new.cells ≡ filter (λ x. not (is_same_cell cell.now x)) self.old.cells }
    {
        lower(&mut self.flags, cell.word);
        self.left -= 1;
    }
}
