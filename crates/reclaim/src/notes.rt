// Notes on regions, by ascending id.
ghost use Rattle.std.specs.Prelude.{◌≡◌, ◌+◌, ◌^◌, ◌<◌, ◌≤◌, false, [], map, find, length, option_map, IfSome, OnOk};
ghost use Rattle.std.specs.List.Sorted.{IsSearchInRange};
ghost use Rattle.mem_base.specs.lists.Sorting.{put_by, place_of};
ghost use Rattle.reclaim.specs.Notes.{by_region, note_order, is_of, is_due, is_noted, others, AreNotes, seen_in};

use generation::Generation;
use mem_base::{Edition, RegionId};
use std::alloc::{AllocError, Global};
use std::marker::Model;

/// What is noted of a region: the number of the last generation that names it, if any does.
#[derive(Clone, Copy, Debug, PartialEq, Eq)]
pub struct Note {
    pub region: RegionId,
    pub last: Option<u64>,
}

impl Note {
    /// Whether no generation from this number on names the region.
    fn is_due(&self, lowest: u64) -> bool
        ensures { result ≡ is_due lowest self.now }
    {
        match self.last {
            None => true,
            Some(number) => number < lowest,
        }
    }
}

/// Notes by ascending id of their regions, one of each.
#[derive(Debug, Drop)]
pub(crate) struct Notes {
    items: Vec<Note>,
}

impl Model for Notes {
    ghost use Rattle.std.specs.Prelude.{vec_len, vec_capacity, ◌-◌};
    ghost use Rattle.reclaim.specs.Notes.{NoteList, AreNotes};

    ghost Value = { NoteList };

    ghost view = { λ n. record { notes = n.items.items; room = vec_capacity n.items - vec_len n.items } };

    ghost invariant = { λ n. AreNotes n.items.items };
}

// Where the note of a region stands, or where it would.
fn position(notes: &[Note], region: RegionId) -> Result<usize, usize>
    requires { AreNotes notes.now }
    ensures place { result ≡ place_of (by_region region) notes.now }
    ensures bound { IsSearchInRange result (length notes.now) }
{
    notes.binary_search_by(|note| note.region.0.cmp(&region.0))
}

// Notes a generation in each of the regions that it names.
fn see(notes: &mut [Note], g: &Generation)
    ensures { notes.new ≡ map (seen_in g.now) notes.old }
{
    for note in notes.iter_mut() {
        if g.names(note.region) {
            note.last = Some(g.number());
        }
    }
}

impl Notes {
    /// No note.
    pub(crate) fn new(alloc: Global) -> Notes
        ensures { result.notes ≡ [] }
    {
        Notes {
            items: Vec::new(alloc),
        }
    }

    /// How many there are.
    pub(crate) fn len(&self) -> usize
        ensures value { result ≡ length self.now.notes }
        ensures bound { result < 2 ^ 63 }
    {
        self.items.as_slice().len()
    }

    /// There is then room for this many more.
    pub(crate) fn reserve(&mut self, more: usize) -> Result<(), AllocError>
        ensures notes { self.new.notes ≡ self.old.notes }
        ensures room { OnOk result (more ≤ self.new.room) }
        ensures kept { self.old.room ≤ self.new.room }
    {
        self.items.reserve(more)
    }

    /// Puts a note to its place.
    pub(crate) fn put(&mut self, note: Note)
        requires room { 0 < self.old.room }
        requires free { is_noted note.region self.old.notes ≡ false }
        ensures notes { self.new.notes ≡ put_by note_order note self.old.notes }
        ensures room { self.old.room ≤ self.new.room + 1 }
    {
        let Err(at) = position(self.items.as_slice(), note.region) else {
            unreachable!();
        };
        match self.items.insert(at, note) {
            Ok(()) => {}
            Err(_) => unreachable!(),
        }
    }

    /// Takes the note of a region out: `None` exactly where there is none.
    pub(crate) fn take(&mut self, region: RegionId) -> Option<Note>
        ensures note { result ≡ find (is_of region) self.old.notes }
        ensures notes { self.new.notes ≡ others region self.old.notes }
        ensures room { self.old.room ≤ self.new.room }
        ensures more { IfSome result (λ note. self.old.room + 1 ≤ self.new.room) }
    {
        match position(self.items.as_slice(), region) {
            Ok(at) => Some(self.items.remove(at)),
            Err(_) => None,
        }
    }

    /// The region of the first note that is due: `None` exactly where none is.
    pub(crate) fn first_due(&self, lowest: u64) -> Option<RegionId>
        ensures value { result ≡ option_map (λ n. n.region) (find (is_due lowest) self.now.notes) }
        ensures ascending { AreNotes self.now.notes }
    {
        let note = self.items.iter().find(|note| note.is_due(lowest))?;
        Some(note.region)
    }

    /// Notes a generation in each of the regions that it names.
    pub(crate) fn see(&mut self, g: &Generation)
        ensures notes { self.new.notes ≡ map (seen_in g.now) self.old.notes }
        ensures room { self.new.room ≡ self.old.room }
    {
        see(self.items.as_mut_slice(), g);
    }
}
