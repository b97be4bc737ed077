// Paths kept as notes.
ghost use Rattle.std.specs.Prelude.{◌≡◌, ◌+◌, ◌<◌, ◌≤◌, ◌↔◌, ◌++◌, IsTrue, length, map};
ghost use Rattle.std.specs.List.{slice_get};
ghost use Rattle.mem_base.specs.map.Limits.{most_depth};
ghost use Rattle.mem_base.specs.views.Notes.{note_at, last_of_path, path_to};

use crate::{MOST_DEPTH, Path, RegionId};
use std::marker::Model;

/// A region that a search passes, and the number of the note of the region passed before it.
///
/// Notes are numbered from 1 in the order in which they are taken, and 0 is the number of none.
#[derive(Clone, Copy, Debug, PartialEq, Eq)]
pub struct Note {
    pub region: RegionId,
    pub before: usize,
}

/// The note with a number.
fn note_at(notes: &[Note], number: usize) -> Option<Note>
    ensures { result ≡ note_at notes.now number }
{
    if number == 0 {
        return None;
    }
    notes.get(number - 1).copied()
}

/// Puts the path that leads to a note after what stands there: its last `most` regions, if it is longer.
fn spell(notes: &[Note], most: usize, number: usize, path: &mut Path)
    requires { length path.old + most ≤ most_depth }
    ensures room { length path.new ≤ length path.old + most }
    ensures path { path.new ≡ path.old ++ last_of_path notes.now most number }
{
    if most == 0 {
        return;
    }
    let Some(note) = note_at(notes, number) else {
        return;
    };
    spell(notes, most - 1, note.before, path);
    path.push(note.region);
}

/// Whether the paths to two notes have the same last `most` regions.
fn meet(notes: &[Note], most: usize, number: usize, other: usize) -> bool
    ensures { IsTrue result ↔ last_of_path notes.now most number ≡ last_of_path notes.now most other }
{
    if most == 0 {
        return true;
    }
    if number == other {
        return true;
    }
    match (note_at(notes, number), note_at(notes, other)) {
        (None, None) => true,
        (Some(note), Some(next)) => {
            note.region == next.region && meet(notes, most - 1, note.before, next.before)
        }
        _ => false,
    }
}

/// Paths of regions, each kept as the number of a note. A path is spelled out only where it is asked for.
#[derive(Debug, Drop)]
pub struct Paths {
    notes: Vec<Note>,
    numbers: Vec<usize>,
}

impl Model for Paths {
    ghost use Rattle.std.specs.Prelude.{List, map};
    ghost use Rattle.mem_base.specs.declared.map.ids.RegionId.{RegionId};
    ghost use Rattle.mem_base.specs.views.Notes.{path_to};

    ghost Value = { List (List RegionId) };

    ghost view = { λ p. map (path_to p.notes.items) p.numbers.items };
}

impl Paths {
    /// The paths to the notes with these numbers.
    pub fn new(notes: Vec<Note>, numbers: Vec<usize>) -> Paths
        ensures { result ≡ map (path_to notes.items) numbers.items }
    {
        Paths { notes, numbers }
    }

    /// How many paths there are.
    pub fn len(&self) -> usize
        ensures { result ≡ length self.now }
    {
        self.numbers.len()
    }

    /// The path at an index, spelled out.
    pub fn get(&self, i: usize) -> Option<Path>
        ensures { result ≡ slice_get self.now i }
    {
        let number = *self.numbers.get(i)?;
        let mut path = Path::new();
        spell(
            self.notes.as_slice(),
            MOST_DEPTH as usize,
            number,
            &mut path,
        );
        Some(path)
    }

    /// Whether two of the paths are the same. Neither is spelled out.
    pub fn is_same(&self, i: usize, j: usize) -> bool
        requires first { i < length self.now }
        requires second { j < length self.now }
        ensures { IsTrue result ↔ slice_get self.now i ≡ slice_get self.now j }
    {
        meet(
            self.notes.as_slice(),
            MOST_DEPTH as usize,
            self.numbers[i],
            self.numbers[j],
        )
    }
}
