// The words, in frames of which only those that were set are held.
ghost use Rattle.std.specs.Prelude.{◌≡◌, ◌+◌, ◌*◌, ◌^◌, ◌<◌, ◌≤◌, ◌/◌, ◌++◌, ℕ, length, replicate, slice_index, IfOk};
ghost use Rattle.std.specs.Vec.{vec_capacity};
ghost use Rattle.mem_base.specs.access.Cells.{words_after};
ghost use Rattle.mem_base.specs.access.Places.{past};
ghost use Rattle.place_words.specs.Blocks.{cleared, cleared_between};
ghost use Rattle.place_words.specs.Frames.{frame_words, spot, word_in, IsFramed};

use mem_base::{Place, WordStep};
use std::alloc::{AllocError, Global};
use std::marker::Model;

// How many words a frame has: 4 KiB, as a page of most hosts.
const FRAME: usize = 512;

/// Words of 8 bytes: those of a pool, and after it those of the notifiers. They are seen as a list.
///
/// Only words around those that were set take memory of the host: 4 KiB for each 512 words.
#[derive(Debug, Drop)]
pub struct Words {
    // The frame of each 512 words, as a page table has it. All that were never set share frame 0, whose words stay 0.
    table: Vec<usize>,
    // The words of the frames, one frame after another; there is room for frame 0 and one of each entry of the table.
    frames: Vec<u64>,
    count: usize,
}

impl Model for Words {
    ghost use Rattle.std.specs.Prelude.{List, ℕ, ◌*◌, ◌≤◌, length, vec_capacity};
    ghost use Rattle.place_words.specs.Frames.{frame_words, shown, IsFramed};

    ghost Value = { List ℕ };

    ghost view = { λ w. shown w.table.items w.frames.items w.count };

    ghost invariant = { λ w. (w.count ≤ length w.table.items * frame_words) × IsFramed w.table.items w.frames.items (vec_capacity w.frames) };
}

// Where a word stands in the frames.
fn spot_of(table: &[usize], at: usize) -> usize
    requires entry { at / frame_words < length table.now }
    requires fits { (slice_index table.now (at / frame_words) + 1) * frame_words < 2 ^ 64 }
    ensures { result ≡ spot table.now at }
{
    table[at / FRAME] * FRAME + at % FRAME
}

// Sets the words from one index up to another to 0.
fn clear_between(words: &mut Vec<u64>, start: usize, end: usize)
    requires order { start ≤ end }
    requires within { end ≤ length words.old.items }
    ensures words { words.new.items ≡ cleared_between start end words.old.items }
    ensures capacity { vec_capacity words.new ≡ vec_capacity words.old }
{
    words[start..end].fill(0);
}

// Appends a frame of words of 0; it takes no memory.
fn add_frame(frames: &mut Vec<u64>)
    requires room { length frames.old.items + frame_words ≤ vec_capacity frames.old }
    ensures words { frames.new.items ≡ frames.old.items ++ replicate frame_words 0 }
    ensures capacity { vec_capacity frames.old ≤ vec_capacity frames.new }
{
    let _ = frames.resize(frames.len() + FRAME, 0);
}

// Frame 0, with room for the frames of this many words.
fn first_frame(alloc: Global, count: usize) -> Result<Vec<u64>, AllocError>
    ensures words { IfOk result (λ frames. frames.items ≡ replicate frame_words 0) }
    ensures room { IfOk result (λ frames. (count / frame_words + 2) * frame_words ≤ vec_capacity frames) }
{
    let room = count.checked_add(2 * FRAME).ok_or(AllocError)?;
    let mut frames = Vec::with_capacity(alloc, room)?;
    add_frame(&mut frames);
    Ok(frames)
}

// Gives an entry of the table a frame of its own, if it has none. No word changes, and no memory is taken.
fn hold(table: &mut Vec<usize>, frames: &mut Vec<u64>, entry: usize)
    requires entry { entry < length table.old.items }
    requires framed { IsFramed table.old.items frames.old.items (vec_capacity frames.old) }
    ensures framed { IsFramed table.new.items frames.new.items (vec_capacity frames.new) }
    ensures entries { length table.new.items ≡ length table.old.items }
    ensures own { 0 < slice_index table.new.items entry }
    ensures words { (at : ℕ) → at / frame_words < length table.old.items
        → word_in table.new.items frames.new.items at ≡ word_in table.old.items frames.old.items at }
{
    if table[entry] == 0 {
        table[entry] = frames.len() / FRAME;
        add_frame(frames);
    }
}

impl Words {
    /// This many words, all 0. It fails only where memory runs out.
    pub fn new(alloc: Global, count: usize) -> Result<Words, AllocError>
        ensures { IfOk result (λ words. words ≡ replicate count 0) }
    {
        let table = vec![in alloc; 0; count / FRAME + 1]?;
        let frames = first_frame(alloc, count)?;
        Ok(Words {
            table,
            frames,
            count,
        })
    }

    /// How many words there are.
    pub fn len(&self) -> usize
        ensures { result ≡ length self.now }
    {
        self.count
    }

    /// A law: 64 bits hold the number of words, as what `len` answers. It does nothing.
    pub fn knows_length(&self)
        ensures { length self.now < 2 ^ 64 }
    {
        let _ = self.len();
    }

    /// The word at an index.
    pub fn word_at(&self, at: usize) -> u64
        requires { at < length self.now }
        ensures { result ≡ slice_index self.now at }
    {
        self.frames[spot_of(&self.table, at)]
    }

    /// One step on the word at an index; the word before it is answered.
    ///
    /// A `Replace` changes only those of its bytes that lie in the word. It takes no memory.
    pub fn step(&mut self, at: usize, step: WordStep) -> u64
        requires { at < length self.old }
        ensures old { result ≡ slice_index self.old at }
        ensures words { self.new ≡ words_after self.old at step }
        ensures len { length self.new ≡ length self.old }
    {
        let old = self.word_at(at);
        let new = step.after(old);
        if new != old {
            hold(&mut self.table, &mut self.frames, at / FRAME);
            let spot = spot_of(&self.table, at);
            self.frames[spot] = new;
        }
        old
    }

    // Words of one frame become 0.
    fn clear_in_frame(&mut self, start: usize, end: usize)
        requires some { start < end }
        requires one { end ≤ (start / frame_words + 1) * frame_words }
        requires within { end ≤ length self.old }
        ensures words { self.new ≡ cleared_between start end self.old }
        ensures len { length self.new ≡ length self.old }
    {
        if self.table[start / FRAME] != 0 {
            let first = spot_of(&self.table, start);
            clear_between(&mut self.frames, first, first + (end - start));
        }
    }

    /// All words of a place become 0. It takes no memory.
    pub fn clear(&mut self, place: &Place)
        requires { past place.now ≤ length self.old }
        ensures words { self.new ≡ cleared self.old place.now }
        ensures len { length self.new ≡ length self.old }
    {
        self.knows_length();
        let end = place.start + place.words;
        let mut at = place.start;
        while at < end {
            let stop = at + (FRAME - at % FRAME).min(end - at);
            self.clear_in_frame(at, stop);
            at = stop;
        }
    }
}
