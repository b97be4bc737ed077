// Writes to memory.
ghost use Rattle.std.specs.Prelude.{◌≡◌, ◌≤◌, ◌<◌, ◌+◌, ◌%◌, ◌^◌, ◌++◌, [], ◌∷◌, length, take, is_some, true, MatchBool};
ghost use Rattle.mem_base.specs.access.AccessSteps.{writing};
ghost use Rattle.mem_base.specs.access.MemoryAccess.{marked, on_word, on_words};
ghost use Rattle.mem_base.specs.lists.Runs.{run};
ghost use Rattle.mem_base.specs.machine.Passes.{pass_id};
ghost use Rattle.mem_base.specs.map.Limits.{page_size};
ghost use Rattle.access_run.specs.Hands.{IsPlaceOf};
ghost use Rattle.access_run.specs.Runs.{HasDone};
ghost use Rattle.vcpu_pass.specs.Steps.{HasMade, generation_in};
ghost use Rattle.bounded_write.specs.Tries.{WasContended};
ghost use Rattle.bounded_write.specs.Writes.{WasHeldUp};

use crate::tries::step_within;
use access_cut::number_of;
use epoch_rule::{Cabinet, Pass};
use generation::Generation;
use io_window::Memory;
use mem_base::{Place, WORD_SIZE, WordStep};
use vcpu_pass::mark_memory;

// Writes bytes of one word, from an offset on: whether they were written.
fn write_word(
    cabinet: &Cabinet<Generation>,
    pass: &mut Pass<Generation>,
    place: &Place,
    offset: u64,
    bytes: &[u8],
    tries: u32,
) -> bool
    requires own { pass.old.cabinet ≡ cabinet.now.id }
    requires entered { is_some pass.old.edition ≡ true }
    requires placed { IsPlaceOf (generation_in pass.old) place.now }
    requires within { offset + length bytes.now ≤ place.now.bytes }
    requires words { place.now.bytes % 8 ≡ 0 }
    requires some { 0 < length bytes.now }
    requires one { offset % 8 + length bytes.now ≤ 8 }
    ensures { MatchBool result
        (HasDone HasMade (pass_id pass.old.number) pass.old
        (on_word place.now.region offset (writing bytes.now) (run offset (length bytes.now)) ∷ []) [] pass.new)
        ((pass.new ≡ pass.old) × WasContended pass.old tries) }
{
    let value = number_of(bytes, false);
    let step = WordStep::Replace {
        first: (offset % WORD_SIZE) as u32,
        bytes: bytes.len() as u32,
        value,
    };
    let word = (offset / WORD_SIZE) as usize;
    step_within(cabinet, pass, place, word, step, tries)
}

/// Writes bytes of a place's data, from an offset on, one step for each word that they touch, ascending, and answers how many of the first
/// bytes are written. It ends before all are only where some word was changed each time that it was tried.
fn write_words(
    cabinet: &Cabinet<Generation>,
    pass: &mut Pass<Generation>,
    place: &Place,
    offset: u64,
    bytes: &[u8],
    tries: u32,
) -> usize
    requires own { pass.old.cabinet ≡ cabinet.now.id }
    requires entered { is_some pass.old.edition ≡ true }
    requires placed { IsPlaceOf (generation_in pass.old) place.now }
    requires within { offset + length bytes.now ≤ place.now.bytes }
    requires fits { place.now.bytes < 2 ^ 64 }
    requires words { place.now.bytes % 8 ≡ 0 }
    ensures most { result ≤ length bytes.now }
    ensures done { HasDone HasMade (pass_id pass.old.number) pass.old
        (on_words place.now.region offset (writing (take result bytes.now))) [] pass.new }
    ensures stopped { result < length bytes.now → WasContended pass.new tries }
{
    let mut done = 0;
    while done < bytes.len() {
        let at = offset + done as u64;
        let count = (bytes.len() - done).min((WORD_SIZE - at % WORD_SIZE) as usize);
        let mine = &bytes[done..done + count];
        if !write_word(cabinet, pass, place, at, mine, tries) {
            return done;
        }
        done += count;
    }
    done
}

/// The same of the memory that a write reaches directly; the pages of what is written are marked.
pub(crate) fn write_direct(
    cabinet: &Cabinet<Generation>,
    pass: &mut Pass<Generation>,
    memory: &Memory,
    bytes: &[u8],
    tries: u32,
) -> usize
    requires own { pass.old.cabinet ≡ cabinet.now.id }
    requires entered { is_some pass.old.edition ≡ true }
    requires placed { IsPlaceOf (generation_in pass.old) memory.now.place }
    requires within { memory.now.offset + length bytes.now ≤ memory.now.place.bytes }
    requires few { memory.now.place.bytes < 2 ^ 64 }
    requires pages { memory.now.place.bytes % page_size ≡ 0 }
    ensures most { result ≤ length bytes.now }
    ensures done { HasDone HasMade (pass_id pass.old.number) pass.old
        (on_words memory.now.place.region memory.now.offset (writing (take result bytes.now))
        ++ marked memory.now.place.region memory.now.log memory.now.offset result) [] pass.new }
    ensures stopped { result < length bytes.now → WasHeldUp pass.old tries pass.new }
{
    let count = write_words(cabinet, pass, &memory.place, memory.offset, bytes, tries);
    mark_memory(
        cabinet,
        pass,
        &memory.place,
        memory.log,
        memory.offset,
        count as u64,
    );
    count
}
