// Writes of a pass that is entered, chunk by chunk.
ghost use Rattle.std.specs.Prelude.{◌≡◌, ◌≤◌, ◌<◌, ◌+◌, ◌^◌, [], length, take, is_some, true, false, IfSome};
ghost use Rattle.mem_base.specs.access.AccessSteps.{either, tx, writing};
ghost use Rattle.mem_base.specs.access.Windows.{chunk_length, window_start};
ghost use Rattle.vcpu_pass.specs.Steps.{generation_in};
ghost use Rattle.io_window.specs.Whole.{HasRun};
ghost use Rattle.io_window.specs.Windows.{IsMemoryOf};
ghost use Rattle.bounded_write.specs.Writes.{HasStopped, IsDirectChunk, StaysIn};

use crate::devices::write_until;
use crate::memory::write_direct;
use access_run::{DONE, UNANSWERED, first_chunk, joined, reach};
use epoch_rule::{Cabinet, Pass};
use generation::Generation;
use io_window::{Memory, memory_at};
use mem_base::{SpaceId, TxResult, WindowStart};

/// What is written of some bytes: how many of the first ones, how that ended, and whether some step of what comes after them was made.
#[derive(Clone, Copy, Debug, PartialEq, Eq)]
pub(crate) struct Part {
    pub(crate) count: usize,
    pub(crate) result: TxResult,
    pub(crate) begun: bool,
}

// Writes the bytes of a chunk of memory.
fn write_memory(
    cabinet: &Cabinet<Generation>,
    pass: &mut Pass<Generation>,
    start: WindowStart,
    memory: &Memory,
    bytes: &[u8],
    tries: u32,
) -> Part
    requires own { pass.old.cabinet ≡ cabinet.now.id }
    requires entered { is_some pass.old.edition ≡ true }
    requires write { start.write ≡ true }
    requires chunk { length bytes.now ≡ chunk_length (generation_in pass.old).forest start (length bytes.now) }
    requires memory { IsMemoryOf (generation_in pass.old) start (length bytes.now) memory.now }
    ensures stays { StaysIn pass.old pass.new }
    ensures most { result.count ≤ length bytes.now }
    ensures whole { result.count ≡ length bytes.now → HasRun pass.old start.space start.addr (writing bytes.now) result.result [] pass.new }
    ensures stopped { result.count < length bytes.now
        → HasStopped pass.old start.space start.addr bytes.now result.count result.result result.begun tries pass.new }
{
    let count = write_direct(cabinet, pass, memory, bytes, tries);
    Part {
        count,
        result: DONE,
        begun: false,
    }
}

// Writes the bytes of a chunk that is not memory which is written directly.
fn write_other(
    cabinet: &Cabinet<Generation>,
    pass: &mut Pass<Generation>,
    space: SpaceId,
    addr: u64,
    bytes: &[u8],
    tries: u32,
) -> Part
    requires own { pass.old.cabinet ≡ cabinet.now.id }
    requires entered { is_some pass.old.edition ≡ true }
    requires some { 0 < length bytes.now }
    ensures stays { StaysIn pass.old pass.new }
    ensures most { result.count ≤ length bytes.now }
    ensures whole { result.count ≡ length bytes.now → HasRun pass.old space addr (writing bytes.now) result.result [] pass.new }
    ensures stopped { result.count < length bytes.now
        → HasStopped pass.old space addr bytes.now result.count result.result result.begun tries pass.new }
{
    let came = write_until(cabinet, pass, space, addr, bytes, tries);
    if came.stopped {
        Part {
            count: 0,
            result: DONE,
            begun: came.begun,
        }
    } else {
        Part {
            count: bytes.len(),
            result: came.result,
            begun: false,
        }
    }
}

// The memory of the first chunk of `len` addresses, and how long that is, where it is written directly.
fn direct_at(
    cabinet: &Cabinet<Generation>,
    pass: &Pass<Generation>,
    start: WindowStart,
    len: u64,
) -> Option<(Memory, u64)>
    requires entered { is_some pass.now.edition ≡ true }
    requires some { 0 < len }
    requires within { start.addr + len ≤ 2 ^ 64 }
    ensures { IfSome result (IsDirectChunk pass.now start len) }
{
    memory_at(cabinet.generation(pass), start, len)
}

// How long the first chunk of a write of `len` bytes is.
fn chunk_at(
    cabinet: &Cabinet<Generation>,
    pass: &Pass<Generation>,
    space: SpaceId,
    addr: u64,
    len: usize,
) -> usize
    requires entered { is_some pass.now.edition ≡ true }
    requires some { 0 < len }
    requires within { addr + len ≤ 2 ^ 64 }
    ensures len { result ≡ chunk_length (generation_in pass.now).forest (window_start space addr true) len }
    ensures some { 0 < result }
    ensures most { result ≤ len }
{
    let (_, count) = first_chunk(cabinet.generation(pass), space, addr, len, true);
    count
}

// Writes the first chunk of some bytes, at addresses below 2^64: how long it is, and what is written of it.
fn write_first(
    cabinet: &Cabinet<Generation>,
    pass: &mut Pass<Generation>,
    space: SpaceId,
    addr: u64,
    bytes: &[u8],
    tries: u32,
) -> (usize, Part)
    requires own { pass.old.cabinet ≡ cabinet.now.id }
    requires entered { is_some pass.old.edition ≡ true }
    requires some { 0 < length bytes.now }
    requires within { addr + length bytes.now ≤ 2 ^ 64 }
    ensures len { result.0 ≡ chunk_length (generation_in pass.old).forest (window_start space addr true) (length bytes.now) }
    ensures some { 0 < result.0 }
    ensures inside { result.0 ≤ length bytes.now }
    ensures stays { StaysIn pass.old pass.new }
    ensures most { result.1.count ≤ result.0 }
    ensures whole { result.1.count ≡ result.0
        → HasRun pass.old space addr (writing (take result.0 bytes.now)) result.1.result [] pass.new }
    ensures stopped { result.1.count < result.0
        → HasStopped pass.old space addr (take result.0 bytes.now) result.1.count result.1.result result.1.begun tries pass.new }
{
    let start = WindowStart {
        space,
        addr,
        write: true,
    };
    match direct_at(cabinet, pass, start, bytes.len() as u64) {
        Some((memory, count)) => {
            let len = count as usize;
            let part = write_memory(cabinet, pass, start, &memory, &bytes[..len], tries);
            (len, part)
        }
        None => {
            let len = chunk_at(cabinet, pass, space, addr, bytes.len());
            let part = write_other(cabinet, pass, space, addr, &bytes[..len], tries);
            (len, part)
        }
    }
}

// Writes bytes at addresses below 2^64.
fn write_below(
    cabinet: &Cabinet<Generation>,
    pass: &mut Pass<Generation>,
    space: SpaceId,
    addr: u64,
    bytes: &[u8],
    tries: u32,
) -> Part
    requires own { pass.old.cabinet ≡ cabinet.now.id }
    requires entered { is_some pass.old.edition ≡ true }
    requires within { addr + length bytes.now ≤ 2 ^ 64 }
    ensures stays { StaysIn pass.old pass.new }
    ensures most { result.count ≤ length bytes.now }
    ensures whole { result.count ≡ length bytes.now → HasRun pass.old space addr (writing bytes.now) result.result [] pass.new }
    ensures done { result.count ≡ length bytes.now → result.begun ≡ false }
    ensures stopped { result.count < length bytes.now
        → HasStopped pass.old space addr bytes.now result.count result.result result.begun tries pass.new }
{
    let mut count = 0;
    let mut result = DONE;
    while count < bytes.len() {
        let at = addr + count as u64;
        let rest = bytes.split_at(count).1;
        let (len, part) = write_first(cabinet, pass, space, at, rest, tries);
        count += part.count;
        result = joined(result, part.result);
        if part.count < len {
            return Part {
                count,
                result,
                begun: part.begun,
            };
        }
    }
    Part {
        count,
        result,
        begun: false,
    }
}

// What is written of `len` bytes of which those from `below` on, above 2^64 - 1, are answered by nothing.
fn past_end(part: Part, below: usize, len: usize) -> Part
    ensures same { part.count < below → result ≡ part }
    ensures past { below ≤ part.count → (result.count ≡ len) × (result.result ≡ either part.result (tx false true)) × (result.begun ≡ false) }
{
    if part.count < below {
        part
    } else {
        Part {
            count: len,
            result: joined(part.result, UNANSWERED),
            begun: false,
        }
    }
}

/// Writes bytes to a space by a pass that is entered, each part of a word by at most `tries` exchanges. It never waits.
pub(crate) fn write_entered(
    cabinet: &Cabinet<Generation>,
    pass: &mut Pass<Generation>,
    space: SpaceId,
    addr: u64,
    bytes: &[u8],
    tries: u32,
) -> Part
    requires own { pass.old.cabinet ≡ cabinet.now.id }
    requires entered { is_some pass.old.edition ≡ true }
    ensures stays { StaysIn pass.old pass.new }
    ensures most { result.count ≤ length bytes.now }
    ensures whole { result.count ≡ length bytes.now → HasRun pass.old space addr (writing bytes.now) result.result [] pass.new }
    ensures done { result.count ≡ length bytes.now → result.begun ≡ false }
    ensures stopped { result.count < length bytes.now
        → HasStopped pass.old space addr bytes.now result.count result.result result.begun tries pass.new }
{
    cabinet.generation(pass).knows_forest();
    let below = reach(addr, bytes.len());
    let part = write_below(cabinet, pass, space, addr, &bytes[..below], tries);
    if below < bytes.len() {
        return past_end(part, below, bytes.len());
    }
    part
}
