// Which pages were written.
ghost use Rattle.std.specs.Prelude.{◌≡◌, IfNone, IfSome};
ghost use Rattle.mem_base.specs.machine.Answers.{answer_with, harvest_answer};
ghost use Rattle.libvobrekan.specs.Answers.{bad_argument, list_told};
ghost use Rattle.libvobrekan.specs.Arguments.{client_of, region_at};
ghost use Rattle.libvobrekan.specs.Asked.{IsRefused};
ghost use Rattle.libvobrekan.specs.Buffers.{put_marked};
ghost use Rattle.libvobrekan.specs.Marks.{Harvests, mark_words};

use crate::answers::{Answer, bad_argument, done, no_machine, of_refusal};
use crate::arguments::client_of;
use crate::buffers::set_pages;
use crate::handle::Handle;
use generation::Generation;
use mem_base::{Client, Refusal, RegionId};
use std::alloc::Global;

// The bytes of a region for which one word has the bits.
const BYTES_PER_WORD: u128 = 0x4_0000;

/// How many words have a bit for each page of a region.
pub(crate) fn mark_words(generation: &Generation, region: RegionId) -> u64
    ensures { result ≡ mark_words generation.now.forest region }
{
    match generation.node(region) {
        Some(node) => ((node.size.get() + (BYTES_PER_WORD - 1)) / BYTES_PER_WORD) as u64,
        None => 0,
    }
}

/// What was harvested, in a buffer.
pub(crate) fn told(pages: Result<Vec<u64>, Refusal>, out: &mut [u64]) -> Answer
    ensures answer { result ≡ list_told (answer_with (λ v. v.items) pages) }
    ensures out { out.new ≡ put_marked (harvest_answer (answer_with (λ v. v.items) pages)) out.old }
{
    match pages {
        Ok(pages) => {
            set_pages(&pages, out);
            done(pages.len() as u64, 0)
        }
        Err(why) => of_refusal(why),
    }
}

// Takes the marks of a region for a client.
fn harvest(
    alloc: Global,
    handle: &mut Handle,
    region: RegionId,
    client: Client,
    out: &mut [u64],
) -> Answer
    ensures { Harvests handle.old.machine region client out.old result out.new handle.new.machine }
{
    let Some(mut machine) = handle.take(alloc) else {
        return no_machine();
    };
    let words = mark_words(machine.current(), region);
    if words > out.len() as u64 {
        handle.put(alloc, machine);
        return bad_argument(words);
    }
    let pages = machine.harvest(region, client);
    handle.put(alloc, machine);
    told(pages, out)
}

/// Takes the marks of a region for one client, 0 display, 1 code, 2 migration: the pages that were written since they were last taken.
/// Page 64 i + b, of 4,096 bytes, was written where bit b of word i of `out` is set. `value` of the answer is how many pages were. QEMU's
/// core, `cpu_physical_memory_snapshot_and_clear_dirty`.
///
/// The region is one whose bytes the machine has. Another client is refused, and so is a buffer with fewer words than have a bit for each
/// page of the region in the current generation: `value` of that answer is how many it takes. Where the call is refused, or memory runs out,
/// the marks stay, and nothing is written.
#[unsafe(no_mangle)]
pub extern "C" fn vb_harvest(
    alloc: Global,
    handle: &mut Handle,
    region: u32,
    client: u32,
    out: &mut [u64],
) -> Answer
    ensures known { IfSome (client_of client) (λ x. Harvests handle.old.machine (region_at region) x out.old result out.new handle.new.machine) }
    ensures unknown { IfNone (client_of client)
        (IsRefused handle.old.machine (bad_argument client) result handle.new.machine × (out.new ≡ out.old)) }
{
    let Some(known) = client_of(client) else {
        return bad_argument(u64::from(client));
    };
    harvest(alloc, handle, RegionId(region), known, out)
}
