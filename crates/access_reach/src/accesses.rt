// Accesses, chunk by chunk.
ghost use Rattle.std.specs.Prelude.{◌≤◌, ◌+◌, ◌^◌, [], length, take};
ghost use Rattle.mem_base.specs.access.AccessSteps.{reading, writing};
ghost use Rattle.access_plan.specs.HostPlans.{plan_by, plan_with_host};
ghost use Rattle.access_reach.specs.Asking.{outcome};
ghost use Rattle.access_reach.specs.Reaching.{AllTaken, HasReached, plan_below};

use crate::buses::{Answering, Answers, Takes, Taking};
use crate::leaves;
use access_base::{DONE, UNANSWERED, first_chunk, joined, reach};
use mem_base::{SpaceId, TxResult};

// Reads the first bytes of an access, at addresses below 2^64.
fn read_below<B: Answering>(
    bus: &mut B,
    space: SpaceId,
    addr: u64,
    out: &mut [u8],
    below: usize,
) -> TxResult
    requires most { below ≤ length out.old }
    requires within { addr + below ≤ 2 ^ 64 }
    ensures { HasReached B.asks bus.old (plan_below B.host (B.shows bus.old).forest space addr (reading (length out.old)) below)
        (outcome (take below out.new) result) bus.new }
{
    let mut result = DONE;
    let mut done = 0;
    while done < below {
        let at = addr + done as u64;
        let (target, count) = first_chunk(bus.generation(), space, at, below - done, false);
        let mine = &mut out[done..done + count];
        result = joined(result, leaves::read(bus, &target, mine));
        done += count;
    }
    result
}

/// Reads bytes of a space from an address on, as `read` does, of a machine that has the bytes of the host's memory, or has not. Where it
/// has not, it is asked for what the defined plan reaches.
pub fn read_by<B: Answering>(bus: &mut B, space: SpaceId, addr: u64, out: &mut [u8]) -> TxResult
    ensures { HasReached B.asks bus.old (plan_by B.host (B.shows bus.old).forest space addr (reading (length out.old))) (outcome out.new result) bus.new }
{
    bus.generation().knows_forest();
    let below = reach(addr, out.len());
    let result = read_below(bus, space, addr, out, below);
    if below < out.len() {
        out[below..].fill(0);
        joined(result, UNANSWERED)
    } else {
        result
    }
}

/// Reads bytes of a space from an address on, as many as there is room for.
///
/// It asks the bus for what the plan reaches in its generation, in order and for nothing else. It answers how the access ended: an
/// error where a device answered with one, a decode error where nothing answered some byte. All of `out` is overwritten: a byte that
/// nothing answers reads as 0, and so do addresses above 2^64 - 1. QEMU's core, `address_space_read`. It takes no memory.
pub fn read<B: Answers>(bus: &mut B, space: SpaceId, addr: u64, out: &mut [u8]) -> TxResult
    ensures { HasReached B.asks bus.old (plan_with_host (B.shows bus.old).forest space addr (reading (length out.old))) (outcome out.new result) bus.new }
{
    read_by(bus, space, addr, out)
}

// Writes the first bytes of an access, at addresses below 2^64.
fn write_below<B: Taking>(
    bus: &mut B,
    space: SpaceId,
    addr: u64,
    bytes: &[u8],
    below: usize,
) -> TxResult
    requires most { below ≤ length bytes.now }
    requires within { addr + below ≤ 2 ^ 64 }
    requires takes { AllTaken B.takes bus.old (plan_below B.host (B.shows bus.old).forest space addr (writing bytes.now) below) }
    ensures { HasReached B.asks bus.old (plan_below B.host (B.shows bus.old).forest space addr (writing bytes.now) below) (outcome [] result) bus.new }
{
    let mut result = DONE;
    let mut done = 0;
    while done < below {
        let at = addr + done as u64;
        let (target, count) = first_chunk(bus.generation(), space, at, below - done, true);
        let mine = &bytes[done..done + count];
        result = joined(result, leaves::write(bus, &target, mine));
        done += count;
    }
    result
}

/// Writes bytes to a space from an address on, as `write` does, of a machine that has the bytes of the host's memory, or has not. It asks
/// for one that takes each of the writes that the plan reaches.
pub fn write_by<B: Taking>(bus: &mut B, space: SpaceId, addr: u64, bytes: &[u8]) -> TxResult
    requires { AllTaken B.takes bus.old (plan_by B.host (B.shows bus.old).forest space addr (writing bytes.now)) }
    ensures { HasReached B.asks bus.old (plan_by B.host (B.shows bus.old).forest space addr (writing bytes.now)) (outcome [] result) bus.new }
{
    bus.generation().knows_forest();
    let below = reach(addr, bytes.len());
    let result = write_below(bus, space, addr, bytes, below);
    if below < bytes.len() {
        joined(result, UNANSWERED)
    } else {
        result
    }
}

/// Writes bytes to a space from an address on.
///
/// It asks the bus for what the plan reaches in its generation, in order and for nothing else. It answers how the access ended: an
/// error where a device answered with one, a decode error where nothing took some byte, as at a read-only leaf or above 2^64 - 1; the
/// other chunks are written all the same. QEMU's core, `address_space_write`. It takes no memory.
pub fn write<B: Takes>(bus: &mut B, space: SpaceId, addr: u64, bytes: &[u8]) -> TxResult
    ensures { HasReached B.asks bus.old (plan_with_host (B.shows bus.old).forest space addr (writing bytes.now)) (outcome [] result) bus.new }
{
    write_by(bus, space, addr, bytes)
}
