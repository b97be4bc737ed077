// Reads and writes by windows at any addresses: what lies above 2^64 - 1 reads as 0 and is not written, with a decode error.
ghost use Rattle.std.specs.Prelude.{◌≡◌, ◌≤◌, ◌+◌, ◌^◌, ◌<◌, [], length, true};
ghost use Rattle.mem_base.specs.map.Forest.{IsMade};
ghost use Rattle.mem_base.specs.access.AccessSteps.{reading, writing};
ghost use Rattle.vcpu_pass.specs.Steps.{generation_in};
ghost use Rattle.vcpu_pass.specs.Calls.{is_entered};
ghost use Rattle.io_window.specs.Whole.{HasRun};

use io_window::{Bounce, joined, read_by_windows, write_by_windows};
use mem_base::{SpaceId, TxResult};
use std::sync::Wait;
use vcpu_pass::Vcpu;

// Nothing answered.
const UNANSWERED: TxResult = TxResult {
    error: false,
    decode: true,
};

// How many of `len` addresses from `addr` on are below 2^64.
fn below_end(addr: u64, len: usize) -> usize
    ensures most { result ≤ len }
    ensures within { addr + result ≤ 2 ^ 64 }
    ensures all { addr + len ≤ 2 ^ 64 → result ≡ len }
    ensures past { 2 ^ 64 < addr + len → addr + result ≡ 2 ^ 64 }
{
    let last = u64::MAX - addr;
    if len as u64 <= last {
        len
    } else {
        len.min(last as usize + 1)
    }
}

// The same virtual CPU, of which it is known that accepted calls make the forest.
fn in_made_forest<'c>(vcpu: Vcpu<'c>) -> Vcpu<'c>
    requires entered { is_entered vcpu ≡ true }
    ensures same { result ≡ vcpu.entry }
    ensures made { IsMade (generation_in vcpu.entry).forest }
{
    let (cabinet, pass) = vcpu.into_parts();
    cabinet.generation(&pass).knows_forest();
    Vcpu::new(cabinet, pass)
}

/// Reads bytes of a space from an address on, by windows.
///
/// The virtual CPU is entered, and the bounce has room for all of them.
pub(crate) fn read_clipped<'c, R: Wait>(
    rt: &R,
    vcpu: Vcpu<'c>,
    bounce: Bounce,
    space: SpaceId,
    addr: u64,
    out: &mut [u8],
) -> (Vcpu<'c>, Bounce, TxResult)
    requires entered { is_entered vcpu ≡ true }
    requires room { length out.old ≤ bounce }
    ensures run { HasRun vcpu.entry space addr (reading (length out.old)) result.2 out.new result.0 }
    ensures room { result.1 ≡ bounce }
{
    let vcpu = in_made_forest(vcpu);
    let below = below_end(addr, out.len());
    let first = &mut out[..below];
    let (vcpu, bounce, result) = read_by_windows(rt, vcpu, bounce, space, addr, first);
    if below < out.len() {
        out[below..].fill(0);
        (vcpu, bounce, joined(result, UNANSWERED))
    } else {
        (vcpu, bounce, result)
    }
}

/// Writes bytes to a space from an address on, by windows.
///
/// The conditions are those of `read_clipped`.
pub(crate) fn write_clipped<'c, R: Wait>(
    rt: &R,
    vcpu: Vcpu<'c>,
    bounce: Bounce,
    space: SpaceId,
    addr: u64,
    bytes: &[u8],
) -> (Vcpu<'c>, Bounce, TxResult)
    requires entered { is_entered vcpu ≡ true }
    requires room { length bytes.now ≤ bounce }
    ensures run { HasRun vcpu.entry space addr (writing bytes.now) result.2 [] result.0 }
    ensures room { result.1 ≡ bounce }
{
    let vcpu = in_made_forest(vcpu);
    let below = below_end(addr, bytes.len());
    let (vcpu, bounce, result) = write_by_windows(rt, vcpu, bounce, space, addr, &bytes[..below]);
    if below < bytes.len() {
        (vcpu, bounce, joined(result, UNANSWERED))
    } else {
        (vcpu, bounce, result)
    }
}
