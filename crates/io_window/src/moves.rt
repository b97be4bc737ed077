// Reads and writes by windows.
ghost use Rattle.std.specs.Prelude.{◌≡◌, ◌≤◌, ◌<◌, ◌+◌, ◌^◌, [], length, take, true, false};
ghost use Rattle.mem_base.specs.access.AccessSteps.{either, reading, writing};
ghost use Rattle.vcpu_pass.specs.Steps.{generation_in};
ghost use Rattle.vcpu_pass.specs.Calls.{is_entered};
ghost use Rattle.mem_base.specs.access.Windows.{window_start};
ghost use Rattle.io_window.specs.Whole.{HasRun};
ghost use Rattle.io_window.specs.Moves.{IsFirst};

use crate::bounces::Bounce;
use crate::closings::DONE;
use crate::openings::open;
use crate::windows::Closed;
use mem_base::{SpaceId, TxResult};
use std::sync::Wait;
use vcpu_pass::Vcpu;

// What is left of a window: how many bytes it moved, and how that ended.
#[derive(Drop)]
struct Moved<'c> {
    vcpu: Vcpu<'c>,
    bounce: Bounce,
    count: usize,
    result: TxResult,
}

/// How two parts of one access ended together.
pub fn joined(first: TxResult, second: TxResult) -> TxResult
    ensures { result ≡ either first second }
{
    TxResult {
        error: first.error || second.error,
        decode: first.decode || second.decode,
    }
}

// Reads the first bytes of some, by one window.
fn read_first<'c, R: Wait>(
    rt: &R,
    vcpu: Vcpu<'c>,
    bounce: Bounce,
    space: SpaceId,
    addr: u64,
    out: &mut [u8],
) -> Moved<'c>
    requires entered { is_entered vcpu ≡ true }
    requires some { 0 < length out.old }
    requires within { addr + length out.old ≤ 2 ^ 64 }
    requires room { length out.old ≤ bounce }
    ensures first { IsFirst (generation_in vcpu.entry).forest (window_start space addr false) (length out.old) result.count }
    ensures run { HasRun vcpu.entry space addr (reading result.count) result.result (take result.count out.new) result.vcpu }
    ensures room { result.bounce ≡ bounce }
{
    match open(vcpu, space, addr, out.len() as u64, false, Some(bounce)) {
        Ok(mut window) => {
            let count = window.len() as usize;
            window.get(0, &mut out[..count]);
            let Closed {
                vcpu,
                bounce,
                result,
            } = window.close(rt, 0);
            match bounce {
                Some(bounce) => Moved {
                    vcpu,
                    bounce,
                    count,
                    result,
                },
                None => unreachable!(),
            }
        }
        Err(_) => unreachable!(),
    }
}

/// Reads bytes of a space from an address on, by windows.
///
/// The virtual CPU is entered, no byte lies above 2^64 - 1, and the bounce has room for all of them.
pub fn read_by_windows<'c, R: Wait>(
    rt: &R,
    vcpu: Vcpu<'c>,
    bounce: Bounce,
    space: SpaceId,
    addr: u64,
    out: &mut [u8],
) -> (Vcpu<'c>, Bounce, TxResult)
    requires entered { is_entered vcpu ≡ true }
    requires within { addr + length out.old ≤ 2 ^ 64 }
    requires room { length out.old ≤ bounce }
    ensures run { HasRun vcpu.entry space addr (reading (length out.old)) result.2 out.new result.0 }
    ensures room { result.1 ≡ bounce }
{
    if out.is_empty() {
        return (vcpu, bounce, DONE);
    }
    let first = read_first(rt, vcpu, bounce, space, addr, out);
    let count = first.count;
    if count == out.len() {
        return (first.vcpu, first.bounce, first.result);
    }
    let rest = &mut out[count..];
    let next = addr + count as u64;
    let (vcpu, bounce, result) = read_by_windows(rt, first.vcpu, first.bounce, space, next, rest);
    (vcpu, bounce, joined(first.result, result))
}

// Writes the first bytes of some, by one window.
fn write_first<'c, R: Wait>(
    rt: &R,
    vcpu: Vcpu<'c>,
    bounce: Bounce,
    space: SpaceId,
    addr: u64,
    bytes: &[u8],
) -> Moved<'c>
    requires entered { is_entered vcpu ≡ true }
    requires some { 0 < length bytes.now }
    requires within { addr + length bytes.now ≤ 2 ^ 64 }
    requires room { length bytes.now ≤ bounce }
    ensures first { IsFirst (generation_in vcpu.entry).forest (window_start space addr true) (length bytes.now) result.count }
    ensures run { HasRun vcpu.entry space addr (writing (take result.count bytes.now)) result.result [] result.vcpu }
    ensures room { result.bounce ≡ bounce }
{
    match open(vcpu, space, addr, bytes.len() as u64, true, Some(bounce)) {
        Ok(mut window) => {
            let len = window.len();
            let count = len as usize;
            window.put(rt, 0, &bytes[..count]);
            let Closed {
                vcpu,
                bounce,
                result,
            } = window.close(rt, len);
            match bounce {
                Some(bounce) => Moved {
                    vcpu,
                    bounce,
                    count,
                    result,
                },
                None => unreachable!(),
            }
        }
        Err(_) => unreachable!(),
    }
}

/// Writes bytes to a space from an address on, by windows.
///
/// The virtual CPU is entered, no byte lies above 2^64 - 1, and the bounce has room for all of them.
pub fn write_by_windows<'c, R: Wait>(
    rt: &R,
    vcpu: Vcpu<'c>,
    bounce: Bounce,
    space: SpaceId,
    addr: u64,
    bytes: &[u8],
) -> (Vcpu<'c>, Bounce, TxResult)
    requires entered { is_entered vcpu ≡ true }
    requires within { addr + length bytes.now ≤ 2 ^ 64 }
    requires room { length bytes.now ≤ bounce }
    ensures run { HasRun vcpu.entry space addr (writing bytes.now) result.2 [] result.0 }
    ensures room { result.1 ≡ bounce }
{
    if bytes.is_empty() {
        return (vcpu, bounce, DONE);
    }
    let first = write_first(rt, vcpu, bounce, space, addr, bytes);
    let count = first.count;
    if count == bytes.len() {
        return (first.vcpu, first.bounce, first.result);
    }
    let rest = &bytes[count..];
    let next = addr + count as u64;
    let (vcpu, bounce, result) = write_by_windows(rt, first.vcpu, first.bounce, space, next, rest);
    (vcpu, bounce, joined(first.result, result))
}
