// A virtual CPU that moves bytes by windows.
ghost use Rattle.std.specs.Prelude.{◌≡◌, ◌≤◌, ◌+◌, ◌^◌, IsTrue, true, false};

use io_window::{Bounce, Closed, Window, copy, open};
use mem_base::{SpaceId, TxResult};
use std::sync::Wait;
use vcpu_pass::Vcpu;

/// The most bytes that are moved at once.
pub(crate) const MOST: usize = 64;

/// A virtual CPU with its bounce, and whether all that it did was as it has to be.
#[derive(Drop)]
pub(crate) struct Mover<'c> {
    pub(crate) vcpu: Vcpu<'c>,
    pub(crate) bounce: Option<Bounce>,
    pub(crate) good: bool,
}

/// Some bytes: their space, from where on, and how many a window is asked for.
#[derive(Clone, Copy)]
pub(crate) struct Span(pub(crate) u32, pub(crate) u64, pub(crate) u64);

/// How bytes have to be moved: is the window direct, which bytes, and how does it end.
pub(crate) type Moved = (bool, &'static [u8], TxResult);

/// Whether there is a byte, and none lies above 2^64 - 1.
fn has_bytes(addr: u64, len: u64) -> bool
    ensures { IsTrue result → (1 ≤ len) × (addr + len ≤ 2 ^ 64) }
{
    len != 0 && len - 1 <= u64::MAX - addr
}

/// Asks for a window without a bounce, where there is none: the virtual CPU looked in the generation of this number.
pub(crate) fn finds_none<'c, R: Wait>(
    rt: &R,
    mover: Mover<'c>,
    span: Span,
    write: bool,
    number: u64,
) -> Mover<'c> {
    let Mover { vcpu, bounce, good } = mover;
    let Span(space, addr, len) = span;
    if !has_bytes(addr, len) {
        let good = false;
        return Mover { vcpu, bounce, good };
    }
    match open(vcpu, SpaceId(space), addr, len, write, None) {
        Ok(window) => {
            let Closed { vcpu, .. } = window.close(rt, 0);
            let good = false;
            Mover { vcpu, bounce, good }
        }
        Err((_, vcpu, looked)) => {
            let good = good && looked == number && !vcpu.entered();
            Mover { vcpu, bounce, good }
        }
    }
}

/// Gets all bytes of a window; whether they are these.
fn gets(window: &mut Window<'_>, bytes: &[u8]) -> bool
    requires read { window.old.start.write ≡ false }
    ensures stays { (window.new.len ≡ window.old.len) × (window.new.put_end ≡ window.old.put_end) }
{
    let mut out = [0xeeu8; MOST];
    let count = window.len().min(MOST as u64) as usize;
    window.get(0, &mut out[..count]);
    &out[..count] == bytes
}

/// Puts bytes into a window, where it takes just as many; whether it does.
fn puts<R: Wait>(rt: &R, window: &mut Window<'_>, bytes: &[u8]) -> bool
    requires write { window.old.start.write ≡ true }
    requires fresh { window.old.put_end ≡ 0 }
    ensures stays { (window.new.len ≡ window.old.len) × (window.new.put_end ≤ window.old.len) }
{
    if window.len() != bytes.len() as u64 {
        return false;
    }
    window.put(rt, 0, bytes);
    true
}

/// One or the other.
fn moves<R: Wait>(rt: &R, window: &mut Window<'_>, write: bool, bytes: &[u8]) -> bool
    requires write { window.old.start.write ≡ write }
    requires fresh { window.old.put_end ≡ 0 }
    ensures stays { (window.new.len ≡ window.old.len) × (window.new.put_end ≤ window.old.len) }
{
    if write {
        puts(rt, window, bytes)
    } else {
        gets(window, bytes)
    }
}

/// Moves all bytes of a window so, and uses all of it.
pub(crate) fn by_window<'c, R: Wait>(
    rt: &R,
    mover: Mover<'c>,
    span: Span,
    write: bool,
    moved: Moved,
) -> Mover<'c> {
    let Mover { vcpu, bounce, good } = mover;
    let Span(space, addr, len) = span;
    let (direct, bytes, ends) = moved;
    if !has_bytes(addr, len) {
        let good = false;
        return Mover { vcpu, bounce, good };
    }
    match open(vcpu, SpaceId(space), addr, len, write, bounce) {
        Ok(mut window) => {
            let len = window.len();
            let is_direct = window.direct() == direct;
            let is_so = moves(rt, &mut window, write, bytes);
            let closed = window.close(rt, len);
            let good = good && is_direct && is_so && closed.result == ends;
            let Closed { vcpu, bounce, .. } = closed;
            Mover { vcpu, bounce, good }
        }
        Err((_, vcpu, _)) => Mover {
            vcpu,
            bounce: None,
            good: false,
        },
    }
}

/// Copies some bytes, at most as many as there is room for, and has to end so.
pub(crate) fn copies<'c, R: Wait>(
    rt: &R,
    mover: Mover<'c>,
    from: Span,
    to: Span,
    ends: TxResult,
) -> Mover<'c> {
    let (Span(source, from, len), Span(target, to, _)) = (from, to);
    let Mover { vcpu, bounce, good } = mover;
    let Some(bounce) = bounce else {
        let good = false;
        return Mover { vcpu, bounce, good };
    };
    if !has_bytes(from, len) || !has_bytes(to, len) || len > bounce.room() as u64 {
        let bounce = Some(bounce);
        let good = false;
        return Mover { vcpu, bounce, good };
    }
    let mut bytes = [0u8; MOST];
    let count = len.min(MOST as u64) as usize;
    let (source, target) = ((SpaceId(source), from), (SpaceId(target), to));
    let (vcpu, bounce, answer) = copy(rt, vcpu, bounce, source, target, &mut bytes[..count]);
    Mover {
        vcpu,
        bounce: Some(bounce),
        good: good && answer.result == ends,
    }
}
