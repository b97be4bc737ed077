// Accesses to devices by a plain program: the size of each piece is the largest that may be, and each byte is taken by itself.
ghost use Rattle.std.specs.Prelude.{◌<◌};

use crate::desk::calls::{DECODE, ERROR, OK};
use crate::desk::hands::Count;
use crate::desk::plain_words::{byte_of, with_byte};
use mem_base::{Device, DeviceKind, Ioevent, Ops, TxResult};

/// The size of the piece at an offset, where this many bytes are left: the largest power of two that is at most as many, at
/// most the greatest valid size and, unless the callbacks take unaligned accesses, divides the offset.
pub(crate) fn piece_size(ops: &Ops, offset: u64, left: usize) -> u8 {
    for size in [8, 4, 2] {
        let is_aligned = ops.impl_unaligned || offset % u64::from(size) == 0;
        if usize::from(size) <= left && size <= ops.valid_max && is_aligned {
            return size;
        }
    }
    1
}

/// Whether the device takes an access of this size at this offset.
pub(crate) fn is_valid(ops: &Ops, offset: u64, size: usize) -> bool {
    let is_aligned = size != 0 && offset % size as u64 == 0;
    size >= usize::from(ops.valid_min)
        && size <= usize::from(ops.valid_max)
        && (ops.valid_unaligned || is_aligned)
}

/// The number that bytes are in the byte order of a device.
fn number(bytes: &[u8], big: bool) -> u64 {
    let mut value = 0;
    let count = bytes.len();
    for (i, byte) in bytes.iter().enumerate() {
        let at = if big {
            count.saturating_sub(i).saturating_sub(1)
        } else {
            i
        };
        value = with_byte(value, at as u64, *byte);
    }
    value
}

/// The notifier that a write of these bytes at an offset sets: that of the first ioeventfd of just this offset and size that
/// asks for no value, or for this one.
pub(crate) fn notifier(events: &[Ioevent], offset: u64, bytes: &[u8], big: bool) -> Option<u32> {
    let value = number(bytes, big);
    for event in events {
        if event.offset == offset
            && usize::from(event.size) == bytes.len()
            && (!event.matched || event.value == value)
        {
            return Some(event.number);
        }
    }
    None
}

/// Which register of a device an offset is in.
fn register_at(device: &Device, offset: u64) -> usize {
    let count = u64::from(device.regs).max(1);
    (offset / 8 % count) as usize
}

/// How many bytes one callback does for a piece of this size.
fn width_of(ops: &Ops, size: usize) -> usize
    ensures { 0 < result }
{
    size.min(usize::from(ops.impl_max))
        .max(usize::from(ops.impl_min))
        .max(1)
}

/// Which byte of the register at an offset stands at a place of a callback, in the order of addresses.
fn byte_at(device: &Device, offset: u64, width: usize, place: usize) -> u64 {
    let index = if device.ops.big {
        width.saturating_sub(place).saturating_sub(1)
    } else {
        place
    };
    (offset % 8).saturating_add(index as u64)
}

/// The value of the register before a read of it, which counts or clears it.
fn read_register(words: &mut [u64], device: &Device, offset: u64) -> Option<u64> {
    let register = words.get_mut(register_at(device, offset))?;
    let old = *register;
    match device.kind {
        DeviceKind::Latch => {}
        DeviceKind::Count => *register = old.wrapping_add(1),
        DeviceKind::Bell => *register = 0,
        DeviceKind::Fault => return None,
    }
    Some(old)
}

/// The register after a byte of it was written, or its bits were set where the device is a bell; a byte past it changes nothing.
fn after_byte(kind: DeviceKind, old: u64, at: u64, byte: u8) -> u64 {
    if at >= 8 {
        return old;
    }
    match kind {
        DeviceKind::Bell => with_byte(old, at, byte_of(old, at) | byte),
        _ => with_byte(old, at, byte),
    }
}

/// A read by one callback of `width` bytes; the first bytes of it are shown.
fn read_callback(
    words: &mut [u64],
    device: &Device,
    offset: u64,
    width: usize,
    out: &mut [u8],
) -> bool {
    let Some(old) = read_register(words, device, offset) else {
        out.fill(0);
        return false;
    };
    for i in 0..out.len() {
        let at = byte_at(device, offset, width, i);
        out[i] = if at < 8 { byte_of(old, at) } else { 0 };
    }
    true
}

/// A write by one callback of `width` bytes: these bytes, and zeros after them.
fn write_callback(
    words: &mut [u64],
    device: &Device,
    offset: u64,
    width: usize,
    bytes: &[u8],
) -> bool {
    if device.kind == DeviceKind::Fault {
        return false;
    }
    let Some(register) = words.get_mut(register_at(device, offset)) else {
        return false;
    };
    let mut value = *register;
    for i in 0..width {
        let byte = bytes.get(i).copied().unwrap_or(0);
        let at = byte_at(device, offset, width, i);
        value = after_byte(device.kind, value, at, byte);
    }
    *register = value;
    true
}

/// Counts a callback, and how it ended.
fn counted(is_done: bool, count: &mut Count) -> TxResult {
    if is_done {
        count.step();
        return OK;
    }
    ERROR
}

/// A read of a valid piece, callback by callback.
pub(crate) fn read_piece(
    words: &mut [u64],
    device: &Device,
    offset: u64,
    out: &mut [u8],
    count: &mut Count,
) -> TxResult {
    let width = width_of(&device.ops, out.len());
    let mut ends = OK;
    for i in 0..out.len() {
        if i % width != 0 {
            continue;
        }
        let past = i.saturating_add(width).min(out.len());
        let at = offset.saturating_add(i as u64);
        let is_done = read_callback(words, device, at, width, &mut out[i..past]);
        ends = joined(ends, counted(is_done, count));
    }
    ends
}

/// A write of a valid piece, callback by callback.
pub(crate) fn write_piece(
    words: &mut [u64],
    device: &Device,
    offset: u64,
    bytes: &[u8],
    count: &mut Count,
) -> TxResult {
    let width = width_of(&device.ops, bytes.len());
    let mut ends = OK;
    for i in 0..bytes.len() {
        if i % width != 0 {
            continue;
        }
        let past = i.saturating_add(width).min(bytes.len());
        let at = offset.saturating_add(i as u64);
        let is_done = write_callback(words, device, at, width, &bytes[i..past]);
        ends = joined(ends, counted(is_done, count));
    }
    ends
}

/// How two parts of an access ended together.
pub(crate) fn joined(first: TxResult, second: TxResult) -> TxResult {
    TxResult {
        error: first.error || second.error,
        decode: first.decode || second.decode,
    }
}

/// Nothing answers: a read gives zeros.
pub(crate) fn unanswered(out: &mut [u8], write: bool) -> TxResult {
    if !write {
        out.fill(0);
    }
    DECODE
}
