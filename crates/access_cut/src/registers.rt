// What a callback does to a register, and what it reads.
ghost use Rattle.std.specs.Prelude.{◌≡◌, ◌≤◌};
ghost use Rattle.mem_base.specs.access.DeviceAccess.{register_of, reply_of, sets, step_of, stores, word_step};
ghost use Rattle.access_cut.specs.Conditions.{IsGood};

use crate::numbers::{lowest, without_lowest};
use mem_base::{Device, DeviceKind, DeviceStep, WordStep};

// A write of a number of `size` bytes: the bytes that lie in the register.
fn stores(offset: u64, size: u8, value: u64) -> WordStep
    requires { size ≤ 8 }
    ensures { result ≡ stores offset size value }
{
    let first = (offset % 8) as u8;
    let bytes = size.min(8 - first);
    WordStep::Replace {
        first: u32::from(first),
        bytes: u32::from(bytes),
        value: lowest(value, bytes),
    }
}

// A write that sets the bits of a number of `size` bytes.
#[tactic(auto, using(mem_base::proofs::WordLaws::bytes_power))]
fn sets(offset: u64, size: u8, value: u64) -> WordStep
    requires { size ≤ 8 }
    ensures { result ≡ sets offset size value }
{
    let first = (offset % 8) as u32;
    WordStep::Or {
        bits: lowest(value, size) << (8 * first),
    }
}

#[tactic(auto, using(crate::proofs::Good::some_registers))]
fn register_of(device: &Device, offset: u64) -> u32
    requires { IsGood device.now }
    ensures { result ≡ register_of device.now offset }
{
    (offset / 8 % u64::from(device.regs)) as u32
}

// The step on the register; none where the device is a `Fault`.
fn word_step(kind: DeviceKind, offset: u64, size: u8, write: Option<u64>) -> Option<WordStep>
    requires { size ≤ 8 }
    ensures { result ≡ word_step kind offset size write }
{
    match write {
        None => match kind {
            DeviceKind::Latch => Some(WordStep::Load),
            DeviceKind::Count => Some(WordStep::AddOne),
            DeviceKind::Bell => Some(WordStep::Take),
            DeviceKind::Fault => None,
        },
        Some(value) => match kind {
            DeviceKind::Latch => Some(stores(offset, size, value)),
            DeviceKind::Count => Some(stores(offset, size, value)),
            DeviceKind::Bell => Some(sets(offset, size, value)),
            DeviceKind::Fault => None,
        },
    }
}

/// What a callback of `size` bytes at this offset does: a read, or a write of a number. `Error` where the device is a
/// `Fault`.
pub fn step_of(device: &Device, offset: u64, size: u8, write: Option<u64>) -> DeviceStep
    requires good { IsGood device.now }
    requires size { size ≤ 8 }
    ensures { result ≡ step_of device.now offset size write }
{
    match word_step(device.kind, offset, size, write) {
        Some(step) => DeviceStep::Step {
            reg: register_of(device, offset),
            step,
        },
        None => DeviceStep::Error,
    }
}

/// The number that a callback of `size` bytes at this offset reads, by the register's value before it. Bytes past the
/// register read as 0.
pub fn reply_of(_device: &Device, offset: u64, size: u8, old: u64) -> u64
    requires { size ≤ 8 }
    ensures { result ≡ reply_of offset size old }
{
    lowest(without_lowest(old, (offset % 8) as u8), size)
}
