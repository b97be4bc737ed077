// What the numbers that C hands over stand for.
ghost use Rattle.std.specs.Prelude.{◌≡◌};
ghost use Rattle.libvobrekan.specs.Arguments.{client_of, device_kind_of, device_of, device_with, event_of, perm_of, size_of};

use mem_base::{Client, Device, DeviceKind, Ioevent, Ops, Perm, Size};

/// A device: what its registers do, how many words of 8 bytes they are, and its access sizes in bytes.
///
/// The kinds are 0 latch, 1 counter, 2 bell and 3 fault.
#[repr(C)]
#[derive(Clone, Copy, Debug, PartialEq, Eq)]
pub struct DeviceNumbers {
    pub kind: u32,
    pub regs: u32,
    pub valid_min: u8,
    pub valid_max: u8,
    pub valid_unaligned: bool,
    pub impl_min: u8,
    pub impl_max: u8,
    pub impl_unaligned: bool,
    pub big: bool,
}

/// An ioeventfd: a write of `size` bytes at `offset` in its device sets the notifier `number`, where it is any write or
/// writes `value`.
#[repr(C)]
#[derive(Clone, Copy, Debug, PartialEq, Eq)]
pub struct EventNumbers {
    pub offset: u64,
    pub value: u64,
    pub number: u32,
    pub size: u8,
    /// Whether only a write of `value` counts.
    pub matched: bool,
}

/// An ioeventfd, from its numbers.
pub(crate) fn event_of(numbers: &EventNumbers) -> Ioevent
    ensures { result ≡ event_of numbers.now }
{
    Ioevent {
        offset: numbers.offset,
        size: numbers.size,
        matched: numbers.matched,
        value: numbers.value,
        number: numbers.number,
    }
}

/// A size in bytes; 2^64 - 1 stands for 2^64.
pub(crate) fn size_of(bytes: u64) -> Size
    ensures { result ≡ size_of bytes }
{
    let wide = if bytes == u64::MAX {
        0x1_0000_0000_0000_0000
    } else {
        u128::from(bytes)
    };
    Size::new(wide).unwrap()
}

/// Who asks which pages were written: 0 display, 1 code, 2 migration.
pub(crate) fn client_of(number: u32) -> Option<Client>
    ensures { result ≡ client_of number }
{
    match number {
        0 => Some(Client::Vga),
        1 => Some(Client::Code),
        2 => Some(Client::Migration),
        _ => None,
    }
}

/// Which accesses a translation lets through: 1 reads, 2 writes, 3 both.
pub(crate) fn perm_of(number: u32) -> Option<Perm>
    ensures { result ≡ perm_of number }
{
    match number {
        0 => Some(Perm::Nothing),
        1 => Some(Perm::Read),
        2 => Some(Perm::Write),
        3 => Some(Perm::Both),
        _ => None,
    }
}

// What the registers of a device do.
fn device_kind_of(number: u32) -> Option<DeviceKind>
    ensures { result ≡ device_kind_of number }
{
    match number {
        0 => Some(DeviceKind::Latch),
        1 => Some(DeviceKind::Count),
        2 => Some(DeviceKind::Bell),
        3 => Some(DeviceKind::Fault),
        _ => None,
    }
}

// A device of a kind.
fn device_with(numbers: &DeviceNumbers, kind: DeviceKind) -> Device
    ensures { result ≡ device_with numbers.now kind }
{
    Device {
        kind,
        regs: numbers.regs,
        ops: Ops {
            valid_min: numbers.valid_min,
            valid_max: numbers.valid_max,
            valid_unaligned: numbers.valid_unaligned,
            impl_min: numbers.impl_min,
            impl_max: numbers.impl_max,
            impl_unaligned: numbers.impl_unaligned,
            big: numbers.big,
        },
    }
}

/// A device, where its kind is one.
pub(crate) fn device_of(numbers: &DeviceNumbers) -> Option<Device>
    ensures { result ≡ device_of numbers.now }
{
    match device_kind_of(numbers.kind) {
        Some(kind) => Some(device_with(numbers, kind)),
        None => None,
    }
}
