// The calls that make regions, one for each kind.
ghost use Rattle.std.specs.Prelude.{IfNone, IfSome};
ghost use Rattle.mem_base.specs.declared.map.calls.Call.TheVariants as calls;
ghost use Rattle.mem_base.specs.declared.map.calls.Config.TheVariants as configs;
ghost use Rattle.mem_base.specs.declared.map.kinds.Kind.TheVariants as kinds;
ghost use Rattle.mem_base.specs.machine.Orders.{configure};
ghost use Rattle.libvobrekan.specs.Answers.{bad_argument};
ghost use Rattle.libvobrekan.specs.Arguments.{device_of, region_at, size_of};
ghost use Rattle.libvobrekan.specs.Asked.{IsAsked, IsRefused};

use crate::answers::{Answer, bad_argument};
use crate::arguments::{DeviceNumbers, device_of, size_of};
use crate::changes::call;
use crate::handle::Handle;
use mem_base::{Call, Kind, RegionId};
use std::alloc::Global;

// Makes a region of a kind. The answer has its number.
fn region(alloc: Global, handle: &mut Handle, kind: Kind, size: u64) -> Answer
    ensures { IsAsked handle.old.machine (configure (configs.Call (calls.Region kind (size_of size)))) result handle.new.machine }
{
    call(
        alloc,
        handle,
        &Call::Region {
            kind,
            size: size_of(size),
        },
    )
}

/// Makes a container: a region that only groups others. `size` is in bytes, and 2^64 - 1 stands for 2^64, here and below.
#[unsafe(no_mangle)]
pub extern "C" fn vb_container(alloc: Global, handle: &mut Handle, size: u64) -> Answer
    ensures { IsAsked handle.old.machine (configure (configs.Call (calls.Region kinds.Container (size_of size)))) result handle.new.machine }
{
    region(alloc, handle, Kind::Container, size)
}

/// Makes RAM. Its size is whole pages of 4,096 bytes, at most 512 MiB.
#[unsafe(no_mangle)]
pub extern "C" fn vb_ram(alloc: Global, handle: &mut Handle, size: u64) -> Answer
    ensures { IsAsked handle.old.machine (configure (configs.Call (calls.Region kinds.Ram (size_of size)))) result handle.new.machine }
{
    region(alloc, handle, Kind::Ram, size)
}

/// Makes ROM: memory that a guest only reads, and that `vb_load` fills.
#[unsafe(no_mangle)]
pub extern "C" fn vb_rom(alloc: Global, handle: &mut Handle, size: u64) -> Answer
    ensures { IsAsked handle.old.machine (configure (configs.Call (calls.Region kinds.Rom (size_of size)))) result handle.new.machine }
{
    region(alloc, handle, Kind::Rom, size)
}

/// Makes host memory: RAM whose bytes the caller keeps.
#[unsafe(no_mangle)]
pub extern "C" fn vb_host(alloc: Global, handle: &mut Handle, size: u64) -> Answer
    ensures { IsAsked handle.old.machine (configure (configs.Call (calls.Region kinds.Host (size_of size)))) result handle.new.machine }
{
    region(alloc, handle, Kind::Host, size)
}

/// Makes an IOMMU region, whose table is empty at first.
#[unsafe(no_mangle)]
pub extern "C" fn vb_iommu(alloc: Global, handle: &mut Handle, size: u64) -> Answer
    ensures { IsAsked handle.old.machine (configure (configs.Call (calls.Region kinds.Iommu (size_of size)))) result handle.new.machine }
{
    region(alloc, handle, Kind::Iommu, size)
}

/// Makes a reservation: a range that is claimed and has no callbacks.
#[unsafe(no_mangle)]
pub extern "C" fn vb_reserve(alloc: Global, handle: &mut Handle, size: u64) -> Answer
    ensures { IsAsked handle.old.machine (configure (configs.Call (calls.Region kinds.Reserve (size_of size)))) result handle.new.machine }
{
    region(alloc, handle, Kind::Reserve, size)
}

/// Makes an alias: a window on `target`, from `offset` in it on.
#[unsafe(no_mangle)]
pub extern "C" fn vb_alias(
    alloc: Global,
    handle: &mut Handle,
    size: u64,
    target: u32,
    offset: u64,
) -> Answer
    ensures { IsAsked handle.old.machine (configure (configs.Call (calls.Region (kinds.Alias (region_at target) offset) (size_of size)))) result handle.new.machine }
{
    region(
        alloc,
        handle,
        Kind::Alias {
            target: RegionId(target),
            offset,
        },
        size,
    )
}

/// Makes a device. A kind of device that there is not is refused.
#[unsafe(no_mangle)]
pub extern "C" fn vb_io(
    alloc: Global,
    handle: &mut Handle,
    size: u64,
    device: &DeviceNumbers,
) -> Answer
    ensures known { IfSome (device_of device.now) (λ d. IsAsked handle.old.machine
        (configure (configs.Call (calls.Region (kinds.Io d) (size_of size)))) result handle.new.machine) }
    ensures unknown { IfNone (device_of device.now) (IsRefused handle.old.machine (bad_argument device.now.kind) result handle.new.machine) }
{
    let Some(known) = device_of(device) else {
        return bad_argument(u64::from(device.kind));
    };
    region(alloc, handle, Kind::Io(known), size)
}

/// Makes a ROM device. A kind of device that there is not is refused.
#[unsafe(no_mangle)]
pub extern "C" fn vb_rom_device(
    alloc: Global,
    handle: &mut Handle,
    size: u64,
    device: &DeviceNumbers,
) -> Answer
    ensures known { IfSome (device_of device.now) (λ d. IsAsked handle.old.machine
        (configure (configs.Call (calls.Region (kinds.RomDevice d) (size_of size)))) result handle.new.machine) }
    ensures unknown { IfNone (device_of device.now) (IsRefused handle.old.machine (bad_argument device.now.kind) result handle.new.machine) }
{
    let Some(known) = device_of(device) else {
        return bad_argument(u64::from(device.kind));
    };
    region(alloc, handle, Kind::RomDevice(known), size)
}
