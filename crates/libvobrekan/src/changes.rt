// The calls that change the map.
ghost use Rattle.std.specs.Prelude.{IfNone, IfSome};
ghost use Rattle.mem_base.specs.declared.map.calls.Call.TheVariants as calls;
ghost use Rattle.mem_base.specs.declared.map.calls.Config.TheVariants as configs;
ghost use Rattle.mem_base.specs.machine.Orders.{configure};
ghost use Rattle.libvobrekan.specs.Answers.{bad_argument};
ghost use Rattle.libvobrekan.specs.Arguments.{client_of, event_of, perm_of, region_at, size_of, space_at};
ghost use Rattle.libvobrekan.specs.Asked.{IsAsked, IsRefused};

use crate::answers::{Answer, bad_argument, no_machine, of_call};
use crate::arguments::{EventNumbers, client_of, event_of, perm_of, size_of};
use crate::handle::Handle;
use mem_base::{Call, RegionId, SpaceId};
use std::alloc::Global;

/// A call that changes the map, or makes or drops a region.
pub(crate) fn call(alloc: Global, handle: &mut Handle, call: &Call) -> Answer
    ensures { IsAsked handle.old.machine (configure (configs.Call call.now)) result handle.new.machine }
{
    let Some(mut machine) = handle.take(alloc) else {
        return no_machine();
    };
    let answer = machine.call(call);
    handle.put(alloc, machine);
    of_call(answer)
}

/// Makes an address space with this root.
#[unsafe(no_mangle)]
pub extern "C" fn vb_space(alloc: Global, handle: &mut Handle, space: u32, root: u32) -> Answer
    ensures { IsAsked handle.old.machine (configure (configs.Call (calls.Space (space_at space) (region_at root)))) result handle.new.machine }
{
    call(
        alloc,
        handle,
        &Call::Space {
            space: SpaceId(space),
            root: RegionId(root),
        },
    )
}

/// Places a region in a container, `offset` bytes into it. Of two children that hold an address, the one of higher priority is
/// found.
#[unsafe(no_mangle)]
pub extern "C" fn vb_add(
    alloc: Global,
    handle: &mut Handle,
    parent: u32,
    offset: u64,
    child: u32,
    priority: i32,
) -> Answer
    ensures { IsAsked handle.old.machine (configure (configs.Call (calls.Add (region_at parent) offset (region_at child) priority))) result handle.new.machine }
{
    call(
        alloc,
        handle,
        &Call::Add {
            parent: RegionId(parent),
            offset,
            child: RegionId(child),
            priority,
        },
    )
}

/// Takes a region out of its container.
#[unsafe(no_mangle)]
pub extern "C" fn vb_del(alloc: Global, handle: &mut Handle, parent: u32, child: u32) -> Answer
    ensures { IsAsked handle.old.machine (configure (configs.Call (calls.Del (region_at parent) (region_at child)))) result handle.new.machine }
{
    call(
        alloc,
        handle,
        &Call::Del {
            parent: RegionId(parent),
            child: RegionId(child),
        },
    )
}

/// Moves a region in its container.
#[unsafe(no_mangle)]
pub extern "C" fn vb_move(alloc: Global, handle: &mut Handle, child: u32, offset: u64) -> Answer
    ensures { IsAsked handle.old.machine (configure (configs.Call (calls.Move (region_at child) offset))) result handle.new.machine }
{
    call(
        alloc,
        handle,
        &Call::Move {
            child: RegionId(child),
            offset,
        },
    )
}

/// Gives a region another size: any region but memory.
#[unsafe(no_mangle)]
pub extern "C" fn vb_resize(alloc: Global, handle: &mut Handle, region: u32, size: u64) -> Answer
    ensures { IsAsked handle.old.machine (configure (configs.Call (calls.Resize (region_at region) (size_of size)))) result handle.new.machine }
{
    call(
        alloc,
        handle,
        &Call::Resize {
            region: RegionId(region),
            size: size_of(size),
        },
    )
}

/// Moves the window of an alias in its target.
#[unsafe(no_mangle)]
pub extern "C" fn vb_retarget(alloc: Global, handle: &mut Handle, alias: u32, offset: u64) -> Answer
    ensures { IsAsked handle.old.machine (configure (configs.Call (calls.Retarget (region_at alias) offset))) result handle.new.machine }
{
    call(
        alloc,
        handle,
        &Call::Retarget {
            alias: RegionId(alias),
            offset,
        },
    )
}

/// Switches a region on or off: one that is off is left out wherever it stands.
#[unsafe(no_mangle)]
pub extern "C" fn vb_enable(alloc: Global, handle: &mut Handle, region: u32, on: bool) -> Answer
    ensures { IsAsked handle.old.machine (configure (configs.Call (calls.Enable (region_at region) on))) result handle.new.machine }
{
    call(
        alloc,
        handle,
        &Call::Enable {
            region: RegionId(region),
            on,
        },
    )
}

/// Switches whether what is found through the region is read-only.
#[unsafe(no_mangle)]
pub extern "C" fn vb_readonly(alloc: Global, handle: &mut Handle, region: u32, on: bool) -> Answer
    ensures { IsAsked handle.old.machine (configure (configs.Call (calls.Readonly (region_at region) on))) result handle.new.machine }
{
    call(
        alloc,
        handle,
        &Call::Readonly {
            region: RegionId(region),
            on,
        },
    )
}

/// Switches whether what is found through the region is non-volatile.
#[unsafe(no_mangle)]
pub extern "C" fn vb_nonvolatile(
    alloc: Global,
    handle: &mut Handle,
    region: u32,
    on: bool,
) -> Answer
    ensures { IsAsked handle.old.machine (configure (configs.Call (calls.Nonvolatile (region_at region) on))) result handle.new.machine }
{
    call(
        alloc,
        handle,
        &Call::Nonvolatile {
            region: RegionId(region),
            on,
        },
    )
}

/// Switches whether ranges that are found through the region end where the path to their leaf changes.
#[unsafe(no_mangle)]
pub extern "C" fn vb_unmergeable(
    alloc: Global,
    handle: &mut Handle,
    region: u32,
    on: bool,
) -> Answer
    ensures { IsAsked handle.old.machine (configure (configs.Call (calls.Unmergeable (region_at region) on))) result handle.new.machine }
{
    call(
        alloc,
        handle,
        &Call::Unmergeable {
            region: RegionId(region),
            on,
        },
    )
}

/// Switches the mode of a ROM device.
#[unsafe(no_mangle)]
pub extern "C" fn vb_romd(alloc: Global, handle: &mut Handle, region: u32, on: bool) -> Answer
    ensures { IsAsked handle.old.machine (configure (configs.Call (calls.Romd (region_at region) on))) result handle.new.machine }
{
    call(
        alloc,
        handle,
        &Call::Romd {
            region: RegionId(region),
            on,
        },
    )
}

/// Switches the logging of a region for one client: 0 display, 1 code, 2 migration. Another is refused.
#[unsafe(no_mangle)]
pub extern "C" fn vb_log(
    alloc: Global,
    handle: &mut Handle,
    region: u32,
    client: u32,
    on: bool,
) -> Answer
    ensures known { IfSome (client_of client) (λ x. IsAsked handle.old.machine
        (configure (configs.Call (calls.Log (region_at region) x on))) result handle.new.machine) }
    ensures unknown { IfNone (client_of client) (IsRefused handle.old.machine (bad_argument client) result handle.new.machine) }
{
    let Some(known) = client_of(client) else {
        return bad_argument(u64::from(client));
    };
    call(
        alloc,
        handle,
        &Call::Log {
            region: RegionId(region),
            client: known,
            on,
        },
    )
}

/// Switches global logging.
#[unsafe(no_mangle)]
pub extern "C" fn vb_global(alloc: Global, handle: &mut Handle, on: bool) -> Answer
    ensures { IsAsked handle.old.machine (configure (configs.Call (calls.Global on))) result handle.new.machine }
{
    call(alloc, handle, &Call::Global { on })
}

/// Puts a translation into the table of an IOMMU region: the page at `iova` goes on at `translated` in a space. `perm` is 0
/// nothing, 1 reads, 2 writes, 3 both; another is refused.
#[unsafe(no_mangle)]
pub extern "C" fn vb_map(
    alloc: Global,
    handle: &mut Handle,
    region: u32,
    iova: u64,
    size: u64,
    space: u32,
    translated: u64,
    perm: u32,
) -> Answer
    ensures known { IfSome (perm_of perm) (λ x. IsAsked handle.old.machine
        (configure (configs.Call (calls.Map (region_at region) iova (size_of size) (space_at space) translated x))) result handle.new.machine) }
    ensures unknown { IfNone (perm_of perm) (IsRefused handle.old.machine (bad_argument perm) result handle.new.machine) }
{
    let Some(known) = perm_of(perm) else {
        return bad_argument(u64::from(perm));
    };
    call(
        alloc,
        handle,
        &Call::Map {
            region: RegionId(region),
            iova,
            size: size_of(size),
            space: SpaceId(space),
            translated,
            perm: known,
        },
    )
}

/// Takes a translation out.
#[unsafe(no_mangle)]
pub extern "C" fn vb_unmap(alloc: Global, handle: &mut Handle, region: u32, iova: u64) -> Answer
    ensures { IsAsked handle.old.machine (configure (configs.Call (calls.Unmap (region_at region) iova))) result handle.new.machine }
{
    call(
        alloc,
        handle,
        &Call::Unmap {
            region: RegionId(region),
            iova,
        },
    )
}

/// Gives a device an ioeventfd.
#[unsafe(no_mangle)]
pub extern "C" fn vb_event(
    alloc: Global,
    handle: &mut Handle,
    region: u32,
    event: &EventNumbers,
) -> Answer
    ensures { IsAsked handle.old.machine (configure (configs.Call (calls.Event (region_at region) (event_of event.now)))) result handle.new.machine }
{
    call(
        alloc,
        handle,
        &Call::Event {
            region: RegionId(region),
            event: event_of(event),
        },
    )
}

/// Takes an ioeventfd away: the one with this offset, size, value and `matched`. Its notifier does not matter.
#[unsafe(no_mangle)]
pub extern "C" fn vb_unevent(
    alloc: Global,
    handle: &mut Handle,
    region: u32,
    event: &EventNumbers,
) -> Answer
    ensures { IsAsked handle.old.machine (configure (configs.Call (calls.Unevent (region_at region) event.now.offset event.now.size event.now.matched event.now.value))) result handle.new.machine }
{
    call(
        alloc,
        handle,
        &Call::Unevent {
            region: RegionId(region),
            offset: event.offset,
            size: event.size,
            matched: event.matched,
            value: event.value,
        },
    )
}

/// Drops a region that nothing uses. A `vb_reap` gives its memory back.
#[unsafe(no_mangle)]
pub extern "C" fn vb_drop(alloc: Global, handle: &mut Handle, region: u32) -> Answer
    ensures { IsAsked handle.old.machine (configure (configs.Call (calls.Drop (region_at region)))) result handle.new.machine }
{
    call(
        alloc,
        handle,
        &Call::Drop {
            region: RegionId(region),
        },
    )
}
