// Accesses by passes.
ghost use Rattle.std.specs.Prelude.{◌≡◌, ◌<◌, ◌≤◌};
ghost use Rattle.mem_base.specs.access.AccessSteps.{writing};
ghost use Rattle.mem_base.specs.map.Limits.{most_passes};
ghost use Rattle.libvobrekan.specs.Accesses.{HasAccessed, HasRead, access_told, ended_so};
ghost use Rattle.libvobrekan.specs.Answers.{bad_argument};
ghost use Rattle.libvobrekan.specs.Arguments.{pass_at, space_at};
ghost use Rattle.libvobrekan.specs.Asked.{IsRefused};

use crate::answers::{Answer, bad_argument, no_machine};
use crate::handle::Handle;
use mem_base::{Access, PassId, SpaceId};
use std::alloc::Global;

/// How an access ended, as a number.
pub(crate) fn ended_so(access: &Access) -> u32
    ensures so { result ≡ ended_so access.now }
    ensures small { result ≤ 3 }
{
    let error = if access.result.error { 1 } else { 0 };
    let decode = if access.result.decode { 2 } else { 0 };
    error + decode
}

/// How an access ended.
pub(crate) fn ended(access: Access) -> Answer
    ensures { result ≡ access_told access }
{
    Answer {
        code: 0,
        what: ended_so(&access),
        value: access.number,
        other: 0,
    }
}

// Reads bytes of a space by a pass.
fn read(
    alloc: Global,
    handle: &mut Handle,
    pass: PassId,
    space: SpaceId,
    addr: u64,
    out: &mut [u8],
) -> Answer
    ensures { HasRead handle.old.machine pass space addr out.old result out.new handle.new.machine }
{
    let Some(mut machine) = handle.take(alloc) else {
        return no_machine();
    };
    let access = machine.read(pass, space, addr, out);
    handle.put(alloc, machine);
    ended(access)
}

/// Reads bytes of a space by a pass, 0 to 15, as many as there is room for. A pass that is out enters the current generation
/// before it and leaves after it. QEMU's core, `address_space_read`.
///
/// `what` of the answer has 1 where a device answered with an error and 2 where nothing answered some byte; `value` is the number
/// of the generation. A greater pass is refused.
#[unsafe(no_mangle)]
pub extern "C" fn vb_read(
    alloc: Global,
    handle: &mut Handle,
    pass: u32,
    space: u32,
    addr: u64,
    out: &mut [u8],
) -> Answer
    ensures read { pass < most_passes → HasRead handle.old.machine (pass_at pass) (space_at space) addr out.old result out.new handle.new.machine }
    ensures argument { most_passes ≤ pass → IsRefused handle.old.machine (bad_argument pass) result handle.new.machine × (out.new ≡ out.old) }
{
    match PassId::new(pass) {
        Some(pass) => read(alloc, handle, pass, SpaceId(space), addr, out),
        None => bad_argument(u64::from(pass)),
    }
}

// Writes bytes to a space by a pass.
fn write(
    alloc: Global,
    handle: &mut Handle,
    pass: PassId,
    space: SpaceId,
    addr: u64,
    bytes: &[u8],
) -> Answer
    ensures { HasAccessed handle.old.machine pass space addr (writing bytes.now) result handle.new.machine }
{
    let Some(mut machine) = handle.take(alloc) else {
        return no_machine();
    };
    let access = machine.write(pass, space, addr, bytes);
    handle.put(alloc, machine);
    ended(access)
}

/// Writes bytes to a space by a pass, as `vb_read` reads them. QEMU's core, `address_space_write`.
#[unsafe(no_mangle)]
pub extern "C" fn vb_write(
    alloc: Global,
    handle: &mut Handle,
    pass: u32,
    space: u32,
    addr: u64,
    bytes: &[u8],
) -> Answer
    ensures written { pass < most_passes → HasAccessed handle.old.machine (pass_at pass) (space_at space) addr (writing bytes.now) result handle.new.machine }
    ensures argument { most_passes ≤ pass → IsRefused handle.old.machine (bad_argument pass) result handle.new.machine }
{
    match PassId::new(pass) {
        Some(pass) => write(alloc, handle, pass, SpaceId(space), addr, bytes),
        None => bad_argument(u64::from(pass)),
    }
}
