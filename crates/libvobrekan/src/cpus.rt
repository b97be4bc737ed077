// Virtual CPUs: each works by its own handle, beside the others and the desk.
ghost use Rattle.std.specs.Prelude.{◌≡◌, None};
ghost use Rattle.libvobrekan.specs.Arguments.{space_at};
ghost use Rattle.libvobrekan.specs.Cpus.{Enters, Leaves, Reads, WritesFirst, WritesWord, written_told, wrote_told};

use crate::accesses::{ended, ended_so};
use crate::answers::{Answer, contended, done, no_machine, not_whole};
use crate::cpu_handle::CpuHandle;
use bounded_write::Written;
use mem_base::{Access, SpaceId};
use std::alloc::Global;
use vcpu_pass::NotWhole;

// How a write of one word ended.
fn wrote(end: Result<Access, NotWhole>) -> Answer
    ensures { result ≡ wrote_told end }
{
    match end {
        Ok(access) => ended(access),
        Err(refused) => not_whole(refused.number),
    }
}

/// Enters the current generation: accesses go by it until the virtual CPU leaves it or enters anew. `other` of the answer is its number.
/// QEMU's core, `rcu_read_lock`.
#[unsafe(no_mangle)]
pub extern "C" fn vb_cpu_enter(alloc: Global, handle: &mut CpuHandle) -> Answer
    ensures { Enters handle.old.cpu result handle.new.cpu }
{
    let Some(mut cpu) = handle.take(alloc) else {
        return no_machine();
    };
    let number = cpu.enter();
    handle.put(alloc, cpu);
    done(0, number)
}

/// Leaves the generation that the virtual CPU is entered in; where it is in none, it does nothing. QEMU's core, `rcu_read_unlock`.
#[unsafe(no_mangle)]
pub extern "C" fn vb_cpu_leave(alloc: Global, handle: &mut CpuHandle) -> Answer
    ensures { Leaves handle.old.cpu result handle.new.cpu }
{
    let Some(mut cpu) = handle.take(alloc) else {
        return no_machine();
    };
    cpu.leave();
    handle.put(alloc, cpu);
    done(0, 0)
}

/// Reads bytes of a space, as many as there is room for, in the generation that the virtual CPU is entered in, and where it is in none in the
/// current one. The answer is that of `vb_read`. It never waits. QEMU's core, `address_space_read`.
#[unsafe(no_mangle)]
pub extern "C" fn vb_cpu_read(
    alloc: Global,
    handle: &mut CpuHandle,
    space: u32,
    addr: u64,
    out: &mut [u8],
) -> Answer
    ensures { Reads handle.old.cpu (space_at space) addr out.old result out.new handle.new.cpu }
{
    let Some(mut cpu) = handle.take(alloc) else {
        return no_machine();
    };
    let access = cpu.read(SpaceId(space), addr, out);
    handle.put(alloc, cpu);
    ended(access)
}

/// Writes the eight bytes of a number, the lowest first, as `vb_cpu_read` reads bytes. It never waits: where it would replace only a part
/// of some word, it writes nothing, with the code 26, and `other` of the answer is the number of the generation. QEMU's core,
/// `address_space_write`.
#[unsafe(no_mangle)]
pub extern "C" fn vb_cpu_write8(
    alloc: Global,
    handle: &mut CpuHandle,
    space: u32,
    addr: u64,
    value: u64,
) -> Answer
    ensures { WritesWord handle.old.cpu (space_at space) addr value result handle.new.cpu }
{
    let Some(mut cpu) = handle.take(alloc) else {
        return no_machine();
    };
    let end = cpu.write8(SpaceId(space), addr, value);
    handle.put(alloc, cpu);
    wrote(end)
}

// How a write of some bytes ended.
fn wrote_first(len: usize, written: Written) -> Answer
    ensures { result ≡ written_told len written }
{
    if written.count == len {
        return ended(written.access);
    }
    let begun = if written.begun { 4 } else { 0 };
    contended(
        ended_so(&written.access) + begun,
        written.count as u64,
        written.access.number,
    )
}

/// Writes bytes to a space, as `vb_cpu_read` reads them. It never waits: a part of a word is replaced by an exchange, which fails where
/// another changed the word meanwhile, and each is tried at most `tries` times. QEMU's core, `address_space_write`.
///
/// Where all are written the answer is that of `vb_write`. Else its code is 28, `value` is how many of the first bytes are written, with the
/// marks of just these, `what` how their write ended, and `other` the number of the generation: the caller may go on after them. `what` has 4
/// where a device, whose access takes several callbacks, has taken the first of those that come next.
#[unsafe(no_mangle)]
pub extern "C" fn vb_cpu_write(
    alloc: Global,
    handle: &mut CpuHandle,
    space: u32,
    addr: u64,
    bytes: &[u8],
    tries: u32,
) -> Answer
    ensures { WritesFirst handle.old.cpu (space_at space) addr bytes.now tries result handle.new.cpu }
{
    let Some(mut cpu) = handle.take(alloc) else {
        return no_machine();
    };
    let written = cpu.write_bounded(SpaceId(space), addr, bytes, tries);
    handle.put(alloc, cpu);
    wrote_first(bytes.len(), written)
}

/// Leaves where the virtual CPU is entered, and frees it, if the handle has one. The handle has none then.
#[unsafe(no_mangle)]
pub extern "C" fn vb_cpu_free(alloc: Global, handle: &mut CpuHandle)
    ensures { handle.new.cpu ≡ None }
{
    if let Some(mut cpu) = handle.take(alloc) {
        cpu.leave();
    }
}
