// What an access reaches, chunk by chunk.
ghost use Rattle.std.specs.Prelude.{◌≡◌, ◌≤◌, ◌<◌, ◌+◌, ◌^◌, [], IfOk, MatchOption, length, true, false};
ghost use Rattle.mem_base.specs.access.AccessSteps.{reading, writing};
ghost use Rattle.access_plan.specs.HostPlans.{MeetsEnd, chunks_with_host, core_plan_with_host, plan_with_host};
ghost use Rattle.access_plan.specs.Lists.{Adds, IsPlanned, moved};

use crate::leaves::target;
use crate::lists::Reach;
use crate::rounds::rounds;
use access_base::first_chunk;
use generation::Generation;
use mem_base::SpaceId;
use std::alloc::{AllocError, Global};

// What the chunks of an access reach.
fn chunks(
    list: &mut Vec<Reach>,
    g: &Generation,
    space: SpaceId,
    addr: u64,
    write: bool,
    bytes: &[u8],
    len: usize,
) -> Result<(), AllocError>
    requires addresses { addr + len ≤ 2 ^ 64 }
    requires within { write ≡ true → len ≤ length bytes.now }
    ensures { IfOk result (λ _. Adds (moved write bytes.now) list.old.items list.new.items (chunks_with_host g.now.forest write space addr len (moved
        write bytes.now)) 0 len) }
{
    let mut done = 0;
    while done < len {
        let (leads, count) = first_chunk(g, space, addr + done as u64, len - done, write);
        target(list, g, &leads, write, bytes, done, count)?;
        done += count;
    }
    Ok(())
}

/// What a read of `len` bytes of a space reaches, in order, and nothing else: the defined plan, in which memory of the host answers
/// as RAM does. The things are about one part of the bytes after another.
///
/// The access ends at 2^64 at the latest. QEMU's core, `address_space_read`. Out of memory, an error is answered.
pub fn plan_read(
    alloc: Global,
    g: &Generation,
    space: SpaceId,
    addr: u64,
    len: usize,
) -> Result<Vec<Reach>, AllocError>
    requires { addr + len ≤ 2 ^ 64 }
    ensures { IfOk result (λ list. IsPlanned (reading len) list.items (plan_with_host g.now.forest space addr (reading len))) }
{
    let mut list = Vec::new(alloc);
    chunks(&mut list, g, space, addr, false, &[], len)?;
    Ok(list)
}

/// What a write of bytes to a space reaches, as `plan_read` tells it of a read. QEMU's core, `address_space_write`.
pub fn plan_write(
    alloc: Global,
    g: &Generation,
    space: SpaceId,
    addr: u64,
    bytes: &[u8],
) -> Result<Vec<Reach>, AllocError>
    requires { addr + length bytes.now ≤ 2 ^ 64 }
    ensures { IfOk result (λ list. IsPlanned (writing bytes.now) list.items (plan_with_host g.now.forest space addr (writing bytes.now))) }
{
    let mut list = Vec::new(alloc);
    chunks(&mut list, g, space, addr, true, bytes, bytes.len())?;
    Ok(list)
}

/// What a read of `len` bytes of a space reaches by QEMU's core, in order, and nothing else: a device takes whole pieces, which the end
/// of its range does not cut, and the address is looked up again after each.
///
/// `None` where the access meets one of the last offsets of a device of 2^64 bytes, where a piece may end past them.
/// QEMU's core, `flatview_read_continue`. Out of memory, an error is answered.
pub fn core_plan_read(
    alloc: Global,
    g: &Generation,
    space: SpaceId,
    addr: u64,
    len: usize,
) -> Result<Option<Vec<Reach>>, AllocError>
    requires { addr + len ≤ 2 ^ 64 }
    ensures { IfOk result (λ o. MatchOption o (MeetsEnd g.now.forest false space addr len)
        (λ list. IsPlanned (reading len) list.items (core_plan_with_host g.now.forest space addr (reading len)))) }
{
    let mut list = Vec::new(alloc);
    if rounds(&mut list, g, space, addr, false, &[], len)? {
        Ok(Some(list))
    } else {
        Ok(None)
    }
}

/// What a write of bytes to a space reaches by QEMU's core, as `core_plan_read` tells it of a read. QEMU's core,
/// `flatview_write_continue`.
pub fn core_plan_write(
    alloc: Global,
    g: &Generation,
    space: SpaceId,
    addr: u64,
    bytes: &[u8],
) -> Result<Option<Vec<Reach>>, AllocError>
    requires { addr + length bytes.now ≤ 2 ^ 64 }
    ensures { IfOk result (λ o. MatchOption o (MeetsEnd g.now.forest true space addr (length bytes.now))
        (λ list. IsPlanned (writing bytes.now) list.items (core_plan_with_host g.now.forest space addr (writing bytes.now)))) }
{
    let mut list = Vec::new(alloc);
    if rounds(&mut list, g, space, addr, true, bytes, bytes.len())? {
        Ok(Some(list))
    } else {
        Ok(None)
    }
}
