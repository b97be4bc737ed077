// What a virtual CPU asks of the generation that it is entered in, beside the desk and the other virtual CPUs, without a lock.
ghost use Rattle.std.specs.Prelude.{◌≡◌, ◌≤◌, ◌<◌};
ghost use Rattle.mem_base.specs.access.AccessSteps.{reading, writing};
ghost use Rattle.mem_base.specs.map.Search.{root_of};
ghost use Rattle.libvobrekan.specs.Answers.{bad_argument};
ghost use Rattle.libvobrekan.specs.Arguments.{space_at};
ghost use Rattle.libvobrekan.specs.Entered.{AsksEntered};
ghost use Rattle.libvobrekan.specs.Plans.{HasPlan, is_core};
ghost use Rattle.libvobrekan.specs.Shown.{IsFound, IsPath, IsRange};

use crate::answers::{Answer, bad_argument, no_machine, not_entered};
use crate::cpu_handle::CpuHandle;
use crate::paths::path_in;
use crate::plans::{ReachedNumbers, read_in, write_in};
use crate::shown::{FoundNumbers, RangeNumbers, found_in, range_in};
use mem_base::SpaceId;
use std::alloc::Global;

/// What a read of `len` bytes of a space reaches in the generation that the virtual CPU is entered in, as `vb_plan_read` tells it of the current
/// one, in its `way`. No region that is named is released before the virtual CPU leaves the generation, so what a plan names may be used until
/// then. Where it is in none, it is refused with code 29. It asks no lock, and may be called beside the desk and other virtual CPUs.
#[unsafe(no_mangle)]
pub extern "C" fn vb_cpu_plan_read(
    alloc: Global,
    handle: &mut CpuHandle,
    way: u32,
    space: u32,
    addr: u64,
    len: usize,
    out: &mut [ReachedNumbers],
) -> Answer
    ensures plan { way < 2 → AsksEntered handle.old.cpu (λ g. HasPlan g.forest g.number (is_core way) (space_at space) addr (reading len) out.old result
        out.new) out.old result out.new }
    ensures argument { 2 ≤ way → (result ≡ bad_argument way) × (out.new ≡ out.old) }
    ensures same { handle.new.cpu ≡ handle.old.cpu }
{
    if way >= 2 {
        return bad_argument(u64::from(way));
    }
    let Some(cpu) = handle.take(alloc) else {
        return no_machine();
    };
    let answer = match cpu.generation() {
        Some(g) => read_in(alloc, g, way == 1, SpaceId(space), addr, len, out),
        None => not_entered(),
    };
    handle.put(alloc, cpu);
    answer
}

/// What a write of bytes to a space reaches in the generation that the virtual CPU is entered in, as `vb_plan_write` tells it of the current one
/// and `vb_cpu_plan_read` of a read.
#[unsafe(no_mangle)]
pub extern "C" fn vb_cpu_plan_write(
    alloc: Global,
    handle: &mut CpuHandle,
    way: u32,
    space: u32,
    addr: u64,
    bytes: &[u8],
    out: &mut [ReachedNumbers],
) -> Answer
    ensures plan { way < 2 → AsksEntered handle.old.cpu (λ g. HasPlan g.forest g.number (is_core way) (space_at space) addr (writing bytes.now) out.old
        result out.new) out.old result out.new }
    ensures argument { 2 ≤ way → (result ≡ bad_argument way) × (out.new ≡ out.old) }
    ensures same { handle.new.cpu ≡ handle.old.cpu }
{
    if way >= 2 {
        return bad_argument(u64::from(way));
    }
    let Some(cpu) = handle.take(alloc) else {
        return no_machine();
    };
    let answer = match cpu.generation() {
        Some(g) => write_in(alloc, g, way == 1, SpaceId(space), addr, bytes, out),
        None => not_entered(),
    };
    handle.put(alloc, cpu);
    answer
}

/// What an address of a space leads to in the generation that the virtual CPU is entered in, as `vb_find` tells it of the current one. Where it is
/// in none, it is refused with code 29. It asks no lock.
#[unsafe(no_mangle)]
pub extern "C" fn vb_cpu_find(
    alloc: Global,
    handle: &mut CpuHandle,
    space: u32,
    addr: u64,
    out: &mut FoundNumbers,
) -> Answer
    ensures finds { AsksEntered handle.old.cpu (λ g. IsFound (root_of g.forest (space_at space)) g.forest g.number (space_at space) addr out.old result
        out.new) out.old result out.new }
    ensures same { handle.new.cpu ≡ handle.old.cpu }
{
    let Some(cpu) = handle.take(alloc) else {
        return no_machine();
    };
    let answer = match cpu.generation() {
        Some(g) => found_in(g, SpaceId(space), addr, out),
        None => not_entered(),
    };
    handle.put(alloc, cpu);
    answer
}

/// The range at an index of the view of a space in the generation that the virtual CPU is entered in, as `vb_range` tells it of the current one.
/// Where it is in none, it is refused with code 29. It asks no lock.
#[unsafe(no_mangle)]
pub extern "C" fn vb_cpu_range(
    alloc: Global,
    handle: &mut CpuHandle,
    space: u32,
    index: usize,
    out: &mut RangeNumbers,
) -> Answer
    ensures shows { AsksEntered handle.old.cpu (λ g. IsRange (root_of g.forest (space_at space)) g.forest g.number (space_at space) index out.old result
        out.new) out.old result out.new }
    ensures same { handle.new.cpu ≡ handle.old.cpu }
{
    let Some(cpu) = handle.take(alloc) else {
        return no_machine();
    };
    let answer = match cpu.generation() {
        Some(g) => range_in(g, SpaceId(space), index, out),
        None => not_entered(),
    };
    handle.put(alloc, cpu);
    answer
}

/// The path on which an address of a space is found in the generation that the virtual CPU is entered in, as `vb_path` tells it of the current
/// one. Where it is in none, it is refused with code 29. It asks no lock.
#[unsafe(no_mangle)]
pub extern "C" fn vb_cpu_path(
    alloc: Global,
    handle: &mut CpuHandle,
    space: u32,
    addr: u64,
    out: &mut [u32],
) -> Answer
    ensures path { AsksEntered handle.old.cpu (λ g. IsPath (root_of g.forest (space_at space)) g.forest g.number (space_at space) addr out.old result
        out.new) out.old result out.new }
    ensures same { handle.new.cpu ≡ handle.old.cpu }
{
    let Some(cpu) = handle.take(alloc) else {
        return no_machine();
    };
    let answer = match cpu.generation() {
        Some(g) => path_in(alloc, g, SpaceId(space), addr, out),
        None => not_entered(),
    };
    handle.put(alloc, cpu);
    answer
}
