// The path on which an address is found.
ghost use Rattle.std.specs.Prelude.{◌≡◌, IfOk};
ghost use Rattle.mem_base.specs.map.Search.{path_at, root_of};
ghost use Rattle.find_why.specs.Looked.{answering};
ghost use Rattle.libvobrekan.specs.Arguments.{space_at};
ghost use Rattle.libvobrekan.specs.Shown.{IsPath, ShowsPath};

use crate::answers::{Answer, done, no_machine, of_refusal};
use crate::buffers::put_regions;
use crate::handle::Handle;
use crate::shown::unknown;
use find_why::{Look, why};
use generation::Generation;
use mem_base::{Edition, Refusal, RegionId, SpaceId};
use std::alloc::{AllocError, Global};

// The regions in which something was found.
fn answering(alloc: Global, looks: &[Look]) -> Result<Vec<RegionId>, AllocError>
    ensures { IfOk result (λ path. path.items ≡ answering looks.now) }
{
    let mut path = Vec::new(alloc);
    for look in looks {
        if look.answers {
            path.push(look.region)?;
        }
    }
    Ok(path)
}

// The path at an address of a space: no region where there is no such space.
fn path_of(
    alloc: Global,
    generation: &Generation,
    space: SpaceId,
    addr: u64,
) -> Result<Vec<RegionId>, AllocError>
    ensures { IfOk result (λ path. path.items ≡ path_at generation.now.forest space addr) }
{
    let hops = why(alloc, generation.forest(), space, addr)?;
    let [first, ..] = hops.as_slice() else {
        unreachable!()
    };
    let path = answering(alloc, first.looks.as_slice())?;
    Ok(path)
}

/// The path at an address of a space, into a buffer.
pub(crate) fn path_in(
    alloc: Global,
    generation: &Generation,
    space: SpaceId,
    addr: u64,
    out: &mut [u32],
) -> Answer
    ensures { IsPath (root_of generation.now.forest space) generation.now.forest generation.now.number space addr out.old result out.new }
{
    if generation.atlas(space).is_none() {
        return unknown(space);
    }
    let Ok(path) = path_of(alloc, generation, space, addr) else {
        return of_refusal(Refusal::Memory);
    };
    put_regions(&path, out);
    done(path.len() as u64, generation.number())
}

/// The path on which an address of a space is found in the current generation: the regions that the search passes, aliases among them,
/// from the root to the one that answers, at most 32. Where nothing answers there is none. QEMU's manual, "The memory API", "Visibility".
///
/// `out` has as many of their numbers as there is room for; `value` of the answer is how many there are, and `other` the number of the
/// generation. It takes one pass over all regions: `vb_find` is for each access, this for a person. Where memory runs out nothing is written.
#[unsafe(no_mangle)]
pub extern "C" fn vb_path(
    alloc: Global,
    handle: &mut Handle,
    space: u32,
    addr: u64,
    out: &mut [u32],
) -> Answer
    ensures path { ShowsPath handle.old.machine (space_at space) addr out.old result out.new }
    ensures same { handle.new.machine ≡ handle.old.machine }
{
    let Some(machine) = handle.take(alloc) else {
        return no_machine();
    };
    let answer = path_in(alloc, machine.current(), SpaceId(space), addr, out);
    handle.put(alloc, machine);
    answer
}
