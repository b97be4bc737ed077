// The view of a space in a generation.
ghost use Rattle.std.specs.Prelude.{◌≡◌, IfOk, length};
ghost use Rattle.mem_base.specs.views.Flattened.{view_of};
ghost use Rattle.script_names.specs.Tables.{printed_names};

use generation::Generation;
use mem_base::{RegionId, SpaceId, View};
use script_names::Names;
use std::alloc::{AllocError, Global};

/// What a space shows in a generation, as a view of its own; an empty one where the space is not there.
pub fn view_in(alloc: Global, generation: &Generation, space: SpaceId) -> Result<View, AllocError>
    ensures { IfOk result (λ view. view ≡ view_of generation.now.forest space) }
{
    match generation.atlas(space) {
        Some(atlas) => {
            let ranges = atlas.view().as_slice().to_vec(alloc)?;
            Ok(View::new(ranges))
        }
        None => Ok(View::new(Vec::new(alloc))),
    }
}

/// The root of a space in a generation.
pub(crate) fn root_in(generation: &Generation, space: SpaceId) -> Option<RegionId> {
    for (other, root) in generation.forest().spaces.as_slice() {
        if other.0 == space.0 {
            return Some(*root);
        }
    }
    None
}

/// How many spaces were made. There are at most 2^32, since no memory holds more names.
pub fn space_count(names: &Names) -> Result<u32, AllocError>
    ensures { IfOk result (λ count. count ≡ length (printed_names names.now).spaces) }
{
    let made = names.spaces().made();
    if made > u32::MAX as usize {
        return Err(AllocError);
    }
    Ok(made as u32)
}
