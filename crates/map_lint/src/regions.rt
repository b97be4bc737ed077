// What looks wrong in a region by itself, or by its target or container.
ghost use Rattle.std.specs.Prelude.{◌≡◌, ◌+◌, nat_le};
ghost use Rattle.map_lint.specs.Faults.{unreached, past_target, clipped, has_own};

use crate::findings::Finding;
use generation::Generation;
use mem_base::{Kind, Node, Size};

/// Whether a region of this kind has something of its own to answer with.
pub(crate) fn has_own(kind: &Kind) -> bool
    ensures { result ≡ has_own kind.now }
{
    !matches!(
        kind,
        Kind::Container
            | Kind::Alias {
                target: _,
                offset: _
            }
    )
}

/// Whether no address of any space reaches the region, which has something of its own.
pub(crate) fn unreached(generation: &Generation, node: &Node) -> Option<Finding>
    ensures { result ≡ unreached generation.now.forest node.now }
{
    if !has_own(&node.kind) {
        return None;
    }
    if generation.names(node.id) {
        return None;
    }
    Some(Finding::Unreached { region: node.id })
}

/// Whether a range of this size at an offset ends within a region.
fn fits(offset: u64, size: Size, whole: Size) -> bool
    ensures { result ≡ nat_le (offset + size) whole }
{
    u128::from(offset) + size.get() <= whole.get()
}

/// Whether an alias goes on past the end of its target.
pub(crate) fn past_target(generation: &Generation, node: &Node) -> Option<Finding>
    ensures { result ≡ past_target generation.now.forest.nodes node.now.kind node.now }
{
    let Kind::Alias { target, offset } = node.kind else {
        return None;
    };
    let whole = generation.node(target)?;
    if fits(offset, node.size, whole.size) {
        return None;
    }
    Some(Finding::PastTarget {
        region: node.id,
        target,
    })
}

/// Whether a region goes on past the end of its container.
pub(crate) fn clipped(generation: &Generation, node: &Node) -> Option<Finding>
    ensures { result ≡ clipped generation.now.forest.nodes node.now.parent node.now }
{
    let container = node.parent?;
    let whole = generation.node(container)?;
    if fits(node.offset, node.size, whole.size) {
        return None;
    }
    Some(Finding::Clipped {
        region: node.id,
        container,
    })
}
