// Which memory a window lies on directly.
ghost use Rattle.std.specs.Prelude.{◌≡◌, ◌<◌, ◌≤◌, ◌+◌, ◌^◌, true, false, MatchOption};
ghost use Rattle.mem_base.specs.declared.access.accesses.Target.TheVariants.{Leaf};
ghost use Rattle.mem_base.specs.views.Naming.{names};
ghost use Rattle.access_run.specs.Leaves.{IsMemoryAt};
ghost use Rattle.mem_base.specs.access.Windows.{chunk_length, is_direct, is_direct_kind, is_direct_target};
ghost use Rattle.io_window.specs.Windows.{IsMemoryOf};

use access_run::first_chunk;
use generation::Generation;
use mem_base::{Attrs, Edition, Kind, Place, Spot, Target, WindowStart};

/// The memory of a direct window: the place of its region, the offset of its first byte, and the logging mask there.
#[derive(Clone, Copy, Debug, PartialEq, Eq)]
pub struct Memory {
    pub place: Place,
    pub offset: u64,
    pub log: u8,
}

// Whether what answers is memory that is read, or written, directly. QEMU's core, `memory_access_is_direct`.
fn is_direct_kind(kind: &Kind, write: bool, attrs: &Attrs) -> bool
    ensures { result ≡ is_direct_kind kind.now write attrs.now }
{
    match kind {
        Kind::Ram => !(write && attrs.readonly),
        Kind::Rom => !write,
        Kind::RomDevice(_) => attrs.romd && !write,
        _ => false,
    }
}

// The place of the memory at a spot, where it is direct.
fn place_at(g: &Generation, spot: &Spot, write: bool) -> Option<Place>
    requires named { names g.now.forest spot.now.leaf ≡ true }
    ensures { MatchOption result (is_direct_target g.now.forest write (Leaf spot.now) ≡ false)
        (λ place. (is_direct_target g.now.forest write (Leaf spot.now) ≡ true) × IsMemoryAt g.now spot.now write place) }
{
    let Some(node) = g.node(spot.leaf) else {
        return None;
    };
    if !is_direct_kind(&node.kind, write, &spot.attrs) {
        return None;
    }
    let Some(place) = g.place_of(spot.leaf) else {
        return None;
    };
    Some(place)
}

/// The memory of a direct window, and how long it is: its first chunk of `len` addresses. `None` where the first byte does not lead to
/// memory that is read, or written, directly. QEMU's core, `memory_access_is_direct`.
///
/// There is one address at least, and none lies above 2^64 - 1.
pub fn memory_at(g: &Generation, start: WindowStart, len: u64) -> Option<(Memory, u64)>
    requires some { 0 < len }
    requires within { start.addr + len ≤ 2 ^ 64 }
    ensures { MatchOption result (is_direct g.now.forest start ≡ false)
        (λ r. (r.1 ≡ chunk_length g.now.forest start len) × (0 < r.1) × (r.1 ≤ len) × IsMemoryOf g.now start r.1 r.0) }
{
    let (target, count) = first_chunk(g, start.space, start.addr, len as usize, start.write);
    let Target::Leaf(spot) = target else {
        return None;
    };
    match place_at(g, &spot, start.write) {
        Some(place) => {
            let memory = Memory {
                place,
                offset: spot.offset,
                log: spot.attrs.log,
            };
            Some((memory, count as u64))
        }
        None => None,
    }
}
