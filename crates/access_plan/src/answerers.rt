// Who answers at a leaf.
ghost use Rattle.std.specs.Prelude.{◌≡◌, ◌&&◌, not, Some};
ghost use Rattle.mem_base.specs.access.CorePlans.{is_readonly, own_spot};
ghost use Rattle.mem_base.specs.map.Region.{node_of};
ghost use Rattle.access_plan.specs.HostPlans.{is_host_kind};
ghost use Rattle.access_plan.specs.Answering.{IsAnswerer, IsAnswererBy, memory_unless, rom_device};

use generation::Generation;
use mem_base::{Edition, Kind, Node, Ops, Spot};

/// Who answers at a leaf.
#[derive(Clone, Copy, Debug, PartialEq, Eq)]
pub enum Answerer {
    /// The leaf's memory.
    Memory,
    /// The leaf's device, of these access sizes.
    Device(Ops),
    /// A reservation answers nothing, and read-only memory takes no write.
    Nobody,
}

// Memory, unless it is read-only and written.
fn memory_unless(shut: bool) -> Answerer
    ensures { result ≡ memory_unless shut }
{
    if shut {
        Answerer::Nobody
    } else {
        Answerer::Memory
    }
}

// A ROM device is read directly while its mode is on, and is a device otherwise.
fn rom_device(direct: bool, ops: Ops) -> Answerer
    ensures { result ≡ rom_device direct ops }
{
    if direct {
        Answerer::Memory
    } else {
        Answerer::Device(ops)
    }
}

// Who answers at a spot whose region is at hand.
fn at_node(g: &Generation, node: &Node, spot: &Spot, write: bool) -> Answerer
    requires { node_of g.now.forest.nodes spot.now.leaf ≡ Some node.now }
    ensures { IsAnswerer g.now.forest spot.now write result }
{
    g.knows_forest();
    match node.kind {
        Kind::Ram | Kind::Rom | Kind::Host => memory_unless(write && spot.attrs.readonly),
        Kind::RomDevice(device) => rom_device(spot.attrs.romd && !write, device.ops),
        Kind::Io(device) => Answerer::Device(device.ops),
        _ => Answerer::Nobody,
    }
}

/// Who answers a write, or a read, at a spot.
pub fn answerer_of(g: &Generation, spot: &Spot, write: bool) -> Answerer
    ensures { IsAnswerer g.now.forest spot.now write result }
{
    match g.node(spot.leaf) {
        Some(node) => at_node(g, node, spot, write),
        None => Answerer::Nobody,
    }
}

// The flag of a region itself that it takes no writes.
fn is_readonly(node: &Node) -> bool
    ensures { result ≡ is_readonly node.now }
{
    matches!(node.kind, Kind::Rom) || node.readonly
}

/// A spot as QEMU's core takes it: read-only by its region's own flag. `memory_access_is_direct` of memory.h.
pub(crate) fn own_spot(g: &Generation, spot: &Spot) -> Spot
    ensures { result ≡ own_spot (node_of g.now.forest.nodes spot.now.leaf) spot.now }
{
    let mut own = *spot;
    if let Some(node) = g.node(spot.leaf) {
        own.attrs.readonly = is_readonly(node);
    }
    own
}

// A region is memory of the host, whose bytes the machine has not.
fn lacks_bytes(host: bool, kind: &Kind) -> bool
    ensures { result ≡ (not host && is_host_kind kind.now) }
{
    !host && matches!(kind, Kind::Host)
}

// Who answers, by the kind of the region.
fn by_kind(g: &Generation, host: bool, spot: &Spot, write: bool) -> Answerer
    ensures { IsAnswererBy host g.now.forest spot.now write result }
{
    let Some(node) = g.node(spot.leaf) else {
        return Answerer::Nobody;
    };
    if lacks_bytes(host, &node.kind) {
        return Answerer::Nobody;
    }
    at_node(g, node, spot, write)
}

// A write meets memory that is read-only.
fn is_shut(spot: &Spot, write: bool) -> bool
    ensures { result ≡ (write && spot.now.attrs.readonly) }
{
    write && spot.attrs.readonly
}

/// Who answers a write, or a read, at a spot, in a machine that has the bytes of the host's memory, or has not.
///
/// What has bytes and no registers is RAM or ROM: there the region itself is not looked for.
#[inline(always)]
pub fn answerer_by(g: &Generation, host: bool, spot: &Spot, write: bool) -> Answerer
    ensures { IsAnswererBy host g.now.forest spot.now write result }
{
    let Some(place) = g.place_of(spot.leaf) else {
        return by_kind(g, host, spot, write);
    };
    if place.regs == 0 {
        return memory_unless(is_shut(spot, write));
    }
    by_kind(g, host, spot, write)
}
