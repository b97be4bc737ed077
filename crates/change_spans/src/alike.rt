// Whether a region looks alike in two states of the map.
ghost use Rattle.std.specs.Prelude.{◌≡◌, ◌==◌, ◌&&◌, not, true};
ghost use Rattle.std.specs.Ordering.{int_cmp, is_eq};
ghost use Rattle.mem_base.specs.lists.Booleans.{bool_eq};
ghost use Rattle.mem_base.specs.lists.Every.{Every};
ghost use Rattle.mem_base.specs.map.Region.{node_of};
ghost use Rattle.mem_base.specs.map.Touched.{is_same_device_kind, is_same_ops, is_same_device, is_same_kind, is_same_region, looks_alike, stays_alike};
ghost use Rattle.change_spans.specs.Alike.{is_moved_alone, moves_alone};

use mem_base::{Device, DeviceKind, Forest, Kind, Node, Ops, RegionId};
use region_tree::Tree;

fn is_same_device_kind(x: DeviceKind, y: DeviceKind) -> bool
    ensures { result ≡ is_same_device_kind x y }
{
    match (x, y) {
        (DeviceKind::Latch, DeviceKind::Latch) => true,
        (DeviceKind::Count, DeviceKind::Count) => true,
        (DeviceKind::Bell, DeviceKind::Bell) => true,
        (DeviceKind::Fault, DeviceKind::Fault) => true,
        _ => false,
    }
}

fn is_same_ops(x: &Ops, y: &Ops) -> bool
    ensures { result ≡ is_same_ops x.now y.now }
{
    x.valid_min == y.valid_min
        && x.valid_max == y.valid_max
        && x.valid_unaligned == y.valid_unaligned
        && x.impl_min == y.impl_min
        && x.impl_max == y.impl_max
        && x.impl_unaligned == y.impl_unaligned
        && x.big == y.big
}

fn is_same_device(x: &Device, y: &Device) -> bool
    ensures { result ≡ is_same_device x.now y.now }
{
    is_same_device_kind(x.kind, y.kind) && x.regs == y.regs && is_same_ops(&x.ops, &y.ops)
}

fn is_same_kind(x: &Kind, y: &Kind) -> bool
    ensures { result ≡ is_same_kind x.now y.now }
{
    match (x, y) {
        (Kind::Container, Kind::Container) => true,
        (Kind::Ram, Kind::Ram) => true,
        (Kind::Rom, Kind::Rom) => true,
        (Kind::RomDevice(x), Kind::RomDevice(y)) => is_same_device(x, y),
        (Kind::Io(x), Kind::Io(y)) => is_same_device(x, y),
        (Kind::Iommu, Kind::Iommu) => true,
        (
            Kind::Alias {
                target: x,
                offset: a,
            },
            Kind::Alias {
                target: y,
                offset: b,
            },
        ) => x.0 == y.0 && a == b,
        (Kind::Reserve, Kind::Reserve) => true,
        (Kind::Host, Kind::Host) => true,
        _ => false,
    }
}

/// One and the same region, or none and none.
pub fn is_same_region(x: Option<RegionId>, y: Option<RegionId>) -> bool
    ensures { result ≡ is_same_region x y }
{
    match (x, y) {
        (Some(x), Some(y)) => x.0 == y.0,
        (None, None) => true,
        _ => false,
    }
}

// Whether two regions stand in one place: container, offset, priority and placing agree.
fn is_placed_alike(x: &Node, y: &Node) -> bool
    ensures { result ≡ (is_same_region x.now.parent y.now.parent && (x.now.offset == y.now.offset)
        && is_eq (int_cmp x.now.priority y.now.priority) && (x.now.placing == y.now.placing)) }
{
    is_same_region(x.parent, y.parent)
        && x.offset == y.offset
        && x.priority.cmp(&y.priority).is_eq()
        && x.placing == y.placing
}

// Whether flags and logging mask of two regions agree.
fn is_flagged_alike(x: &Node, y: &Node) -> bool
    ensures { result ≡ (bool_eq x.now.enabled y.now.enabled && bool_eq x.now.readonly y.now.readonly
        && bool_eq x.now.nonvolatile y.now.nonvolatile && bool_eq x.now.romd y.now.romd && bool_eq x.now.unmergeable y.now.unmergeable
        && (x.now.log == y.now.log)) }
{
    x.enabled == y.enabled
        && x.readonly == y.readonly
        && x.nonvolatile == y.nonvolatile
        && x.romd == y.romd
        && x.unmergeable == y.unmergeable
        && x.log == y.log
}

// All agrees but translations and ioeventfds, which no view shows.
fn looks_alike(x: &Node, y: &Node) -> bool
    ensures { result ≡ looks_alike x.now y.now }
{
    is_same_kind(&x.kind, &y.kind)
        && x.size.get() == y.size.get()
        && is_placed_alike(x, y)
        && is_flagged_alike(x, y)
}

/// Whether a region is in one of two forests only, or does not look alike in both. It takes no memory.
pub fn differs(old: &Forest, new: &Tree, region: RegionId) -> bool
    ensures { result ≡ not (stays_alike (node_of old.now.nodes region) (node_of new.now.nodes region)) }
{
    match (old.nodes.get(region), new.node(region)) {
        (Some(x), Some(y)) => !looks_alike(x, y),
        (None, None) => false,
        _ => true,
    }
}

// Whether two regions are the same but for id and place, translations and ioeventfds.
fn is_moved_alone(x: &Node, y: &Node) -> bool
    ensures { result ≡ is_moved_alone x.now y.now }
{
    is_same_kind(&x.kind, &y.kind) && x.size.get() == y.size.get() && is_flagged_alike(x, y)
}

// Whether a region is in neither of two forests, or in both, and the same there but for its place.
fn moves_alone(old: &Forest, new: &Tree, region: RegionId) -> bool
    ensures { result ≡ moves_alone (node_of old.now.nodes region) (node_of new.now.nodes region) }
{
    match (old.nodes.get(region), new.node(region)) {
        (Some(x), Some(y)) => is_moved_alone(x, y),
        (None, None) => true,
        _ => false,
    }
}

/// Whether each of these regions is in neither of two forests, or in both, and the same there but for its place.
pub(crate) fn move_alone(old: &Forest, new: &Tree, regions: &[RegionId]) -> bool
    ensures { result ≡ true → Every (λ r. moves_alone (node_of old.now.nodes r) (node_of new.now.nodes r) ≡ true) regions.now }
{
    for region in regions {
        if !moves_alone(old, new, *region) {
            return false;
        }
    }
    true
}
