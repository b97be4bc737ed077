// The places of regions, and that of the notifiers.
ghost use Rattle.std.specs.Prelude.{◌≡◌, true, IsSome, IsSomeAnd};
ghost use Rattle.mem_base.specs.map.Kinds.{device_of, has_bytes};
ghost use Rattle.mem_base.specs.map.Region.{node_of};
ghost use Rattle.mem_base.specs.views.Naming.{names, shows_events};
ghost use Rattle.access_run.specs.RegionPlaces.{AreNotifiersOf, AreRegistersOf, IsMemoryOf};

use generation::Generation;
use mem_base::{Device, Edition, Place, RegionId};

/// The place of a region's memory.
#[inline(always)]
pub(crate) fn memory_of(g: &Generation, region: RegionId) -> Place
    requires named { names g.now.forest region ≡ true }
    requires kind { IsSomeAnd (node_of g.now.forest.nodes region) (λ n. has_bytes n.kind ≡ true) }
    ensures { IsMemoryOf g.now region result }
{
    let Some(place) = g.place_of(region) else {
        unreachable!()
    };
    place
}

/// The place of a region's registers, and its device.
#[inline(always)]
pub(crate) fn registers_of(g: &Generation, region: RegionId) -> (Place, Device)
    requires named { names g.now.forest region ≡ true }
    requires kind { IsSomeAnd (node_of g.now.forest.nodes region) (λ n. IsSome (device_of n.kind)) }
    ensures { AreRegistersOf g.now region result.0 result.1 }
{
    let Some(place) = g.place_of(region) else {
        unreachable!()
    };
    let Some(node) = g.node(region) else {
        unreachable!()
    };
    let Some(device) = node.kind.device() else {
        unreachable!()
    };
    (place, device)
}

/// The place of the notifiers.
pub(crate) fn notifiers_of(g: &Generation) -> Place
    requires { shows_events g.now.forest ≡ true }
    ensures { AreNotifiersOf g.now result }
{
    let Some(place) = g.place_of(RegionId::NOTIFIERS) else {
        unreachable!()
    };
    place
}
