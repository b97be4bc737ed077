// What is asked of a desk, as numbers.
ghost use Rattle.std.specs.Prelude.{◌≡◌};
ghost use Rattle.libvobrekan.specs.Orders.{call_in, kind_in, order_in, setting_in, table_call_in};

use crate::arguments::{
    DeviceNumbers, EventNumbers, client_of, device_of, event_of, perm_of, size_of,
};
use mem_base::{Call, Config, Kind, ListenerId, RegionId, SpaceId};

/// What is asked of a desk. `what` says which of the calls of a machine it is, by `VB_DO_..`; each takes the numbers that it names, and the
/// others are not looked at.
#[repr(C)]
#[derive(Clone, Copy, Debug, PartialEq, Eq)]
pub struct OrderNumbers {
    pub offset: u64,
    /// In bytes; 2^64 - 1 stands for 2^64.
    pub size: u64,
    /// Where a translation goes on.
    pub translated: u64,
    pub what: u32,
    /// The kind of a region that is made, by `VB_KIND_..`.
    pub kind: u32,
    pub region: u32,
    /// The region that is placed or taken out, the target of an alias, or the root of a space.
    pub other: u32,
    pub space: u32,
    pub listener: u32,
    /// Whose logging is switched, by `VB_CLIENT_..`.
    pub client: u32,
    /// Which accesses a translation lets through, by `VB_PERM_..`.
    pub perm: u32,
    pub priority: i32,
    /// Whether something is switched on.
    pub on: bool,
    pub device: DeviceNumbers,
    pub event: EventNumbers,
}

// The kind of a region.
fn kind_in(order: &OrderNumbers) -> Option<Kind>
    ensures { result ≡ kind_in order.now }
{
    match order.kind {
        0 => Some(Kind::Container),
        1 => Some(Kind::Ram),
        2 => Some(Kind::Rom),
        3 => device_of(&order.device).map(Kind::RomDevice),
        4 => device_of(&order.device).map(Kind::Io),
        5 => Some(Kind::Iommu),
        6 => Some(Kind::Alias {
            target: RegionId(order.other),
            offset: order.offset,
        }),
        7 => Some(Kind::Reserve),
        8 => Some(Kind::Host),
        _ => None,
    }
}

// A call about a table, an ioeventfd, or a region that is dropped.
fn table_call_in(order: &OrderNumbers) -> Option<Call>
    ensures { result ≡ table_call_in order.now }
{
    let region = RegionId(order.region);
    match order.what {
        18 => perm_of(order.perm).map(|perm| Call::Map {
            region,
            iova: order.offset,
            size: size_of(order.size),
            space: SpaceId(order.space),
            translated: order.translated,
            perm,
        }),
        19 => Some(Call::Unmap {
            region,
            iova: order.offset,
        }),
        20 => Some(Call::Event {
            region,
            event: event_of(&order.event),
        }),
        21 => Some(Call::Unevent {
            region,
            offset: order.event.offset,
            size: order.event.size,
            matched: order.event.matched,
            value: order.event.value,
        }),
        22 => Some(Call::Drop { region }),
        _ => None,
    }
}

// A call that switches something.
fn setting_in(order: &OrderNumbers) -> Option<Call>
    ensures { result ≡ setting_in order.now }
{
    let region = RegionId(order.region);
    let on = order.on;
    match order.what {
        11 => Some(Call::Enable { region, on }),
        12 => Some(Call::Readonly { region, on }),
        13 => Some(Call::Nonvolatile { region, on }),
        14 => Some(Call::Unmergeable { region, on }),
        15 => Some(Call::Romd { region, on }),
        16 => client_of(order.client).map(|client| Call::Log { region, client, on }),
        17 => Some(Call::Global { on }),
        _ => table_call_in(order),
    }
}

// A call.
fn call_in(order: &OrderNumbers) -> Option<Call>
    ensures { result ≡ call_in order.now }
{
    let region = RegionId(order.region);
    let size = size_of(order.size);
    match order.what {
        4 => kind_in(order).map(|kind| Call::Region { kind, size }),
        5 => Some(Call::Space {
            space: SpaceId(order.space),
            root: RegionId(order.other),
        }),
        6 => Some(Call::Add {
            parent: region,
            offset: order.offset,
            child: RegionId(order.other),
            priority: order.priority,
        }),
        7 => Some(Call::Del {
            parent: region,
            child: RegionId(order.other),
        }),
        8 => Some(Call::Move {
            child: region,
            offset: order.offset,
        }),
        9 => Some(Call::Resize { region, size }),
        10 => Some(Call::Retarget {
            alias: region,
            offset: order.offset,
        }),
        _ => setting_in(order),
    }
}

/// What is asked; none of numbers that stand for nothing.
pub(crate) fn order_in(order: &OrderNumbers) -> Option<Config>
    ensures { result ≡ order_in order.now }
{
    match order.what {
        0 => Some(Config::Begin),
        1 => Some(Config::Commit),
        2 => Some(Config::Listen {
            listener: ListenerId(order.listener),
            space: SpaceId(order.space),
            priority: order.priority,
        }),
        3 => Some(Config::Unlisten(ListenerId(order.listener))),
        _ => call_in(order).map(Config::Call),
    }
}
