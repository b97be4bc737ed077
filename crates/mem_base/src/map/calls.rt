// What a machine's writer may ask of the map.

ghost use Rattle.std.specs.Prelude.{◌≡◌, ◌^◌, ◌<◌};
ghost use Rattle.mem_base.specs.map.Calls.{is_quiet};
ghost use Rattle.mem_base.specs.map.Edits.{edits};
ghost use Rattle.mem_base.specs.map.Forest.{FitsTypes};

use crate::{Client, Ioevent, Kind, ListenerId, Perm, RegionId, Size, SpaceId};

/// A change of the forest. All but `Region` and `Drop` may alter what an address space shows.
#[derive(Clone, Copy, Debug, PartialEq, Eq)]
pub enum Call {
    /// Makes a region, which is in no container.
    Region {
        kind: Kind,
        size: Size,
    },
    /// Makes an address space with this root.
    Space {
        space: SpaceId,
        root: RegionId,
    },
    /// Places a region in a container.
    Add {
        parent: RegionId,
        offset: u64,
        child: RegionId,
        priority: i32,
    },
    /// Takes a region out of its container.
    Del {
        parent: RegionId,
        child: RegionId,
    },
    /// Moves a region in its container.
    Move {
        child: RegionId,
        offset: u64,
    },
    /// Gives a region another size: any region but memory.
    Resize {
        region: RegionId,
        size: Size,
    },
    /// Moves the window of an alias in its target.
    Retarget {
        alias: RegionId,
        offset: u64,
    },
    /// Switches a region on or off: one that is off is left out wherever it stands.
    Enable {
        region: RegionId,
        on: bool,
    },
    /// Switches whether what is found through the region is read-only.
    Readonly {
        region: RegionId,
        on: bool,
    },
    /// Switches whether what is found through the region is non-volatile.
    Nonvolatile {
        region: RegionId,
        on: bool,
    },
    /// Switches whether ranges that are found through the region end where the path to their leaf changes.
    Unmergeable {
        region: RegionId,
        on: bool,
    },
    /// Switches the mode of a ROM device.
    Romd {
        region: RegionId,
        on: bool,
    },
    /// Switches the logging of a region for one client.
    Log {
        region: RegionId,
        client: Client,
        on: bool,
    },
    /// Switches global logging.
    Global {
        on: bool,
    },
    /// Puts a translation into the table of an IOMMU region.
    Map {
        region: RegionId,
        iova: u64,
        size: Size,
        space: SpaceId,
        translated: u64,
        perm: Perm,
    },
    /// Takes a translation out.
    Unmap {
        region: RegionId,
        iova: u64,
    },
    /// Gives a device an ioeventfd.
    Event {
        region: RegionId,
        event: Ioevent,
    },
    /// Takes an ioeventfd away.
    Unevent {
        region: RegionId,
        offset: u64,
        size: u8,
        matched: bool,
        value: u64,
    },
    /// Drops a region that nothing uses.
    Drop {
        region: RegionId,
    },
}

impl Call {
    /// Whether the call alters no view, whatever the forest: `Region` and `Drop`. Every other call is a change.
    pub fn is_quiet(&self) -> bool
        ensures { result ≡ is_quiet self.now }
    {
        matches!(self, Call::Region { .. } | Call::Drop { .. })
    }

    /// The region whose own fields the call changes, if it is a call that changes no more: its size, its window, a switch or a flag,
    /// what is logged of it, its translations, or its ioeventfds.
    pub fn edits(&self) -> Option<RegionId>
        ensures { result ≡ edits self.now }
    {
        match *self {
            Call::Retarget { alias, .. } => Some(alias),
            Call::Resize { region, .. }
            | Call::Enable { region, .. }
            | Call::Readonly { region, .. }
            | Call::Nonvolatile { region, .. }
            | Call::Unmergeable { region, .. }
            | Call::Romd { region, .. }
            | Call::Log { region, .. }
            | Call::Map { region, .. }
            | Call::Unmap { region, .. }
            | Call::Event { region, .. }
            | Call::Unevent { region, .. } => Some(region),
            _ => None,
        }
    }

    /// A law: the size in a call, and the address of a page that it maps, are such as their types hold. It does nothing.
    pub fn knows_fits(&self)
        ensures { FitsTypes self.now }
    {
        match *self {
            Call::Region { size, .. } | Call::Resize { size, .. } => {
                size.knows_most();
            }
            Call::Map { iova, size, .. } => {
                knows_address(iova);
                size.knows_most();
            }
            _ => {}
        }
    }
}

// A law: an address is below 2^64. It does nothing.
fn knows_address(address: u64)
    ensures { address < 2 ^ 64 }
{}

/// What an accepted call answers.
#[derive(Clone, Copy, Debug, PartialEq, Eq)]
pub enum Applied {
    /// The region that was made.
    Made(RegionId),
    Done,
}

/// What the writer does in private, which no virtual CPU sees before it is published.
#[derive(Clone, Copy, Debug, PartialEq, Eq)]
pub enum Config {
    /// Opens a transaction.
    Begin,
    Call(Call),
    /// Closes a transaction.
    Commit,
    Listen {
        listener: ListenerId,
        space: SpaceId,
        priority: i32,
    },
    Unlisten(ListenerId),
}
