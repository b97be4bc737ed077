// What a line asks for.

use mem_base::{Bytes, DeskOrder, Kind, ListenerId, Name, RegionId, SpaceId, WatcherId};

/// What an order does to the names that are known, once it is accepted.
#[derive(Clone, Copy, Debug)]
pub enum Naming<'a> {
    /// It neither makes a name nor lets one go.
    Keeps,
    /// The name of a new region, and its kind.
    MakesRegion {
        name: &'a Name,
        kind: Kind,
    },
    /// The name of a new space.
    MakesSpace {
        name: &'a Name,
    },
    /// The name of a new listener.
    MakesListener {
        name: &'a Name,
    },
    /// The region that has this name is dropped.
    DropsRegion {
        name: &'a Name,
        region: RegionId,
    },
    /// The listener that has this name leaves.
    DropsListener {
        name: &'a Name,
        listener: ListenerId,
    },
}

/// What a line asks for, once its names are resolved.
#[derive(Debug, Drop)]
pub enum LineTask<'a> {
    /// Nothing: `machine`, `par`, `end`.
    Idle,
    /// An order to the desk, and what it does to names.
    Ordered {
        order: DeskOrder,
        naming: Naming<'a>,
    },
    /// The view of a space.
    Shown {
        space: SpaceId,
    },
    /// What is found at an address of a space.
    Found {
        space: SpaceId,
        addr: u64,
    },
    /// A watcher of this name joins, for the offsets from `first` to `last` inclusive of a region's table.
    Watched {
        name: &'a Name,
        region: RegionId,
        first: u64,
        last: u64,
    },
    /// The watcher that has this name leaves.
    Unwatched {
        name: &'a Name,
        watcher: WatcherId,
    },
    /// A pass enters the current generation.
    Entered,
    /// A pass leaves.
    Left,
    /// A pass reads this number of bytes.
    Read {
        space: SpaceId,
        addr: u64,
        len: u8,
    },
    /// A pass writes these bytes.
    Written {
        space: SpaceId,
        addr: u64,
        bytes: &'a Bytes,
    },
    /// A pass copies this number of bytes from an address to an address.
    Copied {
        space: SpaceId,
        addr: u64,
        len: u8,
        to_space: SpaceId,
        to_addr: u64,
    },
}

/// Why a line is refused before anything is asked for: by one of its names.
#[derive(Clone, Copy, Debug)]
pub enum Refused<'a> {
    /// The name stands for nothing.
    Unknown(&'a Name),
    /// The name is to be made, and stands for something.
    Taken(&'a Name),
}

/// The task of a line, or its refusal.
pub type ResolvedTask<'a> = Result<LineTask<'a>, Refused<'a>>;
