// The commands of a script.

use crate::{Bytes, Client, Device, MapChange, Name, NotifierId, PassId, Size};

/// The kind of a region, with what its line gives for it: a `Kind` in which the target of an alias has a name.
#[derive(Debug, Drop)]
pub enum RegionKind {
    /// `container`
    Container,
    /// `ram`
    Ram,
    /// `rom`
    Rom,
    /// `romdev SIZE DEVICE`
    RomDevice(Device),
    /// `io SIZE DEVICE`
    Io(Device),
    /// `iommu`
    Iommu,
    /// `alias SIZE REGION OFFSET`
    Alias { target: Name, offset: u64 },
    /// `reserve`
    Reserve,
}

/// What a virtual CPU's pass does by a line `vN COMMAND`.
#[derive(Debug, Drop)]
pub enum PassCommand {
    /// `enter`
    Enter,
    /// `leave`
    Leave,
    /// `read SPACE ADDR LEN`
    Read {
        space: Name,
        addr: u64,
        len: u8,
    },
    /// `write SPACE ADDR BYTES`
    Write {
        space: Name,
        addr: u64,
        bytes: Bytes,
    },
    /// `do COMMAND`: a change of the map.
    Do(MapChange),
    /// `dma SPACE ADDR LEN to SPACE ADDR`
    Dma {
        space: Name,
        addr: u64,
        len: u8,
        to_space: Name,
        to_addr: u64,
    },
}

/// A command of a script, with the operands of its line and the defaults of those that were left out. All kinds of region
/// share one variant, and so do all lines of passes and all changes of the map; every other form of line has its own.
#[derive(Debug, Drop)]
pub enum Command {
    /// `machine SIZE`
    Machine {
        size: Size,
    },
    /// `region NAME KIND SIZE`, and what the kind takes
    Region {
        name: Name,
        size: Size,
        kind: RegionKind,
    },
    /// `space NAME REGION`
    Space {
        name: Name,
        root: Name,
    },
    /// A line that changes the map.
    Change(MapChange),
    /// `load REGION OFFSET BYTES`
    Load {
        region: Name,
        offset: u64,
        bytes: Bytes,
    },
    /// `drop REGION`
    Drop {
        region: Name,
    },
    /// `begin`
    Begin,
    /// `commit`
    Commit,
    /// `reap`
    Reap,
    /// `listen NAME SPACE [prio N]`
    Listen {
        name: Name,
        space: Name,
        priority: i32,
    },
    /// `unlisten NAME`
    Unlisten {
        name: Name,
    },
    /// `watch NAME REGION FIRST LAST`
    Watch {
        name: Name,
        region: Name,
        first: u64,
        last: u64,
    },
    /// `unwatch NAME`
    Unwatch {
        name: Name,
    },
    /// `show SPACE`
    Show {
        space: Name,
    },
    /// `at SPACE ADDR`
    At {
        space: Name,
        addr: u64,
    },
    /// `notified N`
    Notified {
        number: NotifierId,
    },
    /// `dirty REGION vga|code|migration`
    Dirty {
        region: Name,
        client: Client,
    },
    /// `vN COMMAND`
    Pass {
        pass: PassId,
        command: PassCommand,
    },
    /// `par`
    Par,
    /// `end`
    End,
}
