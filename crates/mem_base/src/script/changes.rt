// The lines of a script that change the map.

use crate::{Client, Name, Perm, Size};

/// A change of the map, which the desk and, in `vN do COMMAND`, a virtual CPU may ask for: a variant for each form of
/// line, with the operands in written order.
#[derive(Debug, Drop)]
pub enum MapChange {
    /// `add REGION OFFSET REGION [prio N]`
    Add {
        parent: Name,
        offset: u64,
        child: Name,
        priority: i32,
    },
    /// `del REGION REGION`
    Del {
        parent: Name,
        child: Name,
    },
    /// `move REGION OFFSET`
    Move {
        child: Name,
        offset: u64,
    },
    /// `resize REGION SIZE`
    Resize {
        region: Name,
        size: Size,
    },
    /// `retarget REGION OFFSET`
    Retarget {
        alias: Name,
        offset: u64,
    },
    /// `enable REGION`
    Enable {
        region: Name,
    },
    /// `disable REGION`
    Disable {
        region: Name,
    },
    /// `readonly REGION on|off`
    Readonly {
        region: Name,
        on: bool,
    },
    /// `nonvolatile REGION on|off`
    Nonvolatile {
        region: Name,
        on: bool,
    },
    /// `unmergeable REGION on|off`
    Unmergeable {
        region: Name,
        on: bool,
    },
    /// `romd REGION on|off`
    Romd {
        region: Name,
        on: bool,
    },
    /// `log REGION vga|code|migration on|off`
    Log {
        region: Name,
        client: Client,
        on: bool,
    },
    /// `global on|off`
    Global {
        on: bool,
    },
    /// `map REGION IOVA SIZE SPACE ADDR none|r|w|rw`
    Map {
        region: Name,
        iova: u64,
        size: Size,
        space: Name,
        translated: u64,
        perm: Perm,
    },
    /// `unmap REGION IOVA`
    Unmap {
        region: Name,
        iova: u64,
    },
    /// `event REGION OFFSET SIZE N [data VALUE]`
    Event {
        region: Name,
        offset: u64,
        size: u8,
        number: u32,
        data: Option<u64>,
    },
    /// `unevent REGION OFFSET SIZE [data VALUE]`
    Unevent {
        region: Name,
        offset: u64,
        size: u8,
        data: Option<u64>,
    },
}
