// The lines of regions and of ranges.

use mem_base::Name;

/// What a line says of a region's kind (QEMU's `memory_region_type`). An alias has the kind of its target.
#[derive(Clone, Copy, Debug, PartialEq, Eq)]
pub enum RowKind {
    Ram,
    /// RAM that guests cannot write.
    Rom,
    /// A ROM device in ROM mode.
    RomDevice,
    /// Memory of a device of the host.
    RamDevice,
    /// All others: devices, containers, IOMMU regions, ROM devices out of ROM mode.
    Io,
}

/// What a line says of an alias: the name of its target, and the first and last offset there.
#[derive(Debug, Drop)]
pub struct Window {
    pub target: Name,
    pub first: u64,
    pub last: u64,
}

/// A line of `info mtree`: a region, where it stands, and how deep in its tree.
#[derive(Debug, Drop)]
pub struct TreeRow {
    /// How many steps it is indented: 1 for a root.
    pub depth: u32,
    /// The first and last address, with the address of the container added; `last` is below `start` where the sum passes 2^64.
    pub start: u64,
    pub last: u64,
    pub priority: i32,
    pub nonvolatile: bool,
    pub kind: RowKind,
    pub name: Name,
    pub window: Option<Window>,
    pub disabled: bool,
}

/// A line of `info mtree -f`: a range of a flat view.
#[derive(Debug, Drop)]
pub struct FlatRow {
    pub start: u64,
    pub last: u64,
    pub priority: i32,
    pub nonvolatile: bool,
    pub kind: RowKind,
    pub name: Name,
    /// The offset in the region of the first address.
    pub offset: u64,
}
