// What a machine shows: ranges of views, and what an address leads to, in the current generation.
ghost use Rattle.std.specs.Prelude.{◌≡◌, ◌<◌, None};
ghost use Rattle.mem_base.specs.declared.map.refusals.Refusal.TheVariants as refusal;
ghost use Rattle.mem_base.specs.declared.map.refusals.What.TheVariants as what;
ghost use Rattle.mem_base.specs.map.Region.{node_of};
ghost use Rattle.mem_base.specs.map.Search.{root_of};
ghost use Rattle.mem_base.specs.views.View.{shown};
ghost use Rattle.flat_lookup.specs.Atlases.{run_end};
ghost use Rattle.libvobrekan.specs.Answers.{refusal_told};
ghost use Rattle.libvobrekan.specs.Arguments.{space_at};
ghost use Rattle.libvobrekan.specs.Shown.{Finds, IsFound, IsRange, ShowsRange, found_told, number_of_kind, number_of_node, range_told};

use crate::answers::{Answer, done, no_machine, of_refusal};
use crate::handle::Handle;
use flat_lookup::Atlas;
use generation::Generation;
use mem_base::{Edition, FlatRange, Kind, Refusal, RegionId, SpaceId, Spot, What};
use std::alloc::Global;
use std::marker::Brand;
use std::sync::ledger::{Blank, Ledger};
use step_counter::Steps;

/// A range of a view: the addresses `start` to `last` inclusive are answered by a region, from `offset` in it on.
#[repr(C)]
#[derive(Clone, Copy, Debug, PartialEq, Eq)]
pub struct RangeNumbers {
    pub start: u64,
    pub last: u64,
    pub offset: u64,
    pub region: u32,
    /// The logging mask: bits 0 display, 1 code, 2 migration.
    pub log: u8,
    pub readonly: bool,
    pub nonvolatile: bool,
    /// The mode of a ROM device.
    pub romd: bool,
    pub unmergeable: bool,
}

/// What an address leads to: the byte of a region, if there is one, and the last address after it that is answered alike.
#[repr(C)]
#[derive(Clone, Copy, Debug, PartialEq, Eq)]
pub struct FoundNumbers {
    /// The last address of the range that holds the address, or of the hole that does.
    pub last: u64,
    /// The offset in the region, in bytes.
    pub offset: u64,
    pub region: u32,
    /// 0 container, 1 RAM, 2 ROM, 3 ROM device, 4 device, 5 IOMMU region, 6 alias, 7 reservation, 8 host memory.
    pub kind: u32,
    /// The logging mask: bits 0 display, 1 code, 2 migration.
    pub log: u8,
    pub readonly: bool,
    pub nonvolatile: bool,
    /// The mode of a ROM device.
    pub romd: bool,
    pub unmergeable: bool,
    /// Whether some region answers. Where none does, all but `last` is 0.
    pub is_there: bool,
}

/// A range, as numbers.
pub(crate) fn told(range: &FlatRange) -> RangeNumbers
    ensures { result ≡ range_told range.now }
{
    RangeNumbers {
        start: range.start,
        last: range.last,
        offset: range.offset,
        region: range.leaf.0,
        log: range.attrs.log,
        readonly: range.attrs.readonly,
        nonvolatile: range.attrs.nonvolatile,
        romd: range.attrs.romd,
        unmergeable: range.attrs.unmergeable,
    }
}

/// A space that is not there.
pub(crate) fn unknown(space: SpaceId) -> Answer
    ensures { result ≡ refusal_told (refusal.Unknown (what.Space space)) }
{
    of_refusal(Refusal::Unknown(What::Space(space)))
}

/// The range at an index of the view of a space, and how many there are.
pub(crate) fn range_in(
    generation: &Generation,
    space: SpaceId,
    index: usize,
    out: &mut RangeNumbers,
) -> Answer
    ensures { IsRange (root_of generation.now.forest space) generation.now.forest generation.now.number space index out.old result out.new }
{
    let Some(atlas) = generation.atlas(space) else {
        return unknown(space);
    };
    let ranges = atlas.view().as_slice();
    if let Some(range) = ranges.get(index) {
        *out = told(range);
    }
    done(ranges.len() as u64, generation.number())
}

/// The range at an index of the current view of a space, by ascending address: `out` has it, where there is one. `value` of the
/// answer is the number of ranges, and `other` that of the generation.
#[unsafe(no_mangle)]
pub extern "C" fn vb_range(
    alloc: Global,
    handle: &mut Handle,
    space: u32,
    index: usize,
    out: &mut RangeNumbers,
) -> Answer
    ensures shows { ShowsRange handle.old.machine (space_at space) index out.old result out.new }
    ensures same { handle.new.machine ≡ handle.old.machine }
{
    let Some(machine) = handle.take(alloc) else {
        return no_machine();
    };
    let answer = range_in(machine.current(), SpaceId(space), index, out);
    handle.put(alloc, machine);
    answer
}

// The number of a kind.
fn number_of_kind(kind: &Kind) -> u32
    ensures { result ≡ number_of_kind kind.now }
{
    match kind {
        Kind::Container => 0,
        Kind::Ram => 1,
        Kind::Rom => 2,
        Kind::RomDevice(_) => 3,
        Kind::Io(_) => 4,
        Kind::Iommu => 5,
        Kind::Alias { .. } => 6,
        Kind::Reserve => 7,
        Kind::Host => 8,
    }
}

// The number of a region's kind.
fn kind_in(generation: &Generation, region: RegionId) -> u32
    ensures { result ≡ number_of_node (node_of generation.now.forest.nodes region) }
{
    match generation.node(region) {
        Some(node) => number_of_kind(&node.kind),
        None => 0,
    }
}

// What a look-up found.
fn found(generation: &Generation, spot: Option<Spot>, last: u64) -> FoundNumbers
    ensures { result ≡ found_told generation.now.forest last spot }
{
    match spot {
        None => FoundNumbers {
            last,
            offset: 0,
            region: 0,
            kind: 0,
            log: 0,
            readonly: false,
            nonvolatile: false,
            romd: false,
            unmergeable: false,
            is_there: false,
        },
        Some(spot) => FoundNumbers {
            last,
            offset: spot.offset,
            region: spot.leaf.0,
            kind: kind_in(generation, spot.leaf),
            log: spot.attrs.log,
            readonly: spot.attrs.readonly,
            nonvolatile: spot.attrs.nonvolatile,
            romd: spot.attrs.romd,
            unmergeable: spot.attrs.unmergeable,
            is_there: true,
        },
    }
}

// What an address of a view leads to, by a look-up that counts for itself.
fn run_at<L: Ledger>(atlas: &Atlas, addr: u64, blank: Blank) -> (Option<Spot>, u64)
    requires name { blank.name ≡ L.name }
    requires parts { blank.parts ≡ L.parts }
    requires some { 0 < L.parts }
    ensures spot { result.0 ≡ shown atlas.now addr }
    ensures last { result.1 ≡ run_end atlas.now addr }
{
    let mut steps = Steps::<L>::new(blank);
    atlas.run_at(addr, &mut steps)
}

/// What an address of a space leads to.
pub(crate) fn found_in(
    generation: &Generation,
    space: SpaceId,
    addr: u64,
    out: &mut FoundNumbers,
) -> Answer
    ensures { IsFound (root_of generation.now.forest space) generation.now.forest generation.now.number space addr out.old result out.new }
{
    let Some(atlas) = generation.atlas(space) else {
        return unknown(space);
    };
    let (spot, last) = run_at::<Brand>(atlas, addr, Blank::new(1));
    *out = found(generation, spot, last);
    done(0, generation.number())
}

/// What an address of a space leads to in the current generation: the byte of a region, and how far it goes on alike. QEMU's
/// core, `memory_region_find`. `other` of the answer is the number of the generation.
#[unsafe(no_mangle)]
pub extern "C" fn vb_find(
    alloc: Global,
    handle: &mut Handle,
    space: u32,
    addr: u64,
    out: &mut FoundNumbers,
) -> Answer
    ensures finds { Finds handle.old.machine (space_at space) addr out.old result out.new }
    ensures same { handle.new.machine ≡ handle.old.machine }
{
    let Some(machine) = handle.take(alloc) else {
        return no_machine();
    };
    let answer = found_in(machine.current(), SpaceId(space), addr, out);
    handle.put(alloc, machine);
    answer
}
