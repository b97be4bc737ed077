// What no script reaches of a tree's limits: their numbers, and the questions before a call.
use crate::maps::{add, alias, latch, region, space};
use mem_base::{Applied, Call, Kind, Perm, Refusal, RegionId, Size, SpaceId, Which};
use region_tree::Tree;

/// A call that puts a page at this iova into the table of region 0.
fn page(iova: u64) -> Call {
    let Some(size) = Size::new(0x1000) else {
        unreachable!();
    };
    Call::Map {
        region: RegionId(0),
        iova,
        size,
        space: SpaceId(0),
        translated: 0,
        perm: Perm::Both,
    }
}

/// Whether 512 MiB of ROM are made, and no more of it.
pub(crate) fn has_largest(tree: &mut Tree) -> Result<bool, Refusal> {
    let largest = tree.apply(&region(Kind::Rom, 0x2000_0000))?;
    let larger = tree.refusal_of(&region(Kind::Rom, 0x2000_1000))?;
    Ok(largest == Applied::Made(RegionId(0)) && larger == Some(Refusal::BadSize))
}

/// Puts 4,096 pages into a table; whether one more is refused.
pub(crate) fn fills_a_table(tree: &mut Tree) -> Result<bool, Refusal> {
    tree.apply(&region(Kind::Iommu, 0x1000))?;
    tree.apply(&space(0, 0))?;
    for number in 0..4096_u64 {
        tree.apply(&page(number * 0x1000))?;
    }
    let refusal = tree.refusal_of(&page(0x100_0000))?;
    Ok(refusal == Some(Refusal::LimitReached(Which::Entries, 4096)))
}

/// Makes 4,096 regions; whether one more is refused.
pub(crate) fn fills_a_tree(tree: &mut Tree) -> Result<bool, Refusal> {
    for _ in 0..4096 {
        tree.apply(&region(Kind::Container, 0x1000))?;
    }
    let refusal = tree.refusal_of(&region(Kind::Container, 0x1000))?;
    Ok(refusal == Some(Refusal::LimitReached(Which::Regions, 4096)))
}

/// Puts 32 containers each into the one before it, and makes one more.
fn nests(tree: &mut Tree) -> Result<(), Refusal> {
    tree.apply(&region(Kind::Container, 0x1000))?;
    for number in 1..32 {
        tree.apply(&region(Kind::Container, 0x1000))?;
        tree.apply(&add(number - 1, 0, number, 0))?;
    }
    tree.apply(&region(Kind::Container, 0x1000))?;
    Ok(())
}

/// Whether one more goes into the 31st of 32 nested containers and not into the last, and an alias of the first is too deep.
pub(crate) fn is_deep(tree: &mut Tree) -> Result<bool, Refusal> {
    nests(tree)?;
    let deep = Some(Refusal::TooDeep(33));
    let (inside, below) = (add(30, 0, 32, 0), add(31, 0, 32, 0));
    let accepts = tree.accepts(&inside) && !tree.accepts(&below);
    let placed = tree.refusal_of(&below)?;
    let aliased = tree.refusal_of(&alias(0x1000, 0, 0))?;
    Ok(accepts && placed == deep && aliased == deep)
}

/// Makes a container, which is region `number`, and two aliases of a region; the first is put into it.
fn doubles(tree: &mut Tree, number: u32, target: u32) -> Result<Call, Refusal> {
    tree.apply(&region(Kind::Container, 0x1000))?;
    tree.apply(&alias(0x1000, target, 0))?;
    tree.apply(&alias(0x1000, target, 0))?;
    tree.apply(&add(number, 0, number.saturating_add(1), 0))?;
    Ok(add(number, 0, number.saturating_add(2), 0))
}

/// Doubles a device 14 times; the last container.
fn widens(tree: &mut Tree) -> Result<u32, Refusal> {
    tree.apply(&region(latch(), 0x1000))?;
    let mut last = 0;
    let mut number: u32 = 1;
    for _ in 0..14 {
        let second = doubles(tree, number, last)?;
        tree.apply(&second)?;
        last = number;
        number = number.saturating_add(3);
    }
    Ok(last)
}

/// Whether the weight after 14 doublings is 65,533, so that a 15th is too wide, though another container may have the last.
pub(crate) fn is_wide(tree: &mut Tree) -> Result<bool, Refusal> {
    let last = widens(tree)?;
    let heavy = tree.node(RegionId(last)).is_some() && tree.weight(RegionId(last)) == 65_533;
    let next = last.saturating_add(3);
    let second = doubles(tree, next, last)?;
    let refusal = tree.refusal_of(&second)?;
    tree.apply(&region(Kind::Container, 0x1000))?;
    let another = next.saturating_add(3);
    let accepts = tree.accepts(&add(another, 0, last, 0)) && !tree.accepts(&add(next, 0, last, 0));
    Ok(heavy && refusal == Some(Refusal::TooWide(131_069)) && accepts)
}

/// Puts 2,000 containers into one; it is here for its time, since each add looks at all regions.
pub(crate) fn gathers(tree: &mut Tree) -> Result<bool, Refusal> {
    tree.apply(&region(Kind::Container, 0x1000))?;
    for number in 1..2001 {
        tree.apply(&region(Kind::Container, 0x1000))?;
        tree.apply(&add(0, 0, number, 0))?;
    }
    Ok(tree.node(RegionId(0)).is_some() && tree.depth(RegionId(0)) == 2)
}
