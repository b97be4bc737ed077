// Host memory in the map: it is found, merged and logged as RAM is, by the rules worked out on paper.
use crate::maps::{add, region, resize, space};
use crate::trees::{run, viewed};
use mem_base::{Applied, Attrs, Call, Client, FlatRange, Kind, Refusal, RegionId, SpaceId};
use region_tree::Tree;
use std::alloc::{AllocError, Global};

const HOST: RegionId = RegionId(1);

fn log(client: Client) -> Call {
    Call::Log {
        region: HOST,
        client,
        on: true,
    }
}

// Puts a page of RAM over the second of four pages of host memory, which stand at 0x2000.
fn build(tree: &mut Tree) -> Result<(), Refusal> {
    run(
        tree,
        &[
            region(Kind::Container, 0x1_0000),
            region(Kind::Host, 0x4000),
            region(Kind::Ram, 0x1000),
            space(0, 0),
            add(0, 0x2000, 1, 0),
            add(0, 0x3000, 2, 1),
        ],
    )
}

fn range(start: u64, last: u64, leaf: u32, offset: u64, log: u8) -> FlatRange {
    FlatRange {
        start,
        last,
        leaf: RegionId(leaf),
        offset,
        attrs: Attrs {
            readonly: false,
            nonvolatile: false,
            romd: false,
            unmergeable: false,
            log,
        },
    }
}

// Whether the view of the space is these three ranges, with these logging masks of host memory and of RAM.
fn shows(alloc: Global, tree: &Tree, host: u8, ram: u8) -> Result<bool, AllocError> {
    let expected = [
        range(0x2000, 0x2fff, 1, 0, host),
        range(0x3000, 0x3fff, 2, 0, ram),
        range(0x4000, 0x5fff, 1, 0x2000, host),
    ];
    let view = viewed(alloc, tree, SpaceId(0))?;
    Ok(view.as_slice() == expected.as_slice())
}

pub(crate) fn is_shown_as_ram(alloc: Global, tree: &mut Tree) -> Result<bool, Refusal> {
    build(tree)?;
    let unlogged = shows(alloc, tree, 0, 0)?;
    tree.apply(&log(Client::Vga))?;
    let logged = shows(alloc, tree, 1, 0)?;
    tree.apply(&Call::Global { on: true })?;
    let global = shows(alloc, tree, 5, 4)?;
    Ok(unlogged && logged && global)
}

pub(crate) fn keeps_its_size(tree: &mut Tree) -> Result<bool, Refusal> {
    build(tree)?;
    let resized = tree.apply(&resize(1, 0x1000));
    let logged = tree.apply(&log(Client::Code));
    Ok(resized == Err(Refusal::WrongKind(HOST)) && logged == Ok(Applied::Done))
}

// Sizes of new host memory that are no whole pages, and that of a whole space.
pub(crate) fn is_whole_pages(tree: &mut Tree) -> Result<bool, Refusal> {
    let none = tree.apply(&region(Kind::Host, 0));
    let odd = tree.apply(&region(Kind::Host, 0x1001));
    let whole = tree.apply(&region(Kind::Host, 0x1_0000_0000_0000_0000));
    let are_refused = none == Err(Refusal::BadSize) && odd == Err(Refusal::BadSize);
    Ok(are_refused && whole == Ok(Applied::Made(RegionId(0))))
}
