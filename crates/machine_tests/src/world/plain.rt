// The ioeventfds that are live, by a program that compares everything with everything.
use mem_base::{FlatRange, Forest, Live};
use std::alloc::{AllocError, Global};

/// Whether a range shows one of these bytes of its leaf, byte by byte.
fn shows(range: &FlatRange, offset: u64, size: u8) -> bool {
    for byte in 0..size {
        let at = offset.wrapping_add(u64::from(byte));
        if range.offset <= at
            && at.wrapping_sub(range.offset) <= range.last.wrapping_sub(range.start)
        {
            return true;
        }
    }
    false
}

/// Puts one more at the end, unless it is there.
fn put(list: &mut Vec<Live>, live: Live) -> Result<(), AllocError> {
    if !list.as_slice().contains(&live) {
        list.push(live)?;
    }
    Ok(())
}

/// The ioeventfds that a range shows, at their addresses in the space.
fn put_of_range(
    list: &mut Vec<Live>,
    forest: &Forest,
    range: &FlatRange,
) -> Result<(), AllocError> {
    let Some(leaf) = forest.nodes.get(range.leaf) else {
        return Ok(());
    };
    let base = i128::from(range.start).wrapping_sub(i128::from(range.offset));
    for event in leaf.events.as_slice() {
        if shows(range, event.offset, event.size) {
            put(
                list,
                Live {
                    addr: base.wrapping_add(i128::from(event.offset)),
                    size: event.size,
                    matched: event.matched,
                    value: event.value,
                    number: event.number,
                },
            )?;
        }
    }
    Ok(())
}

/// The ioeventfds that the ranges of a view show, each once.
pub(crate) fn plain_lives(
    alloc: Global,
    forest: &Forest,
    ranges: &[FlatRange],
) -> Result<Vec<Live>, AllocError> {
    let mut list = Vec::new(alloc);
    for range in ranges {
        put_of_range(&mut list, forest, range)?;
    }
    Ok(list)
}
