// The lines of a worked case: what the writer and one virtual CPU do, and what that has to answer.
use crate::windows::movers::{Mover, Span, by_window, copies, finds_none};
use config_desk::Config;
use mem_base::{Call, Client, RegionId, TxResult};
use std::sync::Wait;

/// What is done, and what it has to answer.
#[derive(Clone, Copy)]
pub(crate) enum Line {
    /// A ROM device is switched to its registers.
    RomdOff(u32),
    /// The writer puts bytes into a region, from an offset on.
    Load(u32, u64, &'static [u8]),
    /// These pages of a region were written since its marks were last taken.
    Marks(u32, &'static [u64]),
    /// Without a bounce there is no window to read, or to write, in the generation of this number.
    None(Span, bool, u64),
    /// A window is got whole: is it direct, which bytes has it, and how does it end.
    Get(Span, bool, &'static [u8], TxResult),
    /// These bytes are put into a window: is it direct, and how does it end.
    Put(Span, bool, &'static [u8], TxResult),
    /// As many bytes as the first span has are copied to the second: how does it end.
    Copy(Span, Span, TxResult),
}

/// Whether these pages of a region are marked.
pub(crate) fn marks(config: &mut Config, region: u32, pages: &[u64]) -> bool {
    match config.harvest(RegionId(region), Client::Vga) {
        Ok(found) => found.as_slice() == pages,
        Err(_) => false,
    }
}

/// Does what a line of the writer says, and answers whether that was as it has to be.
fn writer_does<R: Wait>(rt: &R, config: &mut Config, line: &Line) -> bool {
    match *line {
        Line::RomdOff(region) => {
            let call = Call::Romd {
                region: RegionId(region),
                on: false,
            };
            config.call(&call).is_ok()
        }
        Line::Load(region, offset, bytes) => {
            config
                .load_bytes(rt, RegionId(region), offset, bytes)
                .is_ok()
        }
        Line::Marks(region, pages) => marks(config, region, pages),
        _ => true,
    }
}

/// Does what a line of the virtual CPU says.
fn mover_does<'c, R: Wait>(rt: &R, mover: Mover<'c>, line: &Line) -> Mover<'c> {
    match *line {
        Line::None(span, write, number) => finds_none(rt, mover, span, write, number),
        Line::Get(span, direct, bytes, ends) => {
            by_window(rt, mover, span, false, (direct, bytes, ends))
        }
        Line::Put(span, direct, bytes, ends) => {
            by_window(rt, mover, span, true, (direct, bytes, ends))
        }
        Line::Copy(from, to, ends) => copies(rt, mover, from, to, ends),
        _ => mover,
    }
}

/// Does lines, up to the first that is not as it has to be; how many were.
pub(crate) fn goes<R: Wait>(
    rt: &R,
    config: &mut Config,
    mover: Mover<'_>,
    lines: &[Line],
) -> usize {
    let mut mover = mover;
    let mut right = 0usize;
    for line in lines {
        let done = writer_does(rt, config, line);
        mover = mover_does(rt, mover, line);
        if !done || !mover.good {
            break;
        }
        right = right.saturating_add(1);
    }
    drop(mover);
    right
}
