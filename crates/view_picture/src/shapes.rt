// Words and sizes in a picture.

use mem_base::{Kind, RegionId};
use script_lines::Line;
use script_names::Names;
use std::alloc::AllocError;

// The word of a kind.
fn kind_word(kind: Option<Kind>) -> &'static str {
    match kind {
        Some(Kind::Container) => "container",
        Some(Kind::Ram) => "ram",
        Some(Kind::Rom) => "rom",
        Some(Kind::RomDevice(_)) => "romdev",
        Some(Kind::Io(_)) => "io",
        Some(Kind::Iommu) => "iommu",
        Some(Kind::Alias { .. }) => "alias",
        Some(Kind::Reserve) => "reserve",
        Some(Kind::Host) => "host",
        None => "",
    }
}

/// The word of a region's kind.
pub(crate) fn kind_of(names: &Names, region: RegionId) -> &'static str {
    kind_word(names.kind_of(region))
}

/// A number of bytes, one less than it: in the greatest of G, M and K in which it is whole.
pub(crate) fn add_size(out: &mut Line, less_one: u64) -> Result<(), AllocError> {
    if less_one == u64::MAX {
        return out.text("16E");
    }
    let size = less_one + 1;
    if size % (1 << 30) == 0 {
        out.decimal(size >> 30)?;
        out.text("G")
    } else if size % (1 << 20) == 0 {
        out.decimal(size >> 20)?;
        out.text("M")
    } else if size % (1 << 10) == 0 {
        out.decimal(size >> 10)?;
        out.text("K")
    } else {
        out.decimal(size)
    }
}

/// As many of a text as a count says.
pub(crate) fn add_repeated(out: &mut Line, text: &str, count: usize) -> Result<(), AllocError> {
    for _ in 0..count {
        out.text(text)?;
    }
    Ok(())
}

/// The text, cut or filled with spaces to a width.
pub(crate) fn add_filled(out: &mut Line, text: &[u8], width: usize) -> Result<(), AllocError> {
    match text.get(..width) {
        Some(front) => out.bytes(front),
        None => {
            out.bytes(text)?;
            add_repeated(out, " ", width.saturating_sub(text.len()))
        }
    }
}
