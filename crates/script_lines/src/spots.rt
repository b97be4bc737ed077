// The lines of views and searches.
ghost use Rattle.std.specs.Prelude.{◌≡◌, ◌++◌, OnOk};
ghost use Rattle.mem_base.specs.script.SpotLines.{at_line, attrs_text, flag_text, found_text, kind_text, kind_word, log_text, range_line};
ghost use Rattle.mem_base.specs.script.SpotLines.{range_text, spot_text, view_line};
ghost use Rattle.script_names.specs.Tables.{printed_names};

use crate::line::Line;
use mem_base::{Attrs, FlatRange, Kind, Spot};
use script_names::Names;
use std::alloc::AllocError;

fn kind_word(kind: Kind) -> &'static str
    ensures { result.now ≡ kind_word kind }
{
    match kind {
        Kind::Container => "container",
        Kind::Ram => "ram",
        Kind::Rom => "rom",
        Kind::RomDevice(_) => "romdev",
        Kind::Io(_) => "io",
        Kind::Iommu => "iommu",
        Kind::Alias {
            target: _,
            offset: _,
        } => "alias",
        Kind::Reserve => "reserve",
        Kind::Host => "host",
    }
}

fn kind_text(kind: Option<Kind>) -> &'static str
    ensures { result.now ≡ kind_text kind }
{
    match kind {
        Some(kind) => kind_word(kind),
        None => "",
    }
}

fn add_flag(line: &mut Line, on: bool, text: &str) -> Result<(), AllocError>
    ensures { OnOk result (line.new ≡ line.old ++ flag_text on text.now) }
{
    if on { line.text(text) } else { Ok(()) }
}

fn add_log(line: &mut Line, log: u8) -> Result<(), AllocError>
    ensures { OnOk result (line.new ≡ line.old ++ log_text log) }
{
    if log == 0 {
        return Ok(());
    }
    line.counted(" log=", u64::from(log))
}

fn add_attrs(line: &mut Line, attrs: Attrs) -> Result<(), AllocError>
    ensures { OnOk result (line.new ≡ line.old ++ attrs_text attrs) }
{
    add_flag(line, attrs.readonly, " ro")?;
    add_flag(line, attrs.nonvolatile, " nv")?;
    add_flag(line, attrs.romd, " romd")?;
    add_flag(line, attrs.unmergeable, " um")?;
    add_log(line, attrs.log)
}

/// The spot: its region, its offset there, its kind and its flags.
pub fn add_spot(line: &mut Line, names: &Names, spot: Spot) -> Result<(), AllocError>
    ensures { OnOk result (line.new ≡ line.old ++ spot_text (printed_names names.now) spot) }
{
    line.bytes(names.region_name(spot.leaf))?;
    line.placed(" @", spot.offset)?;
    line.text(" ")?;
    line.text(kind_text(names.kind_of(spot.leaf)))?;
    add_attrs(line, spot.attrs)
}

/// What a search found: a spot, or a hole.
pub fn add_found(line: &mut Line, names: &Names, found: Option<Spot>) -> Result<(), AllocError>
    ensures { OnOk result (line.new ≡ line.old ++ found_text (printed_names names.now) found) }
{
    match found {
        Some(spot) => add_spot(line, names, spot),
        None => line.text("hole"),
    }
}

/// The range: its addresses, and the spot that it begins with.
pub fn add_range(line: &mut Line, names: &Names, range: FlatRange) -> Result<(), AllocError>
    ensures { OnOk result (line.new ≡ line.old ++ range_text (printed_names names.now) range) }
{
    line.hex(range.start)?;
    line.placed("-", range.last)?;
    line.text(" ")?;
    let spot = Spot {
        leaf: range.leaf,
        offset: range.offset,
        attrs: range.attrs,
    };
    add_spot(line, names, spot)?;
    Ok(())
}

/// `at SPACE ADDR SPOT`, or `at SPACE ADDR hole` where nothing answers.
pub fn add_at_line(
    line: &mut Line,
    names: &Names,
    space: &[u8],
    addr: u64,
    found: Option<Spot>,
) -> Result<(), AllocError>
    ensures { OnOk result (line.new ≡ line.old ++ at_line (printed_names names.now) space.now addr found) }
{
    line.named("at ", space)?;
    line.placed(" ", addr)?;
    line.text(" ")?;
    add_found(line, names, found)?;
    line.end()
}

/// `view SPACE gN`, which the ranges follow.
pub fn add_view_line(line: &mut Line, space: &[u8], generation: u64) -> Result<(), AllocError>
    ensures { OnOk result (line.new ≡ line.old ++ view_line space.now generation) }
{
    line.named("view ", space)?;
    line.counted(" g", generation)?;
    line.end()
}

/// `START-LAST SPOT`.
pub fn add_range_line(line: &mut Line, names: &Names, range: FlatRange) -> Result<(), AllocError>
    ensures { OnOk result (line.new ≡ line.old ++ range_line (printed_names names.now) range) }
{
    add_range(line, names, range)?;
    line.end()
}
