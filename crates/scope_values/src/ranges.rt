// What answers at an address, and ranges of views.
ghost use Rattle.std.specs.Prelude.{◌≡◌, ◌+◌, ◌<◌, ◌++◌, ◌==◌, IfOk, IfSome, OnOk, drop, length, position};
ghost use Rattle.serde_json.specs.View.{view};
ghost use Rattle.json_build.specs.Held.{members, values};
ghost use Rattle.json_build.specs.Parts.{with_fields};
ghost use Rattle.mem_base.specs.script.SpotLines.{kind_text, kind_word};
ghost use Rattle.script_names.specs.Tables.{printed_names};
ghost use Rattle.scope_values.specs.Ranges.{ends_fields, flag, flags_data, found_data, label_kind, label_name, labelled_fields, place_fields, range_fields};
ghost use Rattle.scope_values.specs.Ranges.{spot_fields};

use json_build::{Fields, Items, Value, text};
use mem_base::{Attrs, FlatRange, Kind, Spot};
use script_names::{NameTable, Names};
use std::alloc::{AllocError, Global};

fn kind_word(kind: Kind) -> &'static str
    ensures { result.now ≡ kind_word kind }
{
    match kind {
        Kind::Container => "container",
        Kind::Ram => "ram",
        Kind::Rom => "rom",
        Kind::RomDevice(_) => "romdev",
        Kind::Io(_) => "io",
        Kind::Iommu => "iommu",
        Kind::Alias {
            target: _,
            offset: _,
        } => "alias",
        Kind::Reserve => "reserve",
        Kind::Host => "host",
    }
}

/// The word of a kind; empty where there is none.
pub(crate) fn kind_text(kind: Option<Kind>) -> &'static str
    ensures { result.now ≡ kind_text kind }
{
    match kind {
        Some(kind) => kind_word(kind),
        None => "",
    }
}

// A word, where the flag is on.
fn add_flag(alloc: Global, flags: &mut Items, on: bool, word: &str) -> Result<(), AllocError>
    ensures { OnOk result (values flags.new ≡ values flags.old ++ flag on word.now) }
{
    if on {
        flags.push(text(alloc, word)?)
    } else {
        Ok(())
    }
}

// The words of the flags that are on.
fn flags_of(alloc: Global, attrs: Attrs) -> Result<Value, AllocError>
    ensures { IfOk result (λ v. view v ≡ flags_data attrs) }
{
    let mut flags = Items::new(alloc);
    add_flag(alloc, &mut flags, attrs.readonly, "ro")?;
    add_flag(alloc, &mut flags, attrs.nonvolatile, "nv")?;
    add_flag(alloc, &mut flags, attrs.romd, "romd")?;
    add_flag(alloc, &mut flags, attrs.unmergeable, "um")?;
    Ok(flags.list())
}

// A region at an offset.
fn add_place(
    alloc: Global,
    fields: &mut Fields,
    region: &[u8],
    kind: &[u8],
    offset: u64,
    attrs: Attrs,
) -> Result<(), AllocError>
    ensures { OnOk result (members fields.new ≡ with_fields (members fields.old) (place_fields region.now kind.now offset attrs)) }
{
    fields.name(alloc, "region", region)?;
    fields.name(alloc, "kind", kind)?;
    fields.address(alloc, "offset", offset)?;
    fields.value(alloc, "flags", flags_of(alloc, attrs)?)?;
    fields.number(alloc, "log", u64::from(attrs.log))
}

// A spot.
fn add_spot(alloc: Global, fields: &mut Fields, names: &Names, spot: Spot) -> Result<(), AllocError>
    ensures { OnOk result (members fields.new ≡ with_fields (members fields.old) (spot_fields (printed_names names.now) spot)) }
{
    let kind = kind_text(names.kind_of(spot.leaf)).as_bytes();
    add_place(
        alloc,
        fields,
        names.region_name(spot.leaf),
        kind,
        spot.offset,
        spot.attrs,
    )
}

fn spot_value(alloc: Global, names: &Names, spot: Spot) -> Result<Value, AllocError>
    ensures { IfOk result (λ v. view v ≡ found_data (printed_names names.now) (Some spot)) }
{
    let mut fields = Fields::new(alloc);
    add_spot(alloc, &mut fields, names, spot)?;
    Ok(fields.object())
}

/// What a search finds: a region with the offset in it, or `null`.
pub fn found(alloc: Global, names: &Names, found: Option<Spot>) -> Result<Value, AllocError>
    ensures { IfOk result (λ v. view v ≡ found_data (printed_names names.now) found) }
{
    match found {
        Some(spot) => spot_value(alloc, names, spot),
        None => Ok(Value::Null),
    }
}

/// The first address and the last one.
pub(crate) fn add_ends(
    alloc: Global,
    fields: &mut Fields,
    start: u64,
    last: u64,
) -> Result<(), AllocError>
    ensures { OnOk result (members fields.new ≡ with_fields (members fields.old) (ends_fields start last)) }
{
    fields.address(alloc, "start", start)?;
    fields.address(alloc, "last", last)
}

/// A range of a view.
pub(crate) fn add_range(
    alloc: Global,
    fields: &mut Fields,
    names: &Names,
    range: FlatRange,
) -> Result<(), AllocError>
    ensures { OnOk result (members fields.new ≡ with_fields (members fields.old) (range_fields (printed_names names.now) range)) }
{
    add_ends(alloc, fields, range.start, range.last)?;
    let spot = Spot {
        leaf: range.leaf,
        offset: range.offset,
        attrs: range.attrs,
    };
    add_spot(alloc, fields, names, spot)
}

// Where the name of a label ends.
fn name_end(label: &[u8]) -> Option<usize>
    ensures value { result ≡ position (λ b. b == 32) label.now }
    ensures bound { IfSome result (λ i. i < length label.now) }
{
    label.iter().position(|byte| *byte == b' ')
}

// The name in a label.
fn label_name(label: &[u8]) -> &[u8]
    ensures { result.now ≡ label_name label.now }
{
    match name_end(label) {
        Some(end) => label.split_at(end).0,
        None => label,
    }
}

// What stands after the first bytes, as many as a count says.
fn after_first(text: &[u8], count: usize) -> &[u8]
    ensures { result.now ≡ drop count text.now }
{
    text.split_at(text.len().min(count)).1
}

// The kind in a label.
fn label_kind(label: &[u8]) -> &[u8]
    ensures { result.now ≡ label_kind label.now }
{
    let name = label_name(label);
    after_first(label, name.len() + 1)
}

/// A range of a view whose leaf is told by a label.
pub(crate) fn add_labelled(
    alloc: Global,
    fields: &mut Fields,
    labels: &NameTable,
    range: FlatRange,
) -> Result<(), AllocError>
    ensures { OnOk result (members fields.new ≡ with_fields (members fields.old) (labelled_fields labels.now.made range)) }
{
    let label = labels.name_at(range.leaf.0);
    add_ends(alloc, fields, range.start, range.last)?;
    add_place(
        alloc,
        fields,
        label_name(label),
        label_kind(label),
        range.offset,
        range.attrs,
    )
}
