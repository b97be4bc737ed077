// Numbers for the leaves of views, by their names and kinds.
ghost use Rattle.std.specs.Prelude.{◌≡◌, Some, None, IfOk};
ghost use Rattle.mem_base.specs.script.SpotLines.{kind_text, kind_word};
ghost use Rattle.script_names.specs.Tables.{number_of, printed_names};
ghost use Rattle.view_diff.specs.Numbers.{Grows, Numbers, Renumbered, label_of};

use mem_base::{FlatRange, Kind, RegionId, View};
use script_names::{NameTable, Names};
use std::alloc::{AllocError, Global};

/// The word of a kind.
fn kind_word(kind: Kind) -> &'static str
    ensures { result.now ≡ kind_word kind }
{
    match kind {
        Kind::Container => "container",
        Kind::Ram => "ram",
        Kind::Rom => "rom",
        Kind::RomDevice(_) => "romdev",
        Kind::Io(_) => "io",
        Kind::Iommu => "iommu",
        Kind::Alias { .. } => "alias",
        Kind::Reserve => "reserve",
        Kind::Host => "host",
    }
}

// The word of a kind; nothing where there is none.
fn kind_text(kind: Option<Kind>) -> &'static str
    ensures { result.now ≡ kind_text kind }
{
    match kind {
        Some(kind) => kind_word(kind),
        None => "",
    }
}

// The name of a leaf, and the word of its kind.
fn label(alloc: Global, names: &Names, leaf: RegionId) -> Result<Vec<u8>, AllocError>
    ensures { IfOk result (λ text. text.items ≡ label_of (printed_names names.now) leaf) }
{
    let mut text = Vec::new(alloc);
    text.extend_from_slice(names.region_name(leaf))?;
    text.push(b' ')?;
    text.extend_from_slice(kind_text(names.kind_of(leaf)).as_bytes())?;
    Ok(text)
}

// The number of a label, which gets the next one if it has none. There are at most 2^32 of them.
fn number(alloc: Global, labels: &mut NameTable, label: &[u8]) -> Result<RegionId, AllocError>
    requires { Numbers labels.old }
    ensures told { Numbers labels.new }
    ensures grows { Grows labels.old.bound labels.new.bound }
    ensures number { IfOk result (λ leaf. number_of labels.new.bound label.now ≡ Some leaf.0) }
{
    if let Some(number) = labels.number_of(label) {
        return Ok(RegionId(number));
    }
    if labels.made() > u32::MAX as usize {
        return Err(AllocError);
    }
    let number = labels.bind(alloc, label)?;
    Ok(RegionId(number))
}

// The range with the number of its leaf's label.
fn renumber(
    alloc: Global,
    labels: &mut NameTable,
    range: FlatRange,
    names: &Names,
) -> Result<FlatRange, AllocError>
    requires { Numbers labels.old }
    ensures told { Numbers labels.new }
    ensures grows { Grows labels.old.bound labels.new.bound }
    ensures number { IfOk result (λ q. number_of labels.new.bound (label_of (printed_names names.now) range.leaf) ≡ Some q.leaf.0) }
    ensures same { IfOk result (λ q. q ≡ record range { leaf = q.leaf }) }
{
    let label = label(alloc, names, range.leaf)?;
    let leaf = number(alloc, labels, &label)?;
    Ok(FlatRange { leaf, ..range })
}

/// The view with a number for each leaf, by its name and kind. Labels that have a number keep it.
pub fn renumbered(
    alloc: Global,
    labels: &mut NameTable,
    view: &View,
    names: &Names,
) -> Result<View, AllocError>
    requires { Numbers labels.old }
    ensures told { Numbers labels.new }
    ensures grows { Grows labels.old.bound labels.new.bound }
    ensures view { IfOk result (λ v. Renumbered labels.new.bound (printed_names names.now) view.now v) }
{
    let ranges = view.as_slice();
    let mut items = Vec::with_capacity(alloc, ranges.len())?;
    for range in ranges {
        items.push(renumber(alloc, labels, *range, names)?)?;
    }
    Ok(View::new(items))
}
