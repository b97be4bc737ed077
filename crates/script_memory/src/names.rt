// The names by which lines are told.
ghost use Rattle.std.specs.Prelude.{◌≡◌, ◌==◌, ◌++◌, ◌∷◌, ◌<◌, ◌^◌, [], true, is_ok, IfOk, OnOk, length};
ghost use Rattle.std.specs.List.{list_any};
ghost use Rattle.mem_base.specs.script.Named.{name_at};
ghost use Rattle.script_names.specs.Tables.{printed_names};
ghost use Rattle.script_memory.specs.Told.{AddsRegion, told_kind, told_kinds, told_names, without_names};

use mem_base::{Kind, RegionId};
use script_names::{NameTable, Names};
use std::alloc::{AllocError, Global};

// Whether the region with this number is among these.
fn is_among(memory: &[RegionId], region: u32) -> bool
    ensures { result ≡ list_any (λ r. r.0 == region) memory.now }
{
    memory.iter().any(|one| one.0 == region)
}

// The kind as which a region is told.
fn told_kind(memory: &[RegionId], region: u32, kind: Kind) -> Kind
    ensures { result ≡ told_kind memory.now region kind }
{
    if is_among(memory, region) {
        Kind::Ram
    } else {
        kind
    }
}

// Adds the region with this number, which has a kind, as each region has.
fn add_region(
    alloc: Global,
    told: &mut Names,
    names: &Names,
    memory: &[RegionId],
    number: u32,
) -> Result<(), AllocError>
    requires room { length told.old.regions.made < 2 ^ 32 }
    ensures { OnOk result (AddsRegion memory.now names.now told.old told.new number) }
{
    let Some(kind) = names.kind_of(RegionId(number)) else {
        return Err(AllocError);
    };
    let name = names.region_name(RegionId(number));
    // A name that was let go may stand for a later region.
    told.drop_region(name);
    told.add_region(alloc, name, told_kind(memory, number, kind))?;
    Ok(())
}

// How many names there are. No memory holds 2^32 of them.
fn count_of(names: &NameTable) -> Result<u32, AllocError>
    ensures { IfOk result (λ count. count ≡ length names.now.made) }
{
    let made = names.made();
    if made > u32::MAX as usize {
        return Err(AllocError);
    }
    Ok(made as u32)
}

// Adds all regions, of which each has a kind.
fn add_regions(
    alloc: Global,
    told: &mut Names,
    names: &Names,
    memory: &[RegionId],
) -> Result<(), AllocError>
    requires none { told.old.regions.made ≡ [] }
    requires kinds { told.old.kinds ≡ [] }
    ensures regions { OnOk result (told.new.regions.made ≡ names.now.regions.made) }
    ensures kinds { OnOk result (told.new.kinds ≡ told_kinds memory.now 0 names.now.kinds) }
    ensures others { OnOk result (told.new ≡ record told.old { regions = told.new.regions; kinds = told.new.kinds }) }
{
    let count = count_of(names.regions())?;
    for number in 0..count {
        add_region(alloc, told, names, memory, number)?;
    }
    if names.kind_of(RegionId(count)).is_some() {
        return Err(AllocError);
    }
    Ok(())
}

// Adds the space with this number; no two have one name.
fn add_space(alloc: Global, told: &mut Names, names: &Names, number: u32) -> Result<(), AllocError>
    requires room { length told.old.spaces.made < 2 ^ 32 }
    ensures spaces { OnOk result (told.new.spaces.made ≡ told.old.spaces.made ++ name_at names.now.spaces.made number ∷ []) }
    ensures others { OnOk result (told.new ≡ record told.old { spaces = told.new.spaces }) }
{
    let name = names.spaces().name_at(number);
    if told.spaces().number_of(name).is_some() {
        return Err(AllocError);
    }
    told.add_space(alloc, name)?;
    Ok(())
}

// Adds all spaces.
fn add_spaces(alloc: Global, told: &mut Names, names: &Names) -> Result<(), AllocError>
    requires none { told.old.spaces.made ≡ [] }
    ensures spaces { OnOk result (told.new.spaces.made ≡ names.now.spaces.made) }
    ensures others { OnOk result (told.new ≡ record told.old { spaces = told.new.spaces }) }
{
    for number in 0..count_of(names.spaces())? {
        add_space(alloc, told, names, number)?;
    }
    Ok(())
}

// Adds all regions and spaces.
fn add_names(
    alloc: Global,
    told: &mut Names,
    names: &Names,
    memory: &[RegionId],
) -> Result<(), AllocError>
    requires none { told.old ≡ without_names }
    ensures { OnOk result (printed_names told.new ≡ told_names memory.now (printed_names names.now)) }
{
    add_regions(alloc, told, names, memory)?;
    add_spaces(alloc, told, names)?;
    Ok(())
}

// The value, once all was done to it.
fn finished<T: Drop>(value: T, done: Result<(), AllocError>) -> Result<T, AllocError>
    ensures { IfOk result (λ t. (t ≡ value) × (is_ok done ≡ true)) }
{
    match done {
        Ok(()) => Ok(value),
        Err(fault) => Err(fault),
    }
}

/// The names by which lines are told where these regions are read as memory.
pub(crate) fn told_names(
    alloc: Global,
    names: &Names,
    memory: &[RegionId],
) -> Result<Names, AllocError>
    ensures { IfOk result (λ told. printed_names told ≡ told_names memory.now (printed_names names.now)) }
{
    let mut told = Names::new(alloc);
    let done = add_names(alloc, &mut told, names, memory);
    finished(told, done)
}
