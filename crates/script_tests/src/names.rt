// A region that is dropped, and one that is made anew under its name.

use mem_base::{Kind, RegionId};
use script_names::{NameTable, Names};
use std::alloc::{AllocError, Global};

// Whether a name is free again once it was bound and forgotten, and its number keeps it.
fn is_free_again(alloc: Global, table: &mut NameTable) -> Result<bool, AllocError> {
    if table.number_of(b"A").is_some() || table.made() != 0 {
        return Ok(false);
    }
    let first = table.bind(alloc, b"A")?;
    table.forget(b"A");
    Ok(table.number_of(b"A").is_none() && table.name_at(first) == b"A".as_slice())
}

fn frees(alloc: Global) -> Result<bool, AllocError> {
    let mut table = NameTable::new(alloc);
    let is_so = is_free_again(alloc, &mut table);
    is_so
}

#[test]
fn a_dropped_name_is_free_again(rt: HostRuntime) {
    assert!(rt; frees(rt.alloc()) == Ok(true));
}

// Whether a region that is made has its name and its kind, and its name when it is dropped too.
fn is_known(alloc: Global, names: &mut Names) -> Result<bool, AllocError> {
    if names.regions().number_of(b"R").is_some() || names.regions().made() != 0 {
        return Ok(false);
    }
    let region = names.add_region(alloc, b"R", Kind::Rom)?;
    let is_there = names.regions().number_of(b"R") == Some(0);
    let is_rom = names.kind_of(region) == Some(Kind::Rom);
    names.drop_region(b"R");
    let is_named = names.region_name(region) == b"R".as_slice();
    Ok(region == RegionId(0) && is_there && is_rom && is_named)
}

fn knows(alloc: Global) -> Result<bool, AllocError> {
    let mut names = Names::new(alloc);
    let is_so = is_known(alloc, &mut names);
    is_so
}

#[test]
fn a_region_has_its_name_and_kind(rt: HostRuntime) {
    assert!(rt; knows(rt.alloc()) == Ok(true));
}
