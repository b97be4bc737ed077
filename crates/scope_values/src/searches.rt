// The searches on the way of an address.
ghost use Rattle.std.specs.Prelude.{◌≡◌, ◌++◌, IfOk, OnOk, flat_map, map};
ghost use Rattle.serde_json.specs.View.{view};
ghost use Rattle.json_build.specs.Held.{members};
ghost use Rattle.json_build.specs.Parts.{list_of, with_fields};
ghost use Rattle.mem_base.specs.script.Printing.{perm_text};
ghost use Rattle.script_names.specs.Tables.{printed_names};
ghost use Rattle.scope_values.specs.Searches.{concern_data, look_concern, root_concern, search_data, search_fields, searches_data, translation_data};

use crate::looks::{add_look_concerns, add_root_concern, look_list, root_value};
use crate::ranges::found;
use find_why::{Hop, Hops};
use json_build::{Fields, Items, Value};
use mem_base::{Entry, Perm, RegionId};
use script_names::Names;
use std::alloc::{AllocError, Global};

fn perm_text(perm: Perm) -> &'static str
    ensures { result.now ≡ perm_text perm }
{
    match perm {
        Perm::Nothing => "none",
        Perm::Read => "r",
        Perm::Write => "w",
        Perm::Both => "rw",
    }
}

fn entry_value(alloc: Global, names: &Names, entry: Entry) -> Result<Value, AllocError>
    ensures { IfOk result (λ v. view v ≡ translation_data (printed_names names.now) (Some entry)) }
{
    let mut fields = Fields::new(alloc);
    fields.address(alloc, "page", entry.iova)?;
    fields.name(alloc, "space", names.space_name(entry.space))?;
    fields.address(alloc, "address", entry.translated)?;
    fields.text(alloc, "permission", perm_text(entry.perm))?;
    Ok(fields.object())
}

// The translation by which the way goes on, or `null`.
fn translation(alloc: Global, names: &Names, used: Option<Entry>) -> Result<Value, AllocError>
    ensures { IfOk result (λ v. view v ≡ translation_data (printed_names names.now) used) }
{
    match used {
        Some(entry) => entry_value(alloc, names, entry),
        None => Ok(Value::Null),
    }
}

// Where a search begins, and what it finds.
fn add_search(
    alloc: Global,
    fields: &mut Fields,
    names: &Names,
    hop: &Hop,
) -> Result<(), AllocError>
    ensures { OnOk result (members fields.new ≡ with_fields (members fields.old) (search_fields (printed_names names.now) hop.now)) }
{
    fields.name(alloc, "space", names.space_name(hop.space))?;
    fields.address(alloc, "address", hop.addr)?;
    fields.value(alloc, "answer", found(alloc, names, hop.answer)?)
}

// A search, with all regions that were looked into.
fn search_value(alloc: Global, names: &Names, hop: &Hop) -> Result<Value, AllocError>
    ensures { IfOk result (λ v. view v ≡ search_data (printed_names names.now) hop.now) }
{
    let mut fields = Fields::new(alloc);
    add_search(alloc, &mut fields, names, hop)?;
    fields.value(alloc, "root", root_value(alloc, names, hop.root)?)?;
    let looks = look_list(alloc, names, hop.looks.as_slice())?;
    fields.value(alloc, "looks", looks)?;
    fields.value(alloc, "translation", translation(alloc, names, hop.used)?)?;
    Ok(fields.object())
}

// What came of one region wherever it was tried in a search.
fn concern_list(
    alloc: Global,
    names: &Names,
    region: RegionId,
    hop: &Hop,
) -> Result<Value, AllocError>
    ensures { IfOk result (λ v. view v ≡ list_of (root_concern (printed_names names.now) region hop.now.root
        ++ flat_map (look_concern (printed_names names.now) region) hop.now.looks)) }
{
    let mut items = Items::new(alloc);
    add_root_concern(alloc, &mut items, names, region, hop.root)?;
    add_look_concerns(alloc, &mut items, names, region, hop.looks.as_slice())?;
    Ok(items.list())
}

// A search, with what came of one region.
fn concern_value(
    alloc: Global,
    names: &Names,
    region: RegionId,
    hop: &Hop,
) -> Result<Value, AllocError>
    ensures { IfOk result (λ v. view v ≡ concern_data (printed_names names.now) region hop.now) }
{
    let mut fields = Fields::new(alloc);
    add_search(alloc, &mut fields, names, hop)?;
    let trials = concern_list(alloc, names, region, hop)?;
    fields.value(alloc, "trials", trials)?;
    Ok(fields.object())
}

// All searches, each with all regions that were looked into.
fn whole_list(alloc: Global, names: &Names, hops: &[Hop]) -> Result<Value, AllocError>
    ensures { IfOk result (λ v. view v ≡ list_of (map (search_data (printed_names names.now)) hops.now)) }
{
    let mut items = Items::new(alloc);
    for hop in hops {
        items.push(search_value(alloc, names, hop)?)?;
    }
    Ok(items.list())
}

// All searches, each with what came of one region.
fn region_list(
    alloc: Global,
    names: &Names,
    region: RegionId,
    hops: &[Hop],
) -> Result<Value, AllocError>
    ensures { IfOk result (λ v. view v ≡ list_of (map (concern_data (printed_names names.now) region) hops.now)) }
{
    let mut items = Items::new(alloc);
    for hop in hops {
        items.push(concern_value(alloc, names, region, hop)?)?;
    }
    Ok(items.list())
}

/// The searches on the way of an address, one object each: where it begins, what it finds, and why each region that was tried answers or
/// does not; or of one region alone.
pub fn search_list(
    alloc: Global,
    names: &Names,
    hops: &Hops,
    region: Option<RegionId>,
) -> Result<Value, AllocError>
    ensures { IfOk result (λ v. view v ≡ searches_data (printed_names names.now) region hops.now) }
{
    match region {
        Some(region) => region_list(alloc, names, region, hops.as_slice()),
        None => whole_list(alloc, names, hops.as_slice()),
    }
}
