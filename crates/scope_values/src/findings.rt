// What looks wrong in a map.
ghost use Rattle.std.specs.Prelude.{◌≡◌, IfOk, map};
ghost use Rattle.serde_json.specs.View.{view};
ghost use Rattle.json_build.specs.Parts.{list_of};
ghost use Rattle.script_names.specs.Tables.{printed_names};
ghost use Rattle.scope_values.specs.Findings.{finding_data, finding_words, object_of, region_data, subject};

use json_build::{Fields, Items, Value, name};
use map_lint::{Finding, Findings};
use mem_base::RegionId;
use script_names::Names;
use std::alloc::{AllocError, Global};

fn words(finding: Finding) -> &'static str
    ensures { result.now ≡ finding_words finding }
{
    match finding {
        Finding::Unreached { .. } => "is reached by no address",
        Finding::Tied { .. } => "is tried after one of the same priority that it overlaps",
        Finding::PastTarget { .. } => "goes on past the end of its target",
        Finding::Clipped { .. } => "goes on past the end of its container",
        Finding::Hidden { .. } => "lies wholly under",
    }
}

// The region of which it is said.
fn subject(finding: Finding) -> RegionId
    ensures { result ≡ subject finding }
{
    match finding {
        Finding::Unreached { region } => region,
        Finding::Tied { region, .. } => region,
        Finding::PastTarget { region, .. } => region,
        Finding::Clipped { region, .. } => region,
        Finding::Hidden { region, .. } => region,
    }
}

// The other region that it speaks of.
fn object_of(finding: Finding) -> Option<RegionId>
    ensures { result ≡ object_of finding }
{
    match finding {
        Finding::Unreached { .. } => None,
        Finding::Tied { other, .. } => Some(other),
        Finding::PastTarget { target, .. } => Some(target),
        Finding::Clipped { container, .. } => Some(container),
        Finding::Hidden { other, .. } => Some(other),
    }
}

// The name of a region, if there is one.
fn region_value(alloc: Global, names: &Names, region: Option<RegionId>) -> Result<Value, AllocError>
    ensures { IfOk result (λ v. view v ≡ region_data (printed_names names.now) region) }
{
    match region {
        Some(region) => name(alloc, names.region_name(region)),
        None => Ok(Value::Null),
    }
}

fn finding_value(alloc: Global, names: &Names, finding: Finding) -> Result<Value, AllocError>
    ensures { IfOk result (λ v. view v ≡ finding_data (printed_names names.now) finding) }
{
    let mut fields = Fields::new(alloc);
    fields.name(alloc, "region", names.region_name(subject(finding)))?;
    fields.text(alloc, "finding", words(finding))?;
    let other = region_value(alloc, names, object_of(finding))?;
    fields.value(alloc, "other", other)?;
    Ok(fields.object())
}

/// What looks wrong in a map, one object each.
pub fn finding_list(alloc: Global, names: &Names, findings: &Findings) -> Result<Value, AllocError>
    ensures { IfOk result (λ v. view v ≡ list_of (map (finding_data (printed_names names.now)) findings.now)) }
{
    let mut items = Items::new(alloc);
    for finding in findings.as_slice() {
        items.push(finding_value(alloc, names, *finding)?)?;
    }
    Ok(items.list())
}
