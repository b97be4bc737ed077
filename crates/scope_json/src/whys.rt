// `why`.
ghost use Rattle.std.specs.Prelude.{◌≡◌, false, List, IfOk, IfErr, option_map, Some};
ghost use Rattle.serde_json.specs.View.{view};
ghost use Rattle.mem_base.specs.map.Limits.{most_translations};
ghost use Rattle.mem_base.specs.script.Shows.{shown_forest};
ghost use Rattle.find_why.specs.Hops.{AreHops};
ghost use Rattle.find_why.specs.declared.hops.Hop.{Hop};
ghost use Rattle.scope_run.specs.Scripts.{FailsIn, FailsOn, OfScript, told_by};
ghost use Rattle.scope_json.specs.Whys.{TellsWhy, why_data};

use crate::answers::{Told, answer_to};
use find_why::why as find_hops;
use json_build::Value;
use mem_base::{Name, RegionId, SpaceId};
use scope_run::{Fault, ToldMap, Which, read_told, region_asked, stopped};
use scope_values::search_list;
use std::alloc::{AllocError, Global};

// The value about an address of a space.
fn value_of(
    alloc: Global,
    map: &ToldMap,
    space: SpaceId,
    addr: u64,
    region: Option<RegionId>,
) -> Result<Value, AllocError>
    ensures { IfOk result (λ v. (hops : List Hop) × AreHops (shown_forest map.now.state) most_translations space addr hops
        × (view v ≡ why_data map.now.state.names region hops)) }
{
    let hops = find_hops(alloc, map.generation().forest(), space, addr)?;
    let mut fields = answer_to(alloc, "why")?;
    let searches = search_list(alloc, map.names(), &hops, region)?;
    fields.value(alloc, "searches", searches)?;
    Ok(fields.object())
}

// The same of names.
fn why_in(
    alloc: Global,
    map: &ToldMap,
    space: &Name,
    addr: u64,
    region: Option<&Name>,
) -> Result<Told, Fault>
    ensures told { IfOk result (λ t. TellsWhy map.now.state space.now addr (option_map (λ n. n.now) region.entry) (view t.value)) }
    ensures nothing { IfOk result (λ t. t.something ≡ false) }
    ensures fails { IfErr result (λ fault. FailsIn map.now.state (Some space.now) (option_map (λ n. n.now) region.entry) fault) }
{
    let Some(space) = map.space(space) else {
        return Err(Fault::NoSpace);
    };
    let region = region_asked(map, region)?;
    let value = value_of(alloc, map, space, addr, region)?;
    Ok(Told {
        value,
        something: false,
    })
}

/// Why a region answers an address of a space of the map that a script leaves, and why the others do not; of one region alone, where one
/// is named.
pub(crate) fn why(
    alloc: Global,
    script: &[u8],
    space: &Name,
    addr: u64,
    region: Option<&Name>,
) -> Result<Told, Fault>
    ensures told { IfOk result (λ t. OfScript script.now
        (λ lines. TellsWhy (told_by script.now lines) space.now addr (option_map (λ n. n.now) region.entry) (view t.value))) }
    ensures nothing { IfOk result (λ t. t.something ≡ false) }
    ensures fails { IfErr result (λ fault. FailsOn script.now (Some space.now) (option_map (λ n. n.now) region.entry) fault) }
{
    match read_told(alloc, script) {
        Ok(map) => {
            let answer = why_in(alloc, &map, space, addr, region);
            drop(map);
            answer
        }
        Err(stop) => Err(stopped(Which::First, stop)),
    }
}
