// `why`.
ghost use Rattle.std.specs.Prelude.{◌≡◌, ◌++◌, false, IfOk, IfErr, OnOk, option_map, Some};
ghost use Rattle.mem_base.specs.map.Limits.{most_translations};
ghost use Rattle.mem_base.specs.script.Shows.{shown_forest};
ghost use Rattle.find_why.specs.Hops.{AreHops};
ghost use Rattle.find_why.specs.declared.hops.Hop.{Hop};
ghost use Rattle.scope_run.specs.Scripts.{FailsIn, FailsOn, IsMissing, OfScript, told_by};
ghost use Rattle.scope_run.specs.Whys.{IsAsked, TellsWhy, why_text};
ghost use Rattle.scope_run.specs.declared.answers.Fault.TheVariants as faults;
ghost use Rattle.std.specs.Prelude.{List};

use crate::answers::{Answer, Fault, Which, stopped, told};
use find_why::{Hops, why as find_hops};
use mem_base::{Name, RegionId, SpaceId};
use scope_lines::{add_region_lines, add_why_lines};
use script_lines::Line;
use script_memory::{ToldMap, read_told};
use std::alloc::{AllocError, Global};

/// The region that was asked for, if one was. It answers `NoRegion` where the map has none of the name.
pub fn region_asked(map: &ToldMap, region: Option<&Name>) -> Result<Option<RegionId>, Fault>
    ensures found { IfOk result (λ one. IsAsked map.now.state (option_map (λ n. n.now) region.entry) one) }
    ensures missing { IfErr result (λ fault. (fault ≡ faults.NoRegion) × IsMissing map.now.state (option_map (λ n. n.now) region.entry)) }
{
    let Some(name) = region else {
        return Ok(None);
    };
    match map.region(name) {
        Some(region) => Ok(Some(region)),
        None => Err(Fault::NoRegion),
    }
}

// The lines of searches, all of them or those that concern one region.
fn add_lines(
    text: &mut Line,
    map: &ToldMap,
    hops: &Hops,
    region: Option<RegionId>,
) -> Result<(), AllocError>
    ensures { OnOk result (text.new ≡ text.old ++ why_text map.now.state.names region hops.now) }
{
    match region {
        Some(region) => add_region_lines(text, map.names(), hops, region),
        None => add_why_lines(text, map.names(), hops),
    }
}

// The text about an address of a space.
fn text_of(
    alloc: Global,
    map: &ToldMap,
    space: SpaceId,
    addr: u64,
    region: Option<RegionId>,
) -> Result<Line, AllocError>
    ensures { IfOk result (λ text. (hops : List Hop) × AreHops (shown_forest map.now.state) most_translations space addr hops
        × (text ≡ why_text map.now.state.names region hops)) }
{
    let mut text = Line::new(alloc);
    let hops = find_hops(alloc, map.generation().forest(), space, addr)?;
    add_lines(&mut text, map, &hops, region)?;
    Ok(text)
}

// The same of names.
fn why_in(
    alloc: Global,
    map: &ToldMap,
    space: &Name,
    addr: u64,
    region: Option<&Name>,
) -> Result<Answer, Fault>
    ensures told { IfOk result (λ a. TellsWhy map.now.state space.now addr (option_map (λ n. n.now) region.entry) a.text) }
    ensures nothing { IfOk result (λ a. a.something ≡ false) }
    ensures fails { IfErr result (λ fault. FailsIn map.now.state (Some space.now) (option_map (λ n. n.now) region.entry) fault) }
{
    let Some(space) = map.space(space) else {
        return Err(Fault::NoSpace);
    };
    let region = region_asked(map, region)?;
    let text = text_of(alloc, map, space, addr, region)?;
    Ok(told(text))
}

/// Why a region answers an address of a space of the map that a script leaves, and why the others do not; of one region alone, where one
/// is named.
///
/// There is never something to mend. It answers `Script` where the text is no script, `NoSpace` and `NoRegion` where the script leaves no
/// space or region of the name.
pub fn why(
    alloc: Global,
    script: &[u8],
    space: &Name,
    addr: u64,
    region: Option<&Name>,
) -> Result<Answer, Fault>
    ensures told { IfOk result (λ a. OfScript script.now
        (λ lines. TellsWhy (told_by script.now lines) space.now addr (option_map (λ n. n.now) region.entry) a.text)) }
    ensures nothing { IfOk result (λ a. a.something ≡ false) }
    ensures fails { IfErr result (λ fault. FailsOn script.now (Some space.now) (option_map (λ n. n.now) region.entry) fault) }
{
    match read_told(alloc, script) {
        Ok(map) => {
            let answer = why_in(alloc, &map, space, addr, region);
            drop(map);
            answer
        }
        Err(stop) => Err(stopped(Which::First, stop)),
    }
}
