// The lines of the searches on the way of an address.
ghost use Rattle.std.specs.Prelude.{◌≡◌, ◌++◌, ◌==◌, OnOk, flat_map};
ghost use Rattle.std.specs.List.{list_any};
ghost use Rattle.mem_base.specs.script.Printing.{perm_text};
ghost use Rattle.script_names.specs.Tables.{printed_names};
ghost use Rattle.scope_lines.specs.Whys.{look_lines, hop_lines, root_line, used_line, why_lines, concern, concern_of, concern_lines, concerns, is_root, no_concern, tried_in};

use crate::looks::{add_look_lines, add_path_lines, add_reason};
use find_why::{Hop, Hops, Look, Tried};
use mem_base::{Entry, Perm, RegionId};
use script_lines::{Line, add_at_line};
use script_names::Names;
use std::alloc::AllocError;

/// What came of a root that does not answer.
fn add_root_line(line: &mut Line, names: &Names, root: Option<Tried>) -> Result<(), AllocError>
    ensures { OnOk result (line.new ≡ line.old ++ root_line (printed_names names.now) root) }
{
    let Some(tried) = root else {
        return Ok(());
    };
    if tried.outcome.is_answer() {
        return Ok(());
    }
    line.text("  ")?;
    add_reason(line, names, &tried)
}

fn perm_text(perm: Perm) -> &'static str
    ensures { result.now ≡ perm_text perm }
{
    match perm {
        Perm::Nothing => "none",
        Perm::Read => "r",
        Perm::Write => "w",
        Perm::Both => "rw",
    }
}

/// The translation that is used.
fn add_used_line(line: &mut Line, names: &Names, used: Option<Entry>) -> Result<(), AllocError>
    ensures { OnOk result (line.new ≡ line.old ++ used_line (printed_names names.now) used) }
{
    let Some(entry) = used else {
        return Ok(());
    };
    line.placed("page ", entry.iova)?;
    line.named(" goes to ", names.space_name(entry.space))?;
    line.placed(" ", entry.translated)?;
    line.text(" ")?;
    line.text(perm_text(entry.perm))?;
    line.end()
}

/// The regions inside each region that was looked into.
fn add_looks(line: &mut Line, names: &Names, looks: &[Look]) -> Result<(), AllocError>
    ensures { OnOk result (line.new ≡ line.old ++ flat_map (look_lines (printed_names names.now)) looks.now) }
{
    for look in looks {
        add_look_lines(line, names, look)?;
    }
    Ok(())
}

/// One search: what answers, the path to it, and why each other region does not.
fn add_hop_lines(line: &mut Line, names: &Names, hop: &Hop) -> Result<(), AllocError>
    ensures { OnOk result (line.new ≡ line.old ++ hop_lines (printed_names names.now) hop.now) }
{
    let looks = hop.looks.as_slice();
    add_at_line(
        line,
        names,
        names.space_name(hop.space),
        hop.addr,
        hop.answer,
    )?;
    add_path_lines(line, names, looks)?;
    add_root_line(line, names, hop.root)?;
    add_looks(line, names, looks)?;
    add_used_line(line, names, hop.used)
}

/// Why a region answers an address, and why the others do not: for each search what answers, the path to it with the offset in
/// each region, and of each region that was looked into the regions inside it, each with its reason. Those that begin after the
/// address or end before it are counted.
pub fn add_why_lines(line: &mut Line, names: &Names, hops: &Hops) -> Result<(), AllocError>
    ensures { OnOk result (line.new ≡ line.old ++ why_lines (printed_names names.now) hops.now) }
{
    for hop in hops.as_slice() {
        add_hop_lines(line, names, hop)?;
    }
    Ok(())
}

/// What came of one region inside another, if it is this one.
fn add_concern(
    line: &mut Line,
    names: &Names,
    region: RegionId,
    tried: &Tried,
) -> Result<(), AllocError>
    ensures { OnOk result (line.new ≡ line.old ++ concern (printed_names names.now) region tried.now) }
{
    if tried.region.0 == region.0 {
        add_reason(line, names, tried)
    } else {
        Ok(())
    }
}

/// What came of one region wherever it was tried inside another.
fn add_concerns(
    line: &mut Line,
    names: &Names,
    region: RegionId,
    trials: &[Tried],
) -> Result<(), AllocError>
    ensures { OnOk result (line.new ≡ line.old ++ flat_map (concern (printed_names names.now) region) trials.now) }
{
    for tried in trials {
        add_concern(line, names, region, tried)?;
    }
    Ok(())
}

/// What came of one region in one search.
fn add_hop_concerns(
    line: &mut Line,
    names: &Names,
    region: RegionId,
    hop: &Hop,
) -> Result<(), AllocError>
    ensures { OnOk result (line.new ≡ line.old ++ concern_of (printed_names names.now) region hop.now) }
{
    add_at_line(
        line,
        names,
        names.space_name(hop.space),
        hop.addr,
        hop.answer,
    )?;
    if let Some(root) = hop.root {
        add_concern(line, names, region, &root)?;
    }
    add_look_concerns(line, names, region, hop.looks.as_slice())
}

/// What came of one region wherever it was tried.
fn add_look_concerns(
    line: &mut Line,
    names: &Names,
    region: RegionId,
    looks: &[Look],
) -> Result<(), AllocError>
    ensures { OnOk result (line.new ≡ line.old ++ flat_map (λ l. flat_map (concern (printed_names names.now) region) l.trials) looks.now) }
{
    for look in looks {
        add_concerns(line, names, region, look.trials.as_slice())?;
    }
    Ok(())
}

/// Whether a region was tried in one of these searches.
fn is_tried(region: RegionId, hops: &[Hop]) -> bool
    ensures { result ≡ concerns region hops.now }
{
    hops.iter().any(|hop| is_tried_in(region, hop))
}

/// Whether a region is the root.
fn is_root(region: RegionId, root: Option<Tried>) -> bool
    ensures { result ≡ is_root region root }
{
    match root {
        Some(root) => root.region.0 == region.0,
        None => false,
    }
}

/// Whether a region was tried inside one of these.
fn is_inside(region: RegionId, looks: &[Look]) -> bool
    ensures { result ≡ list_any (λ l. list_any (λ t. t.region.0 == region.0) l.trials) looks.now }
{
    looks
        .iter()
        .any(|look| is_among(region, look.trials.as_slice()))
}

/// Whether a region was tried in a search.
fn is_tried_in(region: RegionId, hop: &Hop) -> bool
    ensures { result ≡ tried_in region hop.now }
{
    if is_root(region, hop.root) {
        return true;
    }
    is_inside(region, hop.looks.as_slice())
}

/// Whether a region is one of these.
fn is_among(region: RegionId, trials: &[Tried]) -> bool
    ensures { result ≡ list_any (λ t. t.region.0 == region.0) trials.now }
{
    trials.iter().any(|tried| tried.region.0 == region.0)
}

/// What concerns one region: for each search what answers, and wherever the region was tried, why it answers or does not; and
/// last a line that says so where no search tried it.
pub fn add_region_lines(
    line: &mut Line,
    names: &Names,
    hops: &Hops,
    region: RegionId,
) -> Result<(), AllocError>
    ensures { OnOk result (line.new ≡ line.old ++ concern_lines (printed_names names.now) region hops.now) }
{
    let all = hops.as_slice();
    for hop in all {
        add_hop_concerns(line, names, region, hop)?;
    }
    add_untried(line, names, region, is_tried(region, all))
}

/// That no search tried a region.
fn add_untried(
    line: &mut Line,
    names: &Names,
    region: RegionId,
    tried: bool,
) -> Result<(), AllocError>
    ensures { OnOk result (line.new ≡ line.old ++ no_concern (printed_names names.now) region tried) }
{
    if tried {
        return Ok(());
    }
    line.bytes(names.region_name(region))?;
    line.text(" is not tried there")?;
    line.end()
}
