// The lines of regions that a search looked into.
ghost use Rattle.std.specs.Prelude.{◌≡◌, ◌++◌, OnOk, flat_map};
ghost use Rattle.mem_base.specs.script.SpotLines.{kind_text, kind_word};
ghost use Rattle.script_names.specs.Tables.{printed_names};
ghost use Rattle.scope_lines.specs.Whys.{indent, place_text, path_lines, path_line, reason_text, trial_line, trial_lines, held, count_line, look_lines};
ghost use Rattle.scope_lines.specs.Whys.{is_told, after_count, before_count};

use find_why::{Look, Outcome, Tried};
use mem_base::{Kind, RegionId};
use script_lines::Line;
use script_names::Names;
use std::alloc::AllocError;

fn kind_word(kind: Kind) -> &'static str
    ensures { result.now ≡ kind_word kind }
{
    match kind {
        Kind::Container => "container",
        Kind::Ram => "ram",
        Kind::Rom => "rom",
        Kind::RomDevice(_) => "romdev",
        Kind::Io(_) => "io",
        Kind::Iommu => "iommu",
        Kind::Alias {
            target: _,
            offset: _,
        } => "alias",
        Kind::Reserve => "reserve",
        Kind::Host => "host",
    }
}

fn kind_text(kind: Option<Kind>) -> &'static str
    ensures { result.now ≡ kind_text kind }
{
    match kind {
        Some(kind) => kind_word(kind),
        None => "",
    }
}

/// Two spaces for each level.
fn add_indent(line: &mut Line, depth: usize) -> Result<(), AllocError>
    ensures { OnOk result (line.new ≡ line.old ++ indent depth) }
{
    let mut left = depth;
    while left > 0 {
        left -= 1;
        line.text("  ")?;
    }
    Ok(())
}

/// `NAME @OFFSET`.
fn add_place(line: &mut Line, names: &Names, region: RegionId, at: u64) -> Result<(), AllocError>
    ensures { OnOk result (line.new ≡ line.old ++ place_text (printed_names names.now) region at) }
{
    line.bytes(names.region_name(region))?;
    line.placed(" @", at)
}

/// A region on the path, at its depth.
fn add_path_line(
    line: &mut Line,
    names: &Names,
    depth: usize,
    look: &Look,
) -> Result<(), AllocError>
    ensures { OnOk result (line.new ≡ line.old ++ path_line (printed_names names.now) depth look.now) }
{
    add_indent(line, depth)?;
    add_place(line, names, look.region, look.at)?;
    line.text(" ")?;
    line.text(kind_text(names.kind_of(look.region)))?;
    line.end()
}

/// The path to the answer: the regions in which something was found, each deeper than the one before it.
pub(crate) fn add_path_lines(
    line: &mut Line,
    names: &Names,
    looks: &[Look],
) -> Result<(), AllocError>
    ensures { OnOk result (line.new ≡ line.old ++ path_lines (printed_names names.now) 1 looks.now) }
{
    let mut depth = 1;
    for look in looks {
        if look.answers {
            add_path_line(line, names, depth, look)?;
            depth = depth.saturating_add(1);
        }
    }
    Ok(())
}

fn reason_text(outcome: Outcome) -> &'static str
    ensures { result.now ≡ reason_text outcome }
{
    match outcome {
        Outcome::Answers { at: _ } => "answers",
        Outcome::Hole { at: _ } => "has a hole there",
        Outcome::Disabled => "is disabled",
        Outcome::BeginsAfter => "begins after it",
        Outcome::EndsBefore => "ends before it",
        Outcome::TriedLater => "is tried later",
    }
}

/// `NAME REASON`.
pub(crate) fn add_reason(line: &mut Line, names: &Names, tried: &Tried) -> Result<(), AllocError>
    ensures { OnOk result (line.new ≡ line.old ++ trial_line (printed_names names.now) tried.now) }
{
    line.bytes(names.region_name(tried.region))?;
    line.text(" ")?;
    line.text(reason_text(tried.outcome))?;
    line.end()
}

/// Whether the region holds the address.
fn is_held(outcome: Outcome) -> bool
    ensures { result ≡ held outcome }
{
    !matches!(outcome, Outcome::BeginsAfter | Outcome::EndsBefore)
}

/// The line of a region that holds the address, and nothing of another.
fn add_trial(line: &mut Line, names: &Names, tried: &Tried) -> Result<(), AllocError>
    ensures { OnOk result (line.new ≡ line.old ++ trial_lines (printed_names names.now) tried.now) }
{
    if !is_held(tried.outcome) {
        return Ok(());
    }
    line.text("  ")?;
    add_reason(line, names, tried)
}

/// How many regions begin after the address, and how many end before it.
fn count_outside(trials: &[Tried]) -> (u64, u64)
    ensures after { result.0 ≡ after_count trials.now }
    ensures before { result.1 ≡ before_count trials.now }
{
    let mut after = 0;
    let mut before = 0;
    for tried in trials {
        match tried.outcome {
            Outcome::BeginsAfter => after += 1,
            Outcome::EndsBefore => before += 1,
            _ => {}
        }
    }
    (after, before)
}

/// How many regions do not hold the address, where there are any.
fn add_count(line: &mut Line, count: u64, text: &str) -> Result<(), AllocError>
    ensures { OnOk result (line.new ≡ line.old ++ count_line count text.now) }
{
    if count == 0 {
        return Ok(());
    }
    line.counted("  ", count)?;
    line.text(text)?;
    line.end()
}

/// Whether one of the regions inside does not answer.
fn is_told(trials: &[Tried]) -> bool
    ensures { result ≡ is_told trials.now }
{
    trials.iter().any(|tried| !tried.outcome.is_answer())
}

/// The regions inside one region, and why each answers or does not; those that do not hold the address are counted.
pub(crate) fn add_look_lines(line: &mut Line, names: &Names, look: &Look) -> Result<(), AllocError>
    ensures { OnOk result (line.new ≡ line.old ++ look_lines (printed_names names.now) look.now) }
{
    let trials = look.trials.as_slice();
    if !is_told(trials) {
        return Ok(());
    }
    line.text("in ")?;
    add_place(line, names, look.region, look.at)?;
    line.text(":")?;
    line.end()?;
    add_trials(line, names, trials)?;
    let (after, before) = count_outside(trials);
    add_count(line, after, " begin after it")?;
    add_count(line, before, " end before it")
}

/// The lines of those that hold the address.
fn add_trials(line: &mut Line, names: &Names, trials: &[Tried]) -> Result<(), AllocError>
    ensures { OnOk result (line.new ≡ line.old ++ flat_map (trial_lines (printed_names names.now)) trials.now) }
{
    for tried in trials {
        add_trial(line, names, tried)?;
    }
    Ok(())
}
