// The lines of what looks wrong in a map.
ghost use Rattle.std.specs.Prelude.{◌≡◌, ◌++◌, OnOk};
ghost use Rattle.script_names.specs.Tables.{printed_names};
ghost use Rattle.scope_lines.specs.Faults.{fault, finding_line, finding_lines, pair_line};

use map_lint::{Finding, Findings};
use mem_base::RegionId;
use script_lines::Line;
use script_names::Names;
use std::alloc::AllocError;

/// A region, and what is said of it.
fn add_fault(line: &mut Line, names: &Names, region: RegionId, text: &str) -> Result<(), AllocError>
    ensures { OnOk result (line.new ≡ line.old ++ fault (printed_names names.now) region text.now) }
{
    line.bytes(names.region_name(region))?;
    line.text(text)?;
    line.end()
}

/// A region, what is said of it, and another region that this speaks of.
fn add_pair(
    line: &mut Line,
    names: &Names,
    region: RegionId,
    text: &str,
    other: RegionId,
) -> Result<(), AllocError>
    ensures { OnOk result (line.new ≡ line.old ++ pair_line (printed_names names.now) region text.now other) }
{
    line.bytes(names.region_name(region))?;
    line.text(text)?;
    line.bytes(names.region_name(other))?;
    line.end()
}

/// What looks wrong in one region.
fn add_finding_line(line: &mut Line, names: &Names, finding: Finding) -> Result<(), AllocError>
    ensures { OnOk result (line.new ≡ line.old ++ finding_line (printed_names names.now) finding) }
{
    match finding {
        Finding::Unreached { region } => {
            add_fault(line, names, region, " is reached by no address")
        }
        Finding::Tied { region, other } => add_pair(
            line,
            names,
            region,
            " is tried after one of the same priority that it overlaps: ",
            other,
        ),
        Finding::PastTarget { region, target } => add_pair(
            line,
            names,
            region,
            " goes on past the end of its target ",
            target,
        ),
        Finding::Clipped { region, container } => add_pair(
            line,
            names,
            region,
            " goes on past the end of its container ",
            container,
        ),
        Finding::Hidden { region, other } => {
            add_pair(line, names, region, " lies wholly under ", other)
        }
    }
}

/// What looks wrong, a line each.
pub fn add_finding_lines(
    line: &mut Line,
    names: &Names,
    findings: &Findings,
) -> Result<(), AllocError>
    ensures { OnOk result (line.new ≡ line.old ++ finding_lines (printed_names names.now) findings.now) }
{
    for finding in findings.as_slice() {
        add_finding_line(line, names, *finding)?;
    }
    Ok(())
}
