// Transactions that a script leaves open.
ghost use Rattle.std.specs.Prelude.{◌≡◌, ◌++◌, IfOk, OnOk, flat_map};
ghost use Rattle.script_lint.specs.Transactions.{after_command, after_line, open_text, unclosed, unclosed_text};

use crate::refusals::is_refused;
use mem_base::Command;
use script_lines::Line;
use script_map::RefusedLine;
use std::alloc::{AllocError, Global};

// What an accepted command does to the open transactions, which are told by their lines.
fn take_command(begun: &mut Vec<u32>, number: u32, command: &Command) -> Result<(), AllocError>
    ensures { OnOk result (begun.new.items ≡ after_command begun.old.items number command.now) }
{
    match command {
        Command::Begin => {
            begun.push(number)?;
            Ok(())
        }
        Command::Commit => {
            let _ = begun.pop();
            Ok(())
        }
        _ => Ok(()),
    }
}

// The same of a line, which is accepted or refused.
fn take_line(
    begun: &mut Vec<u32>,
    refused: &[RefusedLine],
    line: &(u32, Command),
) -> Result<(), AllocError>
    ensures { OnOk result (begun.new.items ≡ after_line refused.now begun.old.items line.now) }
{
    if is_refused(refused, line.0) {
        return Ok(());
    }
    take_command(begun, line.0, &line.1)
}

/// The lines whose transactions a script leaves open.
pub fn unclosed(
    alloc: Global,
    lines: &[(u32, Command)],
    refused: &[RefusedLine],
) -> Result<Vec<u32>, AllocError>
    ensures { IfOk result (λ begun. begun.items ≡ unclosed lines.now refused.now) }
{
    let mut begun = Vec::new(alloc);
    for line in lines {
        take_line(&mut begun, refused, line)?;
    }
    Ok(begun)
}

// A transaction that is left open.
fn add_open(out: &mut Line, number: u32) -> Result<(), AllocError>
    ensures { OnOk result (out.new ≡ out.old ++ open_text number) }
{
    out.counted("line ", u64::from(number))?;
    out.text(" opens a transaction that no commit closes, so no change after it is published")?;
    out.end()
}

// A line for each.
fn add_each(out: &mut Line, begun: &[u32]) -> Result<(), AllocError>
    ensures { OnOk result (out.new ≡ out.old ++ flat_map open_text begun.now) }
{
    for number in begun {
        add_open(out, *number)?;
    }
    Ok(())
}

/// Each transaction that a script leaves open.
pub fn add_unclosed(
    alloc: Global,
    out: &mut Line,
    lines: &[(u32, Command)],
    refused: &[RefusedLine],
) -> Result<(), AllocError>
    ensures { OnOk result (out.new ≡ out.old ++ unclosed_text lines.now refused.now) }
{
    let begun = unclosed(alloc, lines, refused)?;
    add_each(out, begun.as_slice())
}
