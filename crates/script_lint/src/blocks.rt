// A block in which nothing runs side by side.
ghost use Rattle.std.specs.Prelude.{◌≡◌, ◌++◌, ◌==◌, OnOk, position};
ghost use Rattle.std.specs.List.{list_all};
ghost use Rattle.mem_base.specs.script.Race.{actor_number, is_end, is_par};
ghost use Rattle.script_lint.specs.Blocks.{block_lines, idle_par, idle_text, is_of_one};

use mem_base::Command;
use race_phases::actor_number;
use script_lines::Line;
use std::alloc::AllocError;

// Whether all lines are of this actor.
fn are_by(lines: &[(u32, Command)], who: u32) -> bool
    ensures { result ≡ list_all (λ line. actor_number line.1 == who) lines.now }
{
    lines.iter().all(|line| actor_number(&line.1) == who)
}

// Whether all lines are of one actor.
fn is_of_one(lines: &[(u32, Command)]) -> bool
    ensures { result ≡ is_of_one lines.now }
{
    let Some((first, rest)) = lines.split_first() else {
        return true;
    };
    let who = actor_number(&first.1);
    are_by(rest, who)
}

fn end_of(lines: &[(u32, Command)]) -> Option<usize>
    ensures { result ≡ position (λ line. is_end line.1) lines.now }
{
    lines.iter().position(|line| matches!(line.1, Command::End))
}

// The lines up to `end`.
fn block_lines(lines: &[(u32, Command)]) -> &[(u32, Command)]
    ensures { result.now ≡ block_lines lines.now }
{
    match end_of(lines) {
        Some(end) => lines.split_at(end).0,
        None => lines,
    }
}

fn is_par(command: &Command) -> bool
    ensures { result ≡ is_par command.now }
{
    matches!(command, Command::Par)
}

/// The line of the `par` of a script, where its block has lines of one actor alone, or none.
pub fn idle_par(lines: &[(u32, Command)]) -> Option<u32>
    ensures { result ≡ idle_par lines.now }
{
    let mut left = lines;
    while let Some((line, rest)) = left.split_first() {
        if is_par(&line.1) {
            let idle = is_of_one(block_lines(rest));
            return if idle { Some(line.0) } else { None };
        }
        left = rest;
    }
    None
}

/// The block of a script, where it has lines of one actor at most.
pub fn add_idle_block(out: &mut Line, lines: &[(u32, Command)]) -> Result<(), AllocError>
    ensures { OnOk result (out.new ≡ out.old ++ idle_text (idle_par lines.now)) }
{
    let Some(number) = idle_par(lines) else {
        return Ok(());
    };
    out.counted("line ", u64::from(number))?;
    out.text(" opens a block in which at most one actor has lines, so nothing runs side by side")?;
    out.end()
}
