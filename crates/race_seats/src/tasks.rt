// The lines of a block by whose they are, and their tasks, where these are made before the block.
ghost use Rattle.std.specs.Prelude.{◌≡◌, ◌<◌, ◌≤◌, ◌==◌, ◌++◌, All, OnOk, ℕ, length, map, slice_index_or};
ghost use Rattle.std.specs.List.{prefix_len};
ghost use Rattle.run_laws.specs.Fitting.{AreFitting};
ghost use Rattle.race_phases.specs.Plain.{whose_line};
ghost use Rattle.race_block.specs.Desks.{line_meant, lines_meant};
ghost use Rattle.race_block.specs.Resolving.{IsPassLine};
ghost use Rattle.race_seats.specs.Rooms.{AreAll, AreIdle, ArePrepared, IsPrepared};

use crate::rooms::Work;
use mem_base::Command;
use race_block::{OwnLine, resolve_lines};
use race_lines::KnownNames;
use std::alloc::{AllocError, Global};

// A line of an actor.
fn own_line(line: &(u32, Command)) -> OwnLine<'_>
    ensures { line_meant result ≡ line.now }
{
    OwnLine { line }
}

// Puts lines to those that an actor has to do.
fn put_lines<'a>(lines: &'a [(u32, Command)], work: &mut Work<'a>) -> Result<(), AllocError>
    ensures lines { OnOk result (lines_meant work.new.own.items ≡ lines_meant work.old.own.items ++ lines.now) }
    ensures bounce { work.new.bounce ≡ work.old.bounce }
{
    work.own.reserve(lines.len())?;
    for line in lines {
        work.own.push_reserved(own_line(line));
    }
    Ok(())
}

// How many of the first lines are those of an actor, by whose each is.
fn count_first(who: u32, whose: &[u32]) -> usize
    ensures bound { result ≤ length whose.now }
    ensures value { result ≡ prefix_len (λ n. n == who) whose.now }
{
    let mut count = 0;
    for number in whose {
        if *number != who {
            return count;
        }
        count += 1;
    }
    count
}

/// Deals the lines of a block to their actors, by whose each is: as many at once as stand together. It fails only where memory runs out.
///
/// The lines themselves are not looked at: each would have to be fetched from memory that is far.
pub fn deal<'a>(
    lines: &'a [(u32, Command)],
    whose: &[u32],
    works: &mut Vec<Work<'a>>,
) -> Result<(), AllocError>
    requires fits { AreFitting lines.now }
    requires whose { whose.now ≡ map whose_line lines.now }
    requires idle { AreIdle works.old.items }
    ensures { OnOk result (AreAll lines.now works.new.items) }
{
    let mut rest = lines;
    let mut left = whose;
    while let Some((who, _)) = left.split_first() {
        let count = count_first(*who, left);
        let (own, others) = rest.split_at(count);
        put_lines(own, &mut works[*who as usize])?;
        rest = others;
        left = left.split_at(count).1;
    }
    Ok(())
}

// Makes the tasks of what a pass has to do.
fn prepare<'a>(alloc: Global, known: &KnownNames, work: &mut Work<'a>) -> Result<(), AllocError>
    requires fits { All IsPassLine work.old.own.items }
    ensures { OnOk result (IsPrepared known.now work.old work.new) }
{
    work.tasks = resolve_lines(alloc, known, work.own.as_slice())?;
    Ok(())
}

/// Makes the tasks of what each pass has to do, by what is known. It fails only where memory runs out.
pub fn prepare_all<'a>(
    alloc: Global,
    known: &KnownNames,
    works: &mut Vec<Work<'a>>,
) -> Result<(), AllocError>
    requires fit { (p : ℕ) (d : Work) → p < length works.old.items → All IsPassLine (slice_index_or works.old.items p d).own.items }
    ensures { OnOk result (ArePrepared known.now works.old.items works.new.items) }
{
    for at in 0..works.len() {
        prepare(alloc, known, &mut works[at])?;
    }
    Ok(())
}
