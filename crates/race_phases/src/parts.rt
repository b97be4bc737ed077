// The lines before the block of a script, in it, and after it, and whose each line of the block is.
ghost use Rattle.std.specs.Prelude.{◌≡◌, ◌≤◌, ◌++◌, drop, length, map};
ghost use Rattle.mem_base.specs.declared.script.places.Section.TheVariants.{Start};
ghost use Rattle.mem_base.specs.script.Race.{actor_number, phases_of};
ghost use Rattle.mem_base.specs.script.Sound.{Sound};
ghost use Rattle.race_laws.specs.Outside.{block_of, phases_alone};
ghost use Rattle.race_phases.specs.Plain.{AreParts, is_plain, plain_count, whose_line};

use mem_base::Command;
use script_text::DESK_NUMBER;

/// The lines of a script before its block, in it, and after it, without `par` and `end`, and whose each line of the block is. A script
/// without a block has all of its lines before it.
#[derive(Clone, Copy, Debug)]
pub struct Parts<'a> {
    pub before: &'a [(u32, Command)],
    pub block: &'a [(u32, Command)],
    /// The number of the actor of each line of the block.
    pub whose: &'a [u32],
    pub after: &'a [(u32, Command)],
}

// A line that neither begins nor ends the block.
fn is_plain(command: &Command) -> bool
    ensures { result ≡ is_plain command.now }
{
    !matches!(command, Command::Par | Command::End)
}

// Whether a line neither begins nor ends the block. That of a pass is not looked at: it would have to be fetched from memory that is far.
fn is_plain_of(who: u32, command: &Command) -> bool
    requires { who ≡ actor_number command.now }
    ensures { result ≡ is_plain command.now }
{
    who != DESK_NUMBER || is_plain(command)
}

// How many of the first lines neither begin nor end the block.
fn plain_lines(lines: &[(u32, Command)], whose: &[u32]) -> usize
    requires whose { whose.now ≡ map whose_line lines.now }
    ensures bound { result ≤ length lines.now }
    ensures value { result ≡ plain_count lines.now }
{
    let mut count = 0;
    for line in lines {
        if !is_plain_of(whose[count], &line.1) {
            return count;
        }
        count += 1;
    }
    count
}

// All lines but the first.
fn after_first(lines: &[(u32, Command)]) -> &[(u32, Command)]
    ensures { result.now ≡ drop 1 lines.now }
{
    match lines.split_first() {
        Some((_, rest)) => rest,
        None => &[],
    }
}

/// The parts of a script that was read, of whose lines it was noted whose each is. It takes no memory.
pub fn parts_of<'a>(lines: &'a [(u32, Command)], whose: &'a [u32]) -> Parts<'a>
    requires sound { Sound Start lines.now }
    requires whose { whose.now ≡ map whose_line lines.now }
    ensures lines { AreParts lines.now result.before.now result.block.now result.after.now }
    ensures phases { phases_of lines.now
        ≡ phases_alone result.before.now ++ (block_of result.block.now ++ phases_alone result.after.now) }
    ensures whose { result.whose.now ≡ map whose_line result.block.now }
{
    let first = plain_lines(lines, whose);
    let (before, rest) = lines.split_at(first);
    let Some((_, rest)) = rest.split_first() else {
        return Parts {
            before,
            block: &[],
            whose: &[],
            after: &[],
        };
    };
    let (_, behind) = whose.split_at(first + 1);
    let inside = plain_lines(rest, behind);
    let (block, rest) = rest.split_at(inside);
    let (whose, _) = behind.split_at(inside);
    Parts {
        before,
        block,
        whose,
        after: after_first(rest),
    }
}
