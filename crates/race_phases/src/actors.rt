// Whose line it is.
ghost use Rattle.std.specs.Prelude.{◌≡◌, ◌++◌, ◌∷◌, [], IfOk, OnOk, filter, map};
ghost use Rattle.std.specs.List.{range_with_len};
ghost use Rattle.mem_base.specs.script.Race.{actors_in, block, lines_by};
ghost use Rattle.race_phases.specs.Plain.{has_lines};

use mem_base::{Command, MOST_PASSES};
use script_text::{DESK_NUMBER, actor_number};
use std::alloc::{AllocError, Global};

/// The lines of an actor among those of a block, in order.
pub fn lines_by<'a>(
    alloc: Global,
    who: u32,
    lines: &'a [(u32, Command)],
) -> Result<Vec<&'a (u32, Command)>, AllocError>
    ensures { IfOk result (λ own. map (λ line. line.now) own.items ≡ lines_by who (block lines.now)) }
{
    let mut own = Vec::new(alloc);
    for line in lines {
        if actor_number(&line.1) == who {
            own.push(line)?;
        }
    }
    Ok(own)
}

/// Whether an actor has a line among those of a block.
pub fn has_line(who: u32, lines: &[(u32, Command)]) -> bool
    ensures { result ≡ has_lines (block lines.now) who }
{
    for line in lines {
        if actor_number(&line.1) == who {
            return true;
        }
    }
    false
}

// Puts an actor down where it has a line in a block.
fn put_actor(actors: &mut Vec<u32>, who: u32, lines: &[(u32, Command)]) -> Result<(), AllocError>
    ensures { OnOk result (actors.new.items ≡ actors.old.items ++ filter (has_lines (block lines.now)) (who ∷ [])) }
{
    if has_line(who, lines) {
        actors.push(who)?;
    }
    Ok(())
}

// Puts those of the first passes down that have a line in a block, ascending.
fn put_passes(actors: &mut Vec<u32>, count: u32, lines: &[(u32, Command)]) -> Result<(), AllocError>
    ensures { OnOk result (actors.new.items
        ≡ actors.old.items ++ filter (has_lines (block lines.now)) (range_with_len 0 count)) }
{
    for pass in 0..count {
        put_actor(actors, pass, lines)?;
    }
    Ok(())
}

/// The numbers of the actors that have a line in a block: the desk's, and then the passes' ascending.
pub fn actors_in(alloc: Global, lines: &[(u32, Command)]) -> Result<Vec<u32>, AllocError>
    ensures { IfOk result (λ actors. actors.items ≡ actors_in (block lines.now)) }
{
    let mut actors = Vec::new(alloc);
    put_actor(&mut actors, DESK_NUMBER, lines)?;
    put_passes(&mut actors, MOST_PASSES, lines)?;
    Ok(actors)
}
