// The tasks of a pass's lines, by what is known of names.
ghost use Rattle.std.specs.Prelude.{All, IfOk};
ghost use Rattle.race_lines.specs.LineTasks.{resolved};
ghost use Rattle.race_block.specs.Desks.{line_meant, lines_meant};
ghost use Rattle.race_block.specs.Lines.{FitsLine};
ghost use Rattle.race_block.specs.Resolving.{AreTasksOf, IsOfPass, IsPassLine, IsTaskOf, StandsFor, copy_room};

use crate::tasks::{BlockLine, OwnLine, PassTask};
use race_lines::{KnownNames, LineTask, ResolvedTask, task_of};
use std::alloc::{AllocError, Global};

// What a line of a pass asks for, in the words of an actor.
fn pass_task(task: ResolvedTask<'_>) -> PassTask<'_>
    requires { IsOfPass task }
    ensures { StandsFor result (resolved task.entry) }
{
    match task {
        Ok(LineTask::Ordered { order, naming: _ }) => PassTask::Order(order),
        Ok(LineTask::Entered) => PassTask::Enter,
        Ok(LineTask::Left) => PassTask::Leave,
        Ok(LineTask::Read { space, addr, len }) => PassTask::Read { space, addr, len },
        Ok(LineTask::Written { space, addr, bytes }) => PassTask::Write { space, addr, bytes },
        Ok(
            LineTask::Copied {
                space,
                addr,
                len,
                to_space,
                to_addr,
            },
        ) => PassTask::Copy {
            from: space,
            addr,
            len,
            to: to_space,
            to_addr,
        },
        Ok(_) => unreachable!(),
        Err(why) => PassTask::Refused(why),
    }
}

/// A line of a pass, with its task by what is known.
pub(crate) fn block_line<'a>(
    alloc: Global,
    known: &KnownNames,
    own: &OwnLine<'a>,
) -> Result<BlockLine<'a>, AllocError>
    requires fits { IsPassLine own.now }
    ensures is { IfOk result (IsTaskOf known.now (line_meant own.now)) }
    ensures fits { IfOk result (FitsLine copy_room) }
{
    let task = task_of(alloc, known, &own.line.1)?;
    Ok(BlockLine {
        number: own.line.0,
        task: pass_task(task),
    })
}

/// The tasks of a pass's lines, by what is known of names. It fails only where memory runs out.
///
/// The numbers of the lines' commands fit, as those of every script that was read do.
pub fn resolve_lines<'a>(
    alloc: Global,
    known: &KnownNames,
    lines: &[OwnLine<'a>],
) -> Result<Vec<BlockLine<'a>>, AllocError>
    requires fits { All IsPassLine lines.now }
    ensures tasks { IfOk result (λ own. AreTasksOf known.now (lines_meant lines.now) own.items) }
    ensures fits { IfOk result (λ own. All (FitsLine copy_room) own.items) }
{
    let mut own = Vec::with_capacity(alloc, lines.len())?;
    for line in lines {
        let own_line = block_line(alloc, known, line)?;
        own.push(own_line)?;
    }
    Ok(own)
}
