// The text of the script that a seed gives.
ghost use Rattle.std.specs.Prelude.{◌≡◌, IfOk};
ghost use Rattle.mem_base.specs.script.Printing.{numbered_commands, printed};
ghost use Rattle.script_make.specs.Texts.{text_of_seed};

use crate::scripts::generated;
use mem_base::Command;
use script_lines::push_command;
use std::alloc::{AllocError, Global};

// The lines of the commands, one a command.
fn text_of(alloc: Global, commands: &[Command]) -> Result<Vec<u8>, AllocError>
    ensures { IfOk result (λ text. text.items ≡ printed (numbered_commands 1 commands.now)) }
{
    let mut text = Vec::new(alloc);
    for command in commands {
        push_command(&mut text, command)?;
    }
    Ok(text)
}

/// The text of the script of a seed: what `make SEED` writes.
pub fn text_of_seed(alloc: Global, seed: u64) -> Result<Vec<u8>, AllocError>
    ensures { IfOk result (λ text. text.items ≡ text_of_seed seed) }
{
    let commands = generated(alloc, seed)?;
    let text = text_of(alloc, &commands)?;
    Ok(text)
}
