// A command as a line of a script.
ghost use Rattle.std.specs.Prelude.{◌≡◌, ◌++◌, ◌∷◌, [], OnOk};
ghost use Rattle.mem_base.specs.script.Printing.{command_tokens, spaced};

use crate::commands::push_tokens;
use mem_base::Command;
use std::alloc::AllocError;

/// Adds a command to a script's text, as one line: single spaces, and no option that has its default.
pub fn push_command(text: &mut Vec<u8>, command: &Command) -> Result<(), AllocError>
    ensures { OnOk result (text.new.items ≡ text.old.items ++ (spaced (command_tokens command.now) ++ 10 ∷ [])) }
{
    let start = text.len();
    push_tokens(text, command)?;
    // No space stands before the first token.
    text.remove(start);
    text.push(b'\n')?;
    Ok(())
}
