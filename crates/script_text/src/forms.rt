// A line's command, by its first token.
ghost use Rattle.std.specs.Prelude.{◌∷◌, option_map};
ghost use Rattle.mem_base.specs.script.Spelling.{pass_of};
ghost use Rattle.mem_base.specs.script.Forms.{command};
ghost use Rattle.mem_base.specs.script.Lines.{tokens_of};
ghost use Rattle.mem_base.specs.script.PassForms.{pass_line};
ghost use Rattle.script_text.specs.Reads.{Reads, chosen};

use crate::changes::change_named;
use crate::desk::desk_named;
use crate::passes::pass_line;
use crate::spellings::pass_of;
use crate::stops::LineStop;
use crate::tokens::Tokens;
use mem_base::{Cause, Command};
use std::alloc::Global;

fn of_pass(alloc: Global, word: &[u8], tokens: &mut Tokens) -> Result<Command, LineStop>
    ensures { Reads result (chosen (option_map pass_line (pass_of word.now)) tokens.old) }
{
    match pass_of(word) {
        Some(pass) => pass_line(alloc, pass, tokens),
        None => Err(LineStop::Bad(Cause::Word)),
    }
}

/// The command of a line's first token and of what stands after it.
pub fn command(alloc: Global, word: &[u8], rest: &[u8]) -> Result<Command, LineStop>
    ensures { Reads result (command (word.now ∷ tokens_of rest.now)) }
{
    match desk_named(alloc, word, &mut Tokens::new(rest)) {
        Ok(Some(command)) => Ok(command),
        Err(stop) => Err(stop),
        Ok(None) => match change_named(alloc, word, &mut Tokens::new(rest)) {
            Ok(Some(change)) => Ok(Command::Change(change)),
            Err(stop) => Err(stop),
            Ok(None) => of_pass(alloc, word, &mut Tokens::new(rest)),
        },
    }
}
