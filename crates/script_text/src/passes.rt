// The lines of a pass.
ghost use Rattle.mem_base.specs.script.Operands.{value_in};
ghost use Rattle.mem_base.specs.script.PassForms.{pass_dma, pass_do, pass_forms, pass_line, pass_read, pass_write};
ghost use Rattle.script_text.specs.Reads.{Reads, chosen};

use crate::changes::change;
use crate::desk::bare;
use crate::stops::LineStop;
use crate::tokens::{Tokens, new_name};
use mem_base::{Cause, Command, PassCommand, PassId};
use std::alloc::Global;

// vN read SPACE ADDR LEN
fn read(alloc: Global, pass: PassId, tokens: &mut Tokens) -> Result<Command, LineStop>
    ensures { Reads result (pass_read pass tokens.old) }
{
    let space = tokens.name()?;
    let addr = tokens.address()?;
    let len = tokens.len()?;
    tokens.ends()?;
    let command = PassCommand::Read {
        space: new_name(alloc, space)?,
        addr,
        len,
    };
    Ok(Command::Pass { pass, command })
}

// vN write SPACE ADDR BYTES
fn write(alloc: Global, pass: PassId, tokens: &mut Tokens) -> Result<Command, LineStop>
    ensures { Reads result (pass_write pass tokens.old) }
{
    let space = tokens.name()?;
    let addr = tokens.address()?;
    let bytes = tokens.bytes(alloc)?;
    tokens.ends()?;
    let command = PassCommand::Write {
        space: new_name(alloc, space)?,
        addr,
        bytes,
    };
    Ok(Command::Pass { pass, command })
}

// vN do COMMAND
fn do_change(alloc: Global, pass: PassId, tokens: &mut Tokens) -> Result<Command, LineStop>
    ensures { Reads result (pass_do pass tokens.old) }
{
    let command = PassCommand::Do(change(alloc, tokens)?);
    Ok(Command::Pass { pass, command })
}

// vN dma SPACE ADDR LEN to SPACE ADDR
fn dma(alloc: Global, pass: PassId, tokens: &mut Tokens) -> Result<Command, LineStop>
    ensures { Reads result (pass_dma pass tokens.old) }
{
    let space = tokens.name()?;
    let addr = tokens.address()?;
    let len = tokens.len()?;
    tokens.keyword("to")?;
    let to_space = tokens.name()?;
    let to_addr = tokens.address()?;
    tokens.ends()?;
    let command = PassCommand::Dma {
        space: new_name(alloc, space)?,
        addr,
        len,
        to_space: new_name(alloc, to_space)?,
        to_addr,
    };
    Ok(Command::Pass { pass, command })
}

// What a word and the tokens after it say that the pass does.
fn pass_named(
    alloc: Global,
    pass: PassId,
    word: &[u8],
    tokens: &mut Tokens,
) -> Result<Command, LineStop>
    ensures { Reads result (chosen (value_in (pass_forms pass) word.now) tokens.old) }
{
    if word == b"enter".as_slice() {
        let command = PassCommand::Enter;
        bare(tokens, Command::Pass { pass, command })
    } else if word == b"leave".as_slice() {
        let command = PassCommand::Leave;
        bare(tokens, Command::Pass { pass, command })
    } else if word == b"read".as_slice() {
        read(alloc, pass, tokens)
    } else if word == b"write".as_slice() {
        write(alloc, pass, tokens)
    } else if word == b"do".as_slice() {
        do_change(alloc, pass, tokens)
    } else if word == b"dma".as_slice() {
        dma(alloc, pass, tokens)
    } else {
        Err(LineStop::Bad(Cause::Word))
    }
}

/// `vN`, and what the pass does.
pub fn pass_line(alloc: Global, pass: PassId, tokens: &mut Tokens) -> Result<Command, LineStop>
    ensures { Reads result (pass_line pass.0 tokens.old) }
{
    let word = tokens.token()?;
    pass_named(alloc, pass, word, tokens)
}
