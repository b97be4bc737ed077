// The text of a script, and its pool.
ghost use Rattle.std.specs.Prelude.{◌≡◌, ◌≤◌, length, IfOk, Ok};
ghost use Rattle.mem_base.specs.script.Scripts.{most_text, script_of};
ghost use Rattle.mem_base.specs.script.Printing.{numbered, printed};
ghost use Rattle.mem_base.specs.script.Run.{pool_words, words_named};

use crate::scripts::Script;
use mem_base::{Command, WORD_SIZE};
use script_lines::push_command;
use std::alloc::{AllocError, Global};

// The words of the pool where no `machine` stands: 16 MiB.
const DEFAULT_WORDS: usize = 2_097_152;

fn print_lines(alloc: Global, lines: &[(u32, Command)]) -> Result<Vec<u8>, AllocError>
    ensures { IfOk result (λ text. text.items ≡ printed lines.now) }
{
    let mut text = Vec::new(alloc);
    for (_, command) in lines {
        push_command(&mut text, command)?;
    }
    Ok(text)
}

/// The text of a script: one line a command, single spaces, and no option that has its default.
///
/// Where it is no longer than a script may be, it reads as the same commands, on lines 1, 2, 3 and so on.
pub fn print(alloc: Global, script: &Script) -> Result<Vec<u8>, AllocError>
    ensures text { IfOk result (λ text. text.items ≡ printed script.now) }
    ensures again { length (printed script.now) ≤ most_text → script_of (printed script.now) ≡ Ok (numbered 1 script.now) }
{
    let lines = script.lines();
    let text = print_lines(alloc, lines)?;
    Ok(text)
}

fn words_named(command: &Command) -> usize
    ensures { result ≡ words_named command.now }
{
    match command {
        Command::Machine { size } => (size.get() / WORD_SIZE as u128) as usize,
        _ => DEFAULT_WORDS,
    }
}

/// The words of 8 bytes of the pool that the script's `machine` names; 16 MiB of them without that command.
pub fn pool_words(script: &Script) -> usize
    ensures { result ≡ pool_words script.now }
{
    match script.lines() {
        [(_, command), ..] => words_named(command),
        [] => DEFAULT_WORDS,
    }
}
