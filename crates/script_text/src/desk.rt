// The lines of the desk that change no map.
ghost use Rattle.std.specs.Prelude.{drop};
ghost use Rattle.mem_base.specs.script.Operands.{ends, value_in};
ghost use Rattle.mem_base.specs.script.DeskForms.{at, desk_forms, dirty, drop_region, listen, load, machine, notified, show, space, unlisten, unwatch, watch};
ghost use Rattle.script_text.specs.Reads.{Reads, tried};

use crate::regions::region;
use crate::stops::{LineStop, found};
use crate::tokens::{Tokens, new_name};
use mem_base::Command;
use std::alloc::Global;

/// A command whose words were read, and nothing more: `begin`, `commit`, `reap`, `par`, `end`, `vN enter` and `vN leave`.
pub fn bare(tokens: &mut Tokens, command: Command) -> Result<Command, LineStop>
    ensures { Reads result (ends command tokens.old) }
{
    match tokens.ends() {
        Ok(()) => Ok(command),
        Err(cause) => {
            drop(command);
            Err(LineStop::Bad(cause))
        }
    }
}

// machine SIZE
fn machine(tokens: &mut Tokens) -> Result<Command, LineStop>
    ensures { Reads result (machine tokens.old) }
{
    let size = tokens.memory_size()?;
    tokens.ends()?;
    Ok(Command::Machine { size })
}

// space NAME REGION
fn space(alloc: Global, tokens: &mut Tokens) -> Result<Command, LineStop>
    ensures { Reads result (space tokens.old) }
{
    let name = tokens.name()?;
    let root = tokens.name()?;
    tokens.ends()?;
    Ok(Command::Space {
        name: new_name(alloc, name)?,
        root: new_name(alloc, root)?,
    })
}

// load REGION OFFSET BYTES
fn load(alloc: Global, tokens: &mut Tokens) -> Result<Command, LineStop>
    ensures { Reads result (load tokens.old) }
{
    let region = tokens.name()?;
    let offset = tokens.address()?;
    let bytes = tokens.bytes(alloc)?;
    tokens.ends()?;
    Ok(Command::Load {
        region: new_name(alloc, region)?,
        offset,
        bytes,
    })
}

// drop REGION
fn drop_region(alloc: Global, tokens: &mut Tokens) -> Result<Command, LineStop>
    ensures { Reads result (drop_region tokens.old) }
{
    let region = tokens.name()?;
    tokens.ends()?;
    Ok(Command::Drop {
        region: new_name(alloc, region)?,
    })
}

// listen NAME SPACE [prio N]
fn listen(alloc: Global, tokens: &mut Tokens) -> Result<Command, LineStop>
    ensures { Reads result (listen tokens.old) }
{
    let name = tokens.name()?;
    let space = tokens.name()?;
    let priority = tokens.last_priority()?;
    tokens.ends()?;
    Ok(Command::Listen {
        name: new_name(alloc, name)?,
        space: new_name(alloc, space)?,
        priority,
    })
}

// unlisten NAME
fn unlisten(alloc: Global, tokens: &mut Tokens) -> Result<Command, LineStop>
    ensures { Reads result (unlisten tokens.old) }
{
    let name = tokens.name()?;
    tokens.ends()?;
    Ok(Command::Unlisten {
        name: new_name(alloc, name)?,
    })
}

// watch NAME REGION FIRST LAST
fn watch(alloc: Global, tokens: &mut Tokens) -> Result<Command, LineStop>
    ensures { Reads result (watch tokens.old) }
{
    let name = tokens.name()?;
    let region = tokens.name()?;
    let first = tokens.address()?;
    let last = tokens.address()?;
    tokens.ends()?;
    Ok(Command::Watch {
        name: new_name(alloc, name)?,
        region: new_name(alloc, region)?,
        first,
        last,
    })
}

// unwatch NAME
fn unwatch(alloc: Global, tokens: &mut Tokens) -> Result<Command, LineStop>
    ensures { Reads result (unwatch tokens.old) }
{
    let name = tokens.name()?;
    tokens.ends()?;
    Ok(Command::Unwatch {
        name: new_name(alloc, name)?,
    })
}

// show SPACE
fn show(alloc: Global, tokens: &mut Tokens) -> Result<Command, LineStop>
    ensures { Reads result (show tokens.old) }
{
    let space = tokens.name()?;
    tokens.ends()?;
    Ok(Command::Show {
        space: new_name(alloc, space)?,
    })
}

// at SPACE ADDR
fn at(alloc: Global, tokens: &mut Tokens) -> Result<Command, LineStop>
    ensures { Reads result (at tokens.old) }
{
    let space = tokens.name()?;
    let addr = tokens.address()?;
    tokens.ends()?;
    Ok(Command::At {
        space: new_name(alloc, space)?,
        addr,
    })
}

// notified N
fn notified(tokens: &mut Tokens) -> Result<Command, LineStop>
    ensures { Reads result (notified tokens.old) }
{
    let number = tokens.notifier()?;
    tokens.ends()?;
    Ok(Command::Notified { number })
}

// dirty REGION vga|code|migration
fn dirty(alloc: Global, tokens: &mut Tokens) -> Result<Command, LineStop>
    ensures { Reads result (dirty tokens.old) }
{
    let region = tokens.name()?;
    let client = tokens.client()?;
    tokens.ends()?;
    Ok(Command::Dirty {
        region: new_name(alloc, region)?,
        client,
    })
}

/// The command that a word and the tokens after it say; none where the word is none of these.
pub fn desk_named(
    alloc: Global,
    word: &[u8],
    tokens: &mut Tokens,
) -> Result<Option<Command>, LineStop>
    ensures { Reads result (tried (value_in desk_forms word.now) tokens.old) }
{
    if word == b"machine".as_slice() {
        found(machine(tokens))
    } else if word == b"region".as_slice() {
        found(region(alloc, tokens))
    } else if word == b"space".as_slice() {
        found(space(alloc, tokens))
    } else if word == b"load".as_slice() {
        found(load(alloc, tokens))
    } else if word == b"drop".as_slice() {
        found(drop_region(alloc, tokens))
    } else {
        transaction_named(alloc, word, tokens)
    }
}

// The same of the words after the first five: transactions, listeners and watchers.
fn transaction_named(
    alloc: Global,
    word: &[u8],
    tokens: &mut Tokens,
) -> Result<Option<Command>, LineStop>
    ensures { Reads result (tried (value_in (drop 5 desk_forms) word.now) tokens.old) }
{
    if word == b"begin".as_slice() {
        found(bare(tokens, Command::Begin))
    } else if word == b"commit".as_slice() {
        found(bare(tokens, Command::Commit))
    } else if word == b"reap".as_slice() {
        found(bare(tokens, Command::Reap))
    } else if word == b"listen".as_slice() {
        found(listen(alloc, tokens))
    } else if word == b"unlisten".as_slice() {
        found(unlisten(alloc, tokens))
    } else if word == b"watch".as_slice() {
        found(watch(alloc, tokens))
    } else if word == b"unwatch".as_slice() {
        found(unwatch(alloc, tokens))
    } else {
        question_named(alloc, word, tokens)
    }
}

// The same of the words after those: what is asked, and blocks.
fn question_named(
    alloc: Global,
    word: &[u8],
    tokens: &mut Tokens,
) -> Result<Option<Command>, LineStop>
    ensures { Reads result (tried (value_in (drop 12 desk_forms) word.now) tokens.old) }
{
    if word == b"show".as_slice() {
        found(show(alloc, tokens))
    } else if word == b"at".as_slice() {
        found(at(alloc, tokens))
    } else if word == b"notified".as_slice() {
        found(notified(tokens))
    } else if word == b"dirty".as_slice() {
        found(dirty(alloc, tokens))
    } else if word == b"par".as_slice() {
        found(bare(tokens, Command::Par))
    } else if word == b"end".as_slice() {
        found(bare(tokens, Command::End))
    } else {
        Ok(None)
    }
}
