// The lines that change the map: one function for one form.
ghost use Rattle.std.specs.Prelude.{drop};
ghost use Rattle.mem_base.specs.script.Operands.{value_in};
ghost use Rattle.mem_base.specs.script.ChangeForms.{add, change, change_forms, del, disable, enable, event, global, log, map_page, move};
ghost use Rattle.mem_base.specs.script.ChangeForms.{nonvolatile, readonly, resize, retarget, romd, unevent, unmap, unmergeable};
ghost use Rattle.script_text.specs.Reads.{Reads, tried};

use crate::stops::{LineStop, found};
use crate::tokens::{Tokens, new_name};
use mem_base::{Cause, MapChange};
use std::alloc::Global;

// add REGION OFFSET REGION [prio N]
fn add(alloc: Global, tokens: &mut Tokens) -> Result<MapChange, LineStop>
    ensures { Reads result (add tokens.old) }
{
    let parent = tokens.name()?;
    let offset = tokens.address()?;
    let child = tokens.name()?;
    let priority = tokens.last_priority()?;
    tokens.ends()?;
    Ok(MapChange::Add {
        parent: new_name(alloc, parent)?,
        offset,
        child: new_name(alloc, child)?,
        priority,
    })
}

// del REGION REGION
fn del(alloc: Global, tokens: &mut Tokens) -> Result<MapChange, LineStop>
    ensures { Reads result (del tokens.old) }
{
    let parent = tokens.name()?;
    let child = tokens.name()?;
    tokens.ends()?;
    Ok(MapChange::Del {
        parent: new_name(alloc, parent)?,
        child: new_name(alloc, child)?,
    })
}

// move REGION OFFSET
fn move_child(alloc: Global, tokens: &mut Tokens) -> Result<MapChange, LineStop>
    ensures { Reads result (move tokens.old) }
{
    let child = tokens.name()?;
    let offset = tokens.address()?;
    tokens.ends()?;
    Ok(MapChange::Move {
        child: new_name(alloc, child)?,
        offset,
    })
}

// resize REGION SIZE
fn resize(alloc: Global, tokens: &mut Tokens) -> Result<MapChange, LineStop>
    ensures { Reads result (resize tokens.old) }
{
    let region = tokens.name()?;
    let size = tokens.size()?;
    tokens.ends()?;
    Ok(MapChange::Resize {
        region: new_name(alloc, region)?,
        size,
    })
}

// retarget REGION OFFSET
fn retarget(alloc: Global, tokens: &mut Tokens) -> Result<MapChange, LineStop>
    ensures { Reads result (retarget tokens.old) }
{
    let alias = tokens.name()?;
    let offset = tokens.address()?;
    tokens.ends()?;
    Ok(MapChange::Retarget {
        alias: new_name(alloc, alias)?,
        offset,
    })
}

// enable REGION
fn enable(alloc: Global, tokens: &mut Tokens) -> Result<MapChange, LineStop>
    ensures { Reads result (enable tokens.old) }
{
    let region = tokens.name()?;
    tokens.ends()?;
    Ok(MapChange::Enable {
        region: new_name(alloc, region)?,
    })
}

// disable REGION
fn disable(alloc: Global, tokens: &mut Tokens) -> Result<MapChange, LineStop>
    ensures { Reads result (disable tokens.old) }
{
    let region = tokens.name()?;
    tokens.ends()?;
    Ok(MapChange::Disable {
        region: new_name(alloc, region)?,
    })
}

// readonly REGION on|off
fn readonly(alloc: Global, tokens: &mut Tokens) -> Result<MapChange, LineStop>
    ensures { Reads result (readonly tokens.old) }
{
    let region = tokens.name()?;
    let on = tokens.switch()?;
    tokens.ends()?;
    Ok(MapChange::Readonly {
        region: new_name(alloc, region)?,
        on,
    })
}

// nonvolatile REGION on|off
fn nonvolatile(alloc: Global, tokens: &mut Tokens) -> Result<MapChange, LineStop>
    ensures { Reads result (nonvolatile tokens.old) }
{
    let region = tokens.name()?;
    let on = tokens.switch()?;
    tokens.ends()?;
    Ok(MapChange::Nonvolatile {
        region: new_name(alloc, region)?,
        on,
    })
}

// unmergeable REGION on|off
fn unmergeable(alloc: Global, tokens: &mut Tokens) -> Result<MapChange, LineStop>
    ensures { Reads result (unmergeable tokens.old) }
{
    let region = tokens.name()?;
    let on = tokens.switch()?;
    tokens.ends()?;
    Ok(MapChange::Unmergeable {
        region: new_name(alloc, region)?,
        on,
    })
}

// romd REGION on|off
fn romd(alloc: Global, tokens: &mut Tokens) -> Result<MapChange, LineStop>
    ensures { Reads result (romd tokens.old) }
{
    let region = tokens.name()?;
    let on = tokens.switch()?;
    tokens.ends()?;
    Ok(MapChange::Romd {
        region: new_name(alloc, region)?,
        on,
    })
}

// log REGION vga|code|migration on|off
fn log(alloc: Global, tokens: &mut Tokens) -> Result<MapChange, LineStop>
    ensures { Reads result (log tokens.old) }
{
    let region = tokens.name()?;
    let client = tokens.client()?;
    let on = tokens.switch()?;
    tokens.ends()?;
    Ok(MapChange::Log {
        region: new_name(alloc, region)?,
        client,
        on,
    })
}

// global on|off
fn global(tokens: &mut Tokens) -> Result<MapChange, LineStop>
    ensures { Reads result (global tokens.old) }
{
    let on = tokens.switch()?;
    tokens.ends()?;
    Ok(MapChange::Global { on })
}

// map REGION IOVA SIZE SPACE ADDR none|r|w|rw
fn map_page(alloc: Global, tokens: &mut Tokens) -> Result<MapChange, LineStop>
    ensures { Reads result (map_page tokens.old) }
{
    let region = tokens.name()?;
    let iova = tokens.address()?;
    let size = tokens.size()?;
    let space = tokens.name()?;
    let translated = tokens.address()?;
    let perm = tokens.perm()?;
    tokens.ends()?;
    Ok(MapChange::Map {
        region: new_name(alloc, region)?,
        iova,
        size,
        space: new_name(alloc, space)?,
        translated,
        perm,
    })
}

// unmap REGION IOVA
fn unmap(alloc: Global, tokens: &mut Tokens) -> Result<MapChange, LineStop>
    ensures { Reads result (unmap tokens.old) }
{
    let region = tokens.name()?;
    let iova = tokens.address()?;
    tokens.ends()?;
    Ok(MapChange::Unmap {
        region: new_name(alloc, region)?,
        iova,
    })
}

// event REGION OFFSET SIZE N [data VALUE]
fn event(alloc: Global, tokens: &mut Tokens) -> Result<MapChange, LineStop>
    ensures { Reads result (event tokens.old) }
{
    let region = tokens.name()?;
    let offset = tokens.address()?;
    let size = tokens.decimal_byte()?;
    let number = tokens.notifier()?.number();
    let data = tokens.last_data()?;
    tokens.ends()?;
    Ok(MapChange::Event {
        region: new_name(alloc, region)?,
        offset,
        size,
        number,
        data,
    })
}

// unevent REGION OFFSET SIZE [data VALUE]
fn unevent(alloc: Global, tokens: &mut Tokens) -> Result<MapChange, LineStop>
    ensures { Reads result (unevent tokens.old) }
{
    let region = tokens.name()?;
    let offset = tokens.address()?;
    let size = tokens.decimal_byte()?;
    let data = tokens.last_data()?;
    tokens.ends()?;
    Ok(MapChange::Unevent {
        region: new_name(alloc, region)?,
        offset,
        size,
        data,
    })
}

/// The change that a word and the tokens after it say; none where the word says no change.
pub fn change_named(
    alloc: Global,
    word: &[u8],
    tokens: &mut Tokens,
) -> Result<Option<MapChange>, LineStop>
    ensures { Reads result (tried (value_in change_forms word.now) tokens.old) }
{
    if word == b"add".as_slice() {
        found(add(alloc, tokens))
    } else if word == b"del".as_slice() {
        found(del(alloc, tokens))
    } else if word == b"move".as_slice() {
        found(move_child(alloc, tokens))
    } else if word == b"resize".as_slice() {
        found(resize(alloc, tokens))
    } else if word == b"retarget".as_slice() {
        found(retarget(alloc, tokens))
    } else {
        flag_named(alloc, word, tokens)
    }
}

// The same of the words after the first five: the flags of a region.
fn flag_named(
    alloc: Global,
    word: &[u8],
    tokens: &mut Tokens,
) -> Result<Option<MapChange>, LineStop>
    ensures { Reads result (tried (value_in (drop 5 change_forms) word.now) tokens.old) }
{
    if word == b"enable".as_slice() {
        found(enable(alloc, tokens))
    } else if word == b"disable".as_slice() {
        found(disable(alloc, tokens))
    } else if word == b"readonly".as_slice() {
        found(readonly(alloc, tokens))
    } else if word == b"nonvolatile".as_slice() {
        found(nonvolatile(alloc, tokens))
    } else if word == b"unmergeable".as_slice() {
        found(unmergeable(alloc, tokens))
    } else if word == b"romd".as_slice() {
        found(romd(alloc, tokens))
    } else {
        table_named(alloc, word, tokens)
    }
}

// The same of the words after those: dirty logs, translations and ioeventfds.
fn table_named(
    alloc: Global,
    word: &[u8],
    tokens: &mut Tokens,
) -> Result<Option<MapChange>, LineStop>
    ensures { Reads result (tried (value_in (drop 11 change_forms) word.now) tokens.old) }
{
    if word == b"log".as_slice() {
        found(log(alloc, tokens))
    } else if word == b"global".as_slice() {
        found(global(tokens))
    } else if word == b"map".as_slice() {
        found(map_page(alloc, tokens))
    } else if word == b"unmap".as_slice() {
        found(unmap(alloc, tokens))
    } else if word == b"event".as_slice() {
        found(event(alloc, tokens))
    } else if word == b"unevent".as_slice() {
        found(unevent(alloc, tokens))
    } else {
        Ok(None)
    }
}

/// A change, from its first word on.
pub fn change(alloc: Global, tokens: &mut Tokens) -> Result<MapChange, LineStop>
    ensures { Reads result (change tokens.old) }
{
    let word = tokens.token()?;
    match change_named(alloc, word, tokens) {
        Ok(Some(change)) => Ok(change),
        Ok(None) => Err(LineStop::Bad(Cause::Word)),
        Err(stop) => Err(stop),
    }
}
