// The lines of `info mtree -D`.
ghost use Rattle.std.specs.Prelude.{◌≡◌, ◌≤◌, ◌<◌, ◌^◌, ◌==◌, IfOk, IfSome, length, not, position, take};
ghost use Rattle.std.specs.Str.{bytes_eq};
ghost use Rattle.monitor_text.specs.Reads.{Reads};
ghost use Rattle.monitor_text.specs.Rows.{alias_row, has_escape, is_echo, is_other, named_row, offsets, plain_row, region_line, row_line, spaces_of, tree_line};
ghost use Rattle.monitor_text.specs.Rows.{tree_row, window, without_overflow};

use crate::cursor::Cursor;
use crate::faults::LineFault;
use crate::parts::{RowHead, head, span, without_end};
use crate::rows::{TreeRow, Window};
use mem_base::Name;
use std::alloc::{AllocError, Global};

/// A line of `info mtree -D`.
#[derive(Debug, Drop)]
pub enum TreeLine {
    /// Nothing of the map: a blank line, or one of the monitor's own.
    Other,
    /// `address-space: NAME`. Spaces with one root stand in lines one after another, and its tree follows.
    Space { name: Name },
    /// `memory-region: NAME`: the target of an alias, and its tree follows.
    Region { name: Name },
    /// A region of a tree.
    Row(TreeRow),
}

/// These bytes as a name.
pub(crate) fn new_name(alloc: Global, bytes: &[u8]) -> Result<Name, AllocError>
    ensures { IfOk result (λ n. n ≡ bytes.now) }
{
    Ok(Name::new(bytes.to_vec(alloc)?))
}

// A row of a region that is no alias.
fn plain_row(
    alloc: Global,
    depth: u32,
    head: RowHead,
    name: &[u8],
    disabled: bool,
) -> Result<TreeRow, AllocError>
    ensures { IfOk result (λ row. row ≡ plain_row depth head name.now disabled) }
{
    Ok(TreeRow {
        depth,
        start: head.start,
        last: head.last,
        priority: head.priority,
        nonvolatile: head.nonvolatile,
        kind: head.kind,
        name: new_name(alloc, name)?,
        window: None,
        disabled,
    })
}

// The two offsets behind the target's name.
fn offsets(text: &[u8]) -> Option<(u64, u64)>
    ensures { result ≡ offsets text.now }
{
    let mut cursor = Cursor::new(text);
    cursor.word(b" ")?;
    let ends = span(&mut cursor)?;
    if cursor.rest().is_empty() {
        Some(ends)
    } else {
        None
    }
}

// The target of an alias, and what it shows of it.
fn window(alloc: Global, text: &[u8]) -> Result<Window, LineFault>
    ensures { Reads result (window text.now) }
{
    if text.len() < 34 {
        return Err(LineFault::Bad);
    }
    let (target, back) = text.split_at(text.len() - 34);
    match offsets(back) {
        Some((first, last)) => Ok(Window {
            target: new_name(alloc, target)?,
            first,
            last,
        }),
        None => Err(LineFault::Bad),
    }
}

// A row of an alias.
fn alias_row(
    alloc: Global,
    depth: u32,
    head: RowHead,
    text: &[u8],
    disabled: bool,
) -> Result<TreeRow, LineFault>
    ensures { Reads result (alias_row depth head text.now disabled) }
{
    let mut cursor = Cursor::new(text);
    match cursor.until_target() {
        Some(name) => {
            let window = window(alloc, cursor.rest())?;
            let row = plain_row(alloc, depth, head, name, disabled)?;
            Ok(TreeRow {
                window: Some(window),
                ..row
            })
        }
        None => Err(LineFault::Bad),
    }
}

// What stands behind the kind.
fn named_row(
    alloc: Global,
    depth: u32,
    head: RowHead,
    body: &[u8],
    disabled: bool,
) -> Result<TreeRow, LineFault>
    ensures { Reads result (named_row depth head body.now disabled) }
{
    let mut cursor = Cursor::new(body);
    match cursor.word(b"alias ") {
        Some(()) => alias_row(alloc, depth, head, cursor.rest(), disabled),
        None => Ok(plain_row(alloc, depth, head, body, disabled)?),
    }
}

// A row that is indented by this many spaces.
fn tree_row(alloc: Global, spaces: usize, text: &[u8]) -> Result<TreeRow, LineFault>
    requires { spaces ≤ 2 ^ 32 }
    ensures { Reads result (tree_row spaces text.now) }
{
    let mut cursor = Cursor::new(text);
    match head(&mut cursor) {
        Some(head) => {
            let (body, disabled) = without_end(b" [disabled]", cursor.rest());
            named_row(alloc, (spaces / 2) as u32, head, body, disabled)
        }
        None => Err(LineFault::Bad),
    }
}

/// How many spaces a text begins with.
pub(crate) fn spaces_of(text: &[u8]) -> usize
    ensures value { result ≡ spaces_of text.now }
    ensures bound { result ≤ length text.now }
{
    match first_other(text) {
        Some(count) => count,
        None => text.len(),
    }
}

// Where the first byte that is no space stands.
fn first_other(text: &[u8]) -> Option<usize>
    ensures value { result ≡ position (λ b. not (b == 32)) text.now }
    ensures bound { IfSome result (λ i. i < length text.now) }
{
    text.iter().position(|byte| !(*byte == b' '))
}

/// What stands behind the word that tells a sum past 2^64.
fn without_overflow(text: &[u8]) -> &[u8]
    ensures { result.now ≡ without_overflow text.now }
{
    let mut cursor = Cursor::new(text);
    match cursor.word(b"[DETECTED OVERFLOW!] ") {
        Some(()) => cursor.rest(),
        None => text,
    }
}

// Whether a text begins with these bytes.
fn begins(word: &[u8], text: &[u8]) -> bool
    ensures { result ≡ bytes_eq (take (length word.now) text.now) word.now }
{
    Cursor::new(text).word(word).is_some()
}

// Whether a line has an escape code.
fn has_escape(text: &[u8]) -> bool
    ensures { result ≡ has_escape text.now }
{
    text.iter().any(|byte| *byte == 27)
}

// Whether a line is the command that was typed.
#[tactic(auto, unfolding(crate::specs::Rows::is_echo))]
fn is_echo(text: &[u8]) -> bool
    ensures { result ≡ is_echo text.now }
{
    begins(b"info mtree", text) || has_escape(text)
}

/// Whether a line says nothing of the map.
pub(crate) fn is_other(text: &[u8]) -> bool
    ensures { result ≡ is_other text.now }
{
    spaces_of(text) == text.len()
        || begins(b"(qemu)", text)
        || begins(b"QEMU ", text)
        || is_echo(text)
}

// A line of a region.
fn row_line(alloc: Global, text: &[u8]) -> Result<TreeLine, LineFault>
    requires { length text.now ≤ 2 ^ 32 }
    ensures { Reads result (row_line text.now) }
{
    let spaces = spaces_of(text);
    let row = tree_row(alloc, spaces, text.split_at(spaces).1)?;
    Ok(TreeLine::Row(row))
}

/// A line of `info mtree -D`, without what ends it.
pub fn tree_line(alloc: Global, text: &[u8]) -> Result<TreeLine, LineFault>
    requires { length text.now ≤ 2 ^ 32 }
    ensures { Reads result (tree_line text.now) }
{
    if is_other(text) {
        return Ok(TreeLine::Other);
    }
    let mut cursor = Cursor::new(text);
    if cursor.word(b"address-space: ").is_some() {
        let name = new_name(alloc, cursor.rest())?;
        return Ok(TreeLine::Space { name });
    }
    region_line(alloc, text)
}

// A line that names no space.
fn region_line(alloc: Global, text: &[u8]) -> Result<TreeLine, LineFault>
    requires { length text.now ≤ 2 ^ 32 }
    ensures { Reads result (region_line text.now) }
{
    let mut cursor = Cursor::new(text);
    match cursor.word(b"memory-region: ") {
        Some(()) => {
            let name = new_name(alloc, cursor.rest())?;
            Ok(TreeLine::Region { name })
        }
        None => row_line(alloc, without_overflow(text)),
    }
}
