// The lines of `info mtree -f`.
ghost use Rattle.std.specs.Prelude.{◌≡◌};
ghost use Rattle.monitor_text.specs.Reads.{Reads};
ghost use Rattle.monitor_text.specs.Rows.{flat_line, flat_row, name_offset, named_line, offset_of, range_line, shown_line, space_line};
ghost use Rattle.monitor_text.specs.Rows.{without_mark, without_marks};

use crate::cursor::Cursor;
use crate::faults::LineFault;
use crate::parts::{head, without_end};
use crate::rows::FlatRow;
use crate::tree_text::{is_other, new_name, spaces_of};
use mem_base::Name;
use std::alloc::Global;

/// A line of `info mtree -f`.
#[derive(Debug, Drop)]
pub enum FlatLine {
    /// Nothing of a view: a blank line, the name of its root, or a line of the monitor's own.
    Other,
    /// `FlatView #N`: the next view.
    View,
    /// ` AS "NAME", root: ..`: a space that shows the view.
    Space { name: Name },
    /// `  No rendered FlatView`: the view shows nothing.
    Empty,
    /// A range of the view.
    Row(FlatRow),
}

// ` @` and an offset.
fn offset_of(text: &[u8]) -> Option<u64>
    ensures { result ≡ offset_of text.now }
{
    let mut cursor = Cursor::new(text);
    cursor.word(b" @")?;
    let offset = cursor.address()?;
    if cursor.rest().is_empty() {
        Some(offset)
    } else {
        None
    }
}

// A name, and the offset after it, where it is not 0.
fn name_offset(text: &[u8]) -> (&[u8], u64)
    ensures { (result.0.now, result.1) ≡ name_offset text.now }
{
    if text.len() < 18 {
        return (text, 0);
    }
    let (name, back) = text.split_at(text.len() - 18);
    match offset_of(back) {
        Some(offset) => (name, offset),
        None => (text, 0),
    }
}

// The text without the name of an accelerator at its end.
#[tactic(auto, unfolding(crate::specs::Rows::without_mark))]
fn without_mark(text: &[u8]) -> &[u8]
    ensures { result.now ≡ without_mark text.now }
{
    let (kvm, found) = without_end(b" KVM", text);
    if found {
        return kvm;
    }
    let (hvf, found) = without_end(b" HVF", text);
    if found {
        return hvf;
    }
    let (whpx, found) = without_end(b" WHPX", text);
    if found {
        return whpx;
    }
    let (nvmm, found) = without_end(b" NVMM", text);
    if found {
        return nvmm;
    }
    without_end(b" HAX", text).0
}

// The same of two names.
fn without_marks(text: &[u8]) -> &[u8]
    ensures { result.now ≡ without_marks text.now }
{
    without_mark(without_mark(text))
}

// A range of a view.
fn flat_row(alloc: Global, text: &[u8]) -> Result<FlatRow, LineFault>
    ensures { Reads result (flat_row text.now) }
{
    let mut cursor = Cursor::new(text);
    match head(&mut cursor) {
        Some(head) => {
            let (name, offset) = name_offset(without_marks(cursor.rest()));
            Ok(FlatRow {
                start: head.start,
                last: head.last,
                priority: head.priority,
                nonvolatile: head.nonvolatile,
                kind: head.kind,
                name: new_name(alloc, name)?,
                offset,
            })
        }
        None => Err(LineFault::Bad),
    }
}

// The line of a space.
fn space_line(alloc: Global, text: &[u8]) -> Result<FlatLine, LineFault>
    ensures { Reads result (space_line text.now) }
{
    let mut cursor = Cursor::new(text);
    match cursor.until(b'"') {
        Some(name) => Ok(FlatLine::Space {
            name: new_name(alloc, name)?,
        }),
        None => Err(LineFault::Bad),
    }
}

// A line of a range.
fn range_line(alloc: Global, text: &[u8]) -> Result<FlatLine, LineFault>
    ensures { Reads result (range_line text.now) }
{
    let row = flat_row(alloc, text.split_at(spaces_of(text)).1)?;
    Ok(FlatLine::Row(row))
}

// A line below the head of a view, and below the names of its spaces.
fn shown_line(alloc: Global, text: &[u8]) -> Result<FlatLine, LineFault>
    ensures { Reads result (shown_line text.now) }
{
    let mut cursor = Cursor::new(text);
    match cursor.word(b" Root memory region: ") {
        Some(()) => Ok(FlatLine::Other),
        None => range_line(alloc, text),
    }
}

// A line below the head of a view.
fn named_line(alloc: Global, text: &[u8]) -> Result<FlatLine, LineFault>
    ensures { Reads result (named_line text.now) }
{
    let mut cursor = Cursor::new(text);
    match cursor.word(b" AS \"") {
        Some(()) => space_line(alloc, cursor.rest()),
        None => shown_line(alloc, text),
    }
}

/// A line of `info mtree -f`, without what ends it.
pub fn flat_line(alloc: Global, text: &[u8]) -> Result<FlatLine, LineFault>
    ensures { Reads result (flat_line text.now) }
{
    if is_other(text) {
        return Ok(FlatLine::Other);
    }
    if text == b"  No rendered FlatView".as_slice() {
        return Ok(FlatLine::Empty);
    }
    let mut cursor = Cursor::new(text);
    match cursor.word(b"FlatView #") {
        Some(()) => Ok(FlatLine::View),
        None => named_line(alloc, text),
    }
}
