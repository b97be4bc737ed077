// Whole texts, line by line.
ghost use Rattle.std.specs.Prelude.{◌≡◌, ◌<◌, ◌≤◌, ◌^◌, ◌==◌, length, position};
ghost use Rattle.mem_base.specs.script.Lines.{without_return};
ghost use Rattle.monitor_text.specs.Rows.{flat_line, tree_line};
ghost use Rattle.monitor_text.specs.Texts.{ReadsText, TakesLine, lines_of};

use crate::faults::{LineFault, MonitorFault};
use crate::flat_text::{FlatLine, flat_line};
use crate::tree_text::{TreeLine, tree_line};
use std::alloc::Global;

// The line without a carriage return at its end.
fn without_return(line: &[u8]) -> &[u8]
    ensures { result.now ≡ without_return line.now }
{
    if line.last() == Some(&b'\r') {
        line.split_at(line.len() - 1).0
    } else {
        line
    }
}

// Where the first line ends.
fn line_end(text: &[u8]) -> Option<usize>
    ensures { result ≡ position (λ b. b == 10) text.now }
{
    text.iter().position(|byte| *byte == b'\n')
}

// Reads a line of a tree onto those before it.
fn put_tree(
    alloc: Global,
    number: u32,
    text: &[u8],
    lines: &mut Vec<(u32, TreeLine)>,
) -> Result<(), MonitorFault>
    requires { length text.now ≤ 2 ^ 32 }
    ensures { TakesLine result number (tree_line (without_return text.now)) lines.old.items lines.new.items }
{
    match tree_line(alloc, without_return(text)) {
        Ok(line) => Ok(lines.push((number, line))?),
        Err(LineFault::Bad) => Err(MonitorFault::Bad { line: number }),
        Err(LineFault::Memory) => Err(MonitorFault::Memory),
    }
}

// Reads a line of views onto those before it.
fn put_flat(
    alloc: Global,
    number: u32,
    text: &[u8],
    lines: &mut Vec<(u32, FlatLine)>,
) -> Result<(), MonitorFault>
    ensures { TakesLine result number (flat_line (without_return text.now)) lines.old.items lines.new.items }
{
    match flat_line(alloc, without_return(text)) {
        Ok(line) => Ok(lines.push((number, line))?),
        Err(LineFault::Bad) => Err(MonitorFault::Bad { line: number }),
        Err(LineFault::Memory) => Err(MonitorFault::Memory),
    }
}

/// Reads what `info mtree -D` printed (`info mtree`, without `-D`, leaves out what is disabled): each line with its number, counted
/// from 1. `Bad` tells the first line that has none of the forms.
pub fn read_tree(alloc: Global, text: &[u8]) -> Result<Vec<(u32, TreeLine)>, MonitorFault>
    requires { length text.now < 2 ^ 31 }
    ensures { ReadsText result (lines_of tree_line text.now) }
{
    let mut lines = Vec::new(alloc);
    let mut number = 1u32;
    let mut rest = text;
    while let Some(end) = line_end(rest) {
        let (front, after) = rest.split_at(end);
        match put_tree(alloc, number, front, &mut lines) {
            Ok(()) => {}
            Err(fault) => return Err(fault),
        }
        rest = after.split_at(1).1;
        number += 1;
    }
    match put_tree(alloc, number, rest, &mut lines) {
        Ok(()) => Ok(lines),
        Err(fault) => Err(fault),
    }
}

/// Reads what `info mtree -f` printed, likewise.
pub fn read_flat(alloc: Global, text: &[u8]) -> Result<Vec<(u32, FlatLine)>, MonitorFault>
    requires { length text.now < 2 ^ 31 }
    ensures { ReadsText result (lines_of flat_line text.now) }
{
    let mut lines = Vec::new(alloc);
    let mut number = 1u32;
    let mut rest = text;
    while let Some(end) = line_end(rest) {
        let (front, after) = rest.split_at(end);
        match put_flat(alloc, number, front, &mut lines) {
            Ok(()) => {}
            Err(fault) => return Err(fault),
        }
        rest = after.split_at(1).1;
        number += 1;
    }
    match put_flat(alloc, number, rest, &mut lines) {
        Ok(()) => Ok(lines),
        Err(fault) => Err(fault),
    }
}
