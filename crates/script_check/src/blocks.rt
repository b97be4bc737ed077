// The views of the monitor's text.
ghost use Rattle.std.specs.Prelude.{◌≡◌, [], IfOk, OnOk};
ghost use Rattle.script_check.specs.Blocks.{Cut, behind, blocks_of, printed, put};

use mem_base::Name;
use monitor_text::{FlatLine, FlatRow};
use std::alloc::{AllocError, Global};
use std::marker::Model;
use std::mem::replace;

/// A view that the monitor printed: the spaces that show it, and its ranges.
#[derive(Drop)]
pub struct Block {
    spaces: Vec<Name>,
    rows: Vec<FlatRow>,
}

impl Model for Block {
    ghost use Rattle.script_check.specs.Blocks.{Printed};

    ghost Value = { Printed };

    ghost view = { λ b. record { spaces = b.spaces.items; rows = b.rows.items } };
}

impl Block {
    fn new(alloc: Global) -> Block
        ensures { result ≡ printed [] [] }
    {
        Block {
            spaces: Vec::new(alloc),
            rows: Vec::new(alloc),
        }
    }

    /// The names of the spaces that show it.
    pub fn spaces(&self) -> &[Name]
        ensures { result.now ≡ self.now.spaces }
    {
        &self.spaces
    }

    /// Its ranges.
    pub fn rows(&self) -> &[FlatRow]
        ensures { result.now ≡ self.now.rows }
    {
        &self.rows
    }
}

fn copied_name(alloc: Global, name: &Name) -> Result<Name, AllocError>
    ensures { IfOk result (λ n. n ≡ name.now) }
{
    Ok(Name::new(name.as_bytes().to_vec(alloc)?))
}

fn copied_row(alloc: Global, row: &FlatRow) -> Result<FlatRow, AllocError>
    ensures { IfOk result (λ r. r ≡ row.now) }
{
    Ok(FlatRow {
        start: row.start,
        last: row.last,
        priority: row.priority,
        nonvolatile: row.nonvolatile,
        kind: row.kind,
        name: copied_name(alloc, &row.name)?,
        offset: row.offset,
    })
}

// One more line, after what stands before the first view and after it.
fn add_line(
    alloc: Global,
    done: &mut Vec<Block>,
    last: &mut Block,
    line: &FlatLine,
) -> Result<(), AllocError>
    ensures { (rest : Cut) → OnOk result (behind done.new.items last.new rest ≡ behind done.old.items last.old (put line.now rest)) }
{
    match line {
        FlatLine::View => done.push(replace(last, Block::new(alloc)))?,
        FlatLine::Space { name } => last.spaces.push(copied_name(alloc, name)?)?,
        FlatLine::Row(row) => last.rows.push(copied_row(alloc, row)?)?,
        FlatLine::Other | FlatLine::Empty => {}
    }
    Ok(())
}

/// The views of a text's lines. What stands before the first view is a block of its own, as a text that was cut may begin so.
pub fn blocks_of(alloc: Global, lines: &[(u32, FlatLine)]) -> Result<Vec<Block>, AllocError>
    ensures { IfOk result (λ blocks. blocks.items ≡ blocks_of lines.now) }
{
    let mut done = Vec::new(alloc);
    let mut last = Block::new(alloc);
    for (_, line) in lines {
        add_line(alloc, &mut done, &mut last, line)?;
    }
    done.push(last)?;
    Ok(done)
}
