// The lines that read and write, and the moves between them.
ghost use Rattle.std.specs.Prelude.{◌≡◌, ◌<◌, ◌≤◌, IfOk, OnOk, ◌∷◌, []};
ghost use Rattle.mem_base.specs.script.Make.{draw, draw_access, draw_accesses, draw_bytes, draw_move, draw_move_at};
ghost use Rattle.script_make.specs.Draws.{AccessPushed, Appended, AccessDrawn, draw_either, draw_len, first_accesses, one_access};
ghost use Rattle.rand_pcg.specs.Pcg.{pcg32};

use crate::draws::{draw, draw_page, name_of, region_name};
use mem_base::{Bytes, Command, MapChange, PassCommand, PassId};
use rand_pcg::Lcg64Xsh32;
use std::alloc::{AllocError, Global};

// A region of the 2,000, and a place of the 4,096.
fn draw_move(alloc: Global, rng: &mut Lcg64Xsh32) -> Result<Command, AllocError>
    ensures { IfOk result (λ command. (command ∷ [], rng.new) ≡ draw_move pcg32 rng.old) }
{
    let region = draw(rng, 2000);
    let offset = draw_page(rng, 4096);
    Ok(Command::Change(MapChange::Move {
        child: region_name(alloc, region)?,
        offset,
    }))
}

fn push_drawn_move(
    alloc: Global,
    rng: &mut Lcg64Xsh32,
    commands: &mut Vec<Command>,
) -> Result<(), AllocError>
    ensures { OnOk result (Appended commands.old.items commands.new.items rng.new (draw_move pcg32 rng.old)) }
{
    let command = draw_move(alloc, rng)?;
    commands.push(command)?;
    Ok(())
}

// Each hundredth access comes after a move.
fn push_move(
    alloc: Global,
    rng: &mut Lcg64Xsh32,
    t: u32,
    commands: &mut Vec<Command>,
) -> Result<(), AllocError>
    ensures { OnOk result (Appended commands.old.items commands.new.items rng.new (draw_move_at pcg32 t rng.old)) }
{
    if t % 100 != 99 {
        return Ok(());
    }
    push_drawn_move(alloc, rng, commands)?;
    Ok(())
}

fn draw_byte(rng: &mut Lcg64Xsh32) -> u8
    ensures { (result, rng.new) ≡ draw pcg32 256 rng.old }
{
    draw(rng, 256) as u8
}

fn draw_bytes(alloc: Global, rng: &mut Lcg64Xsh32, count: u8) -> Result<Vec<u8>, AllocError>
    ensures { IfOk result (λ bytes. (bytes.items, rng.new) ≡ draw_bytes pcg32 count rng.old) }
{
    let mut bytes = Vec::new(alloc);
    for i in 0..count {
        let byte = draw_byte(rng);
        bytes.push(byte)?;
    }
    Ok(bytes)
}

// A read, or else a write of bytes that are drawn.
fn draw_way(
    alloc: Global,
    rng: &mut Lcg64Xsh32,
    reads: bool,
    pass: PassId,
    addr: u64,
    len: u8,
) -> Result<Command, AllocError>
    ensures { IfOk result (λ command. (command, rng.new) ≡ draw_either pcg32 reads pass addr len rng.old) }
{
    if reads {
        let command = PassCommand::Read {
            space: name_of(alloc, b"s")?,
            addr,
            len,
        };
        return Ok(Command::Pass { pass, command });
    }
    let bytes = draw_bytes(alloc, rng, len)?;
    let command = PassCommand::Write {
        space: name_of(alloc, b"s")?,
        addr,
        bytes: Bytes::new(bytes),
    };
    Ok(Command::Pass { pass, command })
}

// A length of 1 to 8 bytes.
fn draw_len(rng: &mut Lcg64Xsh32) -> u8
    ensures value { (result, rng.new) ≡ draw_len pcg32 rng.old }
    ensures bound { result ≤ 8 }
{
    1 + draw(rng, 8) as u8
}

// One of 16 passes.
fn draw_pass(rng: &mut Lcg64Xsh32) -> PassId
    ensures { (result.0, rng.new) ≡ draw pcg32 16 rng.old }
{
    let Some(pass) = PassId::new(draw(rng, 16)) else {
        unreachable!()
    };
    pass
}

// A read or a write of 1 to 8 bytes by one of 16 passes.
fn draw_access(alloc: Global, rng: &mut Lcg64Xsh32) -> Result<Command, AllocError>
    ensures { IfOk result (λ command. (command, rng.new) ≡ one_access pcg32 rng.old) }
{
    let pass = draw_pass(rng);
    let way = draw(rng, 2);
    let page = draw_page(rng, 4096);
    let offset = draw(rng, 4096);
    let len = draw_len(rng);
    let command = draw_way(alloc, rng, way == 0, pass, page + u64::from(offset), len)?;
    Ok(command)
}

fn push_drawn_access(
    alloc: Global,
    rng: &mut Lcg64Xsh32,
    commands: &mut Vec<Command>,
) -> Result<(), AllocError>
    ensures { OnOk result (AccessDrawn pcg32 commands.old.items commands.new.items rng.old rng.new) }
{
    let command = draw_access(alloc, rng)?;
    commands.push(command)?;
    Ok(())
}

// Access t, and the move before it.
fn push_access(
    alloc: Global,
    rng: &mut Lcg64Xsh32,
    t: u32,
    commands: &mut Vec<Command>,
) -> Result<(), AllocError>
    ensures { OnOk result (AccessPushed pcg32 t commands.old.items commands.new.items rng.old rng.new) }
{
    push_move(alloc, rng, t, commands)?;
    push_drawn_access(alloc, rng, commands)?;
    Ok(())
}

/// The lines of this many accesses.
pub fn draw_accesses(
    alloc: Global,
    rng: &mut Lcg64Xsh32,
    count: u32,
) -> Result<Vec<Command>, AllocError>
    ensures { IfOk result (λ commands. (commands.items, rng.new) ≡ first_accesses pcg32 count rng.old) }
{
    let mut commands = Vec::new(alloc);
    for t in 0..count {
        push_access(alloc, rng, t, &mut commands)?;
    }
    Ok(commands)
}
