// A pass whose lines give no order: each is resolved, done and told before the next one.
ghost use Rattle.std.specs.Prelude.{◌≡◌, ◌≤◌, true, false, All, IfSome, None, [], length};
ghost use Rattle.std.specs.List.{list_any};
ghost use Rattle.mem_base.specs.map.PassIds.{PassId};
ghost use Rattle.mem_base.specs.declared.script.commands.Command.TheVariants.{Pass};
ghost use Rattle.mem_base.specs.declared.script.commands.PassCommand.TheVariants as pass_commands;
ghost use Rattle.mem_base.specs.machine.Records.{Clerk};
ghost use Rattle.pass_lines.specs.Doing.{IsInItsGeneration};
ghost use Rattle.race_block.specs.Desks.{line_meant};
ghost use Rattle.race_block.specs.Lines.{HasDone, HasRunBy, HasStopped, HasTold, IsTold};
ghost use Rattle.race_block.specs.Resolving.{IsPassLine, IsTaskOf, copy_room, gives_order};

use crate::passes::{PassActor, do_task, read_first};
use crate::resolving::block_line;
use crate::spaces::Spaces;
use crate::tasks::{BlockLine, LineGot, OwnLine, PassLines};
use crate::texts::{add_answer, add_plain};
use desk_orders::{Clerk, Orderly};
use io_window::Bounce;
use mem_base::{Bytes, Command, Name, PassCommand};
use outside::{Actor, Gate};
use pass_lines::write;
use race_lines::KnownNames;
use script_lines::{Line, add_read_line, add_unknown_line};
use std::alloc::Global;
use std::sync::Wait;
use vcpu_pass::Vcpu;

// Whether a line gives an order.
fn gives_order(command: &Command) -> bool
    ensures { result ≡ gives_order command.now }
{
    match command {
        Command::Pass {
            pass: _,
            command: PassCommand::Do(_),
        } => true,
        _ => false,
    }
}

/// Whether any line gives an order.
pub(crate) fn any_gives_order(lines: &[OwnLine<'_>]) -> bool
    ensures { result ≡ list_any (λ x. gives_order x.line.now.1) lines.now }
{
    for own in lines {
        if gives_order(&own.line.1) {
            return true;
        }
    }
    false
}

// A line that was done, and what it got.
#[derive(Drop)]
struct Did<'a> {
    line: BlockLine<'a>,
    got: LineGot,
}

// Does a line, once its names are resolved. Out of memory nothing was done.
fn do_plain<'a, 'l, O: Orderly, R: Wait>(
    rt: &R,
    alloc: Global,
    desk: &mut O,
    vcpu: Vcpu<'a>,
    bounce: Bounce,
    clerk: &mut Clerk,
    names: &KnownNames,
    own: &OwnLine<'l>,
) -> (Vcpu<'a>, Bounce, Option<Did<'l>>)
    requires own { O.cabinet desk.old ≡ vcpu.cabinet }
    requires inside { IsInItsGeneration vcpu }
    requires room { bounce ≡ copy_room }
    requires fits { IsPassLine own.now }
    ensures task { IfSome result.2 (λ did. IsTaskOf names.now (line_meant own.now) did.line) }
    ensures done { IfSome result.2 (λ did. HasDone did.line.task clerk.old vcpu.entry did.got clerk.new result.0) }
    ensures stopped { result.2 ≡ None → (result.0 ≡ vcpu.entry) × (clerk.new ≡ clerk.old) }
    ensures room { result.1 ≡ bounce }
    ensures desk { O.cabinet desk.new ≡ O.cabinet desk.old }
{
    let Ok(line) = block_line(alloc, names, own) else {
        return (vcpu, bounce, None);
    };
    let (vcpu, bounce, done) = do_task(rt, alloc, desk, vcpu, bounce, clerk, &line.task);
    match done {
        Ok(got) => (vcpu, bounce, Some(Did { line, got })),
        Err(_) => (vcpu, bounce, None),
    }
}

// Does a line of any kind, and adds what it wrote to a text. It answers whether memory lasted.
fn tell_any<'a, O: Orderly, R: Wait>(
    rt: &R,
    alloc: Global,
    desk: &mut O,
    vcpu: Vcpu<'a>,
    bounce: Bounce,
    clerk: &mut Clerk,
    names: &KnownNames,
    own: &OwnLine<'_>,
    text: &mut Line,
) -> (Vcpu<'a>, Bounce, bool)
    requires own { O.cabinet desk.old ≡ vcpu.cabinet }
    requires inside { IsInItsGeneration vcpu }
    requires room { bounce ≡ copy_room }
    requires fits { IsPassLine own.now }
    ensures told { HasTold names.now (line_meant own.now) clerk.old vcpu.entry text.old result.2 clerk.new result.0 text.new }
    ensures room { result.1 ≡ bounce }
    ensures desk { O.cabinet desk.new ≡ O.cabinet desk.old }
{
    let pass = vcpu.id();
    let (vcpu, bounce, done) = do_plain(rt, alloc, desk, vcpu, bounce, clerk, names, own);
    let Some(did) = done else {
        return (vcpu, bounce, false);
    };
    let Ok(()) = add_plain(text, pass, &did.line, &did.got) else {
        return (vcpu, bounce, false);
    };
    (vcpu, bounce, true)
}

/// How many bytes a line reads at most.
const MOST_READ: usize = 64;

// Reads bytes of the space that has a name, and adds the line to a text. It answers whether memory lasted.
fn tell_read<'l>(
    vcpu: &mut Vcpu<'_>,
    spaces: &mut Spaces<'_, 'l>,
    number: u32,
    space: &'l Name,
    addr: u64,
    len: u8,
    text: &mut Line,
) -> bool
    requires inside { IsInItsGeneration vcpu.old }
    requires few { len ≤ 64 }
    ensures told { (pass : PassId) (clerk : Clerk) → HasTold spaces.old (number, Pass pass (pass_commands.Read space.now addr len)) clerk vcpu.old
        text.old result clerk vcpu.new text.new }
    ensures spaces { spaces.new ≡ spaces.old }
{
    let Some(from) = spaces.space(space) else {
        return add_unknown_line(text, number, space.as_bytes()).is_ok();
    };
    let pass = vcpu.id();
    let mut bytes = [0u8; MOST_READ];
    let access = read_first(vcpu, from, addr, len as usize, &mut bytes);
    add_read_line(text, pass, access, &bytes[..len as usize]).is_ok()
}

// Writes bytes to the space that has a name, and adds the line to a text. It answers whether memory lasted.
fn tell_write<'l, R: Wait>(
    rt: &R,
    vcpu: &mut Vcpu<'_>,
    spaces: &mut Spaces<'_, 'l>,
    number: u32,
    space: &'l Name,
    addr: u64,
    bytes: &Bytes,
    text: &mut Line,
) -> bool
    requires inside { IsInItsGeneration vcpu.old }
    ensures told { (pass : PassId) (clerk : Clerk) → HasTold spaces.old (number, Pass pass (pass_commands.Write space.now addr bytes.now)) clerk vcpu.old
        text.old result clerk vcpu.new text.new }
    ensures spaces { spaces.new ≡ spaces.old }
{
    let Some(to) = spaces.space(space) else {
        return add_unknown_line(text, number, space.as_bytes()).is_ok();
    };
    let pass = vcpu.id();
    let answer = write(rt, vcpu, to, addr, bytes.as_slice());
    add_answer(text, pass, &answer).is_ok()
}

// Does a line, and adds what it wrote to a text. It answers whether memory lasted. Reads and writes, which are most lines, go a short way: what is read
// stays at hand until it is told.
fn tell_line<'a, 'l, O: Orderly, R: Wait>(
    rt: &R,
    alloc: Global,
    desk: &mut O,
    mut vcpu: Vcpu<'a>,
    bounce: Bounce,
    clerk: &mut Clerk,
    spaces: &mut Spaces<'_, 'l>,
    own: &OwnLine<'l>,
    text: &mut Line,
) -> (Vcpu<'a>, Bounce, bool)
    requires own { O.cabinet desk.old ≡ vcpu.cabinet }
    requires inside { IsInItsGeneration vcpu }
    requires room { bounce ≡ copy_room }
    requires fits { IsPassLine own.now }
    ensures told { HasTold spaces.old (line_meant own.now) clerk.old vcpu.entry text.old result.2 clerk.new result.0 text.new }
    ensures spaces { spaces.new ≡ spaces.old }
    ensures room { result.1 ≡ bounce }
    ensures desk { O.cabinet desk.new ≡ O.cabinet desk.old }
{
    let Command::Pass { pass: _, command } = &own.line.1 else {
        unreachable!()
    };
    match command {
        PassCommand::Read { space, addr, len } => {
            let told = tell_read(&mut vcpu, spaces, own.line.0, space, *addr, *len, text);
            (vcpu, bounce, told)
        }
        PassCommand::Write { space, addr, bytes } => {
            let told = tell_write(rt, &mut vcpu, spaces, own.line.0, space, *addr, bytes, text);
            (vcpu, bounce, told)
        }
        _ => tell_any(
            rt,
            alloc,
            desk,
            vcpu,
            bounce,
            clerk,
            spaces.names(),
            own,
            text,
        ),
    }
}

// Does lines in order, reaches the gate before each, and adds what each wrote to a text, which is empty before. Where memory runs out it stops, and has
// done the first of them.
fn do_all_plain<'a, 'l, O: Orderly, G: Gate, R: Wait>(
    rt: &R,
    alloc: Global,
    gate: &G,
    desk: &mut O,
    vcpu: Vcpu<'a>,
    bounce: Bounce,
    clerk: &mut Clerk,
    names: &KnownNames,
    lines: &[OwnLine<'l>],
    text: &mut Line,
) -> (Vcpu<'a>, Bounce, bool)
    requires own { O.cabinet desk.old ≡ vcpu.cabinet }
    requires inside { IsInItsGeneration vcpu }
    requires room { bounce ≡ copy_room }
    requires fits { All IsPassLine lines.now }
    requires plain { list_any (λ x. gives_order x.line.now.1) lines.now ≡ false }
    requires empty { text.old ≡ [] }
    ensures told { result.2 ≡ true → IsTold names.now lines.now clerk.old vcpu.entry (length lines.now) clerk.new result.0 text.new }
    ensures stopped { result.2 ≡ false → HasStopped names.now lines.now clerk.old vcpu.entry clerk.new result.0 }
    ensures room { result.1 ≡ bounce }
    ensures desk { O.cabinet desk.new ≡ O.cabinet desk.old }
{
    let mut vcpu = vcpu;
    let mut bounce = bounce;
    let mut spaces = Spaces::new(names);
    for at in 0..lines.len() {
        let own = &lines[at];
        gate.arrive(Actor::Pass(vcpu.id()), own.line.0);
        let (next, room, told) = tell_line(
            rt,
            alloc,
            desk,
            vcpu,
            bounce,
            clerk,
            &mut spaces,
            own,
            text,
        );
        vcpu = next;
        bounce = room;
        if !told {
            return (vcpu, bounce, false);
        }
    }
    (vcpu, bounce, true)
}

/// Does lines in order, reaches the gate before each, and keeps the text of what they wrote. Where memory runs out it stops, and has done the
/// first of them.
///
/// None of them gives an order, and the names are not changed meanwhile.
pub(crate) fn run_plain<'a, 'k, O: Orderly, G: Gate, R: Wait>(
    rt: &R,
    alloc: Global,
    gate: &G,
    desk: &mut O,
    vcpu: Vcpu<'a>,
    bounce: Bounce,
    clerk: Clerk,
    lines: &[OwnLine<'a>],
    names: &KnownNames,
    got: Vec<LineGot>,
) -> PassActor<'a, 'k>
    requires own { O.cabinet desk.old ≡ vcpu.cabinet }
    requires inside { IsInItsGeneration vcpu }
    requires room { bounce ≡ copy_room }
    requires fits { All IsPassLine lines.now }
    requires plain { list_any (λ x. gives_order x.line.now.1) lines.now ≡ false }
    ensures run { HasRunBy names.now lines.now bounce clerk vcpu.entry result }
    ensures desk { O.cabinet desk.new ≡ O.cabinet desk.old }
{
    let mut clerk = clerk;
    let mut text = Line::new(alloc);
    let (vcpu, bounce, whole) = do_all_plain(
        rt, alloc, gate, desk, vcpu, bounce, &mut clerk, names, lines, &mut text,
    );
    PassActor {
        vcpu,
        bounce,
        clerk,
        lines: PassLines::Resolved(Vec::new(alloc)),
        got,
        out_of_memory: !whole,
        text: Some(text),
    }
}
