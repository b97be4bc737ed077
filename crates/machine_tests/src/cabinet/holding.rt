// A publish that a pass holds up, and a sweep.
ghost use Rattle.std.specs.Prelude.{◌≡◌, ◌+◌, ◌<◌, Some, None};
ghost use Rattle.mem_base.specs.machine.Actors.{number_seen};
ghost use Rattle.machine_tests.specs.declared.cabinet.boards.Board.{Board};

use crate::cabinet::boards::{Board, next_board, open, publish_next};
use epoch_rule::{Batch, Cabinet, Pass, WriterSeat};
use mem_base::{Edition, PassId};
use std::alloc::{AllocError, Global};

/// Publishes the boards of the numbers from `first` to `last`; whether each was published.
fn publish_from(
    alloc: Global,
    cabinet: &Cabinet<Board>,
    writer: &mut WriterSeat<Board>,
    first: u64,
    last: u64,
) -> Result<bool, AllocError>
    requires own { writer.old.cabinet ≡ cabinet.now.id }
    requires sizes { (writer.old.sizes.passes ≡ 2) × (writer.old.sizes.words ≡ 32835) }
    ensures same { (writer.new.cabinet ≡ writer.old.cabinet) × (writer.new.sizes ≡ writer.old.sizes) × (writer.new.out ≡ writer.old.out) }
{
    let mut all = true;
    for number in first..=last {
        let published = publish_next(alloc, cabinet, writer, 2)?;
        all &= published == Ok(number);
    }
    Ok(all)
}

/// Publishes a batch; whether it is board 9.
fn publishes(cabinet: &Cabinet<Board>, writer: &mut WriterSeat<Board>, next: Batch<Board>) -> bool
    requires own { writer.old.cabinet ≡ cabinet.now.id }
    requires sizes { (writer.old.sizes.passes ≡ 2) × (writer.old.sizes.words ≡ 32835) }
    requires next { (next.edition.number ≡ number_seen writer.old.seen + 1) × (next.copies ≡ 2) × (next.edition.number < 1000000) }
{
    match cabinet.publish(writer, next) {
        Ok(number) => number == 9,
        Err((_, next)) => {
            drop(next);
            false
        }
    }
}

/// Whether the publish of 9 is held up by the first pass, which is in 1, and is done with the same batch as soon as it has left.
fn is_held_up(
    alloc: Global,
    cabinet: &Cabinet<Board>,
    writer: &mut WriterSeat<Board>,
    pass: &mut Pass<Board>,
) -> Result<bool, AllocError>
    requires own { (writer.old.cabinet ≡ cabinet.now.id) × (pass.old.cabinet ≡ cabinet.now.id) }
    requires sizes { (writer.old.sizes.passes ≡ 2) × (writer.old.sizes.words ≡ 32835) }
    requires entered { (e : Board) × (pass.old.edition ≡ Some e) }
{
    let next = next_board(alloc, writer, 2)?;
    match cabinet.publish(writer, next) {
        Ok(_) => Ok(false),
        Err((held, next)) => {
            let is_held = held.pass == PassId::FIRST && held.number == 1;
            let stays = cabinet.generation(pass).number() == 1;
            cabinet.leave(pass);
            let is_done = publishes(cabinet, writer, next);
            Ok(is_held && stays && is_done && cabinet.enter(pass) == 9)
        }
    }
}

/// The same of a pass that entered 1 before eight boards were published.
fn holds_up(
    alloc: Global,
    cabinet: &Cabinet<Board>,
    writer: &mut WriterSeat<Board>,
    pass: &mut Pass<Board>,
) -> Result<bool, AllocError>
    requires own { (writer.old.cabinet ≡ cabinet.now.id) × (pass.old.cabinet ≡ cabinet.now.id) }
    requires sizes { (writer.old.sizes.passes ≡ 2) × (writer.old.sizes.words ≡ 32835) }
    requires out { pass.old.edition ≡ None }
{
    let first = publish_from(alloc, cabinet, writer, 1, 1)?;
    let entered = cabinet.enter(pass);
    let others = publish_from(alloc, cabinet, writer, 2, 8)?;
    Ok(first && entered == 1 && others && is_held_up(alloc, cabinet, writer, pass)?)
}

/// Whether a sweep finds the number that the second pass entered, and that pass; and once it has left, the current number, and the first
/// pass.
fn is_swept(
    alloc: Global,
    cabinet: &Cabinet<Board>,
    writer: &mut WriterSeat<Board>,
    pass: &mut Pass<Board>,
) -> Result<bool, AllocError>
    requires own { (writer.old.cabinet ≡ cabinet.now.id) × (pass.old.cabinet ≡ cabinet.now.id) }
    requires sizes { (writer.old.sizes.passes ≡ 2) × (writer.old.sizes.words ≡ 32835) }
    requires out { pass.old.edition ≡ None }
{
    let first = publish_from(alloc, cabinet, writer, 1, 3)?;
    let entered = cabinet.enter(pass);
    let others = publish_from(alloc, cabinet, writer, 4, 5)?;
    let second = cabinet.sweep(writer);
    let is_second = second.lowest == 3 && second.pass == pass.id();
    cabinet.leave(pass);
    let current = cabinet.sweep(writer);
    let is_current = current.lowest == 5 && current.pass == PassId::FIRST;
    Ok(first && entered == 3 && others && is_second && is_current)
}

/// Whether there are just two passes, and the first one holds up a publish, or the second is told by a sweep.
fn of_two(
    alloc: Global,
    cabinet: &Cabinet<Board>,
    writer: &mut WriterSeat<Board>,
    holds: bool,
) -> Result<bool, AllocError>
    requires own { writer.old.cabinet ≡ cabinet.now.id }
    requires sizes { (writer.old.sizes.passes ≡ 2) × (writer.old.sizes.words ≡ 32835) }
{
    let (first, second) = (cabinet.pass(writer), cabinet.pass(writer));
    if cabinet.pass(writer).is_some() {
        return Ok(false);
    }
    match (first, second) {
        (Some(mut first), Some(mut second)) => {
            let is_so = if holds {
                holds_up(alloc, cabinet, writer, &mut first)
            } else {
                is_swept(alloc, cabinet, writer, &mut second)
            };
            drop(first);
            drop(second);
            is_so
        }
        _ => Ok(false),
    }
}

/// The same in a cabinet of its own.
fn holding(alloc: Global, holds: bool) -> Result<bool, AllocError> {
    let (cabinet, mut writer) = open(alloc, 2)?;
    let is_so = of_two(alloc, &cabinet, &mut writer, holds);
    drop(writer);
    drop(cabinet);
    is_so
}

#[test]
fn a_pass_that_stays_at_1_holds_up_the_publish_of_9(rt: HostRuntime) {
    assert!(rt; holding(rt.alloc(), true) == Ok(true));
}

#[test]
fn a_sweep_names_the_least_pass_that_may_use_the_oldest_generation(rt: HostRuntime) {
    assert!(rt; holding(rt.alloc(), false) == Ok(true));
}
