// What actors tell one another.
ghost use Rattle.std.specs.Prelude.{◌≡◌, None};

use crate::cabinet::boards::{Board, open, publish_next};
use epoch_rule::{Cabinet, Pass, WriterSeat};
use std::alloc::{AllocError, Global};

/// Whether a pass that met a note, between two publishes of which it knows nothing, enters no older generation.
fn are_met(
    alloc: Global,
    cabinet: &Cabinet<Board>,
    writer: &mut WriterSeat<Board>,
    pass: &mut Pass<Board>,
) -> bool
    requires writer { (writer.old.cabinet ≡ cabinet.now.id) × (writer.old.sizes.passes ≡ 1) × (writer.old.sizes.words ≡ 32835) }
    requires pass { (pass.old.cabinet ≡ cabinet.now.id) × (pass.old.edition ≡ None) }
    ensures writer { (writer.new.cabinet ≡ writer.old.cabinet) × (writer.new.out ≡ writer.old.out) }
    ensures pass { (pass.new.cabinet ≡ pass.old.cabinet) × (pass.new.number ≡ pass.old.number) × (pass.new.edition ≡ None) }
{
    let none = cabinet.enter(pass);
    let first = publish_next(alloc, cabinet, writer, 1);
    let note = cabinet.note(writer);
    let second = publish_next(alloc, cabinet, writer, 1);
    cabinet.meet(pass, note);
    cabinet.leave(pass);
    let entered = cabinet.enter(pass);
    let note = cabinet.tell(pass);
    cabinet.hear(writer, note);
    cabinet.leave(pass);
    none == 0 && entered == 2 && first == Ok(Ok(1)) && second == Ok(Ok(2))
}

/// The same in a cabinet of its own, which is closed after that.
fn notes_are_met(alloc: Global) -> Result<bool, AllocError> {
    let (cabinet, mut writer) = open(alloc, 1)?;
    let Some(mut pass) = cabinet.pass(&mut writer) else {
        drop(writer);
        drop(cabinet);
        return Ok(false);
    };
    let are_met = are_met(alloc, &cabinet, &mut writer, &mut pass);
    cabinet.take_in(&mut writer, pass);
    Ok(cabinet.close(writer) == 2 && are_met)
}

#[test]
fn a_pass_that_met_a_note_enters_no_older_generation(rt: HostRuntime) {
    assert!(rt; notes_are_met(rt.alloc()) == Ok(true));
}
