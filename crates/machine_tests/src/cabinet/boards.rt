// The generations of the tests, and a cabinet for them.
ghost use Rattle.std.specs.Prelude.{◌≡◌, ◌+◌, ◌≤◌, ◌<◌, IfOk, false, replicate, Some, None};
ghost use Rattle.machine_tests.specs.Boards.{forest_of, places_of, ram_place};
ghost use Rattle.mem_base.specs.machine.Actors.{number_seen};

use epoch_rule::{Batch, Cabinet, Held, WriterSeat};
use mem_base::{Edition, Place, RegionId};
use std::alloc::{AllocError, Global};
use std::sync::Arc;

/// The words of a cabinet of the tests: 32,768 of data, 3 of marks, and 64 for notifiers.
pub(crate) const WORDS: usize = 32835;

/// A generation of the tests. Number 0 shows nothing, and each later one RAM of 64 pages.
#[derive(Drop)]
pub(crate) struct Board {
    pub(crate) number: u64,
}

/// The place of that RAM.
pub(crate) fn ram() -> Place
    ensures { result ≡ ram_place }
{
    Place {
        region: RegionId(0),
        start: 0,
        words: 32771,
        bytes: 262144,
        regs: 0,
    }
}

impl Edition for Board {
    ghost use Rattle.machine_tests.specs.Boards.{forest_of, places_of};

    ghost counted = { λ e. e.number };

    ghost forest = { λ e. forest_of e.number };

    ghost places = { λ e. places_of e.number };

    fn number(&self) -> u64 {
        self.number
    }

    fn place_of(&self, region: RegionId) -> Option<Place> {
        if self.number > 0 && region.0 == 0 {
            return Some(ram());
        }
        None
    }
}

/// A cabinet of `passes` passes with the writer's seat.
pub(crate) fn open(
    alloc: Global,
    passes: u32,
) -> Result<(Cabinet<Board>, WriterSeat<Board>), AllocError>
    requires { (0 < passes) × (passes ≤ 16) }
    ensures { IfOk result (λ r. (r.1.cabinet ≡ r.0.id) × (r.1.sizes.passes ≡ passes) × (r.1.sizes.words ≡ 32835) × (r.1.out ≡ replicate passes false)) }
{
    let first = Arc::new(alloc, Board { number: 0 })?;
    Cabinet::new(alloc, passes, WORDS, first)
}

/// A batch of the next board.
pub(crate) fn next_board(
    alloc: Global,
    writer: &WriterSeat<Board>,
    passes: u32,
) -> Result<Batch<Board>, AllocError>
    ensures { IfOk result (λ b. (b.edition.number ≡ number_seen writer.now.seen + 1) × (b.copies ≡ passes) × (b.edition.number < 1000000)) }
{
    let current = writer.current();
    if current >= 999999 {
        return Err(AllocError);
    }
    let next = Arc::new(
        alloc,
        Board {
            number: current + 1,
        },
    )?;
    Batch::new(alloc, &next, passes)
}

/// Publishes the next board: its number, or what held it up.
pub(crate) fn publish_next(
    alloc: Global,
    cabinet: &Cabinet<Board>,
    writer: &mut WriterSeat<Board>,
    passes: u32,
) -> Result<Result<u64, Held>, AllocError>
    requires own { writer.old.cabinet ≡ cabinet.now.id }
    requires sizes { (writer.old.sizes.passes ≡ passes) × (writer.old.sizes.words ≡ 32835) }
    ensures same { (writer.new.cabinet ≡ writer.old.cabinet) × (writer.new.sizes ≡ writer.old.sizes) × (writer.new.out ≡ writer.old.out) }
{
    let next = next_board(alloc, writer, passes)?;
    match cabinet.publish(writer, next) {
        Ok(number) => Ok(Ok(number)),
        Err((held, next)) => {
            drop(next);
            Ok(Err(held))
        }
    }
}
