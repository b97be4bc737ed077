// Each call of the writer on words.
ghost use Rattle.std.specs.Prelude.{◌≡◌};

use crate::cabinet::boards::{Board, open, ram};
use epoch_rule::{Cabinet, WriterSeat};
use mem_base::Client;
use shared_words::{fill, harvest, load, or, store_part, store8, take};
use std::alloc::{AllocError, Global};
use std::sync::Wait;

/// A call on a word, and what it has to answer.
#[derive(Clone, Copy)]
enum Step {
    Store(u64),
    /// Two bytes from this one on.
    Part(u32, [u8; 2]),
    Load(u64),
    Or(u64, u64),
    Take(u64),
    /// The marks of migration in the last word.
    Harvest(u64),
    /// All words of the place.
    Fill,
}

/// The last word of the place.
const LAST: usize = 32770;

static STEPS: [(usize, Step); 13] = [
    (7, Step::Store(0x1122_3344_5566_7788)),
    (7, Step::Part(2, [0xaa, 0xbb])),
    (7, Step::Load(0x1122_3344_bbaa_7788)),
    (7, Step::Or(0xf, 0x1122_3344_bbaa_7788)),
    (7, Step::Take(0x1122_3344_bbaa_778f)),
    (7, Step::Load(0)),
    (LAST, Step::Store(1)),
    (LAST, Step::Harvest(1)),
    (0, Step::Store(1)),
    (LAST, Step::Store(1)),
    (0, Step::Fill),
    (0, Step::Load(0)),
    (LAST, Step::Load(0)),
];

/// Makes a call on a word, and says whether it answers so.
fn goes<R: Wait>(
    rt: &R,
    cabinet: &Cabinet<Board>,
    writer: &mut WriterSeat<Board>,
    row: &(usize, Step),
) -> bool
    requires { (writer.old.cabinet ≡ cabinet.now.id) × (writer.old.sizes.words ≡ 32835) }
    ensures { (writer.new.cabinet ≡ writer.old.cabinet) × (writer.new.sizes ≡ writer.old.sizes) }
{
    let (word, step) = *row;
    let place = ram();
    if word > LAST {
        return false;
    }
    match step {
        Step::Store(value) => {
            store8(cabinet, writer, &place, word, value);
            true
        }
        Step::Part(at, bytes) => {
            let is_inside = at <= 6;
            if is_inside {
                store_part(rt, cabinet, writer, &place, word, at, &bytes);
            }
            is_inside
        }
        Step::Load(old) => load(cabinet, writer, &place, word) == old,
        Step::Or(bits, old) => or(cabinet, writer, &place, word, bits) == old,
        Step::Take(old) => take(cabinet, writer, &place, word) == old,
        Step::Harvest(old) => harvest(cabinet, writer, &place, Client::Migration, 0) == old,
        Step::Fill => {
            fill(cabinet, writer, &place);
            true
        }
    }
}

/// The number of the first step that goes otherwise.
fn first_other_of<R: Wait>(
    rt: &R,
    cabinet: &Cabinet<Board>,
    writer: &mut WriterSeat<Board>,
) -> Option<usize>
    requires { (writer.old.cabinet ≡ cabinet.now.id) × (writer.old.sizes.words ≡ 32835) }
{
    for (number, row) in STEPS.iter().enumerate() {
        if !goes(rt, cabinet, writer, row) {
            return Some(number);
        }
    }
    None
}

/// The same in a cabinet of its own.
fn first_other<R: Wait>(rt: &R, alloc: Global) -> Result<Option<usize>, AllocError> {
    let (cabinet, mut writer) = open(alloc, 1)?;
    let other = first_other_of(rt, &cabinet, &mut writer);
    drop(writer);
    drop(cabinet);
    Ok(other)
}

#[test]
fn each_step_leaves_its_word(rt: HostRuntime) {
    let other = first_other(&rt, rt.alloc());
    assert!(rt; other == Ok(None), "step {other:?}");
}
