// How a cabinet is made.
ghost use Rattle.std.specs.Prelude.{◌≡◌, ◌+◌, ◌*◌, ◌^◌, ◌<◌, ◌≤◌, [], IfOk, false, replicate, Some};
ghost use Rattle.std.specs.Arc.{arc_value};
ghost use Rattle.std.specs.declared.sync.Arc.{Arc};
ghost use Rattle.mem_base.specs.map.Calls.{empty};
ghost use Rattle.mem_base.specs.map.Limits.{most_passes, most_words, notifier_count};
ghost use Rattle.epoch_rule.specs.Opening.{AddsSlots, AreFirstSlots};

use crate::board::{LINE_WORDS, Law, PASS_SLOTS, Slot};
use crate::cabinet::Cabinet;
use crate::views::{Sizes, View};
use crate::writers::{Found, WriterSeat};
use atomic_table::Table;
use mem_base::Edition;
use std::alloc::{AllocError, Global};
use std::sync::Arc;

/// A list of `count` equal values.
fn filled<T: Clone + std::marker::Copy + Drop>(
    alloc: Global,
    count: usize,
    value: T,
) -> Result<Vec<T>, AllocError>
    ensures { IfOk result (λ v. v.items ≡ replicate count value) }
{
    let mut items = Vec::new(alloc);
    items.resize(count, value)?;
    Ok(items)
}

/// Appends the slots of one pass: a copy of edition 0 in the first one, and the others empty.
fn add_slots<E: Edition + Drop>(
    slots: &mut Vec<Slot<E>>,
    first: &Arc<E, Global>,
) -> Result<(), AllocError>
    ensures { IfOk result (λ _. AddsSlots (arc_value first.now) slots.old.items slots.new.items) }
{
    let copy = Arc::try_clone(first)?;
    slots.push(Some(copy))?;
    for _ in 0..PASS_SLOTS - 1 {
        slots.push(None)?;
    }
    Ok(())
}

/// The slots of all passes.
fn first_slots<E: Edition + Drop>(
    alloc: Global,
    passes: u32,
    first: &Arc<E, Global>,
) -> Result<Vec<Slot<E>>, AllocError>
    ensures { IfOk result (λ v. AreFirstSlots (arc_value first.now) passes v.items) }
{
    let mut slots = Vec::new(alloc);
    for _ in 0..passes {
        add_slots(&mut slots, first)?;
    }
    Ok(slots)
}

impl<E: Edition + Drop> Cabinet<E> {
    /// A cabinet of `passes` passes and `words` words of 8 bytes, all 0, with generation 0 current, and the writer's
    /// seat; or out of memory. There are 1 to 16 passes and at most 2^26 + 64 words; the first edition has number 0,
    /// the empty forest and no places.
    pub fn new(
        alloc: Global,
        passes: u32,
        words: usize,
        first: Arc<E, Global>,
    ) -> Result<(Cabinet<E>, WriterSeat<E>), AllocError>
        requires count { (0 < passes) × (passes ≤ most_passes) × (words ≤ most_words + notifier_count) }
        requires first { (E.counted (arc_value first) ≡ 0) × (E.forest (arc_value first) ≡ empty) × (E.places (arc_value first) ≡ []) }
        ensures { IfOk result (λ r. (r.1.cabinet ≡ r.0.id) × (r.0.sizes ≡ r.1.sizes) × (r.1.sizes.passes ≡ passes)
            × (r.1.sizes.words ≡ words) × (r.1.seen ≡ []) × (r.1.out ≡ replicate passes false)) }
    {
        let none = Found { word: 0, lowest: 0 };
        let known = filled(alloc, passes as usize, none)?;
        let out = filled(alloc, passes as usize, false)?;
        let blank = filled(alloc, LINE_WORDS * (passes as usize + 1) + words, 0u64)?;
        let slots = first_slots(alloc, passes, &first)?;
        let sizes = Sizes { passes, words };
        let Ok((table, seat)) = Table::new(alloc, blank.as_slice(), slots, &sizes) else {
            return Err(AllocError);
        };
        let cabinet = Cabinet { table, passes };
        let writer = WriterSeat {
            seat,
            current: 0,
            known,
            out,
        };
        Ok((cabinet, writer))
    }
}
