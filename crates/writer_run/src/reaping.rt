// The dropped regions that are released.
ghost use Rattle.std.specs.Prelude.{◌≡◌, ◌≢◌, ◌≤◌, not, [], filter, length, None, Err, vec_capacity};
ghost use Rattle.mem_base.specs.declared.map.refusals.Refusal.{Refusal};
ghost use Rattle.mem_base.specs.lists.Every.{Every};
ghost use Rattle.mem_base.specs.map.Region.{node_of};
ghost use Rattle.mem_base.specs.machine.Answers.{answer_with, reap_answer};
ghost use Rattle.mem_base.specs.machine.Orders.{reap};
ghost use Rattle.writer_desk.specs.HandedOn.{forest_at};
ghost use Rattle.writer_hand.specs.Hands.{is_named_from};
ghost use Rattle.writer_run.specs.Parts.{AreParts, part_of};
ghost use Rattle.writer_run.specs.Reaped.{without_regions};
ghost use Rattle.writer_run.specs.Turns.{IsTurn};

use mem_base::{Refusal, RegionId};
use std::alloc::Global;
use writer_desk::{IdleDesk, ListenedDesk};
use writer_hand::Names;

// Those of some regions that no kept generation of at least this number names, in their order. There is room for all of them.
fn unnamed<H: Names>(hand: &H, lowest: u64, regions: &[RegionId], out: &mut Vec<RegionId>)
    requires none { out.old.items ≡ [] }
    requires room { length regions.now ≤ vec_capacity out.old }
    ensures { out.new.items ≡ filter (λ r. not (is_named_from (H.Writing.generations hand.now) lowest r)) regions.now }
{
    for region in regions.iter() {
        let named = hand.is_named(*region, lowest);
        if !named {
            let _ = out.push(*region);
        }
    }
}

/// Leaves only those of some regions that a kept generation of at least this number names.
pub fn keep_named<H: Names>(hand: &H, lowest: u64, regions: &mut Vec<RegionId>)
    ensures { regions.new.items ≡ filter (is_named_from (H.Writing.generations hand.now) lowest) regions.old.items }
{
    regions.retain(|region| hand.is_named(*region, lowest));
}

/// Gives the places of those of some regions back that no kept generation of at least this number names. None of them is in the
/// forest any more. It takes no memory.
pub fn release_unnamed<H: Names>(
    desk: &mut ListenedDesk,
    hand: &H,
    lowest: u64,
    regions: &[RegionId],
)
    requires gone { Every (λ r. node_of (forest_at desk.old.backed).nodes r ≡ None) regions.now }
    ensures { desk.new ≡ without_regions desk.old
        (filter (λ r. not (is_named_from (H.Writing.generations hand.now) lowest r)) regions.now) }
{
    for region in regions.iter() {
        let held = hand.is_named(*region, lowest);
        if !held {
            desk.release(*region);
        }
    }
}

/// Sweeps each pass, and then releases the dropped regions that no held generation names: the turn of that. Their places are holes
/// of the pool again. The released regions are answered, ascending. This project's own rule, in place of the reference counts of
/// QEMU's core.
///
/// It fails only where memory runs out, and then nothing has happened.
pub fn reap<H: Names>(
    alloc: Global,
    desk: &mut IdleDesk,
    hand: &mut H,
) -> Result<Vec<RegionId>, Refusal>
    requires parts { AreParts desk.old (H.Writing.generations hand.old) (H.Writing.words hand.old) }
    ensures turn { result ≢ Err Refusal.Memory → IsTurn (part_of desk.old (H.Writing.generations hand.old)) reap
        (λ xs. H.Writing.makes hand.old xs hand.new) (reap_answer (answer_with (λ v. v.items) result))
        (part_of desk.new (H.Writing.generations hand.new)) }
    ensures parts { AreParts desk.new (H.Writing.generations hand.new) (H.Writing.words hand.new) }
    ensures unchanged { result ≡ Err Refusal.Memory
        → (part_of desk.new (H.Writing.generations hand.new) ≡ part_of desk.old (H.Writing.generations hand.old)) × (hand.new ≡ hand.old) }
{
    let mut released = Vec::with_capacity(alloc, desk.dropped.len())?;
    let lowest = hand.sweep();
    unnamed(hand, lowest, desk.dropped.as_slice(), &mut released);
    release_unnamed(&mut desk.listened, hand, lowest, desk.dropped.as_slice());
    keep_named(hand, lowest, &mut desk.dropped);
    Ok(released)
}
