// Passes that are handed out and taken in.
ghost use Rattle.std.specs.Prelude.{◌≡◌, ◌≢◌, ℕ, ◌+◌, slice_index_or, [], length, None, MatchOption, slice_set, true, false};
ghost use Rattle.mem_base.specs.declared.machine.events.Hand.TheVariants.{Writer};
ghost use Rattle.epoch_rule.specs.Values.{first_free as first_free_in};
ghost use Rattle.mem_base.specs.machine.Actors.{own_entries};
ghost use Rattle.epoch_rule.specs.Wrote.{IsNewPass, Wrote, longer};
ghost use mathlib.Core.List.{IsPrefix};

use crate::board::{HandsOut, NUMBER_WORD, Settles, TakesIn};
use crate::cabinet::Cabinet;
use crate::passes::Pass;
use crate::writers::WriterSeat;
use mem_base::{Edition, PassId};

/// The least pass that is not out; where all are, the number of passes.
fn first_free(out: &[bool]) -> usize
    ensures { result ≡ first_free_in out.now }
{
    for i in 0..out.len() {
        if !out[i] {
            return i;
        }
    }
    out.len()
}

impl<E: Edition + Drop> Cabinet<E> {
    /// The least pass that is not out, which has seen all that the writer has; `None` exactly where all are out.
    pub fn pass(&self, writer: &mut WriterSeat<E>) -> Option<Pass<E>>
        requires own { writer.old.cabinet ≡ self.now.id }
        ensures pass { MatchOption result
            ((first_free_in writer.old.out ≡ length writer.old.out) × (writer.new.out ≡ writer.old.out))
            (λ p. IsNewPass writer.old p × (writer.new.out ≡ slice_set writer.old.out p.number true)) }
        ensures same { (writer.new.cabinet ≡ writer.old.cabinet) × (writer.new.sizes ≡ writer.old.sizes) × (writer.new.seen ≡ writer.old.seen) }
    {
        let shared = &self.table.shared;
        let free = first_free(writer.out.as_slice());
        if free >= writer.out.len() {
            return None;
        }
        let Some(id) = PassId::new(free as u32) else {
            unreachable!()
        };
        let mut seat = shared.split_seat::<HandsOut>(&mut writer.seat);
        shared.load::<Settles>(&mut seat, NUMBER_WORD);
        writer.out[free] = true;
        Some(Pass {
            seat,
            id,
            edition: None,
        })
    }

    /// The pass is out no more, and the writer has seen all that it had seen: of this pass's entries just those, and
    /// of the other passes that are not out no new ones. The pass must not be entered.
    pub fn take_in(&self, writer: &mut WriterSeat<E>, pass: Pass<E>)
        requires own { (writer.old.cabinet ≡ self.now.id) × (pass.cabinet ≡ self.now.id) }
        requires out { pass.edition ≡ None }
        ensures longer { writer.new.seen ≡ longer writer.old.seen pass.seen }
        ensures seen { IsPrefix pass.seen writer.new.seen }
        ensures wrote { Wrote Writer writer.old.sizes writer.old.seen [] writer.new.seen }
        ensures brought { own_entries (pass.number + 1) writer.new.seen ≡ own_entries (pass.number + 1) pass.seen }
        ensures others { (q : ℕ) → q ≢ pass.number → slice_index_or writer.old.out q false ≡ false
            → own_entries (q + 1) writer.new.seen ≡ own_entries (q + 1) writer.old.seen }
        ensures out { writer.new.out ≡ slice_set writer.old.out pass.number false }
        ensures same { (writer.new.cabinet ≡ writer.old.cabinet) × (writer.new.sizes ≡ writer.old.sizes) }
    {
        let shared = &self.table.shared;
        let Pass {
            seat,
            id,
            edition: _,
        } = pass;
        shared.join_seat::<TakesIn>(&mut writer.seat, seat);
        shared.load::<Settles>(&mut writer.seat, NUMBER_WORD);
        writer.out[id.number() as usize] = false;
    }
}
