// The calls of the writer.
ghost use Rattle.std.specs.Prelude.{◌≡◌, ℕ, ◌+◌, ◌<◌, ◌^◌, [], length, List, MatchResult};
ghost use Rattle.mem_base.specs.declared.machine.events.Hand.TheVariants.{Writer};
ghost use Rattle.mem_base.specs.declared.machine.events.Carried.TheVariants.{Edition as EditionCarried};
ghost use Rattle.mem_base.specs.machine.Generations.{least_lowest};
ghost use Rattle.mem_base.specs.machine.Actors.{number_seen};
ghost use Rattle.epoch_rule.specs.Rule.{KeepsHome, PlacesFit};
ghost use Rattle.epoch_rule.specs.Copies.{shown_by};
ghost use Rattle.epoch_rule.specs.Wrote.{Wrote, longer};
ghost use Rattle.epoch_rule.specs.Calls.{HeldUp, IsLeastPassAt, Published, generations_in_seen, sweeps_of};
ghost use mathlib.Core.List.{IsPrefix};

use crate::batches::Batch;
use crate::board::{Meets, NUMBER_WORD, Settles, Tells};
use crate::cabinet::Cabinet;
use crate::passes::Note;
use crate::steps::{first_at, held, least, place_all, publish, sweep_all};
use crate::writers::{Held, Swept, WriterSeat};
use mem_base::{Edition, PassId};

impl<E: Edition + Drop> Cabinet<E> {
    /// A note of what the writer has seen, for passes to meet.
    pub fn note(&self, writer: &mut WriterSeat<E>) -> Note<E>
        requires own { writer.old.cabinet ≡ self.now.id }
        ensures same { writer.new ≡ writer.old }
        ensures note { (result.cabinet ≡ writer.old.cabinet) × (result.seen ≡ writer.old.seen) }
    {
        Note {
            seat: self.table.shared.split_seat::<Tells>(&mut writer.seat),
        }
    }

    /// The writer has then seen all that the note tells of; of passes that are not out it had seen all before.
    pub fn hear(&self, writer: &mut WriterSeat<E>, note: Note<E>)
        requires own { (writer.old.cabinet ≡ self.now.id) × (note.cabinet ≡ self.now.id) }
        ensures longer { writer.new.seen ≡ longer writer.old.seen note.seen }
        ensures seen { IsPrefix note.seen writer.new.seen }
        ensures home { KeepsHome writer.old.out writer.old.seen writer.new.seen }
        ensures wrote { Wrote Writer writer.old.sizes writer.old.seen [] writer.new.seen }
        ensures same { (writer.new.cabinet ≡ writer.old.cabinet) × (writer.new.sizes ≡ writer.old.sizes) × (writer.new.out ≡ writer.old.out) }
    {
        let shared = &self.table.shared;
        let Note { seat } = note;
        shared.join_seat::<Meets>(&mut writer.seat, seat);
        shared.load::<Settles>(&mut writer.seat, NUMBER_WORD);
    }

    /// Looks at what each pass has announced, by ascending number; there is one pass at least. The answer is the least number of a generation that
    /// a pass may still use after that, and the least pass that may.
    pub fn sweep(&self, writer: &mut WriterSeat<E>) -> Swept
        requires own { writer.old.cabinet ≡ self.now.id }
        ensures some { 0 < writer.old.sizes.passes }
        ensures swept { (rs : List ℕ) × (length rs ≡ writer.old.sizes.passes) × Wrote Writer writer.old.sizes writer.old.seen (sweeps_of 0 rs) writer.new.seen }
        ensures lowest { result.lowest ≡ least_lowest (generations_in_seen writer.old.sizes writer.new.seen).current
            (generations_in_seen writer.old.sizes writer.new.seen).passes }
        ensures home { KeepsHome writer.old.out writer.old.seen writer.new.seen }
        ensures pass { IsLeastPassAt (generations_in_seen writer.old.sizes writer.new.seen) result.lowest result.pass }
        ensures same { (writer.new.cabinet ≡ writer.old.cabinet) × (writer.new.sizes ≡ writer.old.sizes) × (writer.new.out ≡ writer.old.out) }
    {
        let current = writer.current;
        sweep_all(
            &self.table.shared,
            &mut writer.seat,
            self.passes,
            current,
            &mut writer.known,
        );
        let known = writer.known.as_slice();
        let lowest = least(known, current);
        let Some(pass) = PassId::new(first_at(known, lowest) as u32) else {
            unreachable!()
        };
        Swept { lowest, pass }
    }

    /// Publishes the batch's edition, and answers its number. It looks at each pass first. A pass that was found
    /// announced at the current number less 7, or at an older one, holds the publish up: then nothing is published,
    /// and the batch comes back with the least such pass. The batch must have a copy for each pass, its edition the
    /// next number, and that edition's places must end within the cabinet's words.
    pub fn publish(
        &self,
        writer: &mut WriterSeat<E>,
        next: Batch<E>,
    ) -> Result<u64, (Held, Batch<E>)>
        requires own { writer.old.cabinet ≡ self.now.id }
        requires copies { next.copies ≡ writer.old.sizes.passes }
        requires next { E.counted next.edition ≡ number_seen writer.old.seen + 1 }
        requires small { E.counted next.edition + 1 < 2 ^ 64 }
        requires roomy { PlacesFit writer.old.sizes.words (shown_by E.forest E.places next.edition) }
        ensures done { MatchResult result
            (λ number. (number ≡ E.counted next.edition) × Published writer.old.sizes writer.old.seen
            (EditionCarried (E.forest next.edition) (E.places next.edition)) number writer.new.seen)
            (λ h. (h.1 ≡ next) × HeldUp writer.old.sizes writer.old.seen h.0 writer.new.seen) }
        ensures home { KeepsHome writer.old.out writer.old.seen writer.new.seen }
        ensures current { MatchResult result (λ number. number_seen writer.new.seen ≡ number) (λ h. number_seen writer.new.seen ≡ number_seen writer.old.seen) }
        ensures same { (writer.new.cabinet ≡ writer.old.cabinet) × (writer.new.sizes ≡ writer.old.sizes) × (writer.new.out ≡ writer.old.out) }
    {
        let shared = &self.table.shared;
        let passes = self.passes;
        let current = writer.current;
        sweep_all(shared, &mut writer.seat, passes, current, &mut writer.known);
        if let Some(held) = held(writer.known.as_slice(), current) {
            return Err((held, next));
        }
        let number = current + 1;
        let Batch { copies, edition: _ } = next;
        place_all(shared, &mut writer.seat, passes, number, copies);
        publish(shared, &mut writer.seat, number);
        writer.current = number;
        Ok(number)
    }
}
