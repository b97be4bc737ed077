// The writer's calls that change the map, and the listeners that join and leave: a private event, with what goes before and after.
ghost use Rattle.std.specs.Prelude.{◌≡◌, ◌≢◌, ◌<◌, true, Some, Err, IfOk, IfErr, OnErr};
ghost use Rattle.mem_base.specs.declared.map.calls.Config.TheVariants as configs;
ghost use Rattle.mem_base.specs.machine.Answers.{plain_answer};
ghost use Rattle.mem_base.specs.machine.Orders.{configure};
ghost use Rattle.mem_base.specs.machine.Publishing.{held_up, would_publish};
ghost use Rattle.writer_desk.specs.Listened.{IsPlanned, IsRefused, IsUnmoved};
ghost use Rattle.writer_desk.specs.Writers.{is_held};
ghost use Rattle.writer_run.specs.Parts.{AreParts, part_of};
ghost use Rattle.writer_run.specs.Turns.{IsTurn, answer_by, number_told};

use crate::fills::fill_made;
use mem_base::{Applied, Config, Refusal};
use std::marker::Brand;
use std::sync::ledger::{Blank, Ledger};
use step_counter::Steps;
use writer_desk::{IdleDesk, ListenedDesk, Planned, note_drop};
use writer_hand::WriterHand;

// What the private event comes to, with a counter of carves of its own.
fn planned<L: Ledger>(
    desk: &mut ListenedDesk,
    config: &Config,
    blank: Blank,
) -> Result<Planned, Refusal>
    requires name { blank.name ≡ L.name }
    requires parts { blank.parts ≡ L.parts }
    requires some { 0 < L.parts }
    ensures planned { IfOk result (λ planned. IsPlanned desk.old config.now desk.new planned) }
    ensures refused { IfErr result (λ why. why ≢ Refusal.Memory → IsRefused desk.old config.now why) }
    ensures unchanged { OnErr result (IsUnmoved desk.old desk.new) }
{
    let mut steps = Steps::<L>::new(blank);
    desk.prepare(config, &mut steps)
}

/// A private event of the writer, with the sweeps before it, and the publish or the fills after it. It answers with the number
/// that it published, if any.
///
/// It is refused as the machine's definitions say, and leaves the desk as it was; where the event would publish, only because a pass
/// holds it up, by what the sweeps found. Or it is refused with `Memory`, and then nothing has happened.
pub fn configure<H: WriterHand>(
    desk: &mut IdleDesk,
    hand: &mut H,
    config: &Config,
) -> Result<(Applied, Option<u64>), Refusal>
    requires parts { AreParts desk.old (H.Writing.generations hand.old) (H.Writing.words hand.old) }
    ensures turn { result ≢ Err Refusal.Memory → IsTurn (part_of desk.old (H.Writing.generations hand.old)) (configure config.now)
        (λ xs. H.Writing.makes hand.old xs hand.new) (answer_by config.now result) (part_of desk.new (H.Writing.generations hand.new)) }
    ensures number { IfOk result (λ x. x.1 ≡ number_told (part_of desk.old (H.Writing.generations hand.old)) config.now) }
    ensures cause { IfErr result (λ why. why ≢ Refusal.Memory
        → is_held why ≡ would_publish (part_of desk.old (H.Writing.generations hand.old)).desk config.now) }
    ensures held { IfErr result (λ why. would_publish (part_of desk.old (H.Writing.generations hand.old)).desk config.now ≡ true → why ≢ Refusal.Memory
        → held_up (H.Writing.generations hand.new) ≡ Some why) }
    ensures left { OnErr result ((part_of desk.new (H.Writing.generations hand.new)).desk ≡ (part_of desk.old (H.Writing.generations hand.old)).desk) }
    ensures parts { AreParts desk.new (H.Writing.generations hand.new) (H.Writing.words hand.new) }
    ensures unchanged { result ≡ Err Refusal.Memory
        → (part_of desk.new (H.Writing.generations hand.new) ≡ part_of desk.old (H.Writing.generations hand.old)) × (hand.new ≡ hand.old) }
{
    desk.listened.backed().desk().knows_number();
    desk.dropped.reserve(1)?;
    match planned::<Brand>(&mut desk.listened, config, Blank::new(1))? {
        Planned::Done(applied) => {
            // So the places end within the pool and the notifiers.
            desk.listened.backed().knows_places();
            note_drop(&mut desk.dropped, config);
            fill_made(&desk.listened, hand, applied);
            Ok((applied, None))
        }
        Planned::Ready(due) => {
            let batch = hand.batch(due.generation())?;
            let number = hand.publish(batch)?;
            note_drop(&mut desk.dropped, config);
            desk.listened.tell(&due);
            desk.listened.done(due);
            Ok((Applied::Done, Some(number)))
        }
    }
}

/// Opens a transaction, inside of those that are open: the turn of that. It takes no memory.
///
/// It is refused with `TooNested` alone, as the machine's definitions say, and leaves the desk as it was.
pub fn begin<H: WriterHand>(desk: &mut IdleDesk, hand: &H) -> Result<(), Refusal>
    requires parts { AreParts desk.old (H.Writing.generations hand.now) (H.Writing.words hand.now) }
    ensures turn { IsTurn (part_of desk.old (H.Writing.generations hand.now)) (configure configs.Begin)
        (λ xs. H.Writing.makes hand.now xs hand.now) (plain_answer result) (part_of desk.new (H.Writing.generations hand.now)) }
    ensures nested { IfErr result (λ why. why ≡ Refusal.TooNested) }
    ensures left { OnErr result ((part_of desk.new (H.Writing.generations hand.now)).desk ≡ (part_of desk.old (H.Writing.generations hand.now)).desk) }
    ensures parts { AreParts desk.new (H.Writing.generations hand.now) (H.Writing.words hand.now) }
{
    let _ = hand;
    let begun = desk.listened.begin();
    begun?;
    Ok(())
}
