// Clearing a place.
ghost use Rattle.std.specs.Prelude.{◌≡◌, ◌≤◌};
ghost use Rattle.mem_base.specs.declared.machine.events.Hand.TheVariants.{Writer};
ghost use Rattle.mem_base.specs.access.Places.{past};
ghost use Rattle.epoch_rule.specs.Rule.{KeepsHome};
ghost use Rattle.epoch_rule.specs.Wrote.{Wrote};
ghost use Rattle.shared_words.specs.Fills.{fills_of};

use epoch_rule::{Cabinet, Touch, WriterSeat};
use mem_base::{Edition, Place};

/// Clears each word of a place, by ascending word: its data, registers and marks. The place must end within the
/// cabinet's words.
pub fn fill<E: Edition + Drop>(cabinet: &Cabinet<E>, writer: &mut WriterSeat<E>, place: &Place)
    requires own { writer.old.cabinet ≡ cabinet.now.id }
    requires within { past place.now ≤ writer.old.sizes.words }
    ensures wrote { Wrote Writer writer.old.sizes writer.old.seen (fills_of place.now place.now.words) writer.new.seen }
    ensures still { place.now.words ≡ 0 → writer.new ≡ writer.old }
    ensures home { KeepsHome writer.old.out writer.old.seen writer.new.seen }
    ensures same { (writer.new.cabinet ≡ writer.old.cabinet) × (writer.new.sizes ≡ writer.old.sizes) × (writer.new.out ≡ writer.old.out) }
{
    writer.has_seen_legal();
    for word in 0..place.words {
        cabinet.touch(writer, place, word, Touch::Fill);
    }
}
