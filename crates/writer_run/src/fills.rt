// What follows an accepted event that makes a region.
ghost use Rattle.std.specs.Prelude.{◌≤◌, IfSome};
ghost use Rattle.mem_base.specs.access.Places.{past};
ghost use Rattle.writer_desk.specs.Writers.{made_place};
ghost use Rattle.writer_run.specs.Turns.{cleared_at};

use mem_base::Applied;
use writer_desk::ListenedDesk;
use writer_hand::WriterHand;

/// The words of a region that was made are cleared.
pub(crate) fn fill_made<H: WriterHand>(desk: &ListenedDesk, hand: &mut H, applied: Applied)
    requires within { IfSome (made_place desk.now.backed.backing.places applied) (λ p. past p ≤ H.Writing.words hand.old) }
    ensures { H.Writing.makes hand.old (cleared_at (made_place desk.now.backed.backing.places applied)) hand.new }
{
    if let Applied::Made(region) = applied {
        if let Some(place) = desk.backed().place_of(region) {
            hand.fill(&place);
        }
    }
}
