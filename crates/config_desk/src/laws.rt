// What the laws of turns say of a desk, whatever calls were made on it.
ghost use Rattle.epoch_rule.specs.Rule.{IsLegal};
ghost use Rattle.config_desk.specs.Configs.{IsOfTurns};
ghost use Rattle.config_desk.specs.LawfulDesks.{IsLawfulDesk};
ghost use Rattle.config_desk.specs.SeenLaws.{HasSeenAll, IsSeenLegal, KeepsMarks, ReplaysToListeners, ReusesWords};

use crate::config::Config;
use cell_laws::{turns_keep_marks, turns_reuse_released};
use turn_laws::{turns_join, turns_replay};

impl Config {
    /// A law: the writer's own entries in what the seat has seen are those of turns from the first one on, which end in this part, with
    /// what was taken out of its journal. It does nothing.
    pub fn goes_by_turns(&self)
        ensures { IsOfTurns self.now.seat self.now.part }
    {
        let _ = &self.desk;
    }

    /// A law: what the seat has seen is a legal history of the running machine. It does nothing.
    pub fn has_seen_shared(&self)
        ensures { IsLegal self.now.seat.sizes self.now.seat.seen }
    {
        self.hand.seat.has_seen_legal();
    }

    /// A law: where no pass is out, what the seat has seen is the whole history of the machine. It does nothing.
    pub fn has_seen_all(&self)
        ensures { HasSeenAll self.now.seat }
    {
        self.hand.seat.sees_whole();
    }

    /// A law: what the seat has seen, with the private events of the turns put in, is a legal history of the pure machine, and ends in
    /// this part, with what was taken out of its journal. It does nothing.
    pub fn has_seen_legal(&self)
        ensures { IsSeenLegal self.now }
    {
        self.hand.seat.has_seen_legal();
        turns_join();
    }

    /// A law: in that history a step on a cell tells what the steps on it before left, from 0 on, and a word of the pool comes to
    /// another region only after the region that had it was released. It does nothing.
    pub fn reuses_words(&self)
        ensures { ReusesWords self.now }
    {
        self.hand.seat.has_seen_legal();
        turns_reuse_released();
    }

    /// A law: in that history each mark of a page is told by the first event that takes its word, or its region was released before
    /// any did, or it still stands. It does nothing.
    pub fn keeps_marks(&self)
        ensures { KeepsMarks self.now }
    {
        self.hand.seat.has_seen_legal();
        turns_keep_marks();
    }

    /// A law: all calls that a listener got, with those that were taken out of the journal, replay to what its space shows in the current
    /// generation. It does nothing.
    pub fn replays_to_listeners(&self)
        ensures { ReplaysToListeners self.now }
    {
        self.hand.seat.has_seen_legal();
        turns_replay();
    }

    /// A law: at every moment of that history, what is published shows what the search of QEMU's manual finds in the committed forest of its
    /// number, what listeners were told replays to what they are to have, and a reap releases just what no held generation names; and no
    /// step on a word and no mark is lost. It does nothing.
    pub fn is_lawful(&self)
        ensures { IsLawfulDesk self.now }
    {
        self.goes_by_turns();
        self.hand.seat.has_seen_legal();
        turns_join();
        turns_reuse_released();
        turns_keep_marks();
    }
}
