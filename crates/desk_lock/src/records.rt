// The record of a desk.
ghost use Rattle.std.specs.Prelude.{◌≡◌, ◌≢◌, ℕ, ◌+◌, [], IfOk, OnErr, MatchOption, None, false, true, length, slice_index_or, slice_set};
ghost use Rattle.std.specs.Arc.{arc_value};
ghost use mathlib.Core.List.{IsPrefix};
ghost use Rattle.mem_base.specs.declared.machine.events.Hand.TheVariants.{Writer};
ghost use Rattle.mem_base.specs.machine.Actors.{own_entries};
ghost use Rattle.mem_base.specs.machine.Publishing.{current_forest};
ghost use Rattle.epoch_rule.specs.Values.{first_free};
ghost use Rattle.epoch_rule.specs.Wrote.{IsNewPass, Wrote, longer};
ghost use Rattle.desk_orders.specs.Receipts.{IsReceipt};
ghost use Rattle.desk_orders.specs.Records.{IsLater, IsRecord};
ghost use Rattle.desk_lock.specs.Records.{IsUnused, record_state};
ghost use Rattle.desk_orders.specs.Given.{entry_got};
ghost use Rattle.desk_lock.specs.Turned.{Takes};

use crate::drafts::draft_of;
use crate::turning::turned;
use config_desk::Config;
use desk_orders::{Receipt, written};
use epoch_rule::{Note, Pass};
use generation::Generation;
use mem_base::{DeskEntry, DeskOrder, ListenerEvent, ListenerId};
use std::alloc::{AllocError, Global};
use std::marker::Model;
use std::sync::{Arc, Wait};

/// The writer's desk with what was asked of it, one order after another. It is seen as what the writer's seat has seen of the one
/// history, the writer's part, and the entries: an entry for each order, with who gave it and what it answered.
///
/// The writer's own entries in the history and the writer's part are always those of the turns of the entries, in their order.
#[derive(Drop)]
pub struct Record {
    alloc: Global,
    pub(crate) config: Config,
    entries: Vec<DeskEntry>,
}

impl Model for Record {
    ghost use Rattle.desk_orders.specs.Records.{RecordState, IsRecord};
    ghost use Rattle.desk_lock.specs.Records.{record_state};

    ghost Value = { RecordState };

    ghost view = { λ r. record_state r.config r.entries.items };

    ghost invariant = { λ r. IsRecord (record_state r.config r.entries.items) };
}

impl Record {
    /// A record without entries, of a desk on which no call was made but those that hand out passes. It takes no memory.
    pub fn new(alloc: Global, config: Config) -> Record
        requires unused { IsUnused config }
        ensures { result ≡ record_state config [] }
    {
        Record {
            alloc,
            config,
            entries: Vec::new(alloc),
        }
    }

    /// The desk as the orders left it.
    pub fn into_config(self) -> Config
        ensures same { record_state result self.entries ≡ self }
        ensures turns { IsRecord (record_state result self.entries) }
    {
        self.config
    }

    /// The least pass that is not out, which has seen all that the writer has; `None` exactly where all are out. It adds no entry.
    pub fn pass(&mut self) -> Option<Pass<Generation>>
        ensures pass { MatchOption result
            ((first_free self.old.seat.out ≡ length self.old.seat.out) × (self.new.seat.out ≡ self.old.seat.out))
            (λ p. IsNewPass self.old.seat p × (self.new.seat.out ≡ slice_set self.old.seat.out p.number true)) }
        ensures same { (self.new.seat.cabinet ≡ self.old.seat.cabinet) × (self.new.seat.sizes ≡ self.old.seat.sizes) }
        ensures seen { self.new.seat.seen ≡ self.old.seat.seen }
        ensures part { self.new.part ≡ self.old.part }
        ensures entries { self.new.entries ≡ self.old.entries }
    {
        self.config.pass()
    }

    /// The pass is out no more, and the writer has seen all that it had seen: of this pass's entries just those, and of the other
    /// passes that are not out no new ones. The pass must be of this machine's cabinet, and not entered. It adds no entry.
    pub fn take_in(&mut self, pass: Pass<Generation>)
        requires own { pass.cabinet ≡ self.old.seat.cabinet }
        requires out { pass.edition ≡ None }
        ensures longer { self.new.seat.seen ≡ longer self.old.seat.seen pass.seen }
        ensures seen { IsPrefix pass.seen self.new.seat.seen }
        ensures wrote { Wrote Writer self.old.seat.sizes self.old.seat.seen [] self.new.seat.seen }
        ensures brought { own_entries (pass.number + 1) self.new.seat.seen ≡ own_entries (pass.number + 1) pass.seen }
        ensures others { (q : ℕ) → q ≢ pass.number → slice_index_or self.old.seat.out q false ≡ false
            → own_entries (q + 1) self.new.seat.seen ≡ own_entries (q + 1) self.old.seat.seen }
        ensures out { self.new.seat.out ≡ slice_set self.old.seat.out pass.number false }
        ensures same { (self.new.seat.cabinet ≡ self.old.seat.cabinet) × (self.new.seat.sizes ≡ self.old.seat.sizes) }
        ensures part { self.new.part ≡ self.old.part }
        ensures entries { self.new.entries ≡ self.old.entries }
    {
        self.config.take_in(pass);
    }

    /// A note of what the writer has seen, for passes to meet. It adds no entry.
    pub fn note(&mut self) -> Note<Generation>
        ensures same { self.new ≡ self.old }
        ensures note { (result.cabinet ≡ self.old.seat.cabinet) × (result.seen ≡ self.old.seat.seen) }
    {
        self.config.note()
    }

    /// The writer has then seen all that the note tells of; of passes that are not out it had seen all before. It adds no entry.
    pub fn hear(&mut self, note: Note<Generation>)
        requires own { note.cabinet ≡ self.old.seat.cabinet }
        ensures longer { self.new.seat.seen ≡ longer self.old.seat.seen note.seen }
        ensures seen { IsPrefix note.seen self.new.seat.seen }
        ensures wrote { Wrote Writer self.old.seat.sizes self.old.seat.seen [] self.new.seat.seen }
        ensures part { self.new.part ≡ self.old.part }
        ensures entries { self.new.entries ≡ self.old.entries }
        ensures later { IsLater self.old self.new }
    {
        self.config.hear(note);
    }

    /// Gives an order for someone, and appends an entry of it with its answer. It may wait where it loads a part of a word. Out of
    /// memory nothing has changed.
    ///
    /// The answer is that of the desk for this order; a look answers the number of the current generation, and changes nothing. The
    /// receipt's note is what the writer has seen afterwards.
    pub fn order<R: Wait>(
        &mut self,
        rt: &R,
        who: u32,
        order: &DeskOrder,
    ) -> Result<Receipt, AllocError>
        ensures receipt { IfOk result (IsReceipt self.old.seat.cabinet order.now) }
        ensures note { IfOk result (λ r. r.note.seen ≡ self.new.seat.seen) }
        ensures turn { IfOk result (λ r. Takes self.old who order.now r self.new) }
        ensures later { IsLater self.old self.new }
        ensures err { OnErr result (self.new ≡ self.old) }
    {
        let (receipt, _) = self.take(rt, who, order)?;
        Ok(receipt)
    }

    /// The same, with a second entry for who ordered.
    pub(crate) fn take<R: Wait>(
        &mut self,
        rt: &R,
        who: u32,
        order: &DeskOrder,
    ) -> Result<(Receipt, DeskEntry), AllocError>
        ensures receipt { IfOk result (λ r. IsReceipt self.old.seat.cabinet order.now r.0) }
        ensures note { IfOk result (λ r. r.0.note.seen ≡ self.new.seat.seen) }
        ensures turn { IfOk result (λ r. Takes self.old who order.now r.0 self.new) }
        ensures later { IsLater self.old self.new }
        ensures entry { IfOk result (λ r. r.1 ≡ entry_got who order.now r.0) }
        ensures err { OnErr result (self.new ≡ self.old) }
    {
        order.knows_fits();
        let mine = draft_of(self.alloc, &self.config, order)?;
        let theirs = draft_of(self.alloc, &self.config, order)?;
        self.entries.reserve(1)?;
        let receipt = turned(rt, &mut self.config, order)?;
        // nothing takes memory from here on
        self.entries.push_reserved(written(who, mine, &receipt));
        let entry = written(who, theirs, &receipt);
        Ok((receipt, entry))
    }

    /// The entries, in the order in which the orders were given.
    pub fn entries(&self) -> &[DeskEntry]
        ensures { result.now ≡ self.now.entries }
    {
        self.entries.as_slice()
    }

    /// All calls that the listeners got, in order.
    pub fn journal(&self) -> &[(ListenerId, ListenerEvent)]
        ensures { result.now ≡ self.now.part.desk.listening.journal }
    {
        self.config.journal()
    }

    /// The generation that is current.
    pub fn current(&self) -> &Arc<Generation, Global>
        ensures number { (arc_value result.now).number ≡ self.now.part.generations.current }
        ensures forest { (arc_value result.now).forest ≡ current_forest self.now.part.generations }
    {
        self.config.current()
    }
}
