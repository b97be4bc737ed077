// What a line writes, before it is written.
ghost use Rattle.std.specs.Prelude.{◌≡◌, ◌++◌, [], OnOk};
ghost use Rattle.mem_base.specs.script.RaceLines.{said_text, says};
ghost use Rattle.script_names.specs.Tables.{printed_names};

use crate::lists::{add_told_lines, delivered_between};
use mem_base::{ListenerEvent, ListenerId};
use script_lines::Line;
use script_names::Names;
use std::alloc::{AllocError, Global};
use std::marker::Model;

/// What a line writes: its own lines, then the deliveries to listeners that it caused, then the notices that watchers got.
///
/// The deliveries are told by their numbers in the desk's journal, since they are printed by the names at the end of a phase.
#[derive(Drop)]
pub struct LineSaid {
    pub(crate) own: Line,
    pub(crate) from: usize,
    pub(crate) to: usize,
    pub(crate) notices: Line,
}

impl Model for LineSaid {
    ghost use Rattle.mem_base.specs.script.RaceLines.{Said};

    ghost Value = { Said };

    ghost view = { λ s. record { own = s.own; from = s.from; to = s.to; notices = s.notices } };
}

impl LineSaid {
    /// Nothing.
    pub fn new(alloc: Global) -> LineSaid
        ensures { result ≡ says [] }
    {
        LineSaid {
            own: Line::new(alloc),
            from: 0,
            to: 0,
            notices: Line::new(alloc),
        }
    }

    /// Takes everything out of it, and keeps the room, so that a caller keeps what one line after another writes in it.
    pub fn clear(&mut self)
        ensures { self.new ≡ says [] }
    {
        self.own.clear();
        self.from = 0;
        self.to = 0;
        self.notices.clear();
    }

    /// Its own lines.
    pub fn own(&self) -> &[u8]
        ensures { result.now ≡ self.now.own }
    {
        self.own.as_bytes()
    }

    /// The number of the first delivery that it caused.
    pub fn from(&self) -> usize
        ensures { result ≡ self.now.from }
    {
        self.from
    }

    /// The number after that of the last delivery that it caused.
    pub fn to(&self) -> usize
        ensures { result ≡ self.now.to }
    {
        self.to
    }

    /// The lines of the notices.
    pub fn notices(&self) -> &[u8]
        ensures { result.now ≡ self.now.notices }
    {
        self.notices.as_bytes()
    }

    /// Adds all of it to a text, by these names and this journal.
    pub fn add_text(
        &self,
        text: &mut Line,
        names: &Names,
        journal: &[(ListenerId, ListenerEvent)],
    ) -> Result<(), AllocError>
        ensures { OnOk result (text.new ≡ text.old ++ said_text (printed_names names.now) journal.now self.now) }
    {
        text.bytes(self.own())?;
        add_told_lines(text, names, delivered_between(journal, self.from, self.to))?;
        text.bytes(self.notices())
    }
}
