// What a pass keeps of its lines, and what they write in the end.
ghost use Rattle.std.specs.Prelude.{◌≡◌, ◌++◌, OnOk};
ghost use Rattle.mem_base.specs.script.Output.{told_lines};
ghost use Rattle.mem_base.specs.script.RaceLines.{delivered_between, said_text};
ghost use Rattle.mem_base.specs.script.RefusalLines.{refused_line};
ghost use Rattle.script_names.specs.Tables.{printed_names};
ghost use Rattle.race_lines.specs.LineTasks.{refused_text};
ghost use Rattle.race_lines.specs.PassLines.{said_of};

use crate::answers::add_do_answer;
use crate::lists::{add_told_lines, delivered_between};
use crate::tasks::Refused;
use mem_base::{Access, Bytes, DeskAnswer, ListenerEvent, ListenerId, PassId};
use script_lines::{
    Line, add_dma_line, add_enter_line, add_leave_line, add_read_line, add_taken_line,
    add_unknown_line, add_write_line,
};
use script_names::Names;
use std::alloc::AllocError;

/// What a pass keeps of one of its lines until the names at the end of the phase are known, by which the line is written.
#[derive(Debug, Drop)]
pub enum PassSaid<'a> {
    /// Nothing is written.
    Nothing,
    /// The line was refused by one of its names.
    Refused(Refused<'a>),
    /// The pass entered the generation of this number.
    Entered(u64),
    /// The pass left.
    Left,
    /// The pass read these bytes.
    Read {
        access: Access,
        bytes: Bytes,
    },
    /// The pass wrote.
    Written(Access),
    /// The pass copied.
    Copied(Access),
    /// An order of the pass was answered, and caused the deliveries of the desk's journal from number `from` on and before
    /// number `to`.
    Answered {
        answer: DeskAnswer,
        from: usize,
        to: usize,
    },
}

/// Adds the refusal of a line by one of its names.
pub fn add_name_refused(line: &mut Line, number: u32, why: &Refused) -> Result<(), AllocError>
    ensures { OnOk result (line.new ≡ line.old ++ refused_line number (refused_text why.now)) }
{
    match why {
        Refused::Unknown(name) => add_unknown_line(line, number, name.as_bytes()),
        Refused::Taken(name) => add_taken_line(line, number, name.as_bytes()),
    }
}

impl PassSaid<'_> {
    // The line's own text.
    fn add_own(
        &self,
        text: &mut Line,
        names: &Names,
        number: u32,
        pass: PassId,
    ) -> Result<(), AllocError>
        ensures { OnOk result (text.new ≡ text.old ++ (said_of (printed_names names.now) pass number self.now).own) }
    {
        match self {
            PassSaid::Nothing => Ok(()),
            PassSaid::Refused(why) => add_name_refused(text, number, why),
            PassSaid::Entered(generation) => add_enter_line(text, pass, *generation),
            PassSaid::Left => add_leave_line(text, pass),
            PassSaid::Read { access, bytes } => {
                add_read_line(text, pass, *access, bytes.as_slice())
            }
            PassSaid::Written(access) => add_write_line(text, pass, *access),
            PassSaid::Copied(access) => add_dma_line(text, pass, *access),
            PassSaid::Answered {
                answer,
                from: _,
                to: _,
            } => add_do_answer(text, names, number, pass, answer),
        }
    }

    // The lines of the deliveries that an order of the line caused.
    fn add_deliveries(
        &self,
        text: &mut Line,
        names: &Names,
        journal: &[(ListenerId, ListenerEvent)],
        number: u32,
        pass: PassId,
    ) -> Result<(), AllocError>
        ensures { let said = said_of (printed_names names.now) pass number self.now in OnOk result
            (text.new ≡ text.old ++ told_lines (printed_names names.now) (delivered_between journal.now said.from said.to)) }
    {
        match self {
            PassSaid::Answered {
                answer: _,
                from,
                to,
            } => add_told_lines(text, names, delivered_between(journal, *from, *to)),
            _ => Ok(()),
        }
    }

    /// Adds what a line of a pass writes, by the names and the journal at the end of the phase. `number` is that of the line in
    /// the script.
    pub fn add_text(
        &self,
        text: &mut Line,
        names: &Names,
        journal: &[(ListenerId, ListenerEvent)],
        number: u32,
        pass: PassId,
    ) -> Result<(), AllocError>
        ensures { OnOk result (text.new ≡ text.old
            ++ said_text (printed_names names.now) journal.now (said_of (printed_names names.now) pass number self.now)) }
    {
        self.add_own(text, names, number, pass)?;
        self.add_deliveries(text, names, journal, number, pass)
    }
}
