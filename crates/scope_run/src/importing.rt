// `import` and `check`.
ghost use Rattle.std.specs.Prelude.{◌≡◌, ◌||◌, IfErr, IfOk, nat_lt};
ghost use Rattle.monitor_import.specs.Drafts.{Explains};
ghost use Rattle.script_settle.specs.Refused.{HasRefused};
ghost use Rattle.scope_run.specs.declared.answers.Fault.TheVariants.{Memory};
ghost use Rattle.script_check.specs.Checks.{Explains as ExplainsCheck, IsChecked};
ghost use Rattle.scope_run.specs.Imports.{FailsCheck, FailsImport, TellsImport, has_comment};

use crate::answers::{Answer, Fault, Which};
use mem_base::{BadScript, Name};
use monitor_import::ImportFault;
use script_check::{CheckFault, check as check_spaces};
use script_lines::Line;
use script_settle::{Imported, import as import_machine};
use std::alloc::{AllocError, Global};

/// Why a text of QEMU's monitor is of no use.
#[derive(Clone, Copy, Debug, PartialEq, Eq)]
pub enum MonitorStop {
    /// The first line of a text that has none of the monitor's forms, counted from 1.
    BadLine { which: Which, line: u32 },
    /// A text is longer than what is read of it.
    Long(Which),
    /// No line of the tree's text names a space.
    NoSpaces,
    /// No line of it names the space of this one of the names that are wanted, counted from 0.
    Unknown { at: usize },
    /// The script that was made is none: its first line at fault, and the cause.
    Made(BadScript),
}

// Of two texts, of which one has 2^31 bytes or more, that one is too long.
fn too_long(tree: &[u8], flat: &[u8], wanted: &[Name]) -> Fault
    requires { Explains tree.now flat.now wanted.now ImportFault.Long }
    ensures { FailsImport tree.now flat.now wanted.now result }
{
    if tree.len() >= 1 << 31 {
        Fault::Monitor(MonitorStop::Long(Which::First))
    } else {
        Fault::Monitor(MonitorStop::Long(Which::Second))
    }
}

// Why there is no script, as a fault.
fn no_script(tree: &[u8], flat: &[u8], wanted: &[Name], fault: ImportFault) -> Fault
    requires { Explains tree.now flat.now wanted.now fault }
    ensures { FailsImport tree.now flat.now wanted.now result }
{
    match fault {
        ImportFault::Long => too_long(tree, flat, wanted),
        ImportFault::Tree { line } => Fault::Monitor(MonitorStop::BadLine {
            which: Which::First,
            line,
        }),
        ImportFault::Flat { line } => Fault::Monitor(MonitorStop::BadLine {
            which: Which::Second,
            line,
        }),
        ImportFault::NoSpace => Fault::Monitor(MonitorStop::NoSpaces),
        ImportFault::Unknown { at } => Fault::Monitor(MonitorStop::Unknown { at }),
        ImportFault::Made { bad, .. } => Fault::Monitor(MonitorStop::Made(bad)),
        ImportFault::Memory => Fault::Memory,
    }
}

// Whether a text has a comment.
fn has_comment(text: &[u8]) -> bool
    ensures { result ≡ has_comment text.now }
{
    text.iter().any(|byte| *byte == b'#')
}

// The text of a script that was made, and whether it tells of something.
fn answer_of(alloc: Global, made: &Imported) -> Result<Answer, AllocError>
    ensures text { IfOk result (λ a. a.text ≡ made.now.text.items) }
    ensures something { IfOk result (λ a. a.something ≡ (has_comment made.now.text.items || nat_lt 0 made.now.refused)) }
{
    let mut text = Line::new(alloc);
    text.bytes(&made.text)?;
    let is_changed = has_comment(&made.text);
    Ok(Answer {
        text,
        something: is_changed || made.refused > 0,
    })
}

// A script that was made, as an answer.
fn made_answer(alloc: Global, made: &Imported) -> Result<Answer, Fault>
    requires { HasRefused made.now.text.items made.now.refused }
    ensures told { IfOk result (λ a. TellsImport a.text a.something) }
    ensures fails { IfErr result (λ fault. fault ≡ Memory) }
{
    let answer = answer_of(alloc, made)?;
    Ok(answer)
}

/// A script of a machine, by what QEMU's monitor printed of it: `tree` by `info mtree -D`, and `flat` by `info mtree -f`, which may be
/// empty. Of the spaces with these names, or of all where none are named, it has the first sixteen, those with a view before others.
///
/// The reading is a guess. There is something to mend where the script has a comment, which tells what was changed, or where one of its
/// commands is refused.
pub fn import(alloc: Global, tree: &[u8], flat: &[u8], wanted: &[Name]) -> Result<Answer, Fault>
    ensures told { IfOk result (λ a. TellsImport a.text a.something) }
    ensures fails { IfErr result (λ fault. FailsImport tree.now flat.now wanted.now fault) }
{
    match import_machine(alloc, tree, flat, wanted) {
        Ok(made) => made_answer(alloc, &made),
        Err(fault) => Err(no_script(tree, flat, wanted, fault)),
    }
}

// Why nothing is compared, as a fault.
fn not_compared(script: &[u8], flat: &[u8], fault: CheckFault) -> Fault
    requires { ExplainsCheck script.now flat.now fault }
    ensures { FailsCheck script.now flat.now result }
{
    match fault {
        CheckFault::Script(bad) => Fault::Script {
            which: Which::First,
            bad,
        },
        CheckFault::Flat { line } => Fault::Monitor(MonitorStop::BadLine {
            which: Which::Second,
            line,
        }),
        CheckFault::Long => Fault::Monitor(MonitorStop::Long(Which::Second)),
        CheckFault::Memory => Fault::Memory,
    }
}

/// Whether each space of the map that a script leaves shows what `info mtree -f` printed of it.
///
/// There is something to mend where a space is not told as the same.
pub fn check(alloc: Global, script: &[u8], flat: &[u8]) -> Result<Answer, Fault>
    ensures told { IfOk result (λ a. IsChecked script.now flat.now a.text a.something) }
    ensures fails { IfErr result (λ fault. FailsCheck script.now flat.now fault) }
{
    match check_spaces(alloc, script, flat) {
        Ok(checked) => Ok(Answer {
            text: checked.text,
            something: checked.differs,
        }),
        Err(fault) => Err(not_compared(script, flat, fault)),
    }
}
