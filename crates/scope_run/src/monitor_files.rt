// Requests on what QEMU's monitor printed.
ghost use Rattle.std.specs.Prelude.{◌≡◌, ◌≤◌, IfErr, IfOk, map, option_map};
ghost use Rattle.outside.specs.Causes.{Rose};
ghost use Rattle.scope_run.specs.Files.{Tells};
ghost use Rattle.scope_run.specs.Imports.{wanted_in, words_of};
ghost use Rattle.scope_run.specs.Requests.{AnswersTo, FailsFor, IsSecondUnread, IsTextUnread, TellsIfNamed};

use crate::answers::{Answer, Fault, Which};
use crate::files::Files;
use crate::importing::{MonitorStop, check, import};
use crate::top::text_in;
use mem_base::Name;
use outside::ReadStop;
use scope_words::Request;
use std::alloc::{AllocError, Global};

/// How many bytes of a text of the monitor's are read at most.
const MOST_MONITOR: usize = 16_777_216;

// The bytes of a text of the monitor's.
fn monitor_in<F: Files>(
    alloc: Global,
    files: &mut F,
    name: &str,
    which: Which,
) -> Result<Vec<u8>, Fault>
    ensures bytes { IfOk result (λ bytes. Tells (F.held files.old name.now) bytes.items) }
    ensures unread { IfErr result
        (λ fault. IsTextUnread (F.held files.old) (Rose (F.faults files.old) (F.faults files.new)) name.now which fault) }
    ensures same { F.held files.new ≡ F.held files.old }
    ensures later { F.faults files.old ≤ F.faults files.new }
{
    match files.read(alloc, name, MOST_MONITOR) {
        Ok(bytes) => Ok(bytes),
        Err(ReadStop::Failed) => Err(Fault::File(which)),
        Err(ReadStop::Long) => Err(Fault::Monitor(MonitorStop::Long(which))),
        Err(ReadStop::Memory) => Err(Fault::Memory),
    }
}

// The bytes of the second text; none where it is left out.
fn flat_in<F: Files>(alloc: Global, files: &mut F, name: Option<&str>) -> Result<Vec<u8>, Fault>
    ensures bytes { IfOk result (λ bytes. TellsIfNamed (F.held files.old) (option_map (λ n. n.now) name.entry) bytes.items) }
    ensures unread { IfErr result (λ fault. IsSecondUnread (F.held files.old) (Rose (F.faults files.old) (F.faults files.new))
        (option_map (λ n. n.now) name.entry) fault) }
{
    match name {
        Some(name) => monitor_in(alloc, files, name, Which::Second),
        None => Ok(Vec::new(alloc)),
    }
}

// The words between commas.
fn words_of(alloc: Global, text: &str) -> Result<Vec<&str>, AllocError>
    ensures { IfOk result (λ words. map (λ w. w.now) words.items ≡ words_of text.now) }
{
    text.split(',').collect(alloc)
}

// Words as names.
fn names_of(alloc: Global, words: &[&str]) -> Result<Vec<Name>, AllocError>
    ensures { IfOk result (λ names. names.items ≡ map (λ w. w.now) words.now) }
{
    let mut names = Vec::new(alloc);
    for word in words {
        names.push(Name::new(word.as_bytes().to_vec(alloc)?))?;
    }
    Ok(names)
}

// The names between commas; none where no word is given.
fn names_in(alloc: Global, words: Option<&str>) -> Result<Vec<Name>, AllocError>
    ensures { IfOk result (λ names. names.items ≡ wanted_in (option_map (λ w. w.now) words.entry)) }
{
    match words {
        Some(words) => names_of(alloc, words_of(alloc, words)?.as_slice()),
        None => Ok(Vec::new(alloc)),
    }
}

/// The script of what the monitor printed, by the names of the files.
pub fn answer_import<F: Files>(
    alloc: Global,
    files: &mut F,
    tree: &str,
    flat: Option<&str>,
    spaces: Option<&str>,
) -> Result<Answer, Fault>
    ensures told { IfOk result (λ a. AnswersTo (Request.Import tree.entry flat.entry spaces.entry) (F.held files.old) a.text a.something) }
    ensures fails { IfErr result (λ fault. FailsFor (Request.Import tree.entry flat.entry spaces.entry) (F.held files.old)
        (Rose (F.faults files.old) (F.faults files.new)) fault) }
{
    let wanted = names_in(alloc, spaces)?;
    let first = monitor_in(alloc, files, tree, Which::First)?;
    let second = flat_in(alloc, files, flat)?;
    import(
        alloc,
        first.as_slice(),
        second.as_slice(),
        wanted.as_slice(),
    )
}

/// What comes of a script beside what the monitor printed, by the names of the files.
pub fn answer_check<F: Files>(
    alloc: Global,
    files: &mut F,
    script: &str,
    flat: &str,
) -> Result<Answer, Fault>
    ensures told { IfOk result (λ a. AnswersTo (Request.Check script.entry flat.entry) (F.held files.old) a.text a.something) }
    ensures fails { IfErr result (λ fault. FailsFor (Request.Check script.entry flat.entry) (F.held files.old)
        (Rose (F.faults files.old) (F.faults files.new)) fault) }
{
    let first = text_in(alloc, files, script, Which::First)?;
    let second = monitor_in(alloc, files, flat, Which::Second)?;
    check(alloc, first.as_slice(), second.as_slice())
}
