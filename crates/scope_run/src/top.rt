// The top call: all that the program does for a request.
ghost use Rattle.std.specs.Prelude.{◌≡◌, ◌≤◌, ◌⊎◌, Bool, ℕ, IfOk, IfErr, option_map};
ghost use Rattle.outside.specs.Causes.{Rose};
ghost use Rattle.outside.specs.Sink.{Takes};
ghost use Rattle.mem_base.specs.script.Spelling.{Text};
ghost use Rattle.scope_run.specs.Files.{Tells};
ghost use Rattle.scope_run.specs.Requests.{AnswersTo, FailsFor, IsAddress, IsUnread, called, ending_of};
ghost use Rattle.scope_run.specs.Said.{fault_text};
ghost use Rattle.scope_run.specs.declared.answers.Fault.TheVariants as faults;

use crate::answers::{Answer, Fault, Which};
use crate::differing::diff;
use crate::drawing::draw;
use crate::endings::{Ending, ending_of};
use crate::explaining::{explain, explain_topic};
use crate::faults::fault_line;
use crate::files::Files;
use crate::linting::lint;
use crate::monitor_files::{answer_check, answer_import};
use crate::slotting::slots;
use crate::whys::why;
use mem_base::{BadScript, Cause, Name};
use monitor_text::{address_in, cleaned};
use outside::{Failed, ReadStop, Sink, write_all};
use scope_words::{Request, Style};
use script_text::MOST_TEXT;
use std::alloc::{AllocError, Global};

// What is said of a text that is longer than a script may be: no line of it is named.
fn too_long() -> BadScript
    ensures { result ≡ record { line = 0; cause = Cause.Long } }
{
    BadScript {
        line: 0,
        cause: Cause::Long,
    }
}

/// The bytes of a file. It answers `File` where a read failed, `Script` where it is longer than a script may be.
pub fn text_in<F: Files>(
    alloc: Global,
    files: &mut F,
    name: &str,
    which: Which,
) -> Result<Vec<u8>, Fault>
    ensures bytes { IfOk result (λ bytes. Tells (F.held files.old name.now) bytes.items) }
    ensures unread { IfErr result
        (λ fault. IsUnread (F.held files.old) (Rose (F.faults files.old) (F.faults files.new)) name.now which fault) }
    ensures same { F.held files.new ≡ F.held files.old }
    ensures later { F.faults files.old ≤ F.faults files.new }
{
    match files.read(alloc, name, MOST_TEXT) {
        Ok(bytes) => Ok(bytes),
        Err(ReadStop::Failed) => Err(Fault::File(which)),
        Err(ReadStop::Long) => Err(Fault::Script {
            which,
            bad: too_long(),
        }),
        Err(ReadStop::Memory) => Err(Fault::Memory),
    }
}

/// The name that a script has for what a word names: the word itself, or where it is a name that QEMU prints the one that `import` gives.
pub fn name_of(alloc: Global, word: &str) -> Result<Name, AllocError>
    ensures { IfOk result (λ name. name ≡ called word.now) }
{
    Ok(Name::new(cleaned(alloc, word.as_bytes())?))
}

/// The name of a region, where one is asked for.
pub fn region_of(alloc: Global, word: Option<&str>) -> Result<Option<Name>, AllocError>
    ensures { IfOk result (λ name. name ≡ option_map (λ w. called w.now) word.entry) }
{
    match word {
        Some(word) => Ok(Some(name_of(alloc, word)?)),
        None => Ok(None),
    }
}

/// The address that a word is, as QEMU and `mscope` print one, or with a scale after it. It answers `NoAddress` where the word is none.
pub fn address_of(word: &str) -> Result<u64, Fault>
    ensures address { IfOk result (λ a. IsAddress word.now a) }
    ensures none { IfErr result (λ fault. (fault ≡ faults.NoAddress) × ((a : ℕ) → IsAddress word.now a → ⊥)) }
{
    match address_in(word.as_bytes()) {
        Some(addr) => Ok(addr),
        None => Err(Fault::NoAddress),
    }
}

fn answer_why<F: Files>(
    alloc: Global,
    files: &mut F,
    script: &str,
    space: &str,
    addr: &str,
    region: Option<&str>,
) -> Result<Answer, Fault>
    ensures told { IfOk result (λ a. AnswersTo (Request.Why script.entry space.entry addr.entry region.entry) (F.held files.old) a.text a.something) }
    ensures fails { IfErr result (λ fault. FailsFor (Request.Why script.entry space.entry addr.entry region.entry) (F.held files.old)
        (Rose (F.faults files.old) (F.faults files.new)) fault) }
{
    let addr = address_of(addr)?;
    let space = name_of(alloc, space)?;
    let region = region_of(alloc, region)?;
    let text = text_in(alloc, files, script, Which::First)?;
    why(alloc, text.as_slice(), &space, addr, region.as_ref())
}

fn answer_lint<F: Files>(alloc: Global, files: &mut F, script: &str) -> Result<Answer, Fault>
    ensures told { IfOk result (λ a. AnswersTo (Request.Lint script.entry) (F.held files.old) a.text a.something) }
    ensures fails { IfErr result (λ fault. FailsFor (Request.Lint script.entry) (F.held files.old)
        (Rose (F.faults files.old) (F.faults files.new)) fault) }
{
    let text = text_in(alloc, files, script, Which::First)?;
    lint(alloc, text.as_slice())
}

fn answer_diff<F: Files>(
    alloc: Global,
    files: &mut F,
    first: &str,
    second: &str,
) -> Result<Answer, Fault>
    ensures told { IfOk result (λ a. AnswersTo (Request.Diff first.entry second.entry) (F.held files.old) a.text a.something) }
    ensures fails { IfErr result (λ fault. FailsFor (Request.Diff first.entry second.entry) (F.held files.old)
        (Rose (F.faults files.old) (F.faults files.new)) fault) }
{
    let old = text_in(alloc, files, first, Which::First)?;
    let new = text_in(alloc, files, second, Which::Second)?;
    diff(alloc, old.as_slice(), new.as_slice())
}

fn answer_slots<F: Files>(alloc: Global, files: &mut F, script: &str) -> Result<Answer, Fault>
    ensures told { IfOk result (λ a. AnswersTo (Request.Slots script.entry) (F.held files.old) a.text a.something) }
    ensures fails { IfErr result (λ fault. FailsFor (Request.Slots script.entry) (F.held files.old)
        (Rose (F.faults files.old) (F.faults files.new)) fault) }
{
    let text = text_in(alloc, files, script, Which::First)?;
    slots(alloc, text.as_slice())
}

fn answer_draw<F: Files>(
    alloc: Global,
    files: &mut F,
    script: &str,
    space: &str,
    style: Style,
) -> Result<Answer, Fault>
    ensures told { IfOk result (λ a. AnswersTo (Request.Draw script.entry space.entry style) (F.held files.old) a.text a.something) }
    ensures fails { IfErr result (λ fault. FailsFor (Request.Draw script.entry space.entry style) (F.held files.old)
        (Rose (F.faults files.old) (F.faults files.new)) fault) }
{
    let space = name_of(alloc, space)?;
    let text = text_in(alloc, files, script, Which::First)?;
    draw(alloc, text.as_slice(), &space, style)
}

fn answer_explain<F: Files>(alloc: Global, files: &mut F, what: &str) -> Result<Answer, Fault>
    ensures told { IfOk result (λ a. AnswersTo (Request.Explain what.entry) (F.held files.old) a.text a.something) }
    ensures fails { IfErr result (λ fault. FailsFor (Request.Explain what.entry) (F.held files.old)
        (Rose (F.faults files.old) (F.faults files.new)) fault) }
{
    if let Some(answer) = explain_topic(alloc, what.as_bytes())? {
        return Ok(answer);
    }
    let text = text_in(alloc, files, what, Which::First)?;
    explain(alloc, text.as_slice())
}

// The answer to a request.
fn answer<F: Files>(alloc: Global, request: &Request<'_>, files: &mut F) -> Result<Answer, Fault>
    ensures told { IfOk result (λ a. AnswersTo request.now (F.held files.old) a.text a.something) }
    ensures fails { IfErr result (λ fault. FailsFor request.now (F.held files.old)
        (Rose (F.faults files.old) (F.faults files.new)) fault) }
{
    match *request {
        Request::Why {
            script,
            space,
            addr,
            region,
        } => answer_why(alloc, files, script, space, addr, region),
        Request::Lint { script } => answer_lint(alloc, files, script),
        Request::Diff { first, second } => answer_diff(alloc, files, first, second),
        Request::Slots { script } => answer_slots(alloc, files, script),
        Request::Draw {
            script,
            space,
            style,
        } => answer_draw(alloc, files, script, space, style),
        Request::Explain { what } => answer_explain(alloc, files, what),
        Request::Import { tree, flat, spaces } => answer_import(alloc, files, tree, flat, spaces),
        Request::Check { script, flat } => answer_check(alloc, files, script, flat),
    }
}

/// Writes an answer.
pub fn say<K: Sink>(answer: &Answer, out: &mut K) -> Ending
    ensures said { (something : Bool) → result ≡ ending_of something
        → (answer.now.something ≡ something) × Takes K.written K.holds out.old out.new answer.now.text }
    ensures wrong { result ≡ Ending.Wrong → ⊥ }
    ensures write { result ≡ Ending.WriteFault → Rose (K.faults out.old) (K.faults out.new) }
{
    match write_all(out, answer.text.as_bytes()) {
        Ok(()) => ending_of(answer.something),
        Err(Failed) => Ending::WriteFault,
    }
}

/// Says why there is no answer.
pub fn refuse<E: Sink>(alloc: Global, request: &Request<'_>, fault: Fault, err: &mut E) -> Ending
    ensures answer { (something : Bool) → result ≡ ending_of something → ⊥ }
    ensures wrong { result ≡ Ending.Wrong → (fault ≡ faults.Memory → ⊥) × Takes E.written E.holds err.old err.new (fault_text request.now fault) }
    ensures write { result ≡ Ending.WriteFault → Rose (E.faults err.old) (E.faults err.new) }
{
    if let Fault::Memory = fault {
        return Ending::Memory;
    }
    let line = match fault_line(alloc, request, fault) {
        Ok(line) => line,
        Err(_) => return Ending::Memory,
    };
    match write_all(err, line.as_bytes()) {
        Ok(()) => Ending::Wrong,
        Err(Failed) => Ending::WriteFault,
    }
}

/// Does what is asked: it reads the files that the request names, and writes the answer to `out`; where there is none, it says why on
/// `err`.
pub fn mscope<F: Files, K: Sink, E: Sink>(
    alloc: Global,
    request: &Request<'_>,
    files: &mut F,
    out: &mut K,
    err: &mut E,
) -> Ending
    // The whole answer was written, and the ending says whether there is something to mend.
    ensures answer { (something : Bool) → result ≡ ending_of something
        → (text : Text) × AnswersTo request.now (F.held files.old) text something × Takes K.written K.holds out.old out.new text }

    // There is no answer, for a cause which holds, and which was said; nothing else was written.
    ensures wrong { result ≡ Ending.Wrong → (fault : Fault) × (out.new ≡ out.old)
        × FailsFor request.now (F.held files.old) (Rose (F.faults files.old) (F.faults files.new)) fault
        × (fault ≡ faults.Memory → ⊥) × Takes E.written E.holds err.old err.new (fault_text request.now fault) }

    // A write failed in this call.
    ensures write { result ≡ Ending.WriteFault → Rose (K.faults out.old) (K.faults out.new) ⊎ Rose (E.faults err.old) (E.faults err.new) }
{
    match answer(alloc, request, files) {
        Ok(answer) => say(&answer, out),
        Err(fault) => refuse(alloc, request, fault, err),
    }
}
