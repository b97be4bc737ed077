// The top call: all that the program does for a request whose answer is to be JSON.
ghost use Rattle.std.specs.Prelude.{◌≡◌, ◌⊎◌, Bool, IfOk, IfErr};
ghost use Rattle.serde_json.specs.View.{view};
ghost use Rattle.outside.specs.Causes.{Rose};
ghost use Rattle.outside.specs.Sink.{Takes};
ghost use Rattle.mem_base.specs.script.Spelling.{Text};
ghost use Rattle.scope_run.specs.Requests.{FailsFor, ending_of};
ghost use Rattle.scope_run.specs.Said.{fault_text};
ghost use Rattle.scope_run.specs.declared.answers.Fault.TheVariants as faults;
ghost use Rattle.scope_json.specs.Answers.{AnswersJson, AnswersWith};

use crate::answers::{Told, line_of};
use crate::differing::diff;
use crate::drawing::draw;
use crate::explaining::{explain, explain_topic};
use crate::linting::lint;
use crate::monitoring::{check, import};
use crate::slotting::slots;
use crate::whys::why;
use outside::Sink;
use scope_run::{
    Answer, Ending, Fault, Files, Request, Style, Which, address_of, name_of, refuse, region_of,
    say, text_in,
};
use std::alloc::Global;

fn answer_why<F: Files>(
    alloc: Global,
    files: &mut F,
    script: &str,
    space: &str,
    addr: &str,
    region: Option<&str>,
) -> Result<Told, Fault>
    ensures told { IfOk result
        (λ t. AnswersWith (Request.Why script.entry space.entry addr.entry region.entry) (F.held files.old) (view t.value) t.something) }
    ensures fails { IfErr result (λ fault. FailsFor (Request.Why script.entry space.entry addr.entry region.entry) (F.held files.old)
        (Rose (F.faults files.old) (F.faults files.new)) fault) }
{
    let addr = address_of(addr)?;
    let space = name_of(alloc, space)?;
    let region = region_of(alloc, region)?;
    let text = text_in(alloc, files, script, Which::First)?;
    why(alloc, text.as_slice(), &space, addr, region.as_ref())
}

fn answer_lint<F: Files>(alloc: Global, files: &mut F, script: &str) -> Result<Told, Fault>
    ensures told { IfOk result (λ t. AnswersWith (Request.Lint script.entry) (F.held files.old) (view t.value) t.something) }
    ensures fails { IfErr result (λ fault. FailsFor (Request.Lint script.entry) (F.held files.old)
        (Rose (F.faults files.old) (F.faults files.new)) fault) }
{
    let text = text_in(alloc, files, script, Which::First)?;
    lint(alloc, text.as_slice())
}

fn answer_diff<F: Files>(
    alloc: Global,
    files: &mut F,
    first: &str,
    second: &str,
) -> Result<Told, Fault>
    ensures told { IfOk result (λ t. AnswersWith (Request.Diff first.entry second.entry) (F.held files.old) (view t.value) t.something) }
    ensures fails { IfErr result (λ fault. FailsFor (Request.Diff first.entry second.entry) (F.held files.old)
        (Rose (F.faults files.old) (F.faults files.new)) fault) }
{
    let old = text_in(alloc, files, first, Which::First)?;
    let new = text_in(alloc, files, second, Which::Second)?;
    diff(alloc, old.as_slice(), new.as_slice())
}

fn answer_slots<F: Files>(alloc: Global, files: &mut F, script: &str) -> Result<Told, Fault>
    ensures told { IfOk result (λ t. AnswersWith (Request.Slots script.entry) (F.held files.old) (view t.value) t.something) }
    ensures fails { IfErr result (λ fault. FailsFor (Request.Slots script.entry) (F.held files.old)
        (Rose (F.faults files.old) (F.faults files.new)) fault) }
{
    let text = text_in(alloc, files, script, Which::First)?;
    slots(alloc, text.as_slice())
}

// The style plays no part.
fn answer_draw<F: Files>(
    alloc: Global,
    files: &mut F,
    script: &str,
    space: &str,
    style: Style,
) -> Result<Told, Fault>
    ensures told { IfOk result (λ t. AnswersWith (Request.Draw script.entry space.entry style) (F.held files.old) (view t.value) t.something) }
    ensures fails { IfErr result (λ fault. FailsFor (Request.Draw script.entry space.entry style) (F.held files.old)
        (Rose (F.faults files.old) (F.faults files.new)) fault) }
{
    let space = name_of(alloc, space)?;
    let text = text_in(alloc, files, script, Which::First)?;
    draw(alloc, text.as_slice(), &space)
}

fn answer_explain<F: Files>(alloc: Global, files: &mut F, what: &str) -> Result<Told, Fault>
    ensures told { IfOk result (λ t. AnswersWith (Request.Explain what.entry) (F.held files.old) (view t.value) t.something) }
    ensures fails { IfErr result (λ fault. FailsFor (Request.Explain what.entry) (F.held files.old)
        (Rose (F.faults files.old) (F.faults files.new)) fault) }
{
    if let Some(told) = explain_topic(alloc, what.as_bytes())? {
        return Ok(told);
    }
    let text = text_in(alloc, files, what, Which::First)?;
    explain(alloc, text.as_slice())
}

// The answer to a request.
fn answer<F: Files>(alloc: Global, request: &Request<'_>, files: &mut F) -> Result<Told, Fault>
    ensures told { IfOk result (λ t. AnswersWith request.now (F.held files.old) (view t.value) t.something) }
    ensures fails { IfErr result (λ fault. FailsFor request.now (F.held files.old)
        (Rose (F.faults files.old) (F.faults files.new)) fault) }
{
    match *request {
        Request::Why {
            script,
            space,
            addr,
            region,
        } => answer_why(alloc, files, script, space, addr, region),
        Request::Lint { script } => answer_lint(alloc, files, script),
        Request::Diff { first, second } => answer_diff(alloc, files, first, second),
        Request::Slots { script } => answer_slots(alloc, files, script),
        Request::Draw {
            script,
            space,
            style,
        } => answer_draw(alloc, files, script, space, style),
        Request::Explain { what } => answer_explain(alloc, files, what),
        Request::Import { tree, flat, spaces } => import(alloc, files, tree, flat, spaces),
        Request::Check { script, flat } => check(alloc, files, script, flat),
    }
}

// The answer to a request as a text.
fn answer_text<F: Files>(
    alloc: Global,
    request: &Request<'_>,
    files: &mut F,
) -> Result<Answer, Fault>
    ensures told { IfOk result (λ a. AnswersJson request.now (F.held files.old) a.text a.something) }
    ensures fails { IfErr result (λ fault. FailsFor request.now (F.held files.old)
        (Rose (F.faults files.old) (F.faults files.new)) fault) }
{
    let told = answer(alloc, request, files)?;
    let text = line_of(alloc, &told.value)?;
    Ok(Answer {
        text,
        something: told.something,
    })
}

/// Does what is asked, as `mscope` of `scope_run` does, and writes the answer to `out` as one JSON text in a line; where there is none, it says
/// why on `err`, as a plain text.
pub fn mscope_json<F: Files, K: Sink, E: Sink>(
    alloc: Global,
    request: &Request<'_>,
    files: &mut F,
    out: &mut K,
    err: &mut E,
) -> Ending
    // The whole answer was written, it reads back as the value that answers the request, and the ending says whether there is something to mend.
    ensures answer { (something : Bool) → result ≡ ending_of something
        → (text : Text) × AnswersJson request.now (F.held files.old) text something × Takes K.written K.holds out.old out.new text }

    // There is no answer, for a cause which holds, and which was said; nothing else was written.
    ensures wrong { result ≡ Ending.Wrong → (fault : Fault) × (out.new ≡ out.old)
        × FailsFor request.now (F.held files.old) (Rose (F.faults files.old) (F.faults files.new)) fault
        × (fault ≡ faults.Memory → ⊥) × Takes E.written E.holds err.old err.new (fault_text request.now fault) }

    // A write failed in this call.
    ensures write { result ≡ Ending.WriteFault → Rose (K.faults out.old) (K.faults out.new) ⊎ Rose (E.faults err.old) (E.faults err.new) }
{
    match answer_text(alloc, request, files) {
        Ok(answer) => say(&answer, out),
        Err(fault) => refuse(alloc, request, fault, err),
    }
}
