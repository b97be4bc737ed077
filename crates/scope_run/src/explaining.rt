// `explain`.
ghost use Rattle.std.specs.Prelude.{◌≡◌, false, IfOk, IfErr, IfSome, is_some};
ghost use Rattle.mem_base.specs.script.Scripts.{script_of};
ghost use Rattle.script_explain.specs.Faults.{TellsFault};
ghost use Rattle.script_explain.specs.Told.{topic_text};
ghost use Rattle.scope_run.specs.Explains.{Explains, TellsRefusal, TellsTopic, topic_code};
ghost use Rattle.scope_run.specs.Lints.{tells_something};
ghost use Rattle.scope_run.specs.Scripts.{TellsAll};
ghost use Rattle.scope_run.specs.declared.answers.Fault.TheVariants.{Memory};

use crate::answers::{Answer, Fault, found, told};
use mem_base::BadScript;
use script_explain::{Topic, add_fault, add_refused, add_topic, topic_of};
use script_lines::Line;
use script_map::{MapStop, RefusedLine, read};
use std::alloc::{AllocError, Global};

// Each refused line, what is wrong, and what to do.
fn refusals_text(alloc: Global, script: &[u8], refused: &[RefusedLine]) -> Result<Line, AllocError>
    ensures { IfOk result (λ text. TellsAll TellsRefusal refused.now text) }
{
    let mut text = Line::new(alloc);
    for one in refused {
        add_refused(alloc, &mut text, script, one.line(), one.words())?;
    }
    Ok(text)
}

// The first line at fault, what is wrong, and what to do.
fn bad_text(alloc: Global, script: &[u8], bad: BadScript) -> Result<Line, AllocError>
    ensures { IfOk result (λ text. TellsFault script.now bad text) }
{
    let mut text = Line::new(alloc);
    add_fault(alloc, &mut text, script, bad)?;
    Ok(text)
}

fn explain_refused(alloc: Global, script: &[u8], refused: &[RefusedLine]) -> Result<Answer, Fault>
    ensures told { IfOk result (λ a. TellsAll TellsRefusal refused.now a.text) }
    ensures something { IfOk result (λ a. a.something ≡ tells_something a.text) }
    ensures fails { IfErr result (λ fault. fault ≡ Memory) }
{
    let text = refusals_text(alloc, script, refused)?;
    Ok(found(text))
}

fn explain_bad(alloc: Global, script: &[u8], bad: BadScript) -> Result<Answer, Fault>
    ensures told { IfOk result (λ a. TellsFault script.now bad a.text) }
    ensures something { IfOk result (λ a. a.something ≡ tells_something a.text) }
    ensures fails { IfErr result (λ fault. fault ≡ Memory) }
{
    let text = bad_text(alloc, script, bad)?;
    Ok(found(text))
}

/// What is wrong with a script, and what to do: its first line at fault where it is none, and each of its refused lines.
///
/// There is something to mend just where the text is not empty. It fails only where memory runs out.
pub fn explain(alloc: Global, script: &[u8]) -> Result<Answer, Fault>
    ensures told { IfOk result (λ a. Explains script.now (script_of script.now) a.text) }
    ensures something { IfOk result (λ a. a.something ≡ tells_something a.text) }
    ensures fails { IfErr result (λ fault. fault ≡ Memory) }
{
    match read(alloc, script) {
        Ok(map) => {
            let answer = explain_refused(alloc, script, map.refused());
            drop(map);
            answer
        }
        Err(MapStop::Bad(bad)) => explain_bad(alloc, script, bad),
        Err(MapStop::Memory) => Err(Fault::Memory),
    }
}

// What a topic means.
fn topic_text(alloc: Global, topic: &Topic) -> Result<Line, AllocError>
    ensures { IfOk result (λ text. text ≡ topic_text topic.now) }
{
    let mut text = Line::new(alloc);
    add_topic(&mut text, topic)?;
    Ok(text)
}

/// What a refusal or a cause means, by its number or its word; none where the word is neither.
///
/// There is never something to mend.
pub fn explain_topic(alloc: Global, word: &[u8]) -> Result<Option<Answer>, Fault>
    ensures there { IfOk result (λ found. is_some found ≡ is_some (topic_code word.now)) }
    ensures told { IfOk result (λ found. IfSome found (λ a. TellsTopic word.now a.text)) }
    ensures nothing { IfOk result (λ found. IfSome found (λ a. a.something ≡ false)) }
    ensures fails { IfErr result (λ fault. fault ≡ Memory) }
{
    let Some(topic) = topic_of(word) else {
        return Ok(None);
    };
    let text = topic_text(alloc, &topic)?;
    Ok(Some(told(text)))
}
