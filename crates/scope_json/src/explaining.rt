// `explain`.
ghost use Rattle.std.specs.Prelude.{◌≡◌, ◌∷◌, [], false, true, is_some, codes, IfOk, IfErr, IfSome, map};
ghost use Rattle.serde_json.specs.Data.{null};
ghost use Rattle.serde_json.specs.View.{view};
ghost use Rattle.json_build.specs.Parts.{list_of};
ghost use Rattle.mem_base.specs.script.RefusalLines.{cause_text};
ghost use Rattle.mem_base.specs.script.Scripts.{script_of};
ghost use Rattle.scope_run.specs.Explains.{topic_code};
ghost use Rattle.scope_run.specs.declared.answers.Fault.TheVariants.{Memory};
ghost use Rattle.scope_json.specs.Explains.{TellsTopic, explain_data, explain_mends, explained_data, fault_data, refused_data, topic_answer};
ghost use Rattle.scope_json.specs.Texts.{answer_of, has_any};

use crate::answers::{Told, answer_to};
use crate::linting::add_refused;
use json_build::{Fields, Items, Value};
use mem_base::{BadScript, Cause};
use scope_run::Fault;
use scope_values::topic as topic_value;
use script_explain::{Topic, topic_of};
use script_map::{MapStop, RefusedLine, read};
use std::alloc::{AllocError, Global};

fn cause_text(cause: Cause) -> &'static str
    ensures { result.now ≡ cause_text cause }
{
    match cause {
        Cause::Byte => "byte",
        Cause::Word => "word",
        Cause::Name => "name",
        Cause::Number => "number",
        Cause::Count => "count",
        Cause::Place => "place",
        Cause::Long => "long",
    }
}

// A line at fault, and the cause.
fn fault_value(alloc: Global, bad: BadScript) -> Result<Value, AllocError>
    ensures { IfOk result (λ v. view v ≡ fault_data bad) }
{
    let mut fields = Fields::new(alloc);
    fields.number(alloc, "line", u64::from(bad.line))?;
    fields.text(alloc, "cause", cause_text(bad.cause))?;
    Ok(fields.object())
}

// A refused command.
fn refused_value(alloc: Global, refused: &RefusedLine) -> Result<Value, AllocError>
    ensures { IfOk result (λ v. view v ≡ refused_data refused.now) }
{
    let mut fields = Fields::new(alloc);
    add_refused(alloc, &mut fields, refused)?;
    Ok(fields.object())
}

// The refused commands, one object each.
fn refused_list(alloc: Global, refused: &[RefusedLine]) -> Result<Value, AllocError>
    ensures { IfOk result (λ v. view v ≡ list_of (map refused_data refused.now)) }
{
    let mut items = Items::new(alloc);
    for one in refused {
        let value = refused_value(alloc, one)?;
        items.push(value)?;
    }
    Ok(items.list())
}

// What is wrong with a text: its fault, and what is refused.
fn value_of(alloc: Global, fault: Value, refused: Value) -> Result<Value, AllocError>
    ensures { IfOk result (λ v. view v ≡ answer_of (codes "explain") ((codes "fault", view fault) ∷ (codes "refused", view refused) ∷ [])) }
{
    let mut fields = answer_to(alloc, "explain")?;
    fields.value(alloc, "fault", fault)?;
    fields.value(alloc, "refused", refused)?;
    Ok(fields.object())
}

fn refused_told(alloc: Global, refused: &[RefusedLine]) -> Result<Told, AllocError>
    ensures data { IfOk result (λ t. view t.value ≡ explain_data null refused.now) }
    ensures mends { IfOk result (λ t. t.something ≡ has_any refused.now) }
{
    let list = refused_list(alloc, refused)?;
    let value = value_of(alloc, Value::Null, list)?;
    Ok(Told {
        value,
        something: !refused.is_empty(),
    })
}

fn bad_told(alloc: Global, bad: BadScript) -> Result<Told, AllocError>
    ensures data { IfOk result (λ t. view t.value ≡ explain_data (fault_data bad) []) }
    ensures mends { IfOk result (λ t. t.something ≡ true) }
{
    let fault = fault_value(alloc, bad)?;
    let value = value_of(alloc, fault, Items::new(alloc).list())?;
    Ok(Told {
        value,
        something: true,
    })
}

fn explain_refused(alloc: Global, refused: &[RefusedLine]) -> Result<Told, Fault>
    ensures data { IfOk result (λ t. view t.value ≡ explain_data null refused.now) }
    ensures mends { IfOk result (λ t. t.something ≡ has_any refused.now) }
    ensures fails { IfErr result (λ fault. fault ≡ Memory) }
{
    let told = refused_told(alloc, refused)?;
    Ok(told)
}

fn explain_bad(alloc: Global, bad: BadScript) -> Result<Told, Fault>
    ensures data { IfOk result (λ t. view t.value ≡ explain_data (fault_data bad) []) }
    ensures mends { IfOk result (λ t. t.something ≡ true) }
    ensures fails { IfErr result (λ fault. fault ≡ Memory) }
{
    let told = bad_told(alloc, bad)?;
    Ok(told)
}

/// What is wrong with a script: its first line at fault where it is none, and each of its refused lines.
pub(crate) fn explain(alloc: Global, script: &[u8]) -> Result<Told, Fault>
    ensures data { IfOk result (λ t. view t.value ≡ explained_data (script_of script.now)) }
    ensures mends { IfOk result (λ t. t.something ≡ explain_mends (script_of script.now)) }
    ensures fails { IfErr result (λ fault. fault ≡ Memory) }
{
    match read(alloc, script) {
        Ok(map) => {
            let told = explain_refused(alloc, map.refused());
            drop(map);
            told
        }
        Err(MapStop::Bad(bad)) => explain_bad(alloc, bad),
        Err(MapStop::Memory) => Err(Fault::Memory),
    }
}

// What a topic means.
fn topic_told(alloc: Global, topic: &Topic) -> Result<Value, AllocError>
    ensures { IfOk result (λ v. view v ≡ answer_of (codes "explain") (topic_answer topic.now)) }
{
    let mut fields = answer_to(alloc, "explain")?;
    let topic = topic_value(alloc, topic)?;
    fields.value(alloc, "topic", topic)?;
    Ok(fields.object())
}

/// What a refusal or a cause means, by its number or its word; none where the word is neither.
pub(crate) fn explain_topic(alloc: Global, word: &[u8]) -> Result<Option<Told>, Fault>
    ensures there { IfOk result (λ found. is_some found ≡ is_some (topic_code word.now)) }
    ensures told { IfOk result (λ found. IfSome found (λ t. TellsTopic word.now (view t.value))) }
    ensures nothing { IfOk result (λ found. IfSome found (λ t. t.something ≡ false)) }
    ensures fails { IfErr result (λ fault. fault ≡ Memory) }
{
    let Some(topic) = topic_of(word) else {
        return Ok(None);
    };
    let value = topic_told(alloc, &topic)?;
    Ok(Some(Told {
        value,
        something: false,
    }))
}
