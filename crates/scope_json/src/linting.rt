// `lint`.
ghost use Rattle.std.specs.Prelude.{◌≡◌, IfOk, IfErr, None, OnOk, codes, map};
ghost use Rattle.serde_json.specs.View.{view};
ghost use Rattle.json_build.specs.Held.{members};
ghost use Rattle.json_build.specs.Parts.{list_of, with_fields};
ghost use Rattle.script_names.specs.Tables.{printed_names};
ghost use Rattle.script_map.specs.Left.{left_state};
ghost use Rattle.scope_run.specs.Scripts.{FailsOn, OfScript};
ghost use Rattle.scope_run.specs.declared.answers.Fault.TheVariants.{Memory};
ghost use Rattle.scope_json.specs.Lints.{line_data, lint_by, lint_data, lint_fields, lint_mends, mends, mends_by, number_data, refused_fields, taken_data};
ghost use Rattle.scope_json.specs.Texts.{answer_of};

use crate::answers::{Told, answer_to};
use json_build::{Fields, Items, Value, number};
use map_lint::{Findings, lint as find_faults};
use mem_base::Command;
use scope_run::{Fault, Which, idle_par, taken_along_by, unclosed};
use scope_values::finding_list;
use script_map::{RefusedLine, ScriptMap, after};
use script_names::Names;
use script_text::{ParseFault, Script, parse};
use std::alloc::{AllocError, Global};

/// The members of a refused command.
pub(crate) fn add_refused(
    alloc: Global,
    fields: &mut Fields,
    refused: &RefusedLine,
) -> Result<(), AllocError>
    ensures { OnOk result (members fields.new ≡ with_fields (members fields.old) (refused_fields refused.now)) }
{
    fields.number(alloc, "line", u64::from(refused.line()))?;
    fields.name(alloc, "refusal", refused.words())
}

// The number of a line, or `null`.
fn line_value(line: Option<u32>) -> Value
    ensures { view result ≡ line_data line }
{
    match line {
        Some(line) => number(u64::from(line)),
        None => Value::Null,
    }
}

// A refused command, with the refused line that takes it along.
fn taken_value(
    alloc: Global,
    lines: &[(u32, Command)],
    refused: &[RefusedLine],
    one: &RefusedLine,
) -> Result<Value, AllocError>
    ensures { IfOk result (λ v. view v ≡ taken_data lines.now refused.now one.now) }
{
    let mut fields = Fields::new(alloc);
    add_refused(alloc, &mut fields, one)?;
    let since = line_value(taken_along_by(lines, refused, one));
    fields.value(alloc, "since", since)?;
    Ok(fields.object())
}

// The refused commands, one object each.
fn taken_list(
    alloc: Global,
    lines: &[(u32, Command)],
    refused: &[RefusedLine],
) -> Result<Value, AllocError>
    ensures { IfOk result (λ v. view v ≡ list_of (map (taken_data lines.now refused.now) refused.now)) }
{
    let mut items = Items::new(alloc);
    for one in refused {
        let value = taken_value(alloc, lines, refused, one)?;
        items.push(value)?;
    }
    Ok(items.list())
}

// The numbers of lines.
fn number_list(alloc: Global, lines: &[u32]) -> Result<Value, AllocError>
    ensures { IfOk result (λ v. view v ≡ list_of (map number_data lines.now)) }
{
    let mut items = Items::new(alloc);
    for line in lines {
        items.push(number(u64::from(*line)))?;
    }
    Ok(items.list())
}

// Whether there is something to mend.
fn mends(refused: &[RefusedLine], begun: &[u32], idle: Option<u32>, findings: &Findings) -> bool
    ensures { result ≡ mends refused.now begun.now idle findings.now }
{
    !refused.is_empty() || !begun.is_empty() || idle.is_some() || !findings.as_slice().is_empty()
}

// What looks wrong in the lines of a script and in its map.
fn value_of(
    alloc: Global,
    lines: &[(u32, Command)],
    refused: &[RefusedLine],
    begun: &[u32],
    idle: Option<u32>,
    names: &Names,
    findings: &Findings,
) -> Result<Value, AllocError>
    ensures { IfOk result (λ v. view v
        ≡ answer_of (codes "lint") (lint_fields lines.now refused.now begun.now idle (printed_names names.now) findings.now)) }
{
    let mut fields = answer_to(alloc, "lint")?;
    let refused = taken_list(alloc, lines, refused)?;
    fields.value(alloc, "refused", refused)?;
    let begun = number_list(alloc, begun)?;
    fields.value(alloc, "unclosed", begun)?;
    fields.value(alloc, "idle", line_value(idle))?;
    let findings = finding_list(alloc, names, findings)?;
    fields.value(alloc, "findings", findings)?;
    Ok(fields.object())
}

fn told_of(alloc: Global, lines: &[(u32, Command)], map: &ScriptMap) -> Result<Told, AllocError>
    ensures data { IfOk result (λ t. view t.value ≡ lint_by lines.now map.now.refused (left_state map.now)) }
    ensures mends { IfOk result (λ t. t.something ≡ mends_by lines.now map.now.refused (left_state map.now)) }
{
    let begun = unclosed(alloc, lines, map.refused())?;
    let numbers = begun.as_slice();
    let idle = idle_par(lines);
    let findings = find_faults(alloc, map.generation())?;
    let something = mends(map.refused(), numbers, idle, &findings);
    let value = value_of(
        alloc,
        lines,
        map.refused(),
        numbers,
        idle,
        map.names(),
        &findings,
    )?;
    Ok(Told { value, something })
}

// The same of the map that the script left, which is let go then.
fn told_after(alloc: Global, lines: &[(u32, Command)], map: ScriptMap) -> Result<Told, AllocError>
    ensures data { IfOk result (λ t. view t.value ≡ lint_by lines.now map.refused (left_state map)) }
    ensures mends { IfOk result (λ t. t.something ≡ mends_by lines.now map.refused (left_state map)) }
{
    let told = told_of(alloc, lines, &map);
    drop(map);
    told
}

fn lint_script(alloc: Global, script: &Script) -> Result<Told, Fault>
    ensures data { IfOk result (λ t. view t.value ≡ lint_data script.now) }
    ensures mends { IfOk result (λ t. t.something ≡ lint_mends script.now) }
    ensures fails { IfErr result (λ fault. fault ≡ Memory) }
{
    let map = after(alloc, script)?;
    let told = told_after(alloc, script.lines(), map)?;
    Ok(told)
}

/// What looks wrong in a script and in the map that it leaves.
pub(crate) fn lint(alloc: Global, script: &[u8]) -> Result<Told, Fault>
    ensures told { IfOk result (λ t. OfScript script.now (λ lines. (view t.value ≡ lint_data lines) × (t.something ≡ lint_mends lines))) }
    ensures fails { IfErr result (λ fault. FailsOn script.now None None fault) }
{
    match parse(alloc, script) {
        Ok(script) => lint_script(alloc, &script),
        Err(ParseFault::Bad(bad)) => Err(Fault::Script {
            which: Which::First,
            bad,
        }),
        Err(ParseFault::Memory) => Err(Fault::Memory),
    }
}
