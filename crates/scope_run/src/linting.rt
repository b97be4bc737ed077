// `lint`.
ghost use Rattle.std.specs.Prelude.{◌≡◌, ◌++◌, IfOk, IfErr, OnOk, None};
ghost use Rattle.script_map.specs.Left.{left_state};
ghost use Rattle.scope_run.specs.Lints.{faults_text, lint_text, line_findings_text, tells_something};
ghost use Rattle.scope_run.specs.Scripts.{FailsOn, OfScript};
ghost use Rattle.scope_run.specs.declared.answers.Fault.TheVariants.{Memory};

use crate::answers::{Answer, Fault, Which, found};
use map_lint::lint as find_faults;
use mem_base::Command;
use scope_lines::add_finding_lines;
use script_lines::Line;
use script_lint::{add_idle_block, add_refusals, add_unclosed};
use script_map::{RefusedLine, ScriptMap, after};
use script_text::{ParseFault, Script, parse};
use std::alloc::{AllocError, Global};

// What looks wrong in the lines of a script.
fn add_line_findings(
    alloc: Global,
    text: &mut Line,
    lines: &[(u32, Command)],
    refused: &[RefusedLine],
) -> Result<(), AllocError>
    ensures { OnOk result (text.new ≡ text.old ++ line_findings_text lines.now refused.now) }
{
    add_refusals(text, lines, refused)?;
    add_unclosed(alloc, text, lines, refused)?;
    add_idle_block(text, lines)
}

// The same, and what looks wrong in the map.
fn text_of(alloc: Global, script: &Script, map: &ScriptMap) -> Result<Line, AllocError>
    ensures { IfOk result (λ text. text ≡ line_findings_text script.now map.now.refused ++ faults_text (left_state map.now)) }
{
    let mut text = Line::new(alloc);
    add_line_findings(alloc, &mut text, script.lines(), map.refused())?;
    let findings = find_faults(alloc, map.generation())?;
    add_finding_lines(&mut text, map.names(), &findings)?;
    Ok(text)
}

// The same of the map that the script left, which is let go then.
fn text_after(alloc: Global, script: &Script, map: ScriptMap) -> Result<Line, AllocError>
    ensures { IfOk result (λ text. text ≡ line_findings_text script.now map.refused ++ faults_text (left_state map)) }
{
    let text = text_of(alloc, script, &map);
    drop(map);
    text
}

fn lint_script(alloc: Global, script: &Script) -> Result<Answer, Fault>
    ensures text { IfOk result (λ a. a.text ≡ lint_text script.now) }
    ensures something { IfOk result (λ a. a.something ≡ tells_something a.text) }
    ensures fails { IfErr result (λ fault. fault ≡ Memory) }
{
    let map = after(alloc, script)?;
    let text = text_after(alloc, script, map)?;
    Ok(found(text))
}

/// What looks wrong in a script and in the map that it leaves: the commands that are refused, each with the refused line that takes it along,
/// transactions that are left open, a block in which nothing runs side by side, and the findings of `map_lint`.
///
/// There is something to mend just where the text is not empty. It answers `Script` where the text is no script.
pub fn lint(alloc: Global, script: &[u8]) -> Result<Answer, Fault>
    ensures told { IfOk result (λ a. OfScript script.now (λ lines. a.text ≡ lint_text lines)) }
    ensures something { IfOk result (λ a. a.something ≡ tells_something a.text) }
    ensures fails { IfErr result (λ fault. FailsOn script.now None None fault) }
{
    match parse(alloc, script) {
        Ok(parsed) => lint_script(alloc, &parsed),
        Err(ParseFault::Bad(bad)) => Err(Fault::Script {
            which: Which::First,
            bad,
        }),
        Err(ParseFault::Memory) => Err(Fault::Memory),
    }
}
