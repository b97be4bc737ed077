// `import` and `check`.
ghost use Rattle.std.specs.Prelude.{◌≡◌, IfErr, IfOk};
ghost use Rattle.serde_json.specs.View.{view};
ghost use Rattle.outside.specs.Causes.{Rose};
ghost use Rattle.scope_run.specs.Requests.{FailsFor};
ghost use Rattle.scope_json.specs.Answers.{AnswersWith};
ghost use Rattle.scope_json.specs.Monitors.{check_data, import_data};

use crate::answers::{Told, answer_to};
use json_build::Value;
use scope_run::{Answer, Fault, Files, Request, answer_check, answer_import};
use std::alloc::{AllocError, Global};

// A script that was made.
fn import_value(alloc: Global, answer: &Answer) -> Result<Value, AllocError>
    ensures { IfOk result (λ v. view v ≡ import_data answer.now.text) }
{
    let mut fields = answer_to(alloc, "import")?;
    fields.name(alloc, "script", answer.text.as_bytes())?;
    Ok(fields.object())
}

// What is told of the spaces.
fn check_value(alloc: Global, answer: &Answer) -> Result<Value, AllocError>
    ensures { IfOk result (λ v. view v ≡ check_data answer.now.text) }
{
    let mut fields = answer_to(alloc, "check")?;
    fields.name(alloc, "spaces", answer.text.as_bytes())?;
    Ok(fields.object())
}

/// The script of what QEMU's monitor printed.
pub(crate) fn import<F: Files>(
    alloc: Global,
    files: &mut F,
    tree: &str,
    flat: Option<&str>,
    spaces: Option<&str>,
) -> Result<Told, Fault>
    ensures told { IfOk result
        (λ t. AnswersWith (Request.Import tree.entry flat.entry spaces.entry) (F.held files.old) (view t.value) t.something) }
    ensures fails { IfErr result (λ fault. FailsFor (Request.Import tree.entry flat.entry spaces.entry) (F.held files.old)
        (Rose (F.faults files.old) (F.faults files.new)) fault) }
{
    let answer = answer_import(alloc, files, tree, flat, spaces)?;
    let value = import_value(alloc, &answer)?;
    Ok(Told {
        value,
        something: answer.something,
    })
}

/// Whether the spaces of a script show what QEMU's monitor printed.
pub(crate) fn check<F: Files>(
    alloc: Global,
    files: &mut F,
    script: &str,
    flat: &str,
) -> Result<Told, Fault>
    ensures told { IfOk result (λ t. AnswersWith (Request.Check script.entry flat.entry) (F.held files.old) (view t.value) t.something) }
    ensures fails { IfErr result (λ fault. FailsFor (Request.Check script.entry flat.entry) (F.held files.old)
        (Rose (F.faults files.old) (F.faults files.new)) fault) }
{
    let answer = answer_check(alloc, files, script, flat)?;
    let value = check_value(alloc, &answer)?;
    Ok(Told {
        value,
        something: answer.something,
    })
}
