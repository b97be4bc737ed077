// The run of a script's text, on a machine of its own.
ghost use Rattle.std.specs.Prelude.{◌≡◌, IfOk, MatchResult, Ok, Err};
ghost use Rattle.mem_base.specs.script.RefusalLines.{bad_line};
ghost use Rattle.mem_base.specs.script.Run.{text_of};
ghost use Rattle.mem_base.specs.script.Scripts.{script_of};
ghost use Rattle.libvobrekan.specs.Answers.{code_memory};
ghost use Rattle.libvobrekan.specs.Buffers.{put_bytes};
ghost use Rattle.libvobrekan.specs.Scripts.{run_told, text_of_run};

use crate::answers::{Answer, done, no_script, of_refusal};
use crate::buffers::copy_first;
use crate::kept::Kept;
use mem_base::{BadScript, Refusal};
use script_lines::{Line, add_bad_line};
use script_text::{ParseFault, Script, parse};
use script_world::run;
use std::alloc::{AllocError, Global};

// What the run of a script writes.
fn written(alloc: Global, script: &Script) -> Result<Vec<u8>, AllocError>
    ensures { IfOk result (λ text. text.items ≡ text_of script.now) }
{
    let mut kept = Kept::new(alloc);
    match run(alloc, script, &mut kept) {
        Ok(()) => Ok(kept.into_vec()),
        Err(_) => Err(AllocError),
    }
}

// The line of a text that is no script.
fn line_of(alloc: Global, bad: BadScript) -> Result<Line, AllocError>
    ensures { IfOk result (λ line. line ≡ bad_line bad) }
{
    let mut line = Line::new(alloc);
    add_bad_line(&mut line, bad)?;
    Ok(line)
}

// The run of a script, into a buffer.
fn run_script(alloc: Global, script: &Script, out: &mut [u8]) -> Result<Answer, AllocError>
    ensures answer { IfOk result (λ answer. answer ≡ run_told (Ok script.now)) }
    ensures out { MatchResult result (λ answer. out.new ≡ put_bytes (text_of script.now) out.old) (λ e. out.new ≡ out.old) }
{
    let text = written(alloc, script)?;
    copy_first(&text, out);
    Ok(done(text.len() as u64, 0))
}

// The line of a text that is no script, into a buffer.
fn refuse(alloc: Global, bad: BadScript, out: &mut [u8]) -> Result<Answer, AllocError>
    ensures answer { IfOk result (λ answer. answer ≡ run_told (Err bad)) }
    ensures out { MatchResult result (λ answer. out.new ≡ put_bytes (bad_line bad) out.old) (λ e. out.new ≡ out.old) }
{
    let line = line_of(alloc, bad)?;
    let text = line.as_bytes();
    copy_first(text, out);
    Ok(no_script(text.len() as u64, bad.line))
}

// The run of a text, into a buffer.
fn run_text(alloc: Global, script: &[u8], out: &mut [u8]) -> Result<Answer, AllocError>
    ensures answer { IfOk result (λ answer. answer ≡ run_told (script_of script.now)) }
    ensures out { MatchResult result (λ answer. out.new ≡ put_bytes (text_of_run (script_of script.now)) out.old) (λ e. out.new ≡ out.old) }
{
    match parse(alloc, script) {
        Ok(script) => {
            let answer = run_script(alloc, &script, out)?;
            Ok(answer)
        }
        Err(ParseFault::Bad(bad)) => {
            let answer = refuse(alloc, bad, out)?;
            Ok(answer)
        }
        Err(ParseFault::Memory) => Err(AllocError),
    }
}

/// Runs a script on a machine of its own: `out` has as many bytes of what it writes as there is room for, and `value` of the answer is
/// how many there are.
///
/// Of a text that is no script, with the code 25, the line of its first fault is written, and `other` of the answer is the number of
/// that line: 0 where the text as a whole is too long. Where memory runs out nothing is written. It needs no handle.
#[unsafe(no_mangle)]
pub extern "C" fn vb_run(alloc: Global, script: &[u8], out: &mut [u8]) -> Answer
    ensures ran { (result.code ≡ code_memory → ⊥) → result ≡ run_told (script_of script.now) }
    ensures written { (result.code ≡ code_memory → ⊥) → out.new ≡ put_bytes (text_of_run (script_of script.now)) out.old }
    ensures memory { result.code ≡ code_memory → out.new ≡ out.old }
{
    match run_text(alloc, script, out) {
        Ok(answer) => answer,
        Err(AllocError) => of_refusal(Refusal::Memory),
    }
}
