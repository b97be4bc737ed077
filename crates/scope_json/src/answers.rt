// What a command answers.
ghost use Rattle.std.specs.Prelude.{◌≡◌, ◌≤◌, IfOk, codes};
ghost use Rattle.serde_json.specs.Data.{depth, no_members, string};
ghost use Rattle.serde_json.specs.Read.{max_depth};
ghost use Rattle.serde_json.specs.View.{view};
ghost use Rattle.json_build.specs.Held.{members};
ghost use Rattle.json_build.specs.Parts.{with_field};
ghost use Rattle.scope_json.specs.Texts.{IsJson};

use json_build::{Fields, Value, text_of};
use script_lines::Line;
use std::alloc::{AllocError, Global};

/// The answer of a command: its value, and whether it found something that the user may want to mend.
#[derive(Drop)]
pub struct Told {
    pub value: Value,
    pub something: bool,
}

/// The members of an answer, with the name of the command.
pub(crate) fn answer_to(alloc: Global, command: &str) -> Result<Fields, AllocError>
    ensures { IfOk result (λ f. members f ≡ with_field no_members (codes "command") (string command.now)) }
{
    let mut fields = Fields::new(alloc);
    fields.text(alloc, "command", command)?;
    Ok(fields)
}

/// A value as a line.
pub(crate) fn line_of(alloc: Global, value: &Value) -> Result<Line, AllocError>
    requires { depth (view value.now) ≤ max_depth }
    ensures { IfOk result (λ line. IsJson (view value.now) line) }
{
    let text = text_of(alloc, value)?;
    let mut line = Line::new(alloc);
    line.bytes(text.as_slice())?;
    line.end()?;
    Ok(line)
}
