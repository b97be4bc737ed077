// What a refusal or a cause means.
ghost use Rattle.std.specs.Prelude.{◌≡◌, IfOk};
ghost use Rattle.serde_json.specs.View.{view};
ghost use Rattle.scope_values.specs.Topics.{topic_data};

use json_build::{Fields, Value};
use script_explain::Topic;
use std::alloc::{AllocError, Global};

/// What a refusal or a cause means: its number or word, its words, what is wrong, what to do, an example, and the line that is written then.
pub fn topic(alloc: Global, topic: &Topic) -> Result<Value, AllocError>
    ensures { IfOk result (λ v. view v ≡ topic_data topic.now) }
{
    let mut fields = Fields::new(alloc);
    fields.text(alloc, "code", topic.code)?;
    fields.text(alloc, "name", topic.name)?;
    fields.text(alloc, "what", topic.what)?;
    fields.text(alloc, "advice", topic.advice)?;
    fields.text(alloc, "example", topic.example)?;
    fields.text(alloc, "answer", topic.answer)?;
    Ok(fields.object())
}
