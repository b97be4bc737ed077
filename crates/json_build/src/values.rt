// Values of JSON.
ghost use Rattle.std.specs.Prelude.{◌≡◌, ◌≤◌, IfOk, Some, string_bytes};
ghost use Rattle.serde_json.specs.Data.{depth, number, string, unsigned};
ghost use Rattle.serde_json.specs.Read.{max_depth, read};
ghost use Rattle.serde_json.specs.View.{view};
ghost use Rattle.json_build.specs.Parts.{address_of, characters, name_of};

use serde_json::Value;
use std::alloc::{AllocError, Global};

// Bytes as characters, each of the byte's number.
fn characters_of(alloc: Global, bytes: &[u8]) -> Result<String, AllocError>
    ensures { IfOk result (λ s. string_bytes s ≡ characters bytes.now) }
{
    let mut text = String::new(alloc);
    for byte in bytes {
        text.push(char::from(*byte))?;
    }
    Ok(text)
}

/// A text.
pub fn text(alloc: Global, text: &str) -> Result<Value, AllocError>
    ensures { IfOk result (λ v. view v ≡ string text.now) }
{
    Value::try_from_str(alloc, text)
}

/// The text of a name's bytes, each as the character of its number: of ASCII it is the same text.
pub fn name(alloc: Global, bytes: &[u8]) -> Result<Value, AllocError>
    ensures { IfOk result (λ v. view v ≡ name_of bytes.now) }
{
    let text = characters_of(alloc, bytes)?;
    Ok(Value::from(text))
}

/// An address or an offset, as a text of `0x` and hexadecimal digits: of 64 bits none is lost in a reader whose numbers are floats.
pub fn address(alloc: Global, addr: u64) -> Result<Value, AllocError>
    ensures { IfOk result (λ v. view v ≡ address_of addr) }
{
    let text = format!(in alloc; "0x{addr:x}")?;
    Ok(Value::from(text))
}

/// A count.
pub fn number(count: u64) -> Value
    ensures { view result ≡ number (unsigned count) }
{
    Value::from(count)
}

/// The text of a value in one line, without spaces, which reads back as the value.
///
/// It fails only where memory runs out.
pub fn text_of(alloc: Global, value: &Value) -> Result<Vec<u8>, AllocError>
    requires { depth (view value.now) ≤ max_depth }
    ensures reads_back { IfOk result (λ text. read text.items ≡ Some (view value.now)) }
{
    value.to_vec(alloc)
}
