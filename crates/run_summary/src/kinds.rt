// What a line tells.
ghost use Rattle.std.specs.Prelude.{◌≡◌, Some, option_map, slice_get};
ghost use Rattle.mem_base.specs.script.Lines.{tokens_of};
ghost use Rattle.mem_base.specs.script.Summary.{begins_with, ends_with, generation_in, is_decode, is_error, is_ok, is_refusal};
ghost use Rattle.mem_base.specs.script.Summary.{is_view};

use script_text::{Tokens, digits};

fn begins_with(line: &[u8], front: &[u8]) -> bool
    ensures { result ≡ begins_with front.now line.now }
{
    line.split_at(line.len().min(front.len())).0 == front
}

fn ends_with(line: &[u8], back: &[u8]) -> bool
    ensures { result ≡ ends_with back.now line.now }
{
    line.split_at(line.len().saturating_sub(back.len())).1 == back
}

/// Whether it tells that a command was refused.
pub(crate) fn is_refusal(line: &[u8]) -> bool
    ensures { result ≡ is_refusal line.now }
{
    begins_with(line, b"refused ".as_slice())
}

/// Whether it ends an access without a fault.
pub(crate) fn is_ok(line: &[u8]) -> bool
    ensures { result ≡ is_ok line.now }
{
    ends_with(line, b" ok".as_slice())
}

/// Whether it ends an access with an error.
pub(crate) fn is_error(line: &[u8]) -> bool
    ensures { result ≡ is_error line.now }
{
    ends_with(line, b" error".as_slice()) || ends_with(line, b" error+decode".as_slice())
}

/// Whether it ends an access with a decode error.
pub(crate) fn is_decode(line: &[u8]) -> bool
    ensures { result ≡ is_decode line.now }
{
    ends_with(line, b" decode".as_slice()) || ends_with(line, b" error+decode".as_slice())
}

/// Whether a view begins with it.
pub(crate) fn is_view(line: &[u8]) -> bool
    ensures { result ≡ is_view line.now }
{
    begins_with(line, b"view ".as_slice())
}

// The third of the tokens of a line.
fn third_token(line: &[u8]) -> Option<&[u8]>
    ensures { option_map (λ t. t.now) result ≡ slice_get (tokens_of line.now) 2 }
{
    let mut tokens = Tokens::new(line);
    tokens.next()?;
    tokens.next()?;
    tokens.next()
}

/// The number of the generation in the first line of a view; 0 where there is none.
pub(crate) fn generation_of(line: &[u8]) -> u64
    ensures { result ≡ generation_in (Some (line.now, 0)) }
{
    match third_token(line) {
        Some([_, number @ ..]) => match digits(10, u128::from(u64::MAX), number) {
            Some(number) => number as u64,
            None => 0,
        },
        _ => 0,
    }
}
