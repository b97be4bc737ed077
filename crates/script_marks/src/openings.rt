// Whether a text is the beginning of some line.
ghost use Rattle.std.specs.Prelude.{◌≡◌, ◌++◌, codes, IfOk, MatchBool};
ghost use Rattle.std.specs.List.{list_all};
ghost use Rattle.mem_base.specs.script.Lines.{tokens_of};
ghost use Rattle.mem_base.specs.script.Scripts.{script_of};
ghost use Rattle.script_marks.specs.Marks.{IsShort, Opens, OpensNone, is_plain};
ghost use Rattle.script_marks.specs.Openings.{cause_in, is_own, opens_by};

use mem_base::Cause;
use script_text::{ParseFault, parse};
use std::alloc::{AllocError, Global};

/// The greatest number of bytes of a text that is looked at.
const MOST_LOOKED_AT: usize = 65_536;

fn is_plain(byte: u8) -> bool
    ensures { result ≡ is_plain byte }
{
    (byte == b'\t' || (byte >= 32 && byte <= 126)) && byte != b'#'
}

// Whether all bytes of a text may stand, outside a comment.
fn all_plain(text: &[u8]) -> bool
    ensures { result ≡ list_all is_plain text.now }
{
    text.iter().all(|byte| is_plain(*byte))
}

/// Whether a text is looked at: it has no comment, all its bytes may stand, and it is not too long.
pub(crate) fn is_short(text: &[u8]) -> bool
    ensures { MatchBool result (IsShort text.now) (IsShort text.now → ⊥) }
{
    if text.len() > MOST_LOOKED_AT {
        return false;
    }
    all_plain(text)
}

// The cause for which a text is at fault, but for where it stands; none where it has none.
fn cause_of(alloc: Global, text: &[u8]) -> Result<Option<Cause>, AllocError>
    ensures { IfOk result (λ cause. cause ≡ cause_in (script_of text.now)) }
{
    match parse(alloc, text) {
        Ok(_) => Ok(None),
        Err(ParseFault::Bad(bad)) => Ok(if bad.cause == Cause::Place {
            None
        } else {
            Some(bad.cause)
        }),
        Err(ParseFault::Memory) => Err(AllocError),
    }
}

// A text, a space and a word.
pub(crate) fn with_word(alloc: Global, text: &[u8], word: &str) -> Result<Vec<u8>, AllocError>
    ensures { IfOk result (λ whole. whole.items ≡ text.now ++ (codes " " ++ word.now)) }
{
    let mut whole = text.to_vec(alloc)?;
    whole.extend_from_slice(b" ")?;
    whole.extend_from_slice(word.as_bytes())?;
    Ok(whole)
}

fn is_own(cause: Option<Cause>) -> bool
    ensures { result ≡ is_own cause }
{
    match cause {
        Some(Cause::Word | Cause::Name | Cause::Number) => true,
        _ => false,
    }
}

// Whether a token is missing after a text: then another one is at fault there.
fn lacks(alloc: Global, text: &[u8]) -> Result<bool, AllocError>
    ensures { IfOk result (λ b. b ≡ is_own (cause_in (script_of (text.now ++ codes " ?")))) }
{
    let probed = with_word(alloc, text, "?")?;
    let cause = cause_of(alloc, probed.as_slice())?;
    Ok(is_own(cause))
}

// The same of a text with this cause.
fn goes_on(alloc: Global, text: &[u8], cause: Option<Cause>) -> Result<bool, AllocError>
    ensures { IfOk result (λ b. b ≡ opens_by cause (cause_in (script_of (text.now ++ codes " ?")))) }
{
    match cause {
        None => Ok(true),
        Some(Cause::Count) => {
            let lacking = lacks(alloc, text)?;
            Ok(lacking)
        }
        Some(
            Cause::Byte | Cause::Word | Cause::Name | Cause::Number | Cause::Place | Cause::Long,
        ) => Ok(false),
    }
}

// Whether some line begins with the tokens of a text that is looked at.
fn opens_short(alloc: Global, text: &[u8]) -> Result<bool, AllocError>
    ensures { IfOk result (λ b. b ≡ opens_by (cause_in (script_of text.now)) (cause_in (script_of (text.now ++ codes " ?")))) }
{
    let cause = cause_of(alloc, text)?;
    let open_line = goes_on(alloc, text, cause)?;
    Ok(open_line)
}

/// Whether some line of the language begins with the tokens of a text.
///
/// It answers `false` of a text that is not looked at too.
pub(crate) fn opens(alloc: Global, text: &[u8]) -> Result<bool, AllocError>
    ensures { IfOk result (λ b. MatchBool b (Opens (tokens_of text.now)) (IsShort text.now → OpensNone (tokens_of text.now))) }
{
    if !is_short(text) {
        return Ok(false);
    }
    let open_line = opens_short(alloc, text)?;
    Ok(open_line)
}
