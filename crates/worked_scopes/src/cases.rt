// The scripts that the input has.
ghost use Rattle.std.specs.Prelude.{◌<◌, length, IfSome};

/// A script with its name, and the words that it is run with, between single spaces.
#[derive(Clone, Copy, Debug)]
pub(crate) struct Case<'a> {
    pub(crate) name: &'a str,
    pub(crate) words: &'a str,
    pub(crate) script: &'a [u8],
}

// The name, the length and the words of a line `=== NAME LENGTH WORDS`.
fn parts_of_heading(line: &[u8]) -> Option<(&str, usize, &str)> {
    let line = str::from_utf8(line).ok()?;
    let (name, rest) = line.strip_prefix("=== ")?.split_once(' ')?;
    let (len, words) = rest.split_once(' ')?;
    let len = len.parse::<usize>().ok()?;
    Some((name, len, words))
}

/// The first script of the input, and what comes after it; none where no whole script is there.
pub(crate) fn first_case(text: &[u8]) -> Option<(Case<'_>, &[u8])>
    ensures { IfSome result (λ found. length found.1.now < length text.now) }
{
    let end = text.iter().position(|byte| *byte == b'\n')?;
    let (line, rest) = text.split_at_checked(end)?;
    let (_, rest) = rest.split_first()?;
    let (name, len, words) = parts_of_heading(line)?;
    let (script, rest) = rest.split_at_checked(len)?;
    let (_, rest) = rest.split_first()?;
    let case = Case {
        name,
        words,
        script,
    };
    Some((case, rest))
}
