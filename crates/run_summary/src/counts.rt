// What is counted over the lines of a text.
ghost use Rattle.std.specs.Prelude.{◌≡◌, ◌+◌, ◌<◌, ◌^◌, [], IfSome};
ghost use Rattle.run_summary.specs.Counted.{after_line, counted, generation_at, one_if, ranges_at, view_after};

use crate::kinds::{generation_of, is_decode, is_error, is_ok, is_refusal, is_view};
use std::marker::Model;

/// How many lines there were, and of which kinds; of the last view the generation, and how many lines followed its first.
#[derive(Debug, Drop)]
pub(crate) struct Counts {
    lines: u64,
    refused: u64,
    ok: u64,
    error: u64,
    decode: u64,
    view: Option<(u64, u64)>,
}

impl Model for Counts {
    ghost use Rattle.run_summary.specs.Counted.{Counted, AreCounts};

    ghost Value = { Counted };

    ghost view = { λ c. record
        { lines = c.lines; refused = c.refused; ok = c.ok; error = c.error; decode = c.decode; view = c.view } };

    ghost invariant = { λ c. AreCounts (record
        { lines = c.lines; refused = c.refused; ok = c.ok; error = c.error; decode = c.decode; view = c.view }) };
}

// One more where the test holds.
fn count_if(count: u64, test: bool) -> u64
    requires { count + 1 < 2 ^ 64 }
    ensures { result ≡ count + one_if test }
{
    if test { count + 1 } else { count }
}

// The last view after one more line.
fn view_after(view: Option<(u64, u64)>, line: &[u8]) -> Option<(u64, u64)>
    requires { IfSome view (λ v. v.1 + 1 < 2 ^ 64) }
    ensures { result ≡ view_after view line.now }
{
    if is_view(line) {
        return Some((generation_of(line), 0));
    }
    match view {
        Some((generation, ranges)) => Some((generation, ranges + 1)),
        None => None,
    }
}

impl Counts {
    /// Of no line.
    pub(crate) fn new() -> Counts
        ensures { result ≡ counted [] }
    {
        Counts {
            lines: 0,
            refused: 0,
            ok: 0,
            error: 0,
            decode: 0,
            view: None,
        }
    }

    /// Counts one more line.
    pub(crate) fn add(&mut self, line: &[u8])
        requires { self.old.lines + 1 < 2 ^ 64 }
        ensures { self.new ≡ after_line self.old line.now }
    {
        self.refused = count_if(self.refused, is_refusal(line));
        self.ok = count_if(self.ok, is_ok(line));
        self.error = count_if(self.error, is_error(line));
        self.decode = count_if(self.decode, is_decode(line));
        self.view = view_after(self.view, line);
        self.lines += 1;
    }

    pub(crate) fn lines(&self) -> u64
        ensures { result ≡ self.now.lines }
    {
        self.lines
    }

    pub(crate) fn refused(&self) -> u64
        ensures { result ≡ self.now.refused }
    {
        self.refused
    }

    pub(crate) fn ok(&self) -> u64
        ensures { result ≡ self.now.ok }
    {
        self.ok
    }

    pub(crate) fn error(&self) -> u64
        ensures { result ≡ self.now.error }
    {
        self.error
    }

    pub(crate) fn decode(&self) -> u64
        ensures { result ≡ self.now.decode }
    {
        self.decode
    }

    /// How many lines followed the first of the last view.
    pub(crate) fn ranges(&self) -> u64
        ensures { result ≡ ranges_at self.now.view }
    {
        match self.view {
            Some((_, ranges)) => ranges,
            None => 0,
        }
    }

    /// The generation of the last view.
    pub(crate) fn generation(&self) -> u64
        ensures { result ≡ generation_at self.now.view }
    {
        match self.view {
            Some((generation, _)) => generation,
            None => 0,
        }
    }
}
