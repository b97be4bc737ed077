// The machine on which a script races, made while the script is read.
ghost use Rattle.std.specs.Prelude.{◌≡◌, ◌≤◌, IfOk, IfSome};
ghost use Rattle.std.specs.Arc.{arc_value};
ghost use Rattle.mem_base.specs.script.Run.{pool_words};
ghost use Rattle.mem_base.specs.script.Scripts.{script_of};
ghost use Rattle.mem_base.specs.map.Limits.{most_words};
ghost use Rattle.script_text.specs.Parses.{Parses};
ghost use Rattle.race_run.specs.Ends.{IsFresh};

use mem_base::MOST_PASSES;
use race_run::{Cabinet, Config, Generation};
use script_text::{ParseFault, Script, parse, pool_words};
use std::alloc::{AllocError, Global};
use std::sync::Arc;
use std::thread::{self, Threads};

/// A machine, by what its virtual CPUs share and the desk by which it is changed.
pub(crate) type Machine = (Arc<Cabinet<Generation>, Global>, Config);

// How many words a machine has besides those of its pool, at most.
const OTHER_WORDS: usize = 4096;

// Asks for as much memory as the words of a machine take, and gives it back.
//
// The words are made of zeros, which are let go at once. Where the system's allocator was given back memory of that size before, it keeps what
// it is given back then, and what follows takes the place of the zeros; else that would be put on pages that nobody touched yet.
fn ask_once(alloc: Global, pool: usize)
    requires { pool ≤ most_words }
{
    drop(Vec::<u64>::with_capacity(alloc, pool + OTHER_WORDS));
}

// A machine on which nothing was done yet, with a pool of this many words of 8 bytes.
fn make(alloc: Global, pool: usize) -> Result<Machine, AllocError>
    requires { pool ≤ most_words }
    ensures own { IfOk result (λ machine. machine.1.seat.cabinet ≡ (arc_value machine.0).id) }
    ensures fresh { IfOk result (λ machine. IsFresh pool machine.1) }
{
    ask_once(alloc, pool);
    Config::new(alloc, pool, MOST_PASSES)
}

/// The words of the pool of a script, which is no larger than the largest one.
pub(crate) fn pool_of_script(script: &Script) -> usize
    ensures words { result ≡ pool_words script.now }
    ensures small { result ≤ most_words }
{
    script.knows_sound();
    pool_words(script)
}

// The words of the pool that a script of this line alone has. There are none where the line has no command, or where it is no script.
fn pool_of_line(alloc: Global, line: &[u8]) -> Option<usize>
    ensures { IfSome result (λ words. words ≤ most_words) }
{
    let Ok(script) = parse(alloc, line) else {
        return None;
    };
    let words = pool_of_script(&script);
    let is_blank = script.lines().is_empty();
    drop(script);
    if is_blank { None } else { Some(words) }
}

/// The words of the pool that a text names, as the first of its lines that is a script by itself says, before the text is read. A text
/// that is no script may have others, and so may one with no command but `par` and `end`, of which 0 is answered.
pub(crate) fn pool_ahead(alloc: Global, text: &[u8]) -> usize
    ensures { result ≤ most_words }
{
    for line in text.split_inclusive(|byte| *byte == b'\n') {
        if let Some(words) = pool_of_line(alloc, line) {
            return words;
        }
    }
    0
}

/// The script that a text is, and a machine with a pool of this many words, one made beside the other: to make the words of a
/// machine takes about as long as to read a script of half a megabyte.
pub(crate) fn parse_and_make<R: Threads>(
    rt: &R,
    alloc: Global,
    text: &[u8],
    pool: usize,
) -> (Result<Script, ParseFault>, Result<Machine, AllocError>)
    requires { pool ≤ most_words }
    ensures script { Parses result.0 (script_of text.now) }
    ensures own { IfOk result.1 (λ machine. machine.1.seat.cabinet ≡ (arc_value machine.0).id) }
    ensures fresh { IfOk result.1 (λ machine. IsFresh pool machine.1) }
{
    thread::join(rt, move || parse(alloc, text), || make(alloc, pool))
}

/// A machine that was made with a pool of `pool` words, where `wanted` are wanted: another one where these are not the same.
pub(crate) fn with_pool(
    alloc: Global,
    made: Result<Machine, AllocError>,
    pool: usize,
    wanted: usize,
) -> Result<Machine, AllocError>
    requires small { wanted ≤ most_words }
    requires own { IfOk made (λ machine. machine.1.seat.cabinet ≡ (arc_value machine.0).id) }
    requires fresh { IfOk made (λ machine. IsFresh pool machine.1) }
    ensures own { IfOk result (λ machine. machine.1.seat.cabinet ≡ (arc_value machine.0).id) }
    ensures fresh { IfOk result (λ machine. IsFresh wanted machine.1) }
{
    if pool == wanted {
        return made;
    }
    drop(made);
    make(alloc, wanted)
}
