// The top call over ends that fail, give little, or take little, and its answers to other words.

use crate::runs::{ROOM, USAGE, end_in_threads, end_of, run_into, says, words_of};
use mem_base::{BadScript, Cause};
use outside::{CalmSource, MemSink, MemSource, OpenGate, StdSink, StdSource};
use std::alloc::{AllocError, Global};
use std::io::{self, ErrorKind, Read, Write};
use std::process::ExitCode;
use std::sync::Wait;
use std::thread::Threads;
use top_call::{Ending, exit_code};

/// The map of the manual's picture, on a machine with the least memory.
const SCRIPT: &str = "machine 4K\n\
                  region A container 0x8000\n\
                  region B container 0x4000\n\
                  region C io 0x6000 latch\n\
                  region D io 0x1000 latch\n\
                  region E io 0x1000 latch\n\
                  add A 0x2000 B prio 2\n\
                  add A 0 C prio 1\n\
                  add B 0 D\n\
                  add B 0x2000 E\n\
                  space S A\n\
                  show S\n";

/// What it writes: 6 lines, which end at the bytes 10, 25, 43, 64, 82 and 103.
const TEXT: &str = "view S g5\n\
                    0-1fff C @0 io\n\
                    2000-2fff D @0 io\n\
                    3000-3fff C @3000 io\n\
                    4000-4fff E @0 io\n\
                    5000-5fff C @5000 io\n";

const ALL: usize = 103;

/// Lines of many forms.
const FORMS: &str = "machine 16K\n\
                 region R ram 0x1000\n\
                 region M iommu 0x1000\n\
                 region D io 8 latch valid 1-4 impl 2-4 big\n\
                 space mem R\n\
                 space bus M\n\
                 load R 0x10 a1a2\n\
                 map M 0 0x1000 mem 0 rw\n\
                 watch W M 0 0xfff\n\
                 event D 0 4 7 data 0x55\n\
                 v0 read bus 0x10 2\n\
                 v0 dma mem 0 4 to bus 8\n\
                 log R vga on\n\
                 dirty R vga\n";

/// A reader that gives one byte a call.
#[derive(Drop)]
struct Drip<'a>(&'a [u8]);

impl Read for Drip<'_> {
    fn read(&mut self, buf: &mut [u8]) -> io::Result<usize> {
        let count = buf.len().min(1);
        self.0.read(&mut buf[..count])
    }
}

/// A reader that gives one byte a call, and fails where it has none left.
#[derive(Drop)]
struct Broken<'a>(&'a [u8]);

impl Read for Broken<'_> {
    fn read(&mut self, buf: &mut [u8]) -> io::Result<usize> {
        if self.0.is_empty() {
            return Err(io::Error::from(ErrorKind::UnexpectedEof));
        }
        let count = buf.len().min(1);
        self.0.read(&mut buf[..count])
    }
}

/// A writer that takes one byte a call.
#[derive(Drop)]
struct Slow<'a>(&'a mut Vec<u8>);

impl Write for Slow<'_> {
    fn write(&mut self, buf: &[u8]) -> io::Result<usize> {
        let count = buf.len().min(1);
        self.0.write(&buf[..count])
    }

    fn flush(&mut self) -> io::Result<()> {
        Ok(())
    }
}

/// Whether the whole text is written of a reader that gives one byte a call.
fn drips(alloc: Global) -> Result<bool, AllocError> {
    let mut source = StdSource::new(Drip(SCRIPT.as_bytes()));
    let ended = run_into(alloc, &mut source, TEXT, ROOM, 0)?;
    Ok(ended == Some((Ending::Done, ALL)))
}

#[test]
fn a_byte_a_call_gives_the_same_text(rt: HostRuntime) {
    assert!(rt; drips(rt.alloc()) == Ok(true));
}

/// Whether a writer that takes one byte a call gets the whole text.
fn goes_slowly(alloc: Global) -> Result<bool, AllocError> {
    let mut source = CalmSource::new(SCRIPT.as_bytes().to_vec(alloc)?);
    let mut written = Vec::new(alloc);
    let mut sink = StdSink::new(Slow(&mut written));
    let ending = end_of(alloc, "run", &mut source, &mut sink)?;
    Ok(ending == Ending::Done && written.as_slice() == TEXT.as_bytes())
}

#[test]
fn a_writer_that_takes_a_byte_a_call_gets_the_same_text(rt: HostRuntime) {
    assert!(rt; goes_slowly(rt.alloc()) == Ok(true));
}

/// Whether nothing is written where a reader breaks after these bytes.
fn breaks_after(alloc: Global, front: &[u8]) -> Result<bool, AllocError> {
    let mut source = StdSource::new(Broken(front));
    let ended = run_into(alloc, &mut source, TEXT, ROOM, 0)?;
    Ok(ended == Some((Ending::ReadFault, 0)))
}

/// The first number of bytes of the script after which something is.
fn first_unbroken(alloc: Global) -> Result<Option<usize>, AllocError> {
    for (count, _) in SCRIPT.as_bytes().iter().enumerate() {
        if !breaks_after(alloc, &SCRIPT.as_bytes()[..count])? {
            return Ok(Some(count));
        }
    }
    Ok(None)
}

#[test]
fn a_reader_that_breaks_after_any_byte_has_nothing_written(rt: HostRuntime) {
    let count = first_unbroken(rt.alloc());
    assert!(rt; count == Ok(None), "{count:?} bytes");
}

/// How the script ends over a writer that has this room and no more.
fn end_in(alloc: Global, room: &mut [u8]) -> Result<Ending, AllocError> {
    let mut source = CalmSource::new(SCRIPT.as_bytes().to_vec(alloc)?);
    let mut sink = StdSink::new(room);
    end_of(alloc, "run", &mut source, &mut sink)
}

/// Whether the room for the first bytes, one more each time, is filled by the text, up to that for all.
fn fills_all(alloc: Global, room: &mut Vec<u8>) -> Result<bool, AllocError> {
    for byte in TEXT.as_bytes() {
        let ending = end_in(alloc, room.as_mut_slice())?;
        if ending != Ending::WriteFault || !TEXT.as_bytes().starts_with(room.as_slice()) {
            return Ok(false);
        }
        room.push(!*byte)?;
    }
    let ending = end_in(alloc, room.as_mut_slice())?;
    Ok(ending == Ending::Done && room.as_slice() == TEXT.as_bytes())
}

/// The same from no room on.
fn fills(alloc: Global) -> Result<bool, AllocError> {
    let mut room = Vec::new(alloc);
    let is_so = fills_all(alloc, &mut room);
    is_so
}

#[test]
fn a_writer_that_is_full_after_any_byte_has_the_text_up_to_there(rt: HostRuntime) {
    assert!(rt; fills(rt.alloc()) == Ok(true));
}

/// The number of the read that fails, that of the write that fails, the room, the ending, and how many bytes are written. Calls are
/// counted from 1, so call 0 never fails.
type Row = (u32, u32, usize, Ending, usize);

/// The first call gives the whole script, the second the end of input.
static READS: [Row; 3] = [
    (1, 0, ROOM, Ending::ReadFault, 0),
    (2, 0, ROOM, Ending::ReadFault, 0),
    (3, 0, ROOM, Ending::Done, ALL),
];

/// Each line is one write.
static WRITES: [Row; 7] = [
    (0, 1, ROOM, Ending::WriteFault, 0),
    (0, 2, ROOM, Ending::WriteFault, 10),
    (0, 3, ROOM, Ending::WriteFault, 25),
    (0, 4, ROOM, Ending::WriteFault, 43),
    (0, 5, ROOM, Ending::WriteFault, 64),
    (0, 6, ROOM, Ending::WriteFault, 82),
    (0, 7, ROOM, Ending::Done, ALL),
];

static ROOMS: [Row; 6] = [
    (0, 0, 0, Ending::WriteFault, 0),
    (0, 0, 9, Ending::WriteFault, 0),
    (0, 0, 10, Ending::WriteFault, 10),
    (0, 0, 24, Ending::WriteFault, 10),
    (0, 0, 102, Ending::WriteFault, 82),
    (0, 0, 103, Ending::Done, ALL),
];

/// Whether a row is so.
fn is_row(alloc: Global, row: &Row) -> Result<bool, AllocError> {
    let (failing_read, failing_write, room, want, len) = *row;
    let fails = [failing_read].to_vec(alloc)?;
    let mut source = MemSource::new(SCRIPT.as_bytes().to_vec(alloc)?, fails);
    let ended = run_into(alloc, &mut source, TEXT, room, failing_write)?;
    Ok(ended == Some((want, len)))
}

/// The number of the first row that is not.
fn first_other(alloc: Global, rows: &[Row]) -> Result<Option<usize>, AllocError> {
    for (i, row) in rows.iter().enumerate() {
        if !is_row(alloc, row)? {
            return Ok(Some(i));
        }
    }
    Ok(None)
}

#[test]
fn with_a_read_that_fails_nothing_is_written(rt: HostRuntime) {
    let other = first_other(rt.alloc(), &READS);
    assert!(rt; other == Ok(None), "row {other:?}");
}

#[test]
fn a_write_that_fails_leaves_the_lines_before_it(rt: HostRuntime) {
    let other = first_other(rt.alloc(), &WRITES);
    assert!(rt; other == Ok(None), "row {other:?}");
}

#[test]
fn a_line_beyond_the_room_is_not_written(rt: HostRuntime) {
    let other = first_other(rt.alloc(), &ROOMS);
    assert!(rt; other == Ok(None), "row {other:?}");
}

/// A faulty script, where it is at fault, and what is told of it.
type Faulty = (&'static str, u32, Cause, &'static str);

static FAULTY: [Faulty; 8] = [
    (
        "region A container 1\n\nfrob\n",
        3,
        Cause::Word,
        "bad script line 3 word\n",
    ),
    (
        "region A container 0x10000000000000001\n",
        1,
        Cause::Number,
        "bad script line 1 number\n",
    ),
    (
        "region a23456789012345678901234567890123 ram 1\n",
        1,
        Cause::Name,
        "bad script line 1 name\n",
    ),
    ("v16 enter\n", 1, Cause::Word, "bad script line 1 word\n"),
    ("v01 enter\n", 1, Cause::Word, "bad script line 1 word\n"),
    ("begin\0\n", 1, Cause::Byte, "bad script line 1 byte\n"),
    ("begin now\n", 1, Cause::Count, "bad script line 1 count\n"),
    (
        "begin\nmachine 8K\n",
        2,
        Cause::Place,
        "bad script line 2 place\n",
    ),
];

/// Whether these words and this script are answered by this ending and this text, and by a write fault where nothing may be written.
fn is_told(
    alloc: Global,
    asked: (&str, &[u8]),
    answer: (Ending, &str),
) -> Result<bool, AllocError> {
    let told = says(alloc, asked, ROOM, answer)?;
    let mute = says(alloc, asked, 0, (Ending::WriteFault, ""))?;
    Ok(told && mute)
}

/// The number of the first faulty script that is not told so.
fn first_untold(alloc: Global) -> Result<Option<usize>, AllocError> {
    for (i, (script, line, cause, text)) in FAULTY.iter().enumerate() {
        let bad = BadScript {
            line: *line,
            cause: *cause,
        };
        let asked = ("run", script.as_bytes());
        if !is_told(alloc, asked, (Ending::BadScript(bad), *text))? {
            return Ok(Some(i));
        }
    }
    Ok(None)
}

#[test]
fn a_faulty_script_is_told_unless_the_write_fails(rt: HostRuntime) {
    let other = first_untold(rt.alloc());
    assert!(rt; other == Ok(None), "row {other:?}");
}

static CALM: [&str; 4] = [
    "",
    "region A container 1",
    "# nothing\n\n  \t\n",
    "begin\r\n",
];

/// The number of the first script without commands, or without its last line feed, that is not done with nothing written.
fn first_loud(alloc: Global) -> Result<Option<usize>, AllocError> {
    for (i, script) in CALM.iter().enumerate() {
        if !says(alloc, ("run", script.as_bytes()), ROOM, (Ending::Done, ""))? {
            return Ok(Some(i));
        }
    }
    Ok(None)
}

#[test]
fn a_script_may_be_empty_or_lack_its_last_line_feed(rt: HostRuntime) {
    let other = first_loud(rt.alloc());
    assert!(rt; other == Ok(None), "row {other:?}");
}

/// How `run` ends of this script.
fn ending_of(alloc: Global, script: &[u8]) -> Result<Ending, AllocError> {
    let mut source = CalmSource::new(script.to_vec(alloc)?);
    let mut sink = MemSink::new(alloc, ROOM, Vec::new(alloc))?;
    end_of(alloc, "run", &mut source, &mut sink)
}

/// Whether the first bytes of a script run, or are faulty in their last line.
fn is_judged(alloc: Global, front: &[u8]) -> Result<bool, AllocError> {
    let mut last: u32 = 1;
    for byte in front {
        if *byte == b'\n' {
            last = last.saturating_add(1);
        }
    }
    Ok(match ending_of(alloc, front)? {
        Ending::BadScript(bad) => bad.line == last,
        other => other == Ending::Done,
    })
}

/// The first number of bytes that are not.
fn first_misjudged(alloc: Global) -> Result<Option<usize>, AllocError> {
    for (count, _) in FORMS.as_bytes().iter().enumerate() {
        if !is_judged(alloc, &FORMS.as_bytes()[..count])? {
            return Ok(Some(count));
        }
    }
    Ok(None)
}

#[test]
fn each_prefix_of_a_script_runs_or_is_faulty_in_its_last_line(rt: HostRuntime) {
    let count = first_misjudged(rt.alloc());
    assert!(rt; count == Ok(None), "the first {count:?} bytes");
}

/// Whether one comment of 1,048,576 bytes is a script, and one byte more is too long.
fn has_its_length(alloc: Global) -> Result<bool, AllocError> {
    let mut text = vec![in alloc; b'#'; 1_048_576]?;
    let most = says(alloc, ("run", text.as_slice()), ROOM, (Ending::Done, ""))?;
    text.push(b'#')?;
    let bad = Ending::BadScript(BadScript {
        line: 0,
        cause: Cause::Long,
    });
    let told = (bad, "bad script line 0 long\n");
    let more = says(alloc, ("run", text.as_slice()), ROOM, told)?;
    Ok(most && more)
}

#[test]
fn a_text_has_at_most_1048576_bytes(rt: HostRuntime) {
    assert!(rt; has_its_length(rt.alloc()) == Ok(true));
}

/// Words that have no meaning, a line each; of the first line there are none.
const WORDS: &str = "\n\
run run\n\
Run\n\
runs\n\
-h\n\
--help\n\
help\n\
make\n\
make x\n\
make -1\n\
demo\n\
make 18446744073709551616\n\
run -\n\
-- run";

/// The number of the first line of words that is not told the usage, or where nothing may be written is not told that.
fn first_used(alloc: Global) -> Result<Option<usize>, AllocError> {
    for (i, words) in WORDS.split('\n').enumerate() {
        if !is_told(alloc, (words, SCRIPT.as_bytes()), (Ending::Usage, USAGE))? {
            return Ok(Some(i));
        }
    }
    Ok(None)
}

#[test]
fn other_words_are_told_the_usage(rt: HostRuntime) {
    let other = first_used(rt.alloc());
    assert!(rt; other == Ok(None), "line {other:?}");
}

/// Whether a word is answered so, and a machine is kept or not.
fn keeps<R: Threads + Wait + Sync>(
    rt: &R,
    alloc: Global,
    word: &str,
    (want, text): (Ending, &str),
    keeps: bool,
) -> Result<bool, AllocError> {
    let script = b"region X io 1 latch\nspace S X\nat S 0\n";
    let words = words_of(alloc, word)?;
    let mut source = CalmSource::new(script.to_vec(alloc)?);
    let mut sink = MemSink::new(alloc, ROOM, Vec::new(alloc))?;
    let words = words.as_slice();
    let (ending, kept) = end_in_threads(rt, alloc, words, &mut source, &mut sink, &OpenGate);
    Ok(ending == want && kept == keeps && sink.written() == text.as_bytes())
}

#[test]
fn the_top_call_keeps_the_machine_of_a_race_alone(rt: HostRuntime) {
    let done = (Ending::Done, "at S 0 X @0 io\n");
    assert!(rt; keeps(&rt, rt.alloc(), "run", done, false) == Ok(true));
    assert!(rt; keeps(&rt, rt.alloc(), "race", done, true) == Ok(true));
    assert!(rt; keeps(&rt, rt.alloc(), "races", (Ending::Usage, USAGE), false) == Ok(true));
}

/// Whether a generated script begins and ends as defined.
fn is_generated(alloc: Global) -> Result<bool, AllocError> {
    let front = b"machine 0x1000000\nregion sys container 0x40000000\nbegin\nspace s sys\n";
    let mut source = CalmSource::new(Vec::new(alloc));
    let mut sink = MemSink::new(alloc, 1_048_576, Vec::new(alloc))?;
    let ending = end_of(alloc, "make 1", &mut source, &mut sink)?;
    let text = sink.written();
    let is_framed = text.starts_with(front.as_slice()) && text.ends_with(b"\nshow s\n".as_slice());
    Ok(ending == Ending::Done && is_framed)
}

#[test]
fn a_generated_script_begins_and_ends_as_defined(rt: HostRuntime) {
    assert!(rt; is_generated(rt.alloc()) == Ok(true));
}

/// What the program writes of this source for these words.
fn written_for(alloc: Global, words: &str, script: &[u8]) -> Result<Vec<u8>, AllocError> {
    let mut source = CalmSource::new(script.to_vec(alloc)?);
    let mut written = Vec::new(alloc);
    let mut sink = StdSink::new(&mut written);
    end_of(alloc, words, &mut source, &mut sink)?;
    Ok(written)
}

/// How many lines begin and end so.
fn count_lines(text: &str, front: &str, back: &str) -> usize {
    text.lines()
        .filter(|line| line.starts_with(front) && line.ends_with(back))
        .count()
}

/// How many lines, refusals, good accesses, errors and decode errors a run's text has, and how many ranges its last view, by plain searches.
fn counts_in(text: &str) -> [usize; 6] {
    let both = count_lines(text, "", " error+decode");
    let ranges = text.rsplit_once("view ").map_or("", |cut| cut.1);
    [
        count_lines(text, "", ""),
        count_lines(text, "refused ", ""),
        count_lines(text, "", " ok"),
        count_lines(text, "", " error").saturating_add(both),
        count_lines(text, "", " decode").saturating_add(both),
        count_lines(ranges, "", "").saturating_sub(1),
    ]
}

/// The number of the generation that a run's text shows last.
fn generation_in(text: &str) -> &str {
    let view = text.rsplit_once("view ").map_or("", |cut| cut.1);
    let head = view.split_once('\n').map_or("", |cut| cut.0);
    head.rsplit_once(" g").map_or("", |cut| cut.1)
}

/// The summary of a run's text that ends with a view, by plain searches in it.
fn summary_of(alloc: Global, text: &str) -> Result<String, AllocError> {
    let [lines, refused, ok, error, decode, ranges] = counts_in(text);
    let generation = generation_in(text);
    format!(in alloc;
        "lines {lines}\nrefused {refused}\nok {ok}\nerror {error}\ndecode {decode}\nranges {ranges}\ngeneration {generation}\n"
    )
}

/// Whether `demo` writes the summary of what the run of its script writes, which has some 2,000 lines.
fn is_summed_up(alloc: Global) -> Result<bool, AllocError> {
    let script = written_for(alloc, "make 7", b"")?;
    let written = written_for(alloc, "run", script.as_slice())?;
    let told = written_for(alloc, "demo 7", b"")?;
    let want = summary_of(alloc, str::from_utf8(&written).unwrap_or(""))?;
    Ok(want.as_str().starts_with("lines 2") && told.as_slice() == want.as_bytes())
}

#[test]
fn demo_counts_the_lines_that_the_run_of_its_script_writes(rt: HostRuntime) {
    assert!(rt; is_summed_up(rt.alloc()) == Ok(true));
}

/// Whether the process exits with this status; calls are counted from 1, so call 0 never fails.
fn exits<R: Threads + Wait + Sync>(
    rt: &R,
    alloc: Global,
    (word, script): (&str, &str),
    (failing_read, failing_write): (u32, u32),
    status: u8,
) -> Result<bool, AllocError> {
    let words = words_of(alloc, word)?;
    let reads = [failing_read].to_vec(alloc)?;
    let writes = [failing_write].to_vec(alloc)?;
    let mut source = MemSource::new(script.as_bytes().to_vec(alloc)?, reads);
    let mut sink = MemSink::new(alloc, ROOM, writes)?;
    let code = exit_code(rt, alloc, words.as_slice(), &mut source, &mut sink);
    Ok(code == ExitCode::from(status))
}

#[test]
fn the_exit_code_is_that_of_the_ending(rt: HostRuntime) {
    for (asked, fails, status) in [
        (("run", SCRIPT), (0, 0), 0),
        (("runs", SCRIPT), (0, 0), 2),
        (("run", "frob\n"), (0, 0), 3),
        (("run", SCRIPT), (1, 0), 4),
        (("run", SCRIPT), (0, 1), 5),
    ] {
        assert!(rt;
            exits(&rt, rt.alloc(), asked, fails, status) == Ok(true),
            "{status}"
        );
    }
}
