// What each refusal and each cause means.
ghost use Rattle.std.specs.Prelude.{◌≡◌, ◌++◌, drop, option_map};
ghost use Rattle.mem_base.specs.script.Operands.{value_in};
ghost use Rattle.script_explain.specs.Topics.{causes, code_now, refusals};

/// What a refusal or a cause means. Texts of several lines have line feeds between them.
#[derive(Clone, Copy, Debug)]
pub struct Topic {
    /// Its number, or the word of a cause.
    pub code: &'static str,
    /// Its words; of a cause, that it is one.
    pub name: &'static str,
    /// What is wrong.
    pub what: &'static str,
    /// What to do.
    pub advice: &'static str,
    /// A script that shows it; where lines are left out, a comment says which.
    pub example: &'static str,
    /// What it writes.
    pub answer: &'static str,
}

// The refusal with this number or these words: F1 to F5, and then the others.
fn of_refusal(code: &[u8]) -> Option<Topic>
    ensures { option_map code_now result ≡ value_in refusals code.now }
{
    if code == b"F1".as_slice() || code == b"unknown".as_slice() {
        Some(Topic {
            code: "F1",
            name: "unknown",
            what: "a name stands for nothing, or a region has no such translation or ioeventfd",
            advice: "make it on a line before this one, or mend its spelling; names of regions, spaces, listeners and watchers are separate",
            example: "show mem",
            answer: "refused 1 F1 unknown mem",
        })
    } else if code == b"F2".as_slice() || code == b"name-taken".as_slice() {
        Some(Topic {
            code: "F2",
            name: "name-taken",
            what: "the name stands for something already, or the same listener or space is there",
            advice: "choose another name, or drop, unlisten or unwatch what has it first",
            example: "region a ram 4K\nregion a io 0x10 latch",
            answer: "refused 2 F2 name-taken a",
        })
    } else if code == b"F3".as_slice() || code == b"has-container".as_slice() {
        Some(Topic {
            code: "F3",
            name: "has-container",
            what: "the region is in a container already, and can be in one alone",
            advice: "take it out with del first, or add an alias of it to show it at a second place",
            example: "region a container 64K\nregion b container 64K\nregion r ram 4K\nadd a 0 r\nadd b 0 r",
            answer: "refused 5 F3 has-container a",
        })
    } else if code == b"F4".as_slice() || code == b"not-child".as_slice() {
        Some(Topic {
            code: "F4",
            name: "not-child",
            what: "the region is not in the container that the line names, or a line moves one that is in none",
            advice: "name the container that it was added to, or add it first",
            example: "region a container 64K\nregion r ram 4K\ndel a r",
            answer: "refused 3 F4 not-child r",
        })
    } else if code == b"F5".as_slice() || code == b"alias-parent".as_slice() {
        Some(Topic {
            code: "F5",
            name: "alias-parent",
            what: "an alias takes no children: it is a window on its target",
            advice: "add the region to the target of the alias, or to the container around it",
            example: "region r ram 4K\nregion w alias 4K r 0\nregion d io 0x10 latch\nadd w 0 d",
            answer: "refused 4 F5 alias-parent w",
        })
    } else {
        of_refusal_6(code)
    }
}

// The same of F6 to F10.
fn of_refusal_6(code: &[u8]) -> Option<Topic>
    ensures { option_map code_now result ≡ value_in (drop 10 refusals) code.now }
{
    if code == b"F6".as_slice() || code == b"loop".as_slice() {
        Some(Topic {
            code: "F6",
            name: "loop",
            what: "the container would be reached from the region that is put into it, through children or aliases",
            advice: "alias a region that does not hold the container",
            example: "region a container 64K\nregion w alias 64K a 0\nadd a 0 w",
            answer: "refused 3 F6 loop a",
        })
    } else if code == b"F7".as_slice() || code == b"too-deep".as_slice() {
        Some(Topic {
            code: "F7",
            name: "too-deep",
            what: "some region would stand more than 32 regions and aliases deep",
            advice: "leave containers out that hold one child alone, or alias the region further down",
            example: "region a1 ram 4K\nregion a2 alias 4K a1 0\nregion a3 alias 4K a2 0\n# .. and so on, each an alias of the one before ..\nregion a33 alias 4K a32 0",
            answer: "refused 33 F7 too-deep 33",
        })
    } else if code == b"F8".as_slice() || code == b"too-wide".as_slice() {
        Some(Topic {
            code: "F8",
            name: "too-wide",
            what: "some region would have a weight above 65,536: as many places would be shown through its aliases",
            advice: "alias the smaller region, or fewer times",
            example: "region c0 container 4K\nregion a1 alias 4K c0 0\nregion b1 alias 4K c0 0\nregion c1 container 4K\nadd c1 0 a1\nadd c1 0 b1\n# .. and so on, each container with two aliases of the one before ..\nadd c15 0 b15",
            answer: "refused 76 F8 too-wide 131069",
        })
    } else if code == b"F9".as_slice() || code == b"bad-size".as_slice() {
        Some(Topic {
            code: "F9",
            name: "bad-size",
            what: "a size of 0; memory that is no whole number of pages of 4,096 bytes, or larger than 512 MiB; bytes or a range that end past their region",
            advice: "give RAM, ROM and ROM devices whole pages; of more memory take io, or several regions",
            example: "region r ram 100",
            answer: "refused 1 F9 bad-size",
        })
    } else if code == b"F10".as_slice() || code == b"bad-ops".as_slice() {
        Some(Topic {
            code: "F10",
            name: "bad-ops",
            what: "access sizes other than 1, 2, 4 and 8, or the least above the greatest; registers not from 1 to 512; a notifier above 63",
            advice: "write valid A-B and impl A-B with A at most B",
            example: "region d io 0x10 latch valid 3-4",
            answer: "refused 1 F10 bad-ops",
        })
    } else {
        of_refusal_11(code)
    }
}

// The same of F11 to F15.
fn of_refusal_11(code: &[u8]) -> Option<Topic>
    ensures { option_map code_now result ≡ value_in (drop 20 refusals) code.now }
{
    if code == b"F11".as_slice() || code == b"wrong-kind".as_slice() {
        Some(Topic {
            code: "F11",
            name: "wrong-kind",
            what: "the region is of another kind than the line is for",
            advice: "load takes memory, retarget an alias, map an iommu, romd a ROM device, event a device or memory that one backs",
            example: "region r ram 4K\nretarget r 0",
            answer: "refused 2 F11 wrong-kind r",
        })
    } else if code == b"F12".as_slice() || code == b"no-transaction".as_slice() {
        Some(Topic {
            code: "F12",
            name: "no-transaction",
            what: "a commit has no begin before it",
            advice: "put begin before the lines that are to be one change",
            example: "commit",
            answer: "refused 1 F12 no-transaction",
        })
    } else if code == b"F13".as_slice() || code == b"too-nested".as_slice() {
        Some(Topic {
            code: "F13",
            name: "too-nested",
            what: "64 transactions are open",
            advice: "commit what was begun; one begin and one commit make all lines between them one change",
            example: "begin\n# .. 63 lines more of it ..\nbegin",
            answer: "refused 65 F13 too-nested",
        })
    } else if code == b"F14".as_slice() || code == b"in-use".as_slice() {
        Some(Topic {
            code: "F14",
            name: "in-use",
            what: "a region that is dropped has this child, alias or space",
            advice: "take the child out, drop the alias first; the root of a space stays",
            example: "region a container 64K\nregion r ram 4K\nadd a 0 r\ndrop a",
            answer: "refused 4 F14 in-use r",
        })
    } else if code == b"F15".as_slice() || code == b"page-overlap".as_slice() {
        Some(Topic {
            code: "F15",
            name: "page-overlap",
            what: "a translation meets the one that begins at this address",
            advice: "unmap that one first, or choose another page",
            example: "region r ram 8K\nregion m iommu 64K\nspace mem r\nmap m 0 8K mem 0 r\nmap m 0x1000 4K mem 0 r",
            answer: "refused 5 F15 page-overlap 0",
        })
    } else {
        of_refusal_16(code)
    }
}

// The same of F16 to F20.
fn of_refusal_16(code: &[u8]) -> Option<Topic>
    ensures { option_map code_now result ≡ value_in (drop 30 refusals) code.now }
{
    if code == b"F16".as_slice() || code == b"bad-page".as_slice() {
        Some(Topic {
            code: "F16",
            name: "bad-page",
            what: "the page of a translation is no power of two, or does not begin at a multiple of its size",
            advice: "split it into pages of powers of two, each aligned to its size",
            example: "region r ram 8K\nregion m iommu 64K\nspace mem r\nmap m 0x1000 8K mem 0 r",
            answer: "refused 4 F16 bad-page",
        })
    } else if code == b"F17".as_slice() || code == b"limit".as_slice() {
        Some(Topic {
            code: "F17",
            name: "limit",
            what: "a count stands at its limit, which the line names",
            advice: "drop what is not used: at most 4,096 regions, 16 spaces, 64 listeners, 64 watchers, 4,096 translations and 256 ioeventfds of a region",
            example: "region r container 4K\nspace s1 r\nspace s2 r\nspace s3 r\nspace s4 r\nspace s5 r\nspace s6 r\nspace s7 r\nspace s8 r\nspace s9 r\nspace s10 r\nspace s11 r\nspace s12 r\nspace s13 r\nspace s14 r\nspace s15 r\nspace s16 r\nspace s17 r",
            answer: "refused 18 F17 limit spaces 16",
        })
    } else if code == b"F18".as_slice() || code == b"no-backing".as_slice() {
        Some(Topic {
            code: "F18",
            name: "no-backing",
            what: "no hole of the memory that backs regions has this number of words of 8 bytes",
            advice: "raise the size on the line machine, or drop memory that is not used and write reap",
            example: "machine 8K\nregion a ram 4K\nregion b ram 4K",
            answer: "refused 3 F18 no-backing 515",
        })
    } else if code == b"F19".as_slice() || code == b"held".as_slice() {
        Some(Topic {
            code: "F19",
            name: "held",
            what: "a virtual CPU still uses a generation so old that the next one would take its place",
            advice: "let that virtual CPU leave, with vN leave, before the map changes again",
            example: "region a container 4K\nspace s a\nv0 enter\nenable a\nenable a\nenable a\nenable a\nenable a\nenable a\nenable a\nenable a",
            answer: "v0 enter g1\nrefused 11 F19 held v0 1",
        })
    } else if code == b"F20".as_slice() || code == b"event-taken".as_slice() {
        Some(Topic {
            code: "F20",
            name: "event-taken",
            what: "the region has an ioeventfd at this offset, of this size and value",
            advice: "unevent that one first, or give another value",
            example: "region d io 0x100 latch\nevent d 0x10 4 1\nevent d 0x10 4 2",
            answer: "refused 3 F20 event-taken",
        })
    } else {
        None
    }
}

// The cause with this word.
fn of_cause(code: &[u8]) -> Option<Topic>
    ensures { option_map code_now result ≡ value_in causes code.now }
{
    if code == b"byte".as_slice() {
        Some(Topic {
            code: "byte",
            name: "as a cause",
            what: "a byte may not stand outside a comment: a line has printable ASCII, spaces and tabs",
            advice: "write it in ASCII, or after a `#`",
            example: "show m\u{e9}m",
            answer: "bad script line 1 byte",
        })
    } else if code == b"word".as_slice() {
        Some(Topic {
            code: "word",
            name: "as a cause",
            what: "a word is none of those that may stand there",
            advice: "take one of the words that may stand there",
            example: "regin r ram 4K",
            answer: "bad script line 1 word",
        })
    } else if code == b"name".as_slice() {
        Some(Topic {
            code: "name",
            name: "as a cause",
            what: "a name is not of the form: 1 to 32 letters, digits, `_`, `-` and `.`, the first a letter",
            advice: "shorten it, or begin it with a letter",
            example: "region 1st ram 4K",
            answer: "bad script line 1 name",
        })
    } else if code == b"number".as_slice() {
        Some(Topic {
            code: "number",
            name: "as a cause",
            what: "a number is not of the form, or past its limit",
            advice: "write what may stand there; sizes and addresses are decimal digits, or 0x and hexadecimal digits, and then at most one of K, M and G",
            example: "region r ram 4KB",
            answer: "bad script line 1 number",
        })
    } else if code == b"count".as_slice() {
        Some(Topic {
            code: "count",
            name: "as a cause",
            what: "a token is missing, or one is left over",
            advice: "take away what is left over, or add what may stand there",
            example: "region r ram",
            answer: "bad script line 1 count",
        })
    } else if code == b"place".as_slice() {
        Some(Topic {
            code: "place",
            name: "as a cause",
            what: "the line may not stand there",
            advice: "put machine first, space outside a block, and one par before one end",
            example: "region r ram 4K\nmachine 8M",
            answer: "bad script line 2 place",
        })
    } else if code == b"long".as_slice() {
        Some(Topic {
            code: "long",
            name: "as a cause",
            what: "the text has more than 1,048,576 bytes",
            advice: "split the script, or take comments out",
            example: "# .. 1,048,577 bytes ..",
            answer: "bad script line 0 long",
        })
    } else {
        None
    }
}

/// What a refusal means, by its number or its words as they are written, `F6` or `loop`, or a cause by its word.
pub fn topic_of(name: &[u8]) -> Option<Topic>
    ensures { option_map code_now result ≡ value_in (refusals ++ causes) name.now }
{
    match of_refusal(name) {
        Some(topic) => Some(topic),
        None => of_cause(name),
    }
}
