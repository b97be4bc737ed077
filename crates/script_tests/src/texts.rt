// Texts at the edges of the language, each with the commands or the fault that its rules give, worked out by hand.

use mem_base::{BadScript, Cause};
use script_text::{MOST_TEXT, ParseFault, Script, parse, pool_words, print};
use std::alloc::{AllocError, Global};

// The first line at fault of a text, and its cause.
fn fault_of(alloc: Global, text: &[u8]) -> Option<BadScript> {
    match parse(alloc, text) {
        Err(ParseFault::Bad(bad)) => Some(bad),
        _ => None,
    }
}

// A line of a table: alone it is a text whose first line is at fault by this cause. After the last line feed nothing stands.
fn is_faulty(alloc: Global, line: &[u8], cause: Cause) -> bool {
    line.is_empty() || fault_of(alloc, line) == Some(BadScript { line: 1, cause })
}

// Whether each of these lines is.
fn are_faulty(alloc: Global, lines: &str, cause: Cause) -> bool {
    for line in lines.as_bytes().split(|byte| *byte == b'\n') {
        if !is_faulty(alloc, line, cause) {
            return false;
        }
    }
    true
}

// How many commands a text has, where it is a script.
fn count_in(alloc: Global, text: &[u8]) -> Option<usize> {
    match parse(alloc, text) {
        Ok(script) => Some(script.lines().len()),
        Err(_) => None,
    }
}

// The words of a text's pool, where it is a script.
fn pool_of(alloc: Global, text: &str) -> Option<usize> {
    match parse(alloc, text.as_bytes()) {
        Ok(script) => Some(pool_words(&script)),
        Err(_) => None,
    }
}

// Whether this is printed of a script.
fn is_print(alloc: Global, script: &Script, wanted: &str) -> Result<bool, AllocError> {
    let text = print(alloc, script)?;
    Ok(text.as_slice() == wanted.as_bytes())
}

// Whether it is printed of a text's commands.
fn prints(alloc: Global, text: &str, wanted: &str) -> Result<bool, AllocError> {
    match parse(alloc, text.as_bytes()) {
        Ok(script) => {
            let is_so = is_print(alloc, &script, wanted);
            is_so
        }
        Err(_) => Ok(false),
    }
}

const BYTES: &str = "\0\n\
space S A \x7f\n\
\x1fbegin\n\
begin\r\r\n\
be\rgin\n\
frob \x01\n\
begin\x0b\n\
begin\x0c\n";

#[test]
fn bytes_that_may_not_stand(rt: HostRuntime) {
    assert!(rt; are_faulty(rt.alloc(), BYTES, Cause::Byte));
}

const WORDS: &str = "frob # \x01\n\
Begin\n\
region A frob\n\
region A frob x\n\
region A RAM 8\n\
region D io 8 frob\n\
region D io 8 latch valid 1-4 regs 2\n\
region D io 8 latch valid 1-4 valid 1-4\n\
region D io 8 latch impl 1-4 valid 1-4\n\
region D io 8 latch iunaligned vunaligned\n\
region D io 8 latch x\n\
region D io 8 latch latch\n\
region D romdev 8 latch 8\n\
add A 0 B x\n\
add A 0 B Prio 1\n\
listen L S x\n\
readonly A yes\n\
global ON\n\
log A frob on\n\
log A vga maybe\n\
map M 0 1 S 0 wr\n\
event D 0 4 1 x\n\
unevent D 0 4 1\n\
dirty A x\n\
v16 enter\n\
v01 enter\n\
v00 enter\n\
v enter\n\
V0 enter\n\
v-1 enter\n\
v0x1 enter\n\
v0 frob\n\
v0 v0\n\
v0 do begin\n\
v0 do region A ram 1\n\
v0 do drop A\n\
v0 do frob\n\
v0 do v1 move A 0\n\
v0 do load A 0 00\n\
v0 do space S A\n\
v0 do do move A 0\n\
v0 do add A 0 B x\n\
v0 dma S 0 4 S 4\n";

#[test]
fn words_that_are_none(rt: HostRuntime) {
    assert!(rt; are_faulty(rt.alloc(), WORDS, Cause::Word));
}

const NAMES: &str = "enable aaaaaaaaaaaaaaaaaaaaaaaaaaaaaaaaa\n\
enable 1A\n\
enable _A\n\
enable A$\n\
enable -A\n\
enable .\n\
region 9 frob\n\
region 9\n\
region A alias 8 9 x\n\
add 9 x 9\n\
add A 0 9 x\n\
map M 0 1 9 0 r\n\
v0 dma S 0 4 to 9 4\n\
del A 9\n\
space 9 A\n\
enable ~\n\
enable A`\n\
enable `\n\
enable A{\n\
enable {\n\
enable A@\n\
enable @\n\
enable A[\n\
enable [\n\
enable A/\n\
enable /\n\
enable A:\n\
enable :\n";

#[test]
fn names_out_of_form(rt: HostRuntime) {
    assert!(rt; are_faulty(rt.alloc(), NAMES, Cause::Name));
}

const NUMBERS: &str = "region A container 18446744073709551617\n\
region A container 0x10000000000000001\n\
region A container 17179869185G\n\
region A container 18014398509481985K\n\
region A ram 0X10\n\
region A ram 0x\n\
region A ram 0xK\n\
region A ram K\n\
region A ram 1KK\n\
region A ram 1KM\n\
region A ram +1\n\
region A ram -1\n\
region A ram 1k\n\
region A ram 0xG\n\
region A ram 1_0\n\
region A ram 0x1g\n\
region A ram 1.0\n\
region A ram x10\n\
region A ram 0x1x\n\
region A ram 9a\n\
region A ram 1T\n\
region A ram 0b1\n\
region A ram '\n\
move A 18446744073709551616\n\
move A 17179869184G\n\
move A 0x\n\
machine 4095\n\
machine 0\n\
machine 4097\n\
machine 6K\n\
machine 513M\n\
machine 536870913\n\
machine 524292K\n\
region A alias x 9 x\n\
region D io 8 latch regs 65536\n\
region D io 8 latch regs 0x1\n\
region D io 8 latch regs 1K\n\
region D io 8 latch valid 1-256\n\
region D io 8 latch valid 1\n\
region D io 8 latch valid -1\n\
region D io 8 latch valid 1-\n\
region D io 8 latch valid 1-2-3\n\
region D io 8 latch valid 0x1-4\n\
region D io 8 latch valid 1 - 4\n\
region D io 8 latch regs regs\n\
add A 0 B prio x\n\
add A 0 B prio 2147483648\n\
add A 0 B prio -2147483649\n\
add A 0 B prio 0x1\n\
add A 0 B prio +1\n\
add A 0 B prio 1K\n\
add A 0 B prio -\n\
add A 0 B prio --1\n\
add A x 9\n\
map M 18446744073709551616 1 S 0 r\n\
event D 0 256 0\n\
event D 0 0x4 0\n\
event D 0 4 64\n\
event D 0 4 1 data x\n\
event D 0 1 1 data 18446744073709551616\n\
load A 0 abc\n\
load A 0 zz\n\
load A 0 0f0f0f0f0f0f0f0f0f0f0f0f0f0f0f0f0f0f0f0f0f0f0f0f0f0f0f0f0f0f0f0f0f0f0f0f0f0f0f0f0f0f0f0f0f0f0f0f0f0f0f0f0f0f0f0f0f0f0f0f0f0f0f0f0f\n\
load A 0 0x11\n\
notified 64\n\
notified 1K\n\
v0 read S 0 0\n\
v0 read S 0 65\n\
v0 read S 0 1K\n\
v0 read S 18446744073709551616 1\n\
v0 write S 0 1\n\
v0 dma S 0 0 to S 0\n\
v0 dma S 0 65 to S 0\n\
watch W M 0 18446744073709551616\n\
at S x\n\
retarget A x\n\
unevent D 0 256\n\
region D io 8 latch impl 256-1\n\
region D io 8 latch impl 1-256\n\
region A ram 9A\n\
region A ram 1/\n\
region A ram 1:\n\
region A ram 0x`\n\
region A ram 0x@\n\
region A ram 0xg\n\
region A ram 0xG1\n";

#[test]
fn numbers_out_of_form_or_range(rt: HostRuntime) {
    assert!(rt; are_faulty(rt.alloc(), NUMBERS, Cause::Number));
}

const COUNTS: &str = "begin begin\n\
move A\n\
move A 0 0\n\
enable A B\n\
enable\n\
machine\n\
machine 4K 4K\n\
region\n\
region A\n\
region A ram\n\
region A ram 1 2\n\
region A alias 8 B\n\
region A alias 8 B 0 0\n\
region A ram # 1\n\
region D io 8\n\
region D io 8 latch regs\n\
region D io 8 latch big big\n\
region D io 8 latch big x\n\
region D io 8 latch big regs 2\n\
add A 0 B prio\n\
add A 0 B prio 1 x\n\
add A 0\n\
listen L\n\
unlisten L 0\n\
listen L S prio 0 prio 0\n\
readonly A\n\
readonly A on off\n\
unmergeable A\n\
global\n\
global on on\n\
log A vga\n\
map M 0 1 S 0\n\
map M 0 1 S 0 r r\n\
unmap M\n\
event D 0 4 1 data\n\
event D 0 4 1 data 1 x\n\
unevent D 0\n\
load A 0\n\
load A 0 ab cd\n\
notified\n\
dirty A\n\
dirty A code x\n\
v0\n\
v0 enter x\n\
v0 read S 0\n\
v0 write S 0\n\
v0 write S 0 ff 1\n\
v0 do\n\
v0 do move A\n\
v0 do move A 0 0\n\
v0 dma S 0 4\n\
v0 dma S 0 4 to S\n\
v0 dma S 0 4 to S 4 5\n\
watch W M 0\n\
unwatch\n\
par x\n\
show\n\
show S x\n\
at S\n\
resize A\n\
del A\n\
drop\n\
space S\n\
space S A B\n\
commit 1\n";

#[test]
fn tokens_missing_or_left_over(rt: HostRuntime) {
    assert!(rt; are_faulty(rt.alloc(), COUNTS, Cause::Count));
}

const LINES: [(&str, u32, Cause); 22] = [
    ("begin\r", 1, Cause::Byte),
    ("region A container 1\n\nfrob\n", 3, Cause::Word),
    ("par\nfrob\n", 2, Cause::Word),
    ("par\nend\nfrob\n", 3, Cause::Word),
    ("frob\nbegin x\n", 1, Cause::Word),
    ("begin\r\n\r\nfrob\r\n", 3, Cause::Word),
    ("begin\nmachine 1\n", 2, Cause::Number),
    ("par\nend x\n", 2, Cause::Count),
    ("par\nspace S\nend\n", 2, Cause::Count),
    ("begin\n\n# c\nbegin x\nfrob\n", 4, Cause::Count),
    ("begin\nmachine 4K\n", 2, Cause::Place),
    ("machine 4K\nmachine 4K\n", 2, Cause::Place),
    ("par\n", 1, Cause::Place),
    ("end\n", 1, Cause::Place),
    ("par\npar\nend\n", 2, Cause::Place),
    ("par\nend\npar\nend\n", 3, Cause::Place),
    ("par\nend\nend\n", 3, Cause::Place),
    ("par\nmachine 4K\nend\n", 2, Cause::Place),
    ("par\nspace S A\nend\n", 2, Cause::Place),
    ("par\nbegin\n", 1, Cause::Place),
    ("begin\npar\n\nbegin\n", 2, Cause::Place),
    ("par\nend\nmachine 4K\n", 3, Cause::Place),
];

const WRITTEN: &str = "machine 8K\n\
region A container 1\n\
space S A# x\n\
begin\r\n\
begin # x\r\r\n\
\r\n\
begin\n\
\tbegin \t\n\
region A container 0\n\
region A container 18446744073709551616\n\
region A container 0x10000000000000000\n\
region A container 17179869184G\n\
region A container 17592186044416M\n\
region A container 18014398509481984K\n\
region A container 0x400000000G\n\
region A ram 0xfFK\n\
region A ram 0x00ab\n\
region A ram 000000000000000000000000000000000000000012\n\
region A ram 1M\n\
region A ram 1G\n\
region A ram 010\n\
region A ram 0K\n\
region A ram 0x0G\n\
region A ram 0xAbCdEf\n\
move A 18446744073709551615\n\
move A 17179869183G\n\
enable aaaaaaaaaaaaaaaaaaaaaaaaaaaaaaaa\n\
enable A_-.9z\n\
disable A\n\
enable Z\n\
enable on\n\
region A rom 4K\n\
region A iommu 4K\n\
region A reserve 8\n\
region A alias 8 B 16\n\
region D io 8 latch\n\
region D romdev 4K bell\n\
region D io 8 count regs 1 valid 1-4 impl 1-4\n\
region D io 8 fault regs 002 valid 01-008 impl 8-8 vunaligned iunaligned big\n\
region D io 8 latch regs 65535\n\
region D io 8 latch regs 0\n\
region D io 8 latch valid 1-255\n\
region D io 8 latch valid 4-1 impl 0-0\n\
region D io 8 latch vunaligned\n\
add A 0 B\n\
add A 0 B prio -0\n\
add A 0 B prio 0\n\
add A 0 B prio 2147483647\n\
add A 0 B prio -2147483648\n\
add A 0 B prio 007\n\
add A 0 B prio -07\n\
listen L S\n\
listen L S prio -5\n\
unlisten L\n\
readonly A on\n\
nonvolatile A off\n\
unmergeable A on\n\
romd A on\n\
global off\n\
log A vga on\n\
log A code off\n\
log A migration on\n\
map M 0 0x1000 S 4K rw\n\
map M 0 0 S 0 none\n\
map M 0 18446744073709551616 S 0 r\n\
map M 0 1 S 0 w\n\
unmap M 8\n\
event D 0 4 0\n\
event D 0 255 0\n\
event D 0 004 0x3f\n\
event D 0 1 1 data 0xffffffffffffffff\n\
event D 0 1 1 data 0\n\
unevent D 0 4\n\
unevent D 0 4 data 0\n\
load A 0 ab\n\
load A 0 aBCd\n\
load A 0 0f0f0f0f0f0f0f0f0f0f0f0f0f0f0f0f0f0f0f0f0f0f0f0f0f0f0f0f0f0f0f0f0f0f0f0f0f0f0f0f0f0f0f0f0f0f0f0f0f0f0f0f0f0f0f0f0f0f0f0f0f0f0f0f\n\
notified 0\n\
notified 0x3F\n\
dirty A vga\n\
v15 leave\n\
v10 enter\n\
v0 read S 0 0x40\n\
v0 write S 0 FF\n\
v0 do move A 0\n\
v0 do add A 0 B prio 1\n\
v0 do global on\n\
v3 do unevent D 0 1 data 2\n\
v0 dma S 0 10 to S 0x1000\n\
watch W M 0 0xffff\n\
watch W M 2 1\n\
unwatch W\n\
show S\n\
at S 0x10\n\
resize A 2K\n\
retarget A 4K\n\
del A B\n\
drop A\n\
reap\n\
begin\n\
begin\n\
unevent D 0 255\n\
load A 0 f010\n\
region D io 8 latch valid 2-4\n\
region D io 8 latch valid 1-5\n\
enable A09z\n\
enable a\n\
region D io 8 latch valid 10-20\n\
region D io 8 latch valid 255-255\n\
region A ram 0xF\n\
region A ram 0xa\n";

const PRINTED: &str = "machine 0x2000\n\
region A container 0x1\n\
space S A\n\
begin\n\
begin\n\
begin\n\
begin\n\
region A container 0x0\n\
region A container 0x10000000000000000\n\
region A container 0x10000000000000000\n\
region A container 0x10000000000000000\n\
region A container 0x10000000000000000\n\
region A container 0x10000000000000000\n\
region A container 0x10000000000000000\n\
region A ram 0x3fc00\n\
region A ram 0xab\n\
region A ram 0xc\n\
region A ram 0x100000\n\
region A ram 0x40000000\n\
region A ram 0xa\n\
region A ram 0x0\n\
region A ram 0x0\n\
region A ram 0xabcdef\n\
move A 0xffffffffffffffff\n\
move A 0xffffffffc0000000\n\
enable aaaaaaaaaaaaaaaaaaaaaaaaaaaaaaaa\n\
enable A_-.9z\n\
disable A\n\
enable Z\n\
enable on\n\
region A rom 0x1000\n\
region A iommu 0x1000\n\
region A reserve 0x8\n\
region A alias 0x8 B 0x10\n\
region D io 0x8 latch\n\
region D romdev 0x1000 bell\n\
region D io 0x8 count\n\
region D io 0x8 fault regs 2 valid 1-8 impl 8-8 vunaligned iunaligned big\n\
region D io 0x8 latch regs 65535\n\
region D io 0x8 latch regs 0\n\
region D io 0x8 latch valid 1-255\n\
region D io 0x8 latch valid 4-1 impl 0-0\n\
region D io 0x8 latch vunaligned\n\
add A 0x0 B\n\
add A 0x0 B\n\
add A 0x0 B\n\
add A 0x0 B prio 2147483647\n\
add A 0x0 B prio -2147483648\n\
add A 0x0 B prio 7\n\
add A 0x0 B prio -7\n\
listen L S\n\
listen L S prio -5\n\
unlisten L\n\
readonly A on\n\
nonvolatile A off\n\
unmergeable A on\n\
romd A on\n\
global off\n\
log A vga on\n\
log A code off\n\
log A migration on\n\
map M 0x0 0x1000 S 0x1000 rw\n\
map M 0x0 0x0 S 0x0 none\n\
map M 0x0 0x10000000000000000 S 0x0 r\n\
map M 0x0 0x1 S 0x0 w\n\
unmap M 0x8\n\
event D 0x0 4 0\n\
event D 0x0 255 0\n\
event D 0x0 4 63\n\
event D 0x0 1 1 data 0xffffffffffffffff\n\
event D 0x0 1 1 data 0x0\n\
unevent D 0x0 4\n\
unevent D 0x0 4 data 0x0\n\
load A 0x0 ab\n\
load A 0x0 abcd\n\
load A 0x0 0f0f0f0f0f0f0f0f0f0f0f0f0f0f0f0f0f0f0f0f0f0f0f0f0f0f0f0f0f0f0f0f0f0f0f0f0f0f0f0f0f0f0f0f0f0f0f0f0f0f0f0f0f0f0f0f0f0f0f0f0f0f0f0f\n\
notified 0\n\
notified 63\n\
dirty A vga\n\
v15 leave\n\
v10 enter\n\
v0 read S 0x0 64\n\
v0 write S 0x0 ff\n\
v0 do move A 0x0\n\
v0 do add A 0x0 B prio 1\n\
v0 do global on\n\
v3 do unevent D 0x0 1 data 0x2\n\
v0 dma S 0x0 10 to S 0x1000\n\
watch W M 0x0 0xffff\n\
watch W M 0x2 0x1\n\
unwatch W\n\
show S\n\
at S 0x10\n\
resize A 0x800\n\
retarget A 0x1000\n\
del A B\n\
drop A\n\
reap\n\
begin\n\
begin\n\
unevent D 0x0 255\n\
load A 0x0 f010\n\
region D io 0x8 latch valid 2-4\n\
region D io 0x8 latch valid 1-5\n\
enable A09z\n\
enable a\n\
region D io 0x8 latch valid 10-20\n\
region D io 0x8 latch valid 255-255\n\
region A ram 0xf\n\
region A ram 0xa\n";

// The first of these texts in which another line is at fault, or by another cause.
fn first_other(alloc: Global) -> Option<&'static str> {
    for (text, line, cause) in LINES {
        if fault_of(alloc, text.as_bytes()) != Some(BadScript { line, cause }) {
            return Some(text);
        }
    }
    None
}

#[test]
fn the_first_line_at_fault_is_named(rt: HostRuntime) {
    let other = first_other(rt.alloc());
    assert!(rt; other.is_none(), "{other:?}");
}

#[test]
fn commands_are_printed_without_defaults(rt: HostRuntime) {
    assert!(rt; prints(rt.alloc(), WRITTEN, PRINTED) == Ok(true));
}

const BLOCK: &str = "machine 4K\n\
\n\
par\n\
region A ram 1\n\
v0 enter\n\
watch W M 0 0\n\
end\n\
space S A\n";

const PRINTED_BLOCK: &str = "machine 0x1000\n\
par\n\
region A ram 0x1\n\
v0 enter\n\
watch W M 0x0 0x0\n\
end\n\
space S A\n";

#[test]
fn a_script_has_one_block(rt: HostRuntime) {
    assert!(rt; prints(rt.alloc(), BLOCK, PRINTED_BLOCK) == Ok(true));
}

// Whether as many line feeds as a text may have are no commands, and one more is too long.
fn has_its_length(alloc: Global) -> Result<bool, AllocError> {
    let mut text = vec![in alloc; b'\n'; MOST_TEXT]?;
    let most = count_in(alloc, text.as_slice());
    text.push(b'\n')?;
    let long = BadScript {
        line: 0,
        cause: Cause::Long,
    };
    Ok(most == Some(0) && fault_of(alloc, text.as_slice()) == Some(long))
}

#[test]
fn a_script_is_at_most_a_mebibyte(rt: HostRuntime) {
    assert!(rt; has_its_length(rt.alloc()) == Ok(true));
}

#[test]
fn a_comment_is_any_bytes(rt: HostRuntime) {
    assert!(rt; count_in(rt.alloc(), b"reap # \xff\x00\r\x80\n") == Some(1));
}

#[test]
fn the_pool_is_what_machine_names(rt: HostRuntime) {
    for (text, words) in [
        ("", 2_097_152),
        ("machine 8K\n", 1024),
        ("reap\n", 2_097_152),
        ("# pool\n\nmachine 512M", 67_108_864),
    ] {
        assert!(rt; pool_of(rt.alloc(), text) == Some(words), "{text}");
    }
}
