// The parts of scripts.

use race_phases::{has_line, parts_of};
use script_text::{Script, parse};
use std::alloc::Global;

const BLOCK: &str = "region A container 0x1000\n\
space S A\n\
par\n\
v4 enter\n\
begin\n\
v1 read S 0 8\n\
v4 leave\n\
end\n\
show S\n";

// Whether the script has two lines before its block, four in it, one after it, and just these actors: v4, the desk, v1 and v4.
fn is_cut(script: &Script) -> bool {
    let parts = parts_of(script.lines(), script.actors());
    parts.before.len() == 2
        && parts.block.len() == 4
        && parts.after.len() == 1
        && parts.whose == [4, 16, 1, 4].as_slice()
        && has_line(4, parts.block)
        && !has_line(0, parts.block)
}

fn holds(alloc: Global) -> bool {
    match parse(alloc, BLOCK.as_bytes()) {
        Ok(script) => is_cut(&script),
        Err(_) => false,
    }
}

#[test]
fn a_script_has_parts(rt: HostRuntime) {
    assert!(rt; holds(rt.alloc()));
}
