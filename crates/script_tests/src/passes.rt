// What passes keep of their lines, and the text of that.

use mem_base::{Access, PassId, TxResult};
use race_lines::{KnownNames, PassSaid};
use script_lines::Line;
use std::alloc::{AllocError, Global};

const TEXT: &str = "v3 enter g2\n\
v3 g2 write decode\n\
v3 leave\n";

const DECODE: Access = Access {
    result: TxResult {
        error: false,
        decode: true,
    },
    number: 2,
};

// Adds the text of what a pass kept of three lines.
fn add_three(text: &mut Line, known: &KnownNames, pass: PassId) -> Result<(), AllocError> {
    PassSaid::Entered(2).add_text(text, known.names(), &[], 7, pass)?;
    PassSaid::Written(DECODE).add_text(text, known.names(), &[], 8, pass)?;
    PassSaid::Left.add_text(text, known.names(), &[], 9, pass)
}

fn holds(alloc: Global) -> bool {
    let Some(pass) = PassId::new(3) else {
        return false;
    };
    let known = KnownNames::new(alloc);
    let mut text = Line::new(alloc);
    add_three(&mut text, &known, pass).is_ok() && text.as_bytes() == TEXT.as_bytes()
}

#[test]
fn what_a_pass_keeps_is_written(rt: HostRuntime) {
    assert!(rt; holds(rt.alloc()));
}
