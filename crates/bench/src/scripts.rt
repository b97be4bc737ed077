// How long the text of a script takes to be read and to be printed.
use crate::times::{Clock, Failed, MICRO, Result};
use script_make::text_of_seed;
use script_text::{MOST_TEXT, ParseFault, parse, print};

/// Lines of most forms.
const MIXED: &str = "region r17 ram 0x1000\nadd sys 0x17000 r17 prio -2\n\
region r18 io 0x1000 latch regs 2 valid 1-8 big\nv3 read s 0x17fff 8\n\
v12 write s 0x18004 0123456789abcdef\nlog r17 migration on\n\
v15 do move r17 0x20000\nmap m 0x1000 4K s 0x2000 rw # mapped\n\
event r18 0 4 63 data 0x1234\n\n";

/// The texts that are a line, or some lines, over and over.
static REPEATED: [(&str, &str); 8] = [
    ("mixed", MIXED),
    (
        "names of 32 letters",
        "del a23456789-123456789-123456789-12 b23456789-123456789-123456789-12\n",
    ),
    ("adds", "add a 0 b\n"),
    ("empty lines", "\n"),
    ("one comment", "#"),
    ("one line of spaces", " "),
    ("one token", "a"),
    ("tokens of one letter", "a "),
];

impl Clock {
    /// Reads texts of at most as many bytes as a script may have, and the script of seed 1, or short texts, and prints
    /// what was read.
    pub fn run_scripts(self, is_full: bool) -> Result<()> {
        let alloc = self.rt.alloc();
        let most = if is_full { MOST_TEXT } else { 1000 };
        if is_full {
            self.run_text("make 1", &text_of_seed(alloc, 1)?)?;
        }
        // Lines with two names each, all of them different: about ten bytes a name.
        let mut names = Vec::new(alloc);
        for i in 0..most / 20 {
            let line = format!(in alloc; "del a{i} b{i}\n")?;
            names.extend_from_slice(line.as_bytes())?;
        }
        self.run_text("names", &names)?;
        for (name, lines) in &REPEATED {
            let count = most.checked_div(lines.len()).unwrap_or(0);
            let text = lines.as_bytes().repeat(alloc, count)?;
            self.run_text(name, &text)?;
        }
        Ok(())
    }

    fn run_text(self, name: &str, text: &[u8]) -> Result<()> {
        let (rt, alloc, bytes) = (self.rt, self.rt.alloc(), text.len());
        let (mut commands, mut printed, mut fault, mut prints) = (0, 0, 0, 0);
        let (parses, script) = self.least(1, MICRO, || parse(alloc, text));
        match script {
            Ok(script) => {
                let (least, text) = self.least(1, MICRO, || print(alloc, &script));
                (commands, prints) = (script.lines().len(), least);
                printed = text.map_or(0, |text| text.len());
            }
            Err(ParseFault::Bad(bad)) => fault = bad.line,
            Err(ParseFault::Memory) => return Err(Failed),
        }
        println!(rt;
            "{name}: bytes {bytes}, commands {commands}, printed {printed}, fault {fault}"
        )?;
        Ok(eprintln!(rt; "{name}: parse {parses} us, print {prints} us")?)
    }
}
