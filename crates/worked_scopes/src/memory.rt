// Three files in memory.
ghost use Rattle.std.specs.Prelude.{None};

use outside::ReadStop;
use scope_run::Files;
use std::alloc::Global;

/// The text of a case, which is the file `-`, that of the case before it, which is `previous`, and what was written for that, `answer`.
#[derive(Drop)]
pub(crate) struct CaseFiles<'a> {
    text: &'a [u8],
    previous: &'a [u8],
    answer: &'a [u8],
    faults: u64,
}

impl<'a> CaseFiles<'a> {
    pub(crate) fn new(text: &'a [u8], previous: &'a [u8], answer: &'a [u8]) -> CaseFiles<'a> {
        CaseFiles {
            text,
            previous,
            answer,
            faults: 0,
        }
    }
}

impl<'a> Files for CaseFiles<'a> {
    ghost held = { λ f name. None };

    ghost faults = { λ f. f.faults };

    fn read(&mut self, alloc: Global, name: &str, most: usize) -> Result<Vec<u8>, ReadStop> {
        let text = match name {
            "-" => self.text,
            "previous" => self.previous,
            "answer" => self.answer,
            _ => {
                self.faults = self.faults.saturating_add(1);
                return Err(ReadStop::Failed);
            }
        };
        if text.len() > most {
            return Err(ReadStop::Long);
        }
        match text.to_vec(alloc) {
            Ok(bytes) => Ok(bytes),
            Err(_) => Err(ReadStop::Memory),
        }
    }
}
