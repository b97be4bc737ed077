// Names that a script may have.

use indexmap::IndexMap;
use mem_base::Name;
use monitor_text::{cleaned, numbered};
use std::alloc::{AllocError, Global};

/// The names that are given so far, each with the number that was appended to it last.
#[derive(Drop)]
pub(crate) struct Given {
    numbers: IndexMap<Vec<u8>, u32>,
}

impl Given {
    pub(crate) fn none(alloc: Global) -> Given {
        Given {
            numbers: IndexMap::new(alloc),
        }
    }

    // The number that was put behind a name last, and 0 where the name is free.
    fn number(&self, name: &[u8]) -> u32 {
        self.numbers.get(name).copied().unwrap_or(0)
    }

    fn note(&mut self, alloc: Global, name: &[u8], number: u32) -> Result<(), AllocError> {
        let key = name.to_vec(alloc)?;
        self.numbers.insert(key, number)?;
        Ok(())
    }

    // The first free name that ends in a number, after those that were tried.
    fn free(&mut self, alloc: Global, plain: &[u8]) -> Result<Vec<u8>, AllocError> {
        let mut number = self.number(plain);
        let mut name = plain.to_vec(alloc)?;
        for _ in 0..self.numbers.len().saturating_add(1) {
            number = number.saturating_add(1);
            name = numbered(alloc, plain, number)?;
            if self.number(&name) == 0 {
                break;
            }
        }
        self.note(alloc, plain, number)?;
        Ok(name)
    }

    /// A name for what the monitor calls so, with a number appended where it is given already.
    pub(crate) fn name_for(&mut self, alloc: Global, told: &[u8]) -> Result<Name, AllocError> {
        let plain = cleaned(alloc, told)?;
        let name = if self.number(&plain) == 0 {
            plain
        } else {
            self.free(alloc, &plain)?
        };
        self.note(alloc, &name, 1)?;
        Ok(Name::new(name))
    }
}
