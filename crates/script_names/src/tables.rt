// Names of one sort.
ghost use Rattle.std.specs.Prelude.{◌≡◌, ◌<◌, ◌^◌, ◌++◌, [], ◌∷◌, None, Some, IfOk, OnOk, OnErr, length, map};
ghost use Rattle.mem_base.specs.script.Named.{name_at};
ghost use Rattle.script_names.specs.Tables.{Rebinds, Table, number_of, table};

use indexmap::IndexMap;
use mem_base::Name;
use std::alloc::{AllocError, Global};
use std::marker::Model;

/// Names of one sort: what each stands for, and the names of all that was ever made, by number.
///
/// A name is found by hashing, however many there are, also where names are let go and made anew.
#[derive(Drop)]
pub struct NameTable {
    numbers: IndexMap<Vec<u8>, u32>,
    made: Vec<Name>,
}

impl Model for NameTable {
    ghost Value = { Table };

    ghost view = { λ n. table (map (λ e. (e.0.items, e.1)) n.numbers.entries) n.made.items };
}

fn key_of(alloc: Global, name: &[u8]) -> Result<Vec<u8>, AllocError>
    ensures { IfOk result (λ key. key.items ≡ name.now) }
{
    let key = name.to_vec(alloc)?;
    Ok(key)
}

fn name_of(alloc: Global, text: &[u8]) -> Result<Name, AllocError>
    ensures { IfOk result (λ name. name ≡ text.now) }
{
    Ok(Name::new(text.to_vec(alloc)?))
}

impl NameTable {
    /// No names.
    pub fn new(alloc: Global) -> Self
        ensures { result ≡ table [] [] }
    {
        NameTable {
            numbers: IndexMap::new(alloc),
            made: Vec::new(alloc),
        }
    }

    /// The number that a name stands for, `None` where it stands for nothing.
    pub fn number_of(&self, name: &[u8]) -> Option<u32>
        ensures { result ≡ number_of self.now.bound name.now }
    {
        self.numbers.get(name).copied()
    }

    /// The name of a number, also of one that is gone; empty where nothing had the number.
    pub fn name_at(&self, number: u32) -> &[u8]
        ensures { result.now ≡ name_at self.now.made number }
    {
        match self.made.get(number as usize) {
            Some(name) => name.as_bytes(),
            None => &[],
        }
    }

    /// How many were made: the number of the next one.
    pub fn made(&self) -> usize
        ensures { result ≡ length self.now.made }
    {
        self.made.len()
    }

    /// Lets a name that is free stand for one more number, and gives that number.
    ///
    /// A number has 32 bits, so there has to be room for it. Out of memory, nothing changes.
    pub fn bind(&mut self, alloc: Global, name: &[u8]) -> Result<u32, AllocError>
        requires free { number_of self.old.bound name.now ≡ None }
        requires room { length self.old.made < 2 ^ 32 }
        ensures number { IfOk result (λ number. number ≡ length self.old.made) }
        ensures bound { IfOk result (λ number. self.new.bound ≡ self.old.bound ++ (name.now, number) ∷ []) }
        ensures made { OnOk result (self.new.made ≡ self.old.made ++ name.now ∷ []) }
        ensures unchanged { OnErr result (self.new ≡ self.old) }
    {
        let number = self.made.len() as u32;
        let key = key_of(alloc, name)?;
        let made = name_of(alloc, name)?;
        self.made.reserve(1)?;
        self.numbers.insert(key, number)?;
        let _ = self.made.push(made);
        Ok(number)
    }

    /// Lets a name go: it is free again. What had it keeps it in `name_at`.
    pub fn forget(&mut self, name: &[u8])
        ensures bound { Rebinds self.old.bound self.new.bound name.now None }
        ensures made { self.new.made ≡ self.old.made }
    {
        self.numbers.swap_remove(name);
    }
}
