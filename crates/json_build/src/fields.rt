// The members of an object.
ghost use Rattle.std.specs.Prelude.{◌≡◌, OnOk};
ghost use Rattle.serde_json.specs.Data.{no_members, null, number, object, string, unsigned};
ghost use Rattle.serde_json.specs.View.{view};
ghost use Rattle.json_build.specs.Held.{members};
ghost use Rattle.json_build.specs.Parts.{address_of, name_of, with_field};

use crate::values::{address, name, number, text};
use serde_json::{Map, Value, put};
use std::alloc::{AllocError, Global};

/// The members of an object that is being made.
#[derive(Drop)]
pub struct Fields {
    map: Map<String, Value>,
}

impl Fields {
    /// No members.
    pub fn new(alloc: Global) -> Fields
        ensures { members result ≡ no_members }
    {
        Fields {
            map: Map::new(alloc),
        }
    }

    /// A value under a name.
    pub fn value(&mut self, alloc: Global, key: &str, value: Value) -> Result<(), AllocError>
        ensures { OnOk result (members self.new ≡ with_field (members self.old) key.now (view value)) }
    {
        put(&mut self.map, alloc, key, value)
    }

    /// A text under a name.
    pub fn text(&mut self, alloc: Global, key: &str, words: &str) -> Result<(), AllocError>
        ensures { OnOk result (members self.new ≡ with_field (members self.old) key.now (string words.now)) }
    {
        let value = text(alloc, words)?;
        self.value(alloc, key, value)
    }

    /// The text of a name's bytes under a name, each byte as the character of its number.
    pub fn name(&mut self, alloc: Global, key: &str, bytes: &[u8]) -> Result<(), AllocError>
        ensures { OnOk result (members self.new ≡ with_field (members self.old) key.now (name_of bytes.now)) }
    {
        let value = name(alloc, bytes)?;
        self.value(alloc, key, value)
    }

    /// An address or an offset under a name, as a text of `0x` and hexadecimal digits.
    pub fn address(&mut self, alloc: Global, key: &str, addr: u64) -> Result<(), AllocError>
        ensures { OnOk result (members self.new ≡ with_field (members self.old) key.now (address_of addr)) }
    {
        let value = address(alloc, addr)?;
        self.value(alloc, key, value)
    }

    /// A count under a name.
    pub fn number(&mut self, alloc: Global, key: &str, count: u64) -> Result<(), AllocError>
        ensures { OnOk result (members self.new ≡ with_field (members self.old) key.now (number (unsigned count))) }
    {
        self.value(alloc, key, number(count))
    }

    /// `null` under a name.
    pub fn null(&mut self, alloc: Global, key: &str) -> Result<(), AllocError>
        ensures { OnOk result (members self.new ≡ with_field (members self.old) key.now null) }
    {
        self.value(alloc, key, Value::Null)
    }

    /// The object.
    pub fn object(self) -> Value
        ensures { view result ≡ object (members self) }
    {
        Value::Object(self.map)
    }
}
