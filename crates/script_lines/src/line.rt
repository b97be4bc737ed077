// The parts of a line that is to be written.
ghost use Rattle.std.specs.Prelude.{◌≡◌, ◌++◌, [], List, ℕ, OnOk, decimal};
ghost use Rattle.mem_base.specs.script.RefusalLines.{hex, line_feed};
ghost use Rattle.mem_base.specs.script.Printing.{bytes_text};
ghost use Rattle.mem_base.specs.script.Output.{signed_hex};

use crate::numbers::{push_bytes, push_decimal, push_hex};
use std::alloc::{AllocError, Global};
use std::marker::Model;

/// A line, as far as it is made. It keeps its room, so that a caller makes one line after another in it.
#[derive(Drop)]
pub struct Line {
    bytes: Vec<u8>,
}

impl Model for Line {
    ghost Value = { List ℕ };

    ghost view = { λ l. l.bytes.items };
}

impl Line {
    /// An empty line.
    pub fn new(alloc: Global) -> Line
        ensures { result ≡ [] }
    {
        Line {
            bytes: Vec::new(alloc),
        }
    }

    /// Its bytes.
    pub fn as_bytes(&self) -> &[u8]
        ensures { result.now ≡ self.now }
    {
        &self.bytes
    }

    /// Takes everything out of it, and keeps the room.
    pub fn clear(&mut self)
        ensures { self.new ≡ [] }
    {
        self.bytes.clear();
    }

    /// These bytes after it.
    pub fn bytes(&mut self, bytes: &[u8]) -> Result<(), AllocError>
        ensures { OnOk result (self.new ≡ self.old ++ bytes.now) }
    {
        self.bytes.extend_from_slice(bytes)?;
        Ok(())
    }

    /// This text after it.
    pub fn text(&mut self, text: &str) -> Result<(), AllocError>
        ensures { OnOk result (self.new ≡ self.old ++ text.now) }
    {
        self.bytes(text.as_bytes())
    }

    /// A number in decimal after it.
    pub fn decimal(&mut self, number: u64) -> Result<(), AllocError>
        ensures { OnOk result (self.new ≡ self.old ++ decimal number) }
    {
        push_decimal(&mut self.bytes, number)
    }

    /// A number in hexadecimal after it.
    pub fn hex(&mut self, number: u64) -> Result<(), AllocError>
        ensures { OnOk result (self.new ≡ self.old ++ hex number) }
    {
        push_hex(&mut self.bytes, u128::from(number))
    }

    /// Bytes after it, two hexadecimal digits each.
    pub fn hex_bytes(&mut self, bytes: &[u8]) -> Result<(), AllocError>
        ensures { OnOk result (self.new ≡ self.old ++ bytes_text bytes.now) }
    {
        push_bytes(&mut self.bytes, bytes)
    }

    // A number of 128 bits in hexadecimal after it.
    fn wide_hex(&mut self, number: u128) -> Result<(), AllocError>
        ensures { OnOk result (self.new ≡ self.old ++ hex number) }
    {
        push_hex(&mut self.bytes, number)
    }

    /// A number in hexadecimal after it, with `-` before a negative one.
    pub fn signed_hex(&mut self, number: i128) -> Result<(), AllocError>
        ensures { OnOk result (self.new ≡ self.old ++ signed_hex number) }
    {
        let size = number.unsigned_abs();
        if number < 0 {
            self.text("-")?;
            self.wide_hex(size)
        } else {
            self.wide_hex(size)
        }
    }

    /// A text and then these bytes after it.
    pub fn named(&mut self, text: &str, name: &[u8]) -> Result<(), AllocError>
        ensures { OnOk result (self.new ≡ self.old ++ (text.now ++ name.now)) }
    {
        self.text(text)?;
        self.bytes(name)
    }

    /// A text and then a number in decimal after it.
    pub fn counted(&mut self, text: &str, number: u64) -> Result<(), AllocError>
        ensures { OnOk result (self.new ≡ self.old ++ (text.now ++ decimal number)) }
    {
        self.text(text)?;
        self.decimal(number)
    }

    /// A text and then a number in hexadecimal after it.
    pub fn placed(&mut self, text: &str, number: u64) -> Result<(), AllocError>
        ensures { OnOk result (self.new ≡ self.old ++ (text.now ++ hex number)) }
    {
        self.text(text)?;
        self.hex(number)
    }

    /// The line feed that ends it.
    pub fn end(&mut self) -> Result<(), AllocError>
        ensures { OnOk result (self.new ≡ self.old ++ line_feed) }
    {
        self.bytes.push(b'\n')?;
        Ok(())
    }
}
