// Windows.
ghost use Rattle.std.specs.Prelude.{◌≡◌, ◌≤◌, ◌+◌, length, true, false};
ghost use Rattle.io_window.specs.Windows.{number_of};
ghost use Rattle.io_window.specs.Calls.{HasClosed, HasGot, HasPut};

use crate::bounces::Bounce;
use crate::buffers::{copy_held, handed_back, put_held};
use crate::closings::close_steps;
use crate::direct::Memory;
use epoch_rule::{Cabinet, Pass};
use generation::Generation;
use mem_base::{Edition, TxResult, WindowStart};
use std::marker::Model;
use std::sync::Wait;
use vcpu_pass::{Vcpu, leave_unless, read_memory, write_memory};

/// A window on a space, from `open` to `close`. Contracts see the pass that it keeps, where it begins, how long it is and
/// whether it is direct, the greatest end of a put, and the bytes of its bounce.
///
/// It is ended by `close` alone: it is not `Drop`, so a program that loses one is refused.
pub struct Window<'c> {
    pub(crate) cabinet: &'c Cabinet<Generation>,
    pub(crate) pass: Pass<Generation>,
    pub(crate) stays: bool,
    pub(crate) start: WindowStart,
    pub(crate) len: u64,
    pub(crate) memory: Option<Memory>,
    pub(crate) put_end: u64,
    pub(crate) buffer: Option<Vec<u8>>,
    pub(crate) filling: TxResult,
}

impl<'c> Model for Window<'c> {
    ghost use Rattle.std.specs.Prelude.{◌≡◌, is_some, option_map};
    ghost use Rattle.io_window.specs.Windows.{IsWindow, WindowValue};

    ghost Value = { WindowValue };

    ghost view = { λ w. record {
      pass = w.pass;
      stays = w.stays;
      start = w.start;
      len = w.len;
      direct = is_some w.memory;
      put_end = w.put_end;
      buffer = option_map (λ b. b.items) w.buffer;
      filling = w.filling;
    } };

    ghost invariant = { λ w. (w.pass.cabinet ≡ w.cabinet.now.id)
        × IsWindow w.pass w.start w.len w.memory (option_map (λ b. b.items) w.buffer) };
}

/// No window was opened: it would not be direct, and no bounce was handed in.
#[derive(Clone, Copy, Debug, Drop, PartialEq, Eq)]
pub struct NoBounce;

/// What is left of a window: its virtual CPU, the bounce that was handed in, used or not, and how its bytes were moved.
#[derive(Drop)]
pub struct Closed<'c> {
    pub vcpu: Vcpu<'c>,
    pub bounce: Option<Bounce>,
    pub result: TxResult,
}

impl<'c> Window<'c> {
    /// How many bytes it has.
    pub fn len(&self) -> u64
        ensures { result ≡ self.now.len }
    {
        self.len
    }

    /// Whether it lies on memory, and not on a bounce.
    pub fn direct(&self) -> bool
        ensures { result ≡ self.now.direct }
    {
        self.memory.is_some()
    }

    /// The number of its generation.
    pub fn number(&self) -> u64
        ensures { result ≡ number_of self.now }
    {
        self.cabinet.generation(&self.pass).number()
    }

    /// The greatest end of a put, 0 at first.
    pub fn put_end(&self) -> u64
        ensures { result ≡ self.now.put_end }
    {
        self.put_end
    }

    /// Gives the bytes of a read window from `at` on, as many as there is room for, within its length.
    ///
    /// A direct window loads each word that they lie in once, ascending. Another gives those with which it was filled.
    pub fn get(&mut self, at: u64, out: &mut [u8])
        requires read { self.old.start.write ≡ false }
        requires within { at + length out.old ≤ self.old.len }
        ensures { HasGot self.old at out.new self.new }
    {
        match self.memory {
            Some(memory) => {
                let offset = memory.offset + at;
                read_memory(self.cabinet, &mut self.pass, &memory.place, offset, out);
            }
            None => copy_held(&self.buffer, at as usize, out),
        }
    }

    /// Puts bytes into a write window from `at` on, within its length.
    ///
    /// A direct window replaces them in each word that they lie in, ascending, and marks nothing before it is closed. Another
    /// keeps them until then. It may wait where it replaces a part of a word.
    pub fn put<R: Wait>(&mut self, rt: &R, at: u64, bytes: &[u8])
        requires write { self.old.start.write ≡ true }
        requires within { at + length bytes.now ≤ self.old.len }
        ensures { HasPut self.old at bytes.now self.new }
    {
        self.put_end = self.put_end.max(at + bytes.len() as u64);
        match self.memory {
            Some(memory) => {
                let offset = memory.offset + at;
                write_memory(
                    rt,
                    self.cabinet,
                    &mut self.pass,
                    &memory.place,
                    offset,
                    bytes,
                );
            }
            None => put_held(&mut self.buffer, at as usize, bytes),
        }
    }

    /// Ends the window, of which the first `used` bytes count: all that was put, and within its length.
    ///
    /// A direct write window marks each page of these bytes for each client that logs it; another writes them, where bytes that were
    /// not put are 0. The result is that of the filling or of the writing. The virtual CPU leaves where `open` made it enter. It
    /// may wait where it replaces a part of a word.
    pub fn close<R: Wait>(self, rt: &R, used: u64) -> Closed<'c>
        requires put { self.put_end ≤ used }
        requires within { used ≤ self.len }
        ensures { HasClosed self.entry used result.vcpu result.bounce result.result }
    {
        let Window {
            cabinet,
            mut pass,
            stays,
            start,
            len: _len,
            memory,
            put_end: _end,
            buffer,
            filling,
        } = self;
        let result = close_steps(
            rt, cabinet, &mut pass, start, memory, &buffer, used, filling,
        );
        leave_unless(cabinet, &mut pass, stays);
        Closed {
            vcpu: Vcpu::new(cabinet, pass),
            bounce: handed_back(buffer),
            result,
        }
    }
}
