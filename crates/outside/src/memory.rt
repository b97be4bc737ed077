// A source and a sink in memory, which fail at the calls that they are told.
ghost use Rattle.std.specs.Prelude.{◌≡◌, ◌≤◌, ◌<◌, ◌+◌, ◌-◌, ◌↔◌, ◌⊎◌, Some, min, vec_len, vec_capacity, length, IfOk, IsErr, Contains, []};
ghost use Rattle.std.specs.Io.{ReadsAtMost, WritesAtMost};
ghost use Rattle.std.specs.Io.KnownBytes.{ReadConsumes};
ghost use Rattle.outside.specs.Causes.{HasCause, faults_after};
ghost use Rattle.outside.specs.Schedule.{one_call_more};

use crate::faults::FaultCount;
use crate::remainder::Remainder;
use crate::schedule::Schedule;
use crate::{Failed, Sink, Source};
use std::alloc::{AllocError, Global};

/// Gives its bytes, and fails at the listed calls, counted from 1.
#[derive(Drop)]
pub struct MemSource {
    rest: Remainder,
    schedule: Schedule,
    faults: FaultCount,
}

impl MemSource {
    ghost use Rattle.outside.specs.Memory.{left_of, failing_reads, reads_of, read_faults};

    /// A source of these bytes whose calls of these numbers fail, counted from 1.
    pub fn new(bytes: Vec<u8>, fails: Vec<u32>) -> Self
        ensures left { left_of result ≡ bytes.items }
        ensures fails { failing_reads result ≡ fails.items }
        ensures calls { reads_of result ≡ 0 }
        ensures faults { read_faults result ≡ 0 }
    {
        MemSource {
            rest: Remainder::new(bytes),
            schedule: Schedule::new(fails),
            faults: FaultCount::new(),
        }
    }
}

impl Source for MemSource {
    ghost use Rattle.outside.specs.Memory.{left_of, failing_reads, reads_of, read_faults};

    ghost left = { λ s. Some (left_of s) };

    ghost faults = { read_faults };

    fn read(&mut self, buf: &mut [u8]) -> Result<usize, Failed>
        ensures bound { ReadsAtMost result buf.new }
        ensures bytes { ReadConsumes (Some (left_of self.old)) (Some (left_of self.new)) result buf.new }
        ensures cause { HasCause (read_faults self.old) (read_faults self.new) result }

        // It gives as many bytes as there are and as the buffer has room for.
        ensures count { IfOk result (λ n. n ≡ min (length (left_of self.old)) (length buf.old)) }

        // It fails at the listed calls and at no other, and counts each call and each fault.
        ensures listed { IsErr result ↔ Contains (failing_reads self.old) (reads_of self.new) }
        ensures calls { reads_of self.new ≡ one_call_more (reads_of self.old) }
        ensures faults { read_faults self.new ≡ faults_after (read_faults self.old) result }
        ensures same_list { failing_reads self.new ≡ failing_reads self.old }
    {
        if self.schedule.next_fails() {
            return Err(self.faults.failure());
        }
        Ok(self.rest.read_into(buf))
    }
}

/// Takes whole pieces up to its room, and fails at the listed calls, counted from 1, and at a piece beyond its
/// room.
#[derive(Drop)]
pub struct MemSink {
    taken: Vec<u8>,
    room: usize,
    schedule: Schedule,
    faults: FaultCount,
    ghost in_room: { vec_len taken ≤ room },
    ghost reserved: { room ≤ vec_capacity taken },
}

impl MemSink {
    ghost use Rattle.outside.specs.Memory.{taken_of, room_of, failing_writes, writes_of, write_faults};

    /// An empty sink that takes `room` bytes in all and whose calls of these numbers fail, counted from 1.
    pub fn new(alloc: Global, room: usize, fails: Vec<u32>) -> Result<Self, AllocError>
        ensures empty { IfOk result (λ s. taken_of s ≡ []) }
        ensures room { IfOk result (λ s. room_of s ≡ room) }
        ensures fails { IfOk result (λ s. failing_writes s ≡ fails.items) }
        ensures calls { IfOk result (λ s. writes_of s ≡ 0) }
        ensures faults { IfOk result (λ s. write_faults s ≡ 0) }
    {
        Ok(MemSink {
            taken: Vec::with_capacity(alloc, room)?,
            room,
            schedule: Schedule::new(fails),
            faults: FaultCount::new(),
        })
    }

    /// All bytes that were taken.
    pub fn written(&self) -> &[u8]
        ensures { result.now ≡ taken_of self.now }
    {
        &self.taken
    }
}

impl Sink for MemSink {
    ghost use Rattle.std.proofs.Common.{rules};
    ghost use Rattle.outside.specs.Sink.{TakesCount};
    ghost use Rattle.outside.specs.Memory.{taken_of, room_of, failing_writes, writes_of, write_faults};

    ghost written = { λ s. Some (taken_of s) };

    ghost holds = { λ s text. text ≡ taken_of s };

    ghost faults = { write_faults };

    ghost told = { Prim.search rules };

    fn write(&mut self, piece: &[u8]) -> Result<usize, Failed>
        ensures bound { WritesAtMost result piece.now }
        ensures some { IfOk result (λ n. 0 < length piece.now → 0 < n) }
        ensures takes { TakesCount (λ s. Some (taken_of s)) (λ s text. text ≡ taken_of s) self.old self.new result piece.now }
        ensures cause { HasCause (write_faults self.old) (write_faults self.new) result }

        // It takes the whole piece, or fails: at the listed calls and beyond its room, and nowhere else.
        ensures whole { IfOk result (λ n. n ≡ length piece.now) }
        ensures fails { IsErr result ↔ (Contains (failing_writes self.old) (writes_of self.new)
            ⊎ (room_of self.old < length (taken_of self.old) + length piece.now)) }

        // It counts each call and each fault.
        ensures calls { writes_of self.new ≡ one_call_more (writes_of self.old) }
        ensures faults { write_faults self.new ≡ faults_after (write_faults self.old) result }
        ensures same_list { failing_writes self.new ≡ failing_writes self.old }
        ensures same_room { room_of self.new ≡ room_of self.old }
    {
        let is_listed = self.schedule.next_fails();
        if is_listed || piece.len() > self.room - self.taken.len() {
            return Err(self.faults.failure());
        }
        self.taken.extend_from_slice(piece).unwrap();
        Ok(piece.len())
    }
}
