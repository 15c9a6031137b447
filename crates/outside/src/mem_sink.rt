// A sink in memory, for tests: it fails where it is told to, and where its room is full.
ghost use Rattle.std.specs.Prelude.{◌≡◌, ◌⊎◌, ◌≤◌, ◌+◌, ◌++◌, [], length, Some, IfOk, OnOk, OnErr};
ghost use Rattle.outside.specs.Calls.{FailsNext, next_call};

use crate::calls::{count_call, count_fault, fails_at};
use crate::{Sink, SinkFailed};
use std::alloc::{AllocError, Global};
use std::marker::Model;

/// A sink in memory. It tells what was put, and fails at the puts whose numbers it was made with.
#[derive(Drop)]
pub struct MemSink {
    written: Vec<u8>,
    room: usize,
    fails: Vec<u64>,
    calls: u128,
    faults: u64,
}

impl Model for MemSink {
    ghost use Rattle.std.specs.Prelude.{◌≤◌, length, vec_capacity};
    ghost use Rattle.outside.specs.MemSink.{MemorySink};

    ghost Value = { MemorySink };

    ghost view = { λ s. record {
      written = s.written.items;
      room = s.room;
      calls = s.calls;
      fails = s.fails.items;
      faults = s.faults;
    } };

    ghost invariant = { λ s. (length s.written.items ≤ s.room) × (s.room ≤ vec_capacity s.written) };
}

impl MemSink {
    /// A sink with nothing written, and room for so many bytes in all. Its puts are counted from 1,
    /// and those with the numbers in `fails` fail. An error where memory ran out.
    pub fn new(alloc: Global, room: usize, fails: &[u64]) -> Result<MemSink, AllocError>
        ensures { IfOk result (λ sink. sink ≡ record {
          written = [];
          room = room;
          calls = 0;
          fails = fails.now;
          faults = 0;
        }) }
    {
        Ok(MemSink {
            written: Vec::with_capacity(alloc, room)?,
            room,
            fails: Vec::from_slice(alloc, fails)?,
            calls: 0,
            faults: 0,
        })
    }

    /// All that was put, in order.
    pub fn written(&self) -> &[u8]
        ensures { result.now ≡ self.now.written }
    {
        &self.written
    }

    /// How many puts have failed.
    pub fn faults(&self) -> u64
        ensures { result ≡ self.now.faults }
    {
        self.faults
    }
}

impl Sink for MemSink {
    ghost use Rattle.outside.specs.MemSink.{Refuses, Fills};

    ghost written = { λ s. Some s.written };

    ghost faults = { λ s. s.faults };

    /// A put that is one of those that fail writes nothing. Any other that goes past the room fails
    /// and writes what fits.
    fn put(&mut self, bytes: &[u8]) -> Result<(), SinkFailed>
        ensures ok { OnOk result (self.new ≡ record self.old {
          written = self.old.written ++ bytes.now;
          calls = next_call self.old.calls;
        }) }
        ensures fits { OnOk result (¬ FailsNext self.old.fails self.old.calls
            × (length self.old.written + length bytes.now ≤ self.old.room)) }

        ensures failed { OnErr result (Refuses self.old self.new ⊎ Fills self.old bytes.now self.new) }
        ensures never_falls { self.old.faults ≤ self.new.faults }
    {
        count_call(&mut self.calls);
        if fails_at(&self.fails, self.calls) {
            count_fault(&mut self.faults);
            return Err(SinkFailed);
        }
        let fits = bytes.len().min(self.room - self.written.len());
        if self.written.extend_from_slice(&bytes[..fits]).is_err() {
            unreachable!();
        }
        if fits < bytes.len() {
            count_fault(&mut self.faults);
            return Err(SinkFailed);
        }
        Ok(())
    }
}
