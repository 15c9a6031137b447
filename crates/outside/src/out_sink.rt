// The standard output.
ghost use Rattle.std.specs.Prelude.{◌≡◌, ◌≤◌, ℕ, OnOk, OnErr, None};
ghost use Rattle.outside.specs.Faults.{one_more};

use crate::calls::count_fault;
use crate::pieces::write_whole;
use crate::{Sink, SinkFailed};
use std::io;
use std::marker::Model;

/// The standard output. It tells no bytes, and counts its faults.
#[derive(Drop)]
pub struct OutSink<'a, R: Print> {
    rt: &'a R,
    faults: u64,
}

impl<'a, R: Print> Model for OutSink<'a, R> {
    ghost Value = { ℕ };

    ghost view = { λ s. s.faults };
}

impl<'a, R: Print> OutSink<'a, R> {
    /// The standard output of the runtime, with no faults so far.
    pub fn new(rt: &'a R) -> OutSink<'a, R>
        ensures { result ≡ 0 }
    {
        OutSink { rt, faults: 0 }
    }
}

impl<'a, R: Print> Sink for OutSink<'a, R> {
    ghost written = { λ _. None };

    ghost faults = { λ s. s };

    /// Writes all the bytes to the standard output. Each failure is a fault.
    fn put(&mut self, bytes: &[u8]) -> Result<(), SinkFailed>
        ensures fault { OnErr result (self.new ≡ one_more self.old) }
        ensures no_fault { OnOk result (self.new ≡ self.old) }
        ensures never_falls { self.old ≤ self.new }
    {
        let answer = write_whole(&mut io::writer(self.rt), bytes);
        if answer.is_err() {
            count_fault(&mut self.faults);
        }
        answer
    }
}
