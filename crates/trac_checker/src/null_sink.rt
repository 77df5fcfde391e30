//! A sink that keeps nothing.
ghost use Rattle.std.specs.Prelude.{◌≡◌, []};
ghost use Rattle.trac_checker.specs.WrittenBytes.{bytes_of};

use crate::written::Written;
use std::mem;
use std::snapshot::Snapshot;
use trac_core::{Sink, SinkFailed};

/// A sink that takes what is printed, and keeps none of it. It never fails.
#[derive(Drop)]
pub struct NullSink {
    // What was printed, as contracts see it: it takes no memory.
    written: Snapshot<Written>,
}

impl NullSink {
    /// A sink to which nothing was printed yet.
    pub fn new() -> NullSink
        ensures { bytes_of result.written.value ≡ [] }
    {
        NullSink {
            written: Snapshot::of(&Written::Nothing),
        }
    }
}

impl Sink for NullSink {
    ghost tells = { λ _. Unit {0} };

    ghost written = { λ s. bytes_of s.written.value };

    // what was taken waits for nothing
    ghost flushed = { λ _. Unit {0} };

    ghost failure_count = { λ _. 0 };

    ghost lent = { λ _. 0 };

    fn put(&mut self, byte: u8) -> Result<(), SinkFailed> {
        let earlier = mem::replace(&mut self.written, Snapshot::of(&Written::Nothing));
        self.written = Snapshot::of(&Written::Then(earlier, byte));
        Ok(())
    }

    fn flush(&mut self) -> Result<(), SinkFailed> {
        Ok(())
    }

    fn failures(&self) -> u64 {
        0
    }
}
