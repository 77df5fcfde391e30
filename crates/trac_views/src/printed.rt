//! A sink that keeps what a step prints.
ghost use Rattle.std.specs.Prelude.{◌≡◌, ◌+◌, ◌-◌, ◌<◌, []};

use std::alloc::Allocator;
use trac_core::{Sink, SinkFailed};

/// What was printed since it was last cleared, in memory. It fails where there is no more memory.
#[derive(Drop)]
pub struct Printed<A: Allocator> {
    bytes: Vec<u8, A>,
    failures: u64,
}

impl<A: Allocator> Printed<A> {
    /// A sink to which nothing was printed yet.
    pub fn new(alloc: A) -> Printed<A>
        ensures empty { result.bytes.items ≡ [] }
        ensures none { result.failures ≡ 0 }
    {
        Printed {
            bytes: Vec::new(alloc),
            failures: 0,
        }
    }

    /// What was printed.
    pub fn as_bytes(&self) -> &[u8]
        ensures { result.now ≡ self.now.bytes.items }
    {
        self.bytes.as_slice()
    }

    /// Forgets what was printed.
    pub fn clear(&mut self)
        ensures empty { self.new.bytes.items ≡ [] }
        ensures counts { self.new.failures ≡ self.old.failures }
    {
        self.bytes.clear();
    }
}

impl<A: Allocator> Sink for Printed<A> {
    ghost tells = { λ _. Unit {0} };

    ghost written = { λ s. s.bytes.items };

    // what was taken waits for nothing
    ghost flushed = { λ _. Unit {0} };

    ghost failure_count = { λ s. s.failures };

    ghost lent = { λ _. 0 };

    fn put(&mut self, byte: u8) -> Result<(), SinkFailed> {
        match self.bytes.push(byte) {
            Ok(()) => Ok(()),
            Err(_) => {
                self.failures += 1;
                Err(SinkFailed)
            }
        }
    }

    fn flush(&mut self) -> Result<(), SinkFailed> {
        Ok(())
    }

    fn failures(&self) -> u64 {
        self.failures
    }
}
