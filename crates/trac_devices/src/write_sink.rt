//! A sink over a writer.
ghost use Rattle.std.specs.Prelude.{◌≡◌, ◌+◌, ◌-◌, ◌<◌, [], IsSome, unwrap_or, true, false};

use crate::device::{Sink, SinkFailed};
use std::io::Write;
use std::marker::Model;

/// A sink over a writer, to which it writes one byte at a time. An error, or a write of no byte, is a
/// failure. This processor's own choice.
#[derive(Drop)]
pub struct WriteSink<W> {
    writer: W,
    failures: u64,
    is_flushed: bool,
}

impl<W> Model for WriteSink<W> {
    ghost use Rattle.trac_devices.specs.Readers.{CountedWriter};

    ghost Value = { CountedWriter W };

    ghost view = { λ s. record {
      writer = s.writer;
      failures = s.failures;
      is_flushed = s.is_flushed;
    } };
}

impl<W: Write> WriteSink<W> {
    /// A sink that writes to the writer.
    pub fn new(writer: W) -> WriteSink<W>
        ensures tells { IsSome (W.contents writer) → ⟦<WriteSink<W> as Sink>⟧.tells result }
        ensures written { ⟦<WriteSink<W> as Sink>⟧.written result ≡
            unwrap_or (W.contents writer) [] }
        ensures flushed { ⟦<WriteSink<W> as Sink>⟧.flushed result }
        ensures none { ⟦<WriteSink<W> as Sink>⟧.failure_count result ≡ 0 }
    {
        WriteSink {
            writer,
            failures: 0,
            is_flushed: true,
        }
    }
}

impl<W: Write> Sink for WriteSink<W> {
    ghost tells = { λ s. IsSome (W.contents s.writer) };

    ghost written = { λ s. unwrap_or (W.contents s.writer) [] };

    ghost flushed = { λ s. s.is_flushed ≡ true };

    ghost failure_count = { λ s. s.failures };

    ghost lent = { λ _. 0 };

    fn put(&mut self, byte: u8) -> Result<(), SinkFailed> {
        self.is_flushed = false;
        match self.writer.write(&[byte]) {
            Ok(1) => Ok(()),
            _ => {
                self.failures += 1;
                Err(SinkFailed)
            }
        }
    }

    fn flush(&mut self) -> Result<(), SinkFailed> {
        match self.writer.flush() {
            Ok(()) => {
                self.is_flushed = true;
                Ok(())
            }
            Err(_) => {
                self.failures += 1;
                Err(SinkFailed)
            }
        }
    }

    fn failures(&self) -> u64 {
        self.failures
    }
}
