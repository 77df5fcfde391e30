//! A sink over a writer behind a buffer.
ghost use Rattle.std.specs.Prelude.{◌≡◌, ◌+◌, ◌-◌, ◌<◌, [], true, IsSome, unwrap_or};
ghost use Rattle.trac_devices.specs.Buffered.{accepted};

use crate::buffered::BufferedWriter;
use crate::characters::Characters;
use crate::device::{Sink, SinkFailed};
use crate::retrying::RetryingWriter;
use std::io::Write;
use std::marker::Model;

/// A sink over a writer with a buffer of 8192 bytes. It is flushed if no bytes wait in the buffer and the
/// writer was flushed after its last write. It makes an interrupted call again; any other error, or a write
/// of no byte, is a failure. This processor's own choice.
#[derive(Drop)]
pub struct Output<W> {
    writer: BufferedWriter<RetryingWriter<W>>,
}

impl<W> Model for Output<W> {
    ghost use Rattle.trac_devices.specs.Readers.{BufferedOutput};

    ghost Value = { BufferedOutput W };

    ghost view = { λ s. s.writer };
}

impl<W: Write> Output<W> {
    /// A sink that writes to the writer.
    pub fn new(writer: W) -> Output<W>
        ensures tells { IsSome (W.contents writer) → ⟦<Output<W> as Sink>⟧.tells result }
        ensures written { ⟦<Output<W> as Sink>⟧.written result ≡ unwrap_or (W.contents writer) [] }
        ensures none { ⟦<Output<W> as Sink>⟧.failure_count result ≡ 0 }
    {
        Output {
            writer: BufferedWriter::new(RetryingWriter::new(writer)),
        }
    }
}

impl<W: Write> Sink for Output<W> {
    ghost tells = { λ s. IsSome (accepted W.contents s) };

    ghost written = { λ s. unwrap_or (accepted W.contents s) [] };

    ghost flushed = { λ s. (s.waiting ≡ []) × (s.device.is_flushed ≡ true) };

    ghost failure_count = { λ s. s.device.failures };

    ghost lent = { λ _. 0 };

    #[inline]
    fn put(&mut self, byte: u8) -> Result<(), SinkFailed> {
        match self.writer.write(&[byte]) {
            Ok(1) => Ok(()),
            _ => Err(SinkFailed),
        }
    }

    fn put_all(&mut self, text: &Characters<'_>) -> Result<(), SinkFailed> {
        let mut taken = 0;
        while taken < text.len() {
            let rest = text.part(taken, text.len());
            match self.writer.write_text(&rest) {
                Ok(count) => taken += count,
                Err(_) => return Err(SinkFailed),
            }
        }
        Ok(())
    }

    fn flush(&mut self) -> Result<(), SinkFailed> {
        match self.writer.flush() {
            Ok(()) => Ok(()),
            Err(_) => Err(SinkFailed),
        }
    }

    fn failures(&self) -> u64 {
        self.writer.failures()
    }
}
