//! The reader and the writer under the buffers, each with the number of its failures. Only an answer of the
//! device itself raises that number.
ghost use Rattle.std.specs.Prelude.{◌≡◌, ◌≤◌, ◌<◌, length, true, false, IfOk, OnOk};
ghost use Rattle.std.specs.Io.{ReadsAtMost};
ghost use Rattle.std.specs.Io.KnownBytes.{Keeps, ReadConsumes, WriteAppends};
ghost use Rattle.trac_devices.specs.Counted.{Counts};

use std::io;
use std::io::{Read, Write};
use std::marker::Model;

/// A reader and the number of its failed reads.
#[derive(Drop)]
pub(crate) struct InputDevice<R> {
    reader: R,
    failures: u64,
}

impl<R> Model for InputDevice<R> {
    ghost use Rattle.trac_devices.specs.Readers.{CountedReader};

    ghost Value = { CountedReader R };

    ghost view = { λ d. record { reader = d.reader; failures = d.failures } };
}

impl<R: Read> InputDevice<R> {
    /// Counts the failures of a reader, from 0.
    pub(crate) fn new(reader: R) -> InputDevice<R>
        ensures reader { result.reader ≡ reader }
        ensures fresh { result.failures ≡ 0 }
    {
        InputDevice {
            reader,
            failures: 0,
        }
    }

    /// Reads once, and answers what the reader answers. A read of no byte is the reader's end, not a failure.
    pub(crate) fn read(&mut self, buf: &mut [u8]) -> io::Result<usize>
        requires room { 0 < length buf.old }
        ensures bound { ReadsAtMost result buf.new }
        ensures bytes { ReadConsumes (R.remaining self.old.reader) (R.remaining self.new.reader)
            result buf.new }
        ensures failures { Counts self.old.failures self.new.failures result }
    {
        let answer = self.reader.read(buf);
        if answer.is_err() {
            self.failures = self.failures.saturating_add(1);
        }
        answer
    }

    /// The number of failed reads so far.
    pub(crate) fn failures(&self) -> u64
        ensures { result ≡ self.now.failures }
    {
        self.failures
    }
}

/// A writer, the number of its failed writes and flushes, and whether all that it took is flushed.
#[derive(Drop)]
pub(crate) struct OutputDevice<W> {
    writer: W,
    failures: u64,
    is_flushed: bool,
}

impl<W> Model for OutputDevice<W> {
    ghost use Rattle.trac_devices.specs.Readers.{CountedWriter};

    ghost Value = { CountedWriter W };

    ghost view = { λ d. record {
      writer = d.writer;
      failures = d.failures;
      is_flushed = d.is_flushed;
    } };
}

impl<W: Write> OutputDevice<W> {
    /// Counts the failures of a writer, from 0. The writer isn't flushed yet.
    pub(crate) fn new(writer: W) -> OutputDevice<W>
        ensures writer { result.writer ≡ writer }
        ensures fresh { (result.failures ≡ 0) × (result.is_flushed ≡ false) }
    {
        OutputDevice {
            writer,
            failures: 0,
            is_flushed: false,
        }
    }

    /// Writes once. A write that takes no byte is a failure.
    pub(crate) fn write(&mut self, bytes: &[u8]) -> io::Result<usize>
        requires some { 0 < length bytes.now }
        ensures bound { IfOk result (λ n. (0 < n) × (n ≤ length bytes.now)) }
        ensures bytes { WriteAppends (W.contents self.old.writer) (W.contents self.new.writer)
            result bytes.now }
        ensures failures { Counts self.old.failures self.new.failures result }
        ensures unflushed { self.new.is_flushed ≡ false }
    {
        self.is_flushed = false;
        let written = match self.writer.write(bytes) {
            Ok(0) => Err(io::Error::from(io::ErrorKind::WriteZero)),
            answer => answer,
        };
        if written.is_err() {
            self.failures = self.failures.saturating_add(1);
        }
        written
    }

    /// Flushes once, and answers what the writer answers.
    pub(crate) fn flush(&mut self) -> io::Result<()>
        ensures bytes { Keeps (W.contents self.old.writer) (W.contents self.new.writer) }
        ensures failures { Counts self.old.failures self.new.failures result }
        ensures flushed { OnOk result (self.new.is_flushed ≡ true) }
    {
        let flushed = self.writer.flush();
        if flushed.is_ok() {
            self.is_flushed = true;
        } else {
            self.failures = self.failures.saturating_add(1);
        }
        flushed
    }

    /// The number of failed writes and flushes so far.
    pub(crate) fn failures(&self) -> u64
        ensures { result ≡ self.now.failures }
    {
        self.failures
    }
}
