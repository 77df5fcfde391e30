//! A reader and a writer that make an interrupted call again.
ghost use Rattle.std.specs.Prelude.{◌≡◌, ◌≢◌, IfErr};
ghost use Rattle.std.specs.IoError.{error_kind};
ghost use Rattle.std.specs.Io.{ReadsAtMost, WritesAtMost};
ghost use Rattle.std.specs.Io.KnownBytes.{Keeps, ReadConsumes, WriteAppends};

use std::io;
use std::io::{ErrorKind, Read, Write};
use std::marker::Model;

/// A call that is interrupted each time is made this many times: 1,000,000.
pub const TRIES: u32 = 1_000_000;

/// A reader that makes a read again if a signal interrupted it; that is no failure. After `TRIES`
/// interrupted reads in a row it answers an error of the kind `TimedOut`, so each call returns. Any other
/// error is the reader's own. This processor's own choice.
#[derive(Drop)]
pub struct RetryingReader<R> {
    reader: R,
}

impl<R> Model for RetryingReader<R> {
    ghost Value = { R };

    ghost view = { λ r. r.reader };
}

impl<R: Read> RetryingReader<R> {
    /// A reader that gives what `reader` gives.
    pub fn new(reader: R) -> RetryingReader<R>
        ensures { ⟦<RetryingReader<R> as Read>⟧.remaining result ≡ R.remaining reader }
    {
        RetryingReader { reader }
    }
}

impl<R: Read> Read for RetryingReader<R> {
    ghost remaining = { λ r. R.remaining r };

    fn read(&mut self, buf: &mut [u8]) -> io::Result<usize>
        ensures bound { ReadsAtMost result buf.new }
        ensures bytes { ReadConsumes (R.remaining self.old) (R.remaining self.new)
            result buf.new }
        ensures retried { IfErr result (λ e. error_kind e ≢ ErrorKind.Interrupted) }
    {
        read_again(&mut self.reader, buf)
    }
}

/// A writer that makes a write or a flush again if a signal interrupted it; that is no failure. After
/// `TRIES` interrupted calls in a row it answers an error of the kind `TimedOut`, so each call returns. Any
/// other error is the writer's own. This processor's own choice.
#[derive(Drop)]
pub struct RetryingWriter<W> {
    writer: W,
}

impl<W> Model for RetryingWriter<W> {
    ghost Value = { W };

    ghost view = { λ w. w.writer };
}

impl<W: Write> RetryingWriter<W> {
    /// A writer that writes to `writer`.
    pub fn new(writer: W) -> RetryingWriter<W>
        ensures { ⟦<RetryingWriter<W> as Write>⟧.contents result ≡ W.contents writer }
    {
        RetryingWriter { writer }
    }
}

impl<W: Write> Write for RetryingWriter<W> {
    ghost contents = { λ w. W.contents w };

    fn write(&mut self, buf: &[u8]) -> io::Result<usize>
        ensures bound { WritesAtMost result buf.now }
        ensures bytes { WriteAppends (W.contents self.old) (W.contents self.new)
            result buf.now }
        ensures retried { IfErr result (λ e. error_kind e ≢ ErrorKind.Interrupted) }
    {
        write_again(&mut self.writer, buf)
    }

    fn flush(&mut self) -> io::Result<()>
        ensures bytes { Keeps (W.contents self.old) (W.contents self.new) }
        ensures retried { IfErr result (λ e. error_kind e ≢ ErrorKind.Interrupted) }
    {
        flush_again(&mut self.writer)
    }
}

// Reads once, and again as long as the read is interrupted, at most `TRIES` times.
fn read_again<R: Read>(reader: &mut R, buf: &mut [u8]) -> io::Result<usize>
    ensures bound { ReadsAtMost result buf.new }
    ensures bytes { ReadConsumes (R.remaining reader.old) (R.remaining reader.new) result buf.new }
    ensures retried { IfErr result (λ e. error_kind e ≢ ErrorKind.Interrupted) }
{
    for _ in 0..TRIES {
        match reader.read(buf) {
            Ok(count) => return Ok(count),
            Err(error) if error.kind() == ErrorKind::Interrupted => {}
            Err(error) => return Err(error),
        }
    }
    Err(io::Error::from(ErrorKind::TimedOut))
}

// Writes once, and again as long as the write is interrupted, at most `TRIES` times.
fn write_again<W: Write>(writer: &mut W, buf: &[u8]) -> io::Result<usize>
    ensures bound { WritesAtMost result buf.now }
    ensures bytes { WriteAppends (W.contents writer.old) (W.contents writer.new) result buf.now }
    ensures retried { IfErr result (λ e. error_kind e ≢ ErrorKind.Interrupted) }
{
    for _ in 0..TRIES {
        match writer.write(buf) {
            Ok(count) => return Ok(count),
            Err(error) if error.kind() == ErrorKind::Interrupted => {}
            Err(error) => return Err(error),
        }
    }
    Err(io::Error::from(ErrorKind::TimedOut))
}

// Flushes once, and again as long as the flush is interrupted, at most `TRIES` times.
fn flush_again<W: Write>(writer: &mut W) -> io::Result<()>
    ensures bytes { Keeps (W.contents writer.old) (W.contents writer.new) }
    ensures retried { IfErr result (λ e. error_kind e ≢ ErrorKind.Interrupted) }
{
    for _ in 0..TRIES {
        match writer.flush() {
            Ok(()) => return Ok(()),
            Err(error) if error.kind() == ErrorKind::Interrupted => {}
            Err(error) => return Err(error),
        }
    }
    Err(io::Error::from(ErrorKind::TimedOut))
}
