//! Buffers of fixed size in front of a reader and behind a writer.
ghost use Rattle.std.specs.Prelude.{◌≡◌, ◌+◌, ◌≤◌, ◌<◌, length, take, drop, [], true, false};
ghost use Rattle.std.specs.Prelude.{IfOk, OnErr, OnOk};
ghost use Rattle.std.specs.Io.{ReadsAtMost, WritesAtMost};
ghost use Rattle.std.specs.Io.KnownBytes.{Appends, IsAtEnd, Keeps, ReadConsumes, WriteAppends};
ghost use Rattle.trac_devices.specs.Counted.{Counts};

use crate::characters::Characters;
use crate::counted::{InputDevice, OutputDevice};
use std::io;
use std::io::{Read, Write};
use std::marker::Model;

const CAPACITY: usize = 8192;

/// A reader that reads up to 8192 bytes ahead. It holds `bytes[start..end]`, which are read and not yet
/// given.
#[derive(Drop)]
pub struct BufferedReader<R> {
    device: InputDevice<R>,
    bytes: [u8; CAPACITY],
    start: usize,
    end: usize,
}

impl<R> Model for BufferedReader<R> {
    ghost use Rattle.std.specs.Prelude.{◌≤◌, slice_range};
    ghost use Rattle.trac_devices.specs.Readers.{BufferedInput};

    ghost Value = { BufferedInput R };

    ghost view = { λ r. record { device = r.device; held = slice_range r.bytes r.start r.end } };

    ghost invariant = { λ r. (r.start ≤ r.end) × (r.end ≤ 8192) };
}

impl<R: Read> BufferedReader<R> {
    ghost use Rattle.trac_devices.specs.Buffered.{unread};

    /// Puts a buffer in front of a reader. It holds nothing yet.
    pub fn new(reader: R) -> BufferedReader<R>
        ensures nothing { result.held ≡ [] }
        ensures reader { result.device.reader ≡ reader }
        ensures fresh { result.device.failures ≡ 0 }
    {
        BufferedReader {
            device: InputDevice::new(reader),
            bytes: [0; CAPACITY],
            start: 0,
            end: 0,
        }
    }

    /// The bytes that the buffer holds: they are read and not yet given.
    #[inline]
    pub fn held(&self) -> &[u8]
        ensures { result.now ≡ self.now.held }
    {
        &self.bytes[self.start..self.end]
    }

    /// Drops the first `count` of the bytes that the buffer holds.
    #[inline]
    pub fn skip(&mut self, count: usize)
        requires { count ≤ length self.old.held }
        ensures { self.new ≡ record self.old { held = drop count self.old.held } }
    {
        self.start += count;
    }

    /// The number of failed reads so far.
    pub fn failures(&self) -> u64
        ensures reads { result ≡ self.now.device.failures }
    {
        self.device.failures()
    }

    // Reads once if it holds nothing. After an error it still holds nothing.
    fn fill(&mut self) -> io::Result<()>
        ensures bytes { Keeps (unread R.remaining self.old) (unread R.remaining self.new) }
        ensures failures { Counts self.old.device.failures self.new.device.failures result }
        ensures held { 0 < length self.old.held → self.new ≡ self.old }
        ensures end { OnOk result (self.new.held ≡ [] →
            IsAtEnd (R.remaining self.new.device.reader)) }
        ensures err { OnErr result (self.new.held ≡ []) }
    {
        if self.start < self.end {
            return Ok(());
        }
        self.start = 0;
        self.end = 0;
        let n = self.device.read(&mut self.bytes)?;
        self.end = n;
        Ok(())
    }

    // Gives some of the bytes that it holds; if it holds none, it reads first.
    #[cold]
    #[inline(never)]
    fn read_part(&mut self, buf: &mut [u8]) -> io::Result<usize>
        ensures bound { ReadsAtMost result buf.new }
        ensures bytes { ReadConsumes (unread R.remaining self.old) (unread R.remaining self.new)
            result buf.new }
        ensures failures { Counts self.old.device.failures self.new.device.failures result }
        ensures held { 0 < length self.old.held → self.new.device ≡ self.old.device }
        ensures end { IfOk result (λ n.
            n ≡ 0 → 0 < length buf.new → IsAtEnd (unread R.remaining self.new)) }
    {
        self.fill()?;
        let n = (self.end - self.start).min(buf.len());
        buf[..n].copy_from_slice(&self.bytes[self.start..self.start + n]);
        self.start += n;
        Ok(n)
    }
}

impl<R: Read> Read for BufferedReader<R> {
    ghost use Rattle.trac_devices.specs.Buffered.{unread};

    ghost remaining = { λ r. unread R.remaining r };

    #[inline]
    fn read(&mut self, buf: &mut [u8]) -> io::Result<usize>
        ensures bound { ReadsAtMost result buf.new }
        ensures bytes { ReadConsumes (unread R.remaining self.old) (unread R.remaining self.new)
            result buf.new }
        ensures failures { Counts self.old.device.failures self.new.device.failures result }
        ensures held { 0 < length self.old.held → self.new.device ≡ self.old.device }
        ensures end { IfOk result (λ n.
            n ≡ 0 → 0 < length buf.new → IsAtEnd (unread R.remaining self.new)) }
    {
        if buf.len() == 1 && self.start < self.end {
            buf[0] = self.bytes[self.start];
            self.start += 1;
            return Ok(1);
        }
        self.read_part(buf)
    }
}

/// A writer that holds up to 8192 bytes back: `bytes[start..end]` are taken and not yet written. `flush`
/// writes them.
#[derive(Drop)]
pub struct BufferedWriter<W> {
    device: OutputDevice<W>,
    bytes: [u8; CAPACITY],
    start: usize,
    end: usize,
}

impl<W> Model for BufferedWriter<W> {
    ghost use Rattle.std.specs.Prelude.{◌-◌, ◌≤◌, slice_range};
    ghost use Rattle.trac_devices.specs.Readers.{BufferedOutput};

    ghost Value = { BufferedOutput W };

    ghost view = { λ w. record {
      device = w.device;
      waiting = slice_range w.bytes w.start w.end;
      space = 8192 - w.end;
    } };

    ghost invariant = { λ w. (w.start ≤ w.end) × (w.end ≤ 8192) };
}

impl<W: Write> BufferedWriter<W> {
    ghost use Rattle.trac_devices.specs.Buffered.{accepted, WaitsOn};

    /// Puts a buffer behind a writer. No bytes wait yet.
    pub fn new(writer: W) -> BufferedWriter<W>
        ensures nothing { (result.waiting ≡ []) × (result.space ≡ 8192) }
        ensures writer { result.device.writer ≡ writer }
        ensures fresh { (result.device.failures ≡ 0) × (result.device.is_flushed ≡ false) }
    {
        BufferedWriter {
            device: OutputDevice::new(writer),
            bytes: [0; CAPACITY],
            start: 0,
            end: 0,
        }
    }

    /// The number of failed writes and flushes so far.
    pub fn failures(&self) -> u64
        ensures writes { result ≡ self.now.device.failures }
    {
        self.device.failures()
    }

    // Writes all bytes that wait. After a failure the rest of them still waits.
    fn write_out(&mut self) -> io::Result<()>
        ensures bytes { Keeps (accepted W.contents self.old) (accepted W.contents self.new) }
        ensures failures { Counts self.old.device.failures self.new.device.failures result }
        ensures empty { OnOk result ((self.new.waiting ≡ []) × (self.new.space ≡ 8192)) }
        ensures rest { OnErr result (WaitsOn self.old self.new) }
    {
        let all = &self.bytes[..];
        let (written, result) = write_until_failure(&all[self.start..self.end], &mut self.device);
        self.start += written;
        result?;
        self.start = 0;
        self.end = 0;
        Ok(())
    }

    // Writes all bytes that wait if the buffer is full.
    fn make_room(&mut self) -> io::Result<()>
        ensures bytes { Keeps (accepted W.contents self.old) (accepted W.contents self.new) }
        ensures failures { Counts self.old.device.failures self.new.device.failures result }
        ensures same { 0 < self.old.space → self.new ≡ self.old }
        ensures room { OnOk result (0 < self.new.space) }
        ensures rest { OnErr result (WaitsOn self.old self.new) }
    {
        if self.end < CAPACITY {
            return Ok(());
        }
        self.write_out()
    }

    // Takes some of the bytes, at least one if there is one, and gives how many. Makes room for them first.
    #[inline(never)]
    fn write_part(&mut self, buf: &[u8]) -> io::Result<usize>
        ensures bound { WritesAtMost result buf.now }
        ensures bytes { WriteAppends (accepted W.contents self.old) (accepted W.contents self.new)
            result buf.now }
        ensures failures { Counts self.old.device.failures self.new.device.failures result }
        ensures some { IfOk result (λ n. 0 < length buf.now → 0 < n) }
        ensures room { 0 < self.old.space → self.new.device ≡ self.old.device }
        ensures rest { OnErr result (WaitsOn self.old self.new) }
    {
        self.make_room()?;
        let n = (CAPACITY - self.end).min(buf.len());
        self.bytes[self.end..self.end + n].copy_from_slice(&buf[..n]);
        self.end += n;
        Ok(n)
    }

    /// Takes some of the characters, at least one if there is one, and gives how many. Makes room for them
    /// first; if that fails, it takes none.
    pub fn write_text(&mut self, text: &Characters<'_>) -> io::Result<usize>
        ensures bound { WritesAtMost result text.now }
        ensures bytes { WriteAppends (accepted W.contents self.old) (accepted W.contents self.new)
            result text.now }
        ensures failures { Counts self.old.device.failures self.new.device.failures result }
        ensures some { IfOk result (λ n. 0 < length text.now → 0 < n) }
        ensures room { 0 < self.old.space → self.new.device ≡ self.old.device }
        ensures rest { OnErr result (WaitsOn self.old self.new) }
    {
        self.make_room()?;
        let n = (CAPACITY - self.end).min(text.len());
        text.part(0, n)
            .write(&mut self.bytes[self.end..self.end + n]);
        self.end += n;
        Ok(n)
    }
}

// Writes until all bytes are written or a write fails, and gives how many were written.
fn write_until_failure<W: Write>(bytes: &[u8], to: &mut OutputDevice<W>) -> (usize, io::Result<()>)
    ensures bound { result.0 ≤ length bytes.now }
    ensures all { OnOk result.1 (result.0 ≡ length bytes.now) }
    ensures rest { OnErr result.1 (result.0 < length bytes.now) }
    ensures bytes { Appends (W.contents to.old.writer) (W.contents to.new.writer)
        (take result.0 bytes.now) }
    ensures failures { Counts to.old.failures to.new.failures result.1 }
{
    let mut written = 0;
    while written < bytes.len() {
        match to.write(&bytes[written..]) {
            Ok(n) => written += n,
            Err(error) => return (written, Err(error)),
        }
    }
    (written, Ok(()))
}

impl<W: Write> Write for BufferedWriter<W> {
    ghost use Rattle.trac_devices.specs.Buffered.{accepted, WaitsOn};

    ghost contents = { λ w. accepted W.contents w };

    #[inline]
    fn write(&mut self, buf: &[u8]) -> io::Result<usize>
        ensures bound { WritesAtMost result buf.now }
        ensures bytes { WriteAppends (accepted W.contents self.old) (accepted W.contents self.new)
            result buf.now }
        ensures failures { Counts self.old.device.failures self.new.device.failures result }
        ensures some { IfOk result (λ n. 0 < length buf.now → 0 < n) }
        ensures room { 0 < self.old.space → self.new.device ≡ self.old.device }
        ensures rest { OnErr result (WaitsOn self.old self.new) }
    {
        if buf.len() == 1 && self.end < CAPACITY {
            self.bytes[self.end] = buf[0];
            self.end += 1;
            return Ok(1);
        }
        self.write_part(buf)
    }

    fn flush(&mut self) -> io::Result<()>
        ensures bytes { Keeps (accepted W.contents self.old) (accepted W.contents self.new) }
        ensures failures { Counts self.old.device.failures self.new.device.failures result }
        ensures empty { OnOk result ((self.new.waiting ≡ []) × (self.new.space ≡ 8192)) }
        ensures flushed { OnOk result (self.new.device.is_flushed ≡ true) }
    {
        self.write_out()?;
        self.device.flush()
    }
}
