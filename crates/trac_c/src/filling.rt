//! A caller's buffers, filled from the front as far as they reach.
ghost use Rattle.std.specs.Prelude.{◌≡◌, ◌+◌, ◌<◌, ◌≤◌, [], ◌∷◌, length, min, take};
ghost use Rattle.std.specs.Prelude.{◌-◌, ◌^◌, ◌++◌, drop, decimal};
ghost use Rattle.trac_c.specs.Held.{buffer_code};
ghost use Rattle.trac_checker.specs.WrittenBytes.{bytes_of};
ghost use Rattle.trac_c.specs.Buffers.{laid, laid_from};

use itoa::write_digits;
use trac_checker::NullSink;
use trac_core::{Characters, Sink, SinkFailed};
use trac_devices::decimal_len;

/// Puts bytes to the front of a buffer, as many as fit, and gives how many fit.
pub(crate) fn lay(bytes: &[u8], room: &mut [u8]) -> usize
    ensures count { result ≡ min (length bytes.now) (length room.old) }
    ensures laid { room.new ≡ laid bytes.now room.old }
{
    let count = bytes.len().min(room.len());
    room[..count].copy_from_slice(&bytes[..count]);
    count
}

/// Puts the characters of a text to a place of a buffer, as far as that reaches, and gives how many it
/// put.
pub(crate) fn put_characters(text: &Characters<'_>, place: usize, room: &mut [u8]) -> usize
    requires { place ≤ length room.old }
    ensures put { take (place + result) room.new ≡
        take place room.old ++ take result text.now }
    ensures few { result ≤ length text.now }
    ensures fits { place + result ≤ length room.old }
    ensures full { result < length text.now → place + result ≡ length room.old }
    ensures same { length room.new ≡ length room.old }
{
    let count = text.len().min(room.len() - place);
    text.part(0, count).write(&mut room[place..place + count]);
    count
}

/// How many digits a number of 32 bits has at most.
pub(crate) const MOST_DIGITS: usize = 10;

/// Puts the digits of a number to a place of a buffer which has room for ten, and gives how many they are.
#[inline(always)]
pub(crate) fn put_digits(number: u32, place: usize, room: &mut [u8]) -> usize
    requires { place + 10 ≤ length room.old }
    ensures put { take (place + result) room.new ≡ take place room.old ++ decimal number }
    ensures few { result ≤ 10 }
    ensures same { length room.new ≡ length room.old }
{
    let count = decimal_len(number) as usize;
    write_digits(u64::from(number), room, place + count);
    count
}

/// A sink over a buffer. It fails only where that is full.
#[derive(Drop)]
pub(crate) struct FillingSink<'a> {
    room: &'a mut [u8],
    len: usize,
    failures: u64,
    ghost within: { len ≤ length room.now },
    ghost full: { 0 < failures → length room.now ≤ len },
}

impl<'a> FillingSink<'a> {
    /// A sink over this buffer, to which nothing was written.
    pub(crate) fn new(room: &'a mut [u8]) -> FillingSink<'a>
        ensures same_room { result.room.ghost_name ≡ room.entry.ghost_name }
        ensures as_it_was { result.room.now ≡ room.old }
        ensures empty { result.len ≡ 0 }
        ensures none_failed { result.failures ≡ 0 }
    {
        FillingSink {
            room,
            len: 0,
            failures: 0,
        }
    }

    /// How many bytes were written.
    pub(crate) fn len(&self) -> usize
        ensures len { result ≡ self.now.len }
        ensures fits { result ≤ length self.now.room.now }
    {
        self.len
    }

    /// How many bytes there is room for.
    pub(crate) fn free(&self) -> usize
        ensures { result + self.now.len ≡ length self.now.room.now }
    {
        self.room.len() - self.len
    }
}

impl Sink for FillingSink<'_> {
    ghost tells = { λ _. Unit {0} };

    ghost written = { λ s. take s.len s.room.now };

    ghost flushed = { λ _. Unit {0} };

    ghost failure_count = { λ s. s.failures };

    ghost lent = { λ s. s.room.ghost_name };

    fn put(&mut self, byte: u8) -> Result<(), SinkFailed> {
        if self.len < self.room.len() {
            self.room[self.len] = byte;
            self.len += 1;
            Ok(())
        } else {
            self.failures += 1;
            Err(SinkFailed)
        }
    }

    fn put_all(&mut self, text: &Characters<'_>) -> Result<(), SinkFailed> {
        let count = put_characters(text, self.len, self.room);
        self.len += count;
        if count < text.len() {
            self.failures += 1;
            return Err(SinkFailed);
        }
        Ok(())
    }

    fn flush(&mut self) -> Result<(), SinkFailed> {
        Ok(())
    }

    fn failures(&self) -> u64 {
        self.failures
    }
}

/// A sink over a buffer that passes over the first bytes, and drops those for which there is no room. It never fails.
#[derive(Drop)]
pub(crate) struct PartSink<'a> {
    /// How many bytes are passed over in all, and how many of them are still to come.
    from: usize,
    before: usize,
    room: &'a mut [u8],
    size: usize,
    len: usize,
    /// All that was put, as contracts see it: it takes no memory.
    all: &'a mut NullSink,
    ghost passing: { before ≡ from - length (bytes_of all.now.written.value) },
    ghost filled: { len ≡ min (length (drop from (bytes_of all.now.written.value))) (length room.now) },
    ghost bounded: { (from < 2 ^ 64) × (size < 2 ^ 64) },
    ghost sized: { length room.now ≡ size },
    ghost part: { take len room.now ≡ take len (drop from (bytes_of all.now.written.value)) },
}

impl<'a> PartSink<'a> {
    /// A sink over this buffer, which passes over the first `from` bytes.
    pub(crate) fn new(from: usize, room: &'a mut [u8], all: &'a mut NullSink) -> PartSink<'a>
        requires none { bytes_of all.old.written.value ≡ [] }
        ensures same_room { result.room.ghost_name ≡ room.entry.ghost_name }
        ensures size { length result.room.now ≡ length room.old }
        ensures from { result.from ≡ from }
        ensures empty { bytes_of result.all.now.written.value ≡ [] }
    {
        PartSink {
            from,
            before: from,
            size: room.len(),
            room,
            len: 0,
            all,
        }
    }
}

impl Sink for PartSink<'_> {
    ghost tells = { λ _. Unit {0} };

    ghost written = { λ s. bytes_of s.all.now.written.value };

    ghost flushed = { λ _. Unit {0} };

    ghost failure_count = { λ _. 0 };

    // calls keep the buffer, its size, and how many bytes are passed over
    ghost lent = { λ s. buffer_code (buffer_code s.room.ghost_name s.from) s.size };

    fn put(&mut self, byte: u8) -> Result<(), SinkFailed> {
        if self.before > 0 {
            self.all.put(byte)?;
            self.before -= 1;
            return Ok(());
        }
        if self.len < self.room.len() {
            self.room[self.len] = byte;
            self.all.put(byte)?;
            self.len += 1;
            return Ok(());
        }
        self.all.put(byte)
    }

    fn flush(&mut self) -> Result<(), SinkFailed> {
        Ok(())
    }

    fn failures(&self) -> u64 {
        0
    }
}
