//! What a turn reads from and writes to.
ghost use Rattle.std.specs.Prelude.{◌≡◌, ℕ, ◌+◌, ◌^◌, ◌<◌, ◌≤◌, ◌++◌, length, take, false, None};
ghost use Rattle.std.specs.Prelude.{IsSome};
ghost use Rattle.trac_devices.specs.Slices.{slice_input, stream_in};
ghost use Rattle.trac_c.specs.Held.{listed, buffer_code};

use crate::filling::{MOST_DIGITS, put_characters, put_digits};
use itoa::Buffer;
use trac_core::{Characters, Neutral, Next, Sink, SinkFailed, SliceSource, Source};

/// A source over the bytes that a turn was given. It never fails.
#[derive(Drop)]
pub(crate) struct GivenSource<'a> {
    slice: SliceSource<'a>,
    ghost sound: { slice.fails ≡ false },
    ghost none_failed: { slice.failures ≡ 0 },
}

impl<'a> GivenSource<'a> {
    /// A source that gives these bytes and then ends.
    pub(crate) fn new(bytes: &'a [u8]) -> GivenSource<'a>
        ensures { result.slice ≡ slice_input bytes.now None }
    {
        GivenSource {
            slice: SliceSource::new(bytes, None),
        }
    }

    /// The bytes that are still to come.
    pub(crate) fn rest(&self) -> &[u8]
        ensures { result.now ≡ self.now.slice.bytes }
    {
        self.slice.rest()
    }
}

impl Source for GivenSource<'_> {
    ghost tells = { λ _. Unit {0} };

    ghost stream = { λ s. stream_in s.slice };

    ghost failure_count = { λ _. 0 };

    fn take_held<N: Neutral>(&mut self, stop: u8, neutral: &mut N) {
        self.slice.take_held(stop, neutral);
    }

    fn next(&mut self) -> Next {
        self.slice.next()
    }

    fn failures(&self) -> u64 {
        0
    }
}

/// A sink over a buffer and one byte behind it. It fails only where that byte is taken too: so what
/// the buffer has room for never fails.
#[derive(Drop)]
pub(crate) struct OverflowSink<'a> {
    room: &'a mut [u8],
    len: usize,
    behind: Option<u8>,
    failures: u64,
    ghost within: { len ≤ length room.now },
    ghost order: { IsSome behind → length room.now ≤ len },
    ghost full: { 0 < failures → IsSome behind },
    ghost bounded: { length room.now < 2 ^ 64 },
}

impl<'a> OverflowSink<'a> {
    /// A sink over this buffer, to which nothing was written.
    pub(crate) fn new(room: &'a mut [u8]) -> OverflowSink<'a>
        ensures same_room { result.room.ghost_name ≡ room.entry.ghost_name }
        ensures as_it_was { result.room.now ≡ room.old }
        ensures empty { (result.len ≡ 0) × (result.behind ≡ None) }
        ensures none_failed { result.failures ≡ 0 }
    {
        OverflowSink {
            room,
            len: 0,
            behind: None,
            failures: 0,
        }
    }

    /// How many bytes were written to the buffer.
    pub(crate) fn len(&self) -> usize
        ensures len { result ≡ self.now.len }
        ensures fits { result ≤ length self.now.room.now }
    {
        self.len
    }

    /// How many bytes there is room for in the buffer.
    pub(crate) fn free(&self) -> usize
        ensures { result + self.now.len ≡ length self.now.room.now }
    {
        self.room.len() - self.len
    }
}

impl Sink for OverflowSink<'_> {
    ghost tells = { λ _. Unit {0} };

    ghost written = { λ s. take s.len s.room.now ++ listed s.behind };

    ghost flushed = { λ _. Unit {0} };

    ghost failure_count = { λ s. s.failures };

    ghost lent = { λ s. buffer_code s.room.ghost_name (length s.room.now) };

    fn put(&mut self, byte: u8) -> Result<(), SinkFailed> {
        if self.len < self.room.len() {
            self.room[self.len] = byte;
            self.len += 1;
            return Ok(());
        }
        if self.behind.is_some() {
            self.failures += 1;
            return Err(SinkFailed);
        }
        self.behind = Some(byte);
        Ok(())
    }

    fn put_all(&mut self, text: &Characters<'_>) -> Result<(), SinkFailed> {
        let count = put_characters(text, self.len, self.room);
        self.len += count;
        for i in count..text.len() {
            self.put(text.at(i))?;
        }
        Ok(())
    }

    fn put_number(&mut self, number: u32) -> Result<(), SinkFailed> {
        if self.room.len() - self.len < MOST_DIGITS {
            let mut buffer = Buffer::new();
            return self.put_bytes(buffer.format(number).as_bytes());
        }
        self.len += put_digits(number, self.len, self.room);
        Ok(())
    }

    fn flush(&mut self) -> Result<(), SinkFailed> {
        Ok(())
    }

    fn failures(&self) -> u64 {
        self.failures
    }
}
