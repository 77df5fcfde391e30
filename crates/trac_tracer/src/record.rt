//! A reader that keeps what it reads.
ghost use Rattle.std.specs.Prelude.{◌≡◌, [], MatchResult, take, true};
ghost use Rattle.std.specs.Io.{ReadsAtMost};
ghost use Rattle.std.specs.Io.KnownBytes.{ReadConsumes};
ghost use Rattle.trac_tracer.specs.Recorded.{KeepsRead};

use std::alloc::Global;
use std::io;
use std::io::Read;

/// The bytes that were read.
#[derive(Drop)]
pub struct Record {
    /// The bytes, as far as there was memory for them.
    pub bytes: Vec<u8>,
    /// Whether there was memory for all of them.
    pub is_whole: bool,
}

impl Record {
    /// A record of no bytes.
    pub fn new(alloc: Global) -> Record
        ensures nothing { result.bytes.items ≡ [] }
        ensures whole { result.is_whole ≡ true }
    {
        Record {
            bytes: Vec::new(alloc),
            is_whole: true,
        }
    }
}

/// A reader that reads what another one gives, and keeps it.
#[derive(Drop)]
pub struct Recording<'r, R> {
    pub reader: R,
    pub record: &'r mut Record,
}

impl<R: Read> Read for Recording<'_, R> {
    ghost remaining = { λ r. R.remaining r.reader };

    fn read(&mut self, buf: &mut [u8]) -> io::Result<usize>
        ensures bound { ReadsAtMost result buf.new }
        ensures bytes { ReadConsumes (R.remaining self.old.reader) (R.remaining self.new.reader)
            result buf.new }
        // what was read is kept; if memory runs out, `is_whole` says so
        ensures kept { MatchResult result
            (λ count. KeepsRead (take count buf.new) self.old.record.now self.new.record.now)
            (λ _. self.new.record.now ≡ self.old.record.now) }
        ensures same_record { self.new.record.ghost_name ≡ self.old.record.ghost_name }
    {
        let count = self.reader.read(buf)?;
        let is_kept = self.record.bytes.extend_from_slice(&buf[..count]).is_ok();
        self.record.is_whole = self.record.is_whole && is_kept;
        Ok(count)
    }
}
