//! A sink over memory.
ghost use Rattle.std.specs.Prelude.{◌≡◌, ◌+◌, ◌-◌, ◌^◌, ◌<◌, ◌≤◌, [], length};
ghost use Rattle.std.specs.Prelude.{unwrap_or, is_ok, is_err, ◌&&◌, ◌||◌, OnOk, not, nat_eq};
ghost use Rattle.std.specs.Prelude.{nat_lt, true, false};
ghost use Rattle.trac_devices.specs.Devices.{failures_of, after_put};

use crate::device::{Sink, SinkFailed};

/// A sink over memory, for embedding and for tests. It fails when its memory is full, and at one flush that
/// you can choose. This processor's own choice.
#[derive(Drop)]
pub struct SliceSink<'a> {
    room: &'a mut [u8],
    len: usize,
    /// How many flushes are left up to the one that fails, that one included; 0 if none fails.
    flushes_left: u64,
    failures: u64,
    is_flushed: bool,
    ghost within: { len ≤ length room.now },
}

impl<'a> SliceSink<'a> {
    ghost use Rattle.trac_devices.specs.SliceSinks.{slice_output, lent_name, lent_bytes};

    /// A sink that writes over the bytes of `room`. Flush number `flush_fault`, from 1, fails; with None or 0
    /// no flush does.
    pub fn new(room: &'a mut [u8], flush_fault: Option<u64>) -> SliceSink<'a>
        ensures value { slice_output result ≡ record {
          written = [];
          room = length room.old;
          flushes_left = unwrap_or flush_fault 0;
          failures = 0;
          is_flushed = true;
        } }
        // the lent memory is unchanged
        ensures lent { lent_name result ≡ room.entry.ghost_name }
        ensures holds { lent_bytes result ≡ room.old }
    {
        SliceSink {
            room,
            len: 0,
            flushes_left: flush_fault.unwrap_or(0),
            failures: 0,
            is_flushed: true,
        }
    }

    /// The bytes written.
    pub fn written(&self) -> &[u8]
        ensures { result.now ≡ (slice_output self.now).written }
    {
        &self.room[..self.len]
    }
}

impl Sink for SliceSink<'_> {
    ghost use Rattle.trac_devices.specs.SliceSinks.{slice_output, lent_name};

    ghost tells = { λ _. Unit {0} };

    ghost written = { λ s. (slice_output s).written };

    ghost flushed = { λ s. (slice_output s).is_flushed ≡ true };

    ghost failure_count = { λ s. (slice_output s).failures };

    ghost lent = { λ s. lent_name s };

    fn put(&mut self, byte: u8) -> Result<(), SinkFailed>
        requires { (slice_output self.old).failures < 2 ^ 64 - 1 }
        ensures full { let old = slice_output self.old in
            is_ok result ≡ nat_lt (length old.written) old.room }
        ensures after { let old = slice_output self.old in
            slice_output self.new ≡ record old {
              written = after_put old.written byte result;
              failures = old.failures + failures_of result;
              is_flushed = old.is_flushed && is_err result;
            } }
        ensures writes { Unit {0} →
            (slice_output self.new).written ≡
            after_put (slice_output self.old).written byte result }
        ensures told { Unit {0} → Unit {0} }
        ensures counts { (slice_output self.new).failures ≡
            (slice_output self.old).failures + failures_of result }
        ensures kept { lent_name self.new ≡ lent_name self.old }
    {
        if self.len < self.room.len() {
            self.room[self.len] = byte;
            self.len += 1;
            self.is_flushed = false;
            Ok(())
        } else {
            self.failures += 1;
            Err(SinkFailed)
        }
    }

    fn flush(&mut self) -> Result<(), SinkFailed>
        requires { (slice_output self.old).failures < 2 ^ 64 - 1 }
        ensures fault { is_ok result ≡ not (nat_eq (slice_output self.old).flushes_left 1) }
        ensures after { let old = slice_output self.old in
            slice_output self.new ≡ record old {
              flushes_left = old.flushes_left - 1;
              failures = old.failures + failures_of result;
              is_flushed = old.is_flushed || is_ok result;
            } }
        ensures keeps { Unit {0} →
            (slice_output self.new).written ≡ (slice_output self.old).written }
        ensures flushed { OnOk result ((slice_output self.new).is_flushed ≡ true) }
        ensures told { Unit {0} → Unit {0} }
        ensures counts { (slice_output self.new).failures ≡
            (slice_output self.old).failures + failures_of result }
        ensures kept { lent_name self.new ≡ lent_name self.old }
    {
        if self.flushes_left > 0 {
            self.flushes_left -= 1;
            if self.flushes_left == 0 {
                self.failures += 1;
                return Err(SinkFailed);
            }
        }
        self.is_flushed = true;
        Ok(())
    }

    fn failures(&self) -> u64 {
        self.failures
    }
}
