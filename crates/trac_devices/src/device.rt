//! What a machine reads from and writes to.
ghost use Rattle.std.specs.Prelude.{◌≡◌, ℕ, ◌+◌, ◌-◌, ◌^◌, ◌<◌, List, OnOk, decimal};
ghost use Rattle.std.specs.Borrow.{GName};
ghost use Rattle.trac_language.specs.Text.{Text};
ghost use Rattle.trac_devices.specs.Devices.{Stream, Gives, Streams, failures_of_next, failures_of};
ghost use Rattle.trac_devices.specs.Devices.{after_put, Prints};
ghost use Rattle.trac_devices.specs.HeldBytes.{ReadsInto};

use crate::characters::Characters;
use itoa::Buffer;
use trac_space::Neutral;

/// What a source answers when it is asked for its next byte.
#[derive(Clone, Copy, Debug, PartialEq, Eq)]
pub enum Next {
    /// The next byte, which is consumed.
    Byte(u8),
    /// No more bytes come. From then on the source always answers this.
    End,
    /// Reading failed, and nothing was consumed.
    Failed,
}

/// The sink couldn't take a byte, or couldn't flush what it had taken.
#[derive(Clone, Copy, Debug, PartialEq, Eq, Drop, thiserror::Error)]
#[error("sink failed")]
pub struct SinkFailed;

/// A source of bytes, which may end and may fail. That it reports its failures, and that a failure
/// consumes nothing, is this processor's own choice.
pub trait Source {
    /// That contracts can name the bytes of the source, as over memory.
    ghost tells: { Self → Type 0 };

    /// The bytes still to come, and whether the source has answered its end.
    ghost stream: { Self → Stream };

    /// The number of failures so far.
    ghost failure_count: { Self → ℕ };

    /// Appends bytes that the source already holds to a neutral string, by `Neutral::push_before`: those
    /// before the first `stop`, as many as fit, or fewer. They are consumed. It waits for nothing and can't
    /// fail. A source that holds no bytes inherits this method.
    fn take_held<N: Neutral>(&mut self, stop: u8, neutral: &mut N)
        requires { N.sound neutral.old }
        ensures reads { (text : Text) × (ReadsInto N.appended stop neutral.old neutral.new text
            × (tells self.old → Streams (stream self.old) text (stream self.new))) }
        ensures told { tells self.old → tells self.new }
        ensures counts { failure_count self.new ≡ failure_count self.old }
        ensures sound { N.sound neutral.new }
    {}

    /// The next byte, the end, or a failure. A source that has ended answers the end at each later call.
    fn next(&mut self) -> Next
        requires { failure_count self.old < 2 ^ 64 - 1 }
        ensures gives { tells self.old → Gives (stream self.old) result (stream self.new) }
        ensures told { tells self.old → tells self.new }
        ensures counts { failure_count self.new ≡
            failure_count self.old + failures_of_next result };

    /// The number of failures so far.
    fn failures(&self) -> u64
        ensures { result ≡ failure_count self.now };
}

/// A sink of bytes, which may fail. That it reports its failures, and that a failure takes nothing, is this
/// processor's own choice.
pub trait Sink {
    /// That contracts can name the bytes of the sink, as over memory.
    ghost tells: { Self → Type 0 };

    /// The bytes written so far.
    ghost written: { Self → List ℕ };

    /// That everything taken has been sent on.
    ghost flushed: { Self → Type 0 };

    /// The number of failures so far.
    ghost failure_count: { Self → ℕ };

    /// The name by which proofs know the lent memory that the sink writes to, 0 if it has none. No call
    /// changes it, so whoever lent the memory knows what it holds afterwards.
    ghost lent: { Self → GName };

    /// Takes a byte. On an error it takes nothing.
    fn put(&mut self, byte: u8) -> Result<(), SinkFailed>
        requires { failure_count self.old < 2 ^ 64 - 1 }
        ensures writes { tells self.old →
            written self.new ≡ after_put (written self.old) byte result }
        ensures told { tells self.old → tells self.new }
        ensures counts { failure_count self.new ≡ failure_count self.old + failures_of result }
        ensures kept { lent self.new ≡ lent self.old };

    /// Takes the characters of a text in their order. On an error it has taken a first part of them.
    fn put_all(&mut self, text: &Characters<'_>) -> Result<(), SinkFailed>
        requires { failure_count self.old < 2 ^ 64 - 1 }
        ensures prints { tells self.old →
            Prints result (written self.old) text.now (written self.new) }
        ensures told { tells self.old → tells self.new }
        ensures counts { failure_count self.new ≡ failure_count self.old + failures_of result }
        ensures kept { lent self.new ≡ lent self.old }
    {
        for i in 0..text.len() {
            self.put(text.at(i))?;
        }
        Ok(())
    }

    /// Takes bytes in their order. On an error it has taken a first part of them.
    fn put_bytes(&mut self, bytes: &[u8]) -> Result<(), SinkFailed>
        requires { failure_count self.old < 2 ^ 64 - 1 }
        ensures prints { tells self.old →
            Prints result (written self.old) bytes.now (written self.new) }
        ensures told { tells self.old → tells self.new }
        ensures counts { failure_count self.new ≡ failure_count self.old + failures_of result }
        ensures kept { lent self.new ≡ lent self.old }
    {
        for byte in bytes {
            self.put(*byte)?;
        }
        Ok(())
    }

    /// Takes the decimal digits of a number. On an error it has taken a first part of them.
    fn put_number(&mut self, number: u32) -> Result<(), SinkFailed>
        requires { failure_count self.old < 2 ^ 64 - 1 }
        ensures prints { tells self.old →
            Prints result (written self.old) (decimal number) (written self.new) }
        ensures told { tells self.old → tells self.new }
        ensures counts { failure_count self.new ≡ failure_count self.old + failures_of result }
        ensures kept { lent self.new ≡ lent self.old }
    {
        let mut buffer = Buffer::new();
        self.put_bytes(buffer.format(number).as_bytes())
    }

    /// Sends on what was taken.
    fn flush(&mut self) -> Result<(), SinkFailed>
        requires { failure_count self.old < 2 ^ 64 - 1 }
        ensures keeps { tells self.old → written self.new ≡ written self.old }
        ensures flushed { OnOk result (flushed self.new) }
        ensures told { tells self.old → tells self.new }
        ensures counts { failure_count self.new ≡ failure_count self.old + failures_of result }
        ensures kept { lent self.new ≡ lent self.old };

    /// The number of failures so far.
    fn failures(&self) -> u64
        ensures { result ≡ failure_count self.now };
}
