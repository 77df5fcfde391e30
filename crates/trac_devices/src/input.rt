//! A source over a reader behind a buffer.
ghost use Rattle.std.specs.Prelude.{◌≡◌, ◌+◌, ◌-◌, ◌^◌, ◌<◌, false, true, IsSome};
ghost use Rattle.trac_devices.specs.Devices.{Gives, failures_of_next, told_stream};
ghost use Rattle.trac_devices.specs.Slices.{IfTells};
ghost use Rattle.trac_devices.specs.Buffered.{unread};

use crate::buffered::BufferedReader;
use crate::device::{Next, Source};
use crate::retrying::RetryingReader;
use std::io::Read;
use std::marker::Model;
use trac_space::Neutral;

/// A source over a reader with a buffer of 8192 bytes, whose bytes it can give at once. It makes an
/// interrupted read again; any other error is a failure. After a read of no byte it has ended, and reads
/// no more. This processor's own choice.
#[derive(Drop)]
pub struct Input<R> {
    reader: BufferedReader<RetryingReader<R>>,
    ended: bool,
}

impl<R> Model for Input<R> {
    ghost use Rattle.trac_devices.specs.Readers.{SourceInput};

    ghost Value = { SourceInput R };

    ghost view = { λ s. record { reader = s.reader; ended = s.ended } };
}

impl<R: Read> Input<R> {
    /// A source that gives what the reader gives.
    pub fn new(reader: R) -> Input<R>
        ensures tells { IsSome (R.remaining reader) → ⟦<Input<R> as Source>⟧.tells result }
        ensures stream { ⟦<Input<R> as Source>⟧.stream result ≡
            told_stream (R.remaining reader) false }
        ensures none { ⟦<Input<R> as Source>⟧.failure_count result ≡ 0 }
    {
        Input {
            reader: BufferedReader::new(RetryingReader::new(reader)),
            ended: false,
        }
    }
}

impl<R: Read> Source for Input<R> {
    ghost tells = { λ s. IfTells (unread R.remaining s.reader) s.ended };

    ghost stream = { λ s. told_stream (unread R.remaining s.reader) s.ended };

    ghost failure_count = { λ s. s.reader.device.failures };

    fn take_held<N: Neutral>(&mut self, stop: u8, neutral: &mut N) {
        let count = neutral.push_before(stop, self.reader.held());
        self.reader.skip(count);
    }

    fn next(&mut self) -> Next
        requires { self.old.reader.device.failures < 2 ^ 64 - 1 }
        ensures ended { self.old.ended ≡ true → (result ≡ Next.End) × (self.new ≡ self.old) }
        ensures gives { let old = unread R.remaining self.old.reader in
            let new = unread R.remaining self.new.reader in
            IfTells old self.old.ended →
            Gives (told_stream old self.old.ended) result (told_stream new self.new.ended) }
        ensures told { let old = unread R.remaining self.old.reader in
            let new = unread R.remaining self.new.reader in
            IfTells old self.old.ended → IfTells new self.new.ended }
        ensures counts { self.new.reader.device.failures ≡
            self.old.reader.device.failures + failures_of_next result }
    {
        if self.ended {
            return Next::End;
        }
        let mut byte = [0];
        match self.reader.read(&mut byte) {
            Ok(0) => {
                self.ended = true;
                Next::End
            }
            Ok(_) => Next::Byte(byte[0]),
            Err(_) => Next::Failed,
        }
    }

    fn failures(&self) -> u64 {
        self.reader.failures()
    }
}
