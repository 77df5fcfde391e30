//! A source over a reader.
ghost use Rattle.std.specs.Prelude.{◌≡◌, ◌+◌, ◌-◌, ◌^◌, ◌<◌, IsSome, true, false};
ghost use Rattle.trac_devices.specs.Devices.{Gives, failures_of_next, told_stream};
ghost use Rattle.trac_devices.specs.Slices.{IfTells};

use crate::device::{Next, Source};
use std::io::Read;
use std::marker::Model;

/// A source over a reader, from which it reads one byte at a time. Each error is a failure, an interrupted
/// read too. After a read of no byte it has ended, and reads no more. This processor's own choice.
#[derive(Drop)]
pub struct ReadSource<R> {
    reader: R,
    ended: bool,
    failures: u64,
}

impl<R> Model for ReadSource<R> {
    ghost use Rattle.trac_devices.specs.Readers.{ReaderInput};

    ghost Value = { ReaderInput R };

    ghost view = { λ s. record { reader = s.reader; ended = s.ended; failures = s.failures } };
}

impl<R: Read> ReadSource<R> {
    /// A source that gives what the reader gives.
    pub fn new(reader: R) -> ReadSource<R>
        ensures tells { IsSome (R.remaining reader) → ⟦<ReadSource<R> as Source>⟧.tells result }
        ensures stream { ⟦<ReadSource<R> as Source>⟧.stream result ≡
            told_stream (R.remaining reader) false }
        ensures none { ⟦<ReadSource<R> as Source>⟧.failure_count result ≡ 0 }
    {
        ReadSource {
            reader,
            ended: false,
            failures: 0,
        }
    }
}

impl<R: Read> Source for ReadSource<R> {
    ghost tells = { λ s. IfTells (R.remaining s.reader) s.ended };

    ghost stream = { λ s. told_stream (R.remaining s.reader) s.ended };

    ghost failure_count = { λ s. s.failures };

    fn next(&mut self) -> Next
        requires { self.old.failures < 2 ^ 64 - 1 }
        ensures ended { self.old.ended ≡ true → (result ≡ Next.End) × (self.new ≡ self.old) }
        ensures gives { IfTells (R.remaining self.old.reader) self.old.ended →
            Gives (told_stream (R.remaining self.old.reader) self.old.ended) result
            (told_stream (R.remaining self.new.reader) self.new.ended) }
        ensures told { IfTells (R.remaining self.old.reader) self.old.ended →
            IfTells (R.remaining self.new.reader) self.new.ended }
        ensures counts { self.new.failures ≡ self.old.failures + failures_of_next result }
    {
        if self.ended {
            return Next::End;
        }
        let mut byte = [0];
        match self.reader.read(&mut byte) {
            Ok(0) => {
                self.ended = true;
                Next::End
            }
            Ok(_) => Next::Byte(byte[0]),
            Err(_) => {
                self.failures += 1;
                Next::Failed
            }
        }
    }

    fn failures(&self) -> u64 {
        self.failures
    }
}
