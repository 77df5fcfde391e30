//! A source over memory.
ghost use Rattle.std.specs.Prelude.{◌≡◌, ℕ, ◌+◌, ◌-◌, ◌^◌, ◌<◌, [], drop, true, false};
ghost use Rattle.trac_language.specs.Text.{Text};
ghost use Rattle.trac_devices.specs.Devices.{Gives, Streams, failures_of_next};
ghost use Rattle.trac_devices.specs.HeldBytes.{ReadsInto, TakesHeld};
ghost use Rattle.trac_devices.specs.Slices.{slice_input, slice_answer, slice_after, stream_in};

use crate::device::{Next, Source};
use std::marker::Model;
use trac_space::Neutral;

/// A source over bytes in memory, for embedding and for tests. It fails at a place that you can choose.
/// This processor's own choice.
#[derive(Drop)]
pub struct SliceSource<'a> {
    bytes: &'a [u8],
    fails: bool,
    ended: bool,
    failures: u64,
}

impl<'a> Model for SliceSource<'a> {
    ghost use Rattle.std.specs.Prelude.{◌≡◌, true, []};
    ghost use Rattle.trac_devices.specs.Slices.{SliceInput};

    ghost Value = { SliceInput };

    ghost view = { λ s. record {
      bytes = s.bytes.now;
      fails = s.fails;
      ended = s.ended;
      failures = s.failures;
    } };

    ghost invariant = { λ s. s.ended ≡ true → s.bytes.now ≡ [] };
}

impl<'a> SliceSource<'a> {
    /// A source that gives all the bytes and then ends. If `fails_at` is at most their number, it gives only
    /// the bytes before that place, and then fails at each call.
    pub fn new(bytes: &'a [u8], fails_at: Option<u64>) -> SliceSource<'a>
        ensures { result ≡ slice_input bytes.now fails_at }
    {
        match fails_at {
            Some(place) if place <= bytes.len() as u64 => SliceSource {
                bytes: &bytes[..place as usize],
                fails: true,
                ended: false,
                failures: 0,
            },
            _ => SliceSource {
                bytes,
                fails: false,
                ended: false,
                failures: 0,
            },
        }
    }

    /// The bytes still to come.
    pub fn rest(&self) -> &[u8]
        ensures { result.now ≡ self.now.bytes }
    {
        self.bytes
    }
}

impl Source for SliceSource<'_> {
    ghost tells = { λ _. Unit {0} };

    ghost stream = { λ s. stream_in s };

    ghost failure_count = { λ s. s.failures };

    fn take_held<N: Neutral>(&mut self, stop: u8, neutral: &mut N)
        requires { N.sound neutral.old }
        ensures taken { (count : ℕ)
            × (TakesHeld N.appended N.full stop self.old.bytes count neutral.old neutral.new
            × (self.new ≡ record self.old { bytes = drop count self.old.bytes })) }
        ensures reads { (text : Text) × (ReadsInto N.appended stop neutral.old neutral.new text
            × (Unit {0} → Streams (stream_in self.old) text (stream_in self.new))) }
        ensures told { Unit {0} → Unit {0} }
        ensures counts { self.new.failures ≡ self.old.failures }
        ensures sound { N.sound neutral.new }
    {
        let count = neutral.push_before(stop, self.bytes);
        self.bytes = &self.bytes[count..];
    }

    fn next(&mut self) -> Next
        requires { self.old.failures < 2 ^ 64 - 1 }
        ensures answer { result ≡ slice_answer self.old }
        ensures after { self.new ≡ slice_after result self.old }
        ensures gives { Unit {0} → Gives (stream_in self.old) result (stream_in self.new) }
        ensures told { Unit {0} → Unit {0} }
        ensures counts { self.new.failures ≡ self.old.failures + failures_of_next result }
    {
        if self.ended {
            return Next::End;
        }
        match self.bytes {
            [first, rest @ ..] => {
                self.bytes = rest;
                Next::Byte(*first)
            }
            [] if self.fails => {
                self.failures += 1;
                Next::Failed
            }
            [] => {
                self.ended = true;
                Next::End
            }
        }
    }

    fn failures(&self) -> u64 {
        self.failures
    }
}
