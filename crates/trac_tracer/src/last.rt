//! The last steps of which something was shown.
ghost use Rattle.std.specs.Prelude.{◌≡◌, [], OnErr, OnOk, slice_index_or};
ghost use Rattle.trac_tracer.specs.Last.{with_step};

use std::alloc::{AllocError, Global};
use std::collections::VecDeque;
use std::marker::Model;

/// The numbers of the last steps that were added, in their order, at most as many as asked for.
#[derive(Drop)]
pub struct LastSteps {
    numbers: VecDeque<u64>,
    most: u64,
}

impl Model for LastSteps {
    ghost use Rattle.std.specs.Prelude.{◌≤◌, length};
    ghost use Rattle.trac_tracer.specs.Last.{LastNumbers};

    ghost Value = { LastNumbers };

    ghost view = { λ s. record { numbers = s.numbers.items; most = s.most } };

    ghost invariant = { λ s. length s.numbers.items ≤ s.most };
}

impl LastSteps {
    /// No step yet; keeps at most `most`.
    pub fn new(alloc: Global, most: u64) -> LastSteps
        ensures { result ≡ record { numbers = []; most = most } }
    {
        LastSteps {
            numbers: VecDeque::new(alloc),
            most,
        }
    }

    /// Adds a step of which these lines are shown, if there are any, and forgets the first step if
    /// there are too many then. Fails only if memory runs out; then nothing has changed.
    pub fn add(&mut self, number: u64, lines: &[u8]) -> Result<(), AllocError>
        ensures ok { OnOk result (self.new ≡ with_step number lines.now self.old) }
        ensures err { OnErr result (self.new ≡ self.old) }
    {
        if lines.is_empty() {
            return Ok(());
        }
        self.numbers.push_back(number)?;
        if self.numbers.len() as u64 > self.most {
            self.numbers.pop_front();
        }
        Ok(())
    }

    /// The first of the steps; 1 if there is none.
    pub fn first(&self) -> u64
        ensures { result ≡ slice_index_or self.now.numbers 0 1 }
    {
        match self.numbers.front() {
            Some(number) => *number,
            None => 1,
        }
    }
}
