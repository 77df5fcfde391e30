//! What the scanner remembers between the runs of characters that it moves.
ghost use Rattle.std.specs.Prelude.{◌≡◌, ◌+◌, ◌<◌, ◌↔◌, IsTrue, min};
ghost use Rattle.std.specs.Bool.{OnTrue, OnFalse};

/// How many long runs followed one another last. Any number is right, since it only decides how the next run
/// is moved.
#[derive(Clone, Copy, Debug, PartialEq, Eq)]
pub(crate) struct LongRuns {
    count: u32,
}

impl LongRuns {
    /// No long run came before.
    #[inline(always)]
    pub(crate) fn none() -> LongRuns
        ensures { result ≡ record { count = 0 } }
    {
        LongRuns { count: 0 }
    }

    /// Whether more than one long run followed one another, so that the next is likely to be long too.
    #[inline(always)]
    pub(crate) fn are_in_a_row(&self) -> bool
        ensures { IsTrue result ↔ (1 < self.now.count) }
    {
        self.count > 1
    }

    /// Counts a run. One that is not long ends the long runs that followed one another.
    #[inline(always)]
    pub(crate) fn count_run(&mut self, is_long: bool)
        ensures long { OnTrue is_long (self.new ≡ record { count = min (self.old.count + 1) 4294967295 }) }
        ensures short { OnFalse is_long (self.new ≡ record { count = 0 }) }
    {
        self.count = if is_long {
            self.count.saturating_add(1)
        } else {
            0
        };
    }
}
