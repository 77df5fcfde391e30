//! What of a run is shown.
ghost use Rattle.std.specs.Prelude.{◌≡◌, ◌&&◌, ◌+◌, ◌-◌, ◌^◌, max, min, nat_le, false};
ghost use Rattle.trac_views.specs.CallLines.{has_steps, has_strings};

/// The most steps before the end that `--last` can show, this processor's own choice.
pub const MOST_LAST: u64 = 1_000_000;
/// The widest that `--width` can make a text, and `--columns` a line, this processor's own choice.
pub const MOST_WIDTH: u32 = 16_777_216;

/// What is shown of a run, and of which steps. All of it is this processor's own choice.
#[derive(Clone, Copy)]
pub struct Views {
    /// The first step that is shown, from 1.
    pub from: u64,
    /// The last step that is shown.
    pub to: u64,
    /// How many steps are shown, the last ones of which there is something to show; 0 for all.
    pub last: u64,
    /// The most bytes of a text that are shown, 0 for all.
    pub width: u32,
    /// The most columns of a line, 0 for any number.
    pub columns: u32,
    /// The calls that were performed are shown.
    pub calls: bool,
    /// The forms that changed are shown, and all forms at the end.
    pub forms: bool,
    /// Only what is suspicious is shown.
    pub warn: bool,
}

impl Views {
    /// Whether the steps themselves are shown: where no other view is asked for.
    pub fn has_steps(&self) -> bool
        ensures { result ≡ has_steps self.now }
    {
        !self.calls && !self.forms
    }

    /// Whether the strings are shown: with the steps and with the calls.
    pub fn has_strings(&self) -> bool
        ensures { result ≡ has_strings self.now }
    {
        self.has_steps() || self.calls
    }

    /// Whether step `number`, from 1, is shown.
    pub fn has(&self, number: u64) -> bool
        ensures { result ≡ (nat_le self.now.from number && nat_le number self.now.to) }
    {
        self.from <= number && number <= self.to
    }

    /// These views, for all steps.
    pub fn of_all_steps(&self) -> Views
        ensures { result ≡ record self.now { from = 1; to = 2 ^ 64 - 1 } }
    {
        Views {
            from: 1,
            to: u64::MAX,
            ..*self
        }
    }

    /// The number of the first of the last `last` steps, in a run of `steps` steps.
    pub fn first_of(&self, steps: u64) -> u64
        ensures { result ≡ min (steps - self.now.last + 1) (2 ^ 64 - 1) }
    {
        steps.saturating_sub(self.last).saturating_add(1)
    }

    /// These views, for the steps from step `first` on.
    pub fn beginning_at(&self, first: u64) -> Views
        ensures { result ≡ record self.now { from = max self.now.from first; last = 0 } }
    {
        Views {
            from: self.from.max(first),
            last: 0,
            ..*self
        }
    }
}
