//! What a source sees of a machine: a neutral string to which it can append bytes.
ghost use Rattle.std.specs.Prelude.{◌≡◌, ◌<◌, ◌≤◌, ◌⊎◌, ◌==◌, [], Some, false, length, take, slice_get};
ghost use Rattle.std.specs.List.{list_any};
ghost use Rattle.trac_language.specs.Text.{Text};

/// A value with a neutral string, to which a source can append the bytes that it holds. A source sees
/// nothing else of the machine that reads from it. This processor's own choice.
pub trait Neutral {
    /// What holds of each such value.
    ghost sound: { Self → Type 0 };

    /// That the second value is the first with a text appended to its neutral string.
    ghost appended: { Self → Self → Text → Type 0 };

    /// That no cell is free.
    ghost full: { Self → Type 0 };

    /// Appends the bytes of `text` before its first `stop` to the neutral string, as many as fit, and
    /// gives how many it appended. Each takes one cell.
    fn push_before(&mut self, stop: u8, text: &[u8]) -> usize
        ensures within { result ≤ length text.now }
        ensures before { list_any (λ byte. byte == stop) (take result text.now) ≡ false }
        ensures stops { result < length text.now →
            (slice_get text.now result ≡ Some stop) ⊎ full self.new }
        ensures last { appended self.old self.new (take result text.now) }
        ensures sound { sound self.new };

    /// To append nothing changes nothing.
    ghost unchanged: { (value : Self) → appended value value [] };
}
