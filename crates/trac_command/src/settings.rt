//! The settings of a run.
ghost use Rattle.std.specs.Prelude.{◌≡◌, ◌↔◌, IsNone, IfSome};
ghost use Rattle.trac_command.specs.Ranges.{AreInRange};

/// The most cells of a workspace, this processor's own choice.
pub const MOST_CELLS: u32 = 16_777_216;
/// The most steps that a run may be allowed, this processor's own choice.
pub const MOST_STEPS: u64 = 1_000_000_000_000;

/// What a run is given: the cells of its workspace, the steps that it may take, and whether its
/// steps and peak are printed. The cells are in 1..=16777216 and the steps in 1..=1000000000000,
/// which is this processor's own choice.
#[derive(Clone, Copy, Debug, PartialEq, Eq)]
pub struct Settings {
    pub cells: u32,
    pub steps: u64,
    pub report: bool,
    ghost ranges: { AreInRange cells steps },
}

impl Settings {
    /// Settings with these cells and steps. None if the cells or the steps are out of range.
    pub fn new(cells: u32, steps: u64, report: bool) -> Option<Settings>
        ensures none { IsNone result ↔ ¬ AreInRange cells steps }
        ensures some { IfSome result (λ s.
            (s.cells ≡ cells) × (s.steps ≡ steps) × (s.report ≡ report)) }
    {
        if cells == 0 || cells > MOST_CELLS || steps == 0 || steps > MOST_STEPS {
            return None;
        }
        Some(Settings {
            cells,
            steps,
            report,
        })
    }
}
