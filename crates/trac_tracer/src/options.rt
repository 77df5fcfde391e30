//! What a run that is shown is given.
ghost use Rattle.std.specs.Prelude.{◌≡◌, ◌≤◌};

use trac_views::Views;

/// The limits of the run, and what is shown of it.
#[derive(Clone, Copy)]
pub struct Options {
    /// The cells of the workspace.
    pub cells: u32,
    /// The most steps that the run may make.
    pub steps: u64,
    pub views: Views,
    ghost within: { cells ≤ 16777216 },
}

impl Options {
    /// The same limits with other views.
    pub fn showing(&self, views: Views) -> Options
        ensures { result ≡ record self.now { views = views } }
    {
        Options {
            cells: self.cells,
            steps: self.steps,
            views,
        }
    }
}
