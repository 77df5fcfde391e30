//! The origins of the characters of the active string.
ghost use Rattle.std.specs.Prelude.{◌≡◌, OnOk, OnErr, reverse};
ghost use Rattle.trac_warnings.specs.Origins.{first_origin, pushed, shortened, taken};

use crate::origin::Origin;
use std::alloc::{AllocError, Allocator};

/// Characters that stand side by side in the active string and were written side by side.
#[derive(Clone, Copy, Debug, PartialEq, Eq)]
pub struct Run {
    /// The origin of the first one.
    pub origin: Origin,
    /// How many there are, at least one.
    pub len: usize,
}

impl Run {
    // The run without some of its first characters, fewer than it has.
    fn shortened(self, count: usize) -> Run
        ensures { result ≡ shortened count self }
    {
        Run {
            origin: self.origin.behind(count),
            len: self.len.saturating_sub(count),
        }
    }
}

/// The origin of the first character. The first of the runs stands last. None if there are no runs.
pub fn first_origin(runs: &[Run]) -> Option<Origin>
    ensures { result ≡ first_origin (reverse runs.now) }
{
    match runs {
        [.., run] => Some(run.origin),
        [] => None,
    }
}

/// Puts `len` characters that were written from `origin` on in front of the runs. An error means that memory
/// ran out; then nothing has changed.
pub fn push_run<A: Allocator>(
    runs: &mut Vec<Run, A>,
    origin: Origin,
    len: usize,
) -> Result<(), AllocError>
    ensures ok { OnOk result (reverse runs.new.items ≡ pushed origin len (reverse runs.old.items)) }
    ensures err { OnErr result (runs.new.items ≡ runs.old.items) }
{
    if len == 0 {
        return Ok(());
    }
    runs.push(Run { origin, len })?;
    Ok(())
}

/// Removes the first `count` characters of the runs, or all if there are fewer. An error means that memory
/// ran out.
#[inline(always)]
pub fn take_run<A: Allocator>(runs: &mut Vec<Run, A>, count: usize) -> Result<(), AllocError>
    ensures { OnOk result (reverse runs.new.items ≡ taken count (reverse runs.old.items)) }
{
    let len = runs.len();
    if len > 0 && count < runs[len - 1].len {
        runs[len - 1] = runs[len - 1].shortened(count);
        return Ok(());
    }
    take_runs(runs, count)
}

// Removes the first `count` characters of the runs, one run after the other. An error means that memory ran out.
fn take_runs<A: Allocator>(runs: &mut Vec<Run, A>, count: usize) -> Result<(), AllocError>
    ensures { OnOk result (reverse runs.new.items ≡ taken count (reverse runs.old.items)) }
{
    let mut left = count;
    for _ in 0..runs.len() {
        let Some(run) = runs.pop() else {
            return Ok(());
        };
        if left < run.len {
            runs.push(run.shortened(left))?;
            return Ok(());
        }
        left -= run.len;
    }
    Ok(())
}
