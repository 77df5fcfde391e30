//! What C learns about a run.
ghost use Rattle.std.specs.Prelude.{◌≡◌};
ghost use Rattle.trac_c.specs.Checked.{no_memory};
ghost use Rattle.trac_c.specs.Reports.{number, refused};
ghost use Rattle.trac_c.specs.Traced.{answer_number};

use trac_core::Fate;

/// A turn waits for input.
pub(crate) const WAITS: u32 = 7;

/// A turn waits for room in the output.
pub(crate) const FULL: u32 = 8;

/// More cells than a machine may have: nothing was touched.
pub(crate) const REFUSED: u32 = 9;

/// The memory that was lent for lists ran out.
pub(crate) const NO_MEMORY: u32 = 10;

/// A turn waits for the host's value of a call.
pub(crate) const ASKS: u32 = 11;

/// What a run came to, as C reads it.
#[repr(C)]
#[derive(Drop)]
pub struct TracReport {
    /// How it ended: the number of a fate, 9 if the number of cells was refused, or 10 if the memory of a check or of
    /// a trace ran out. A turn after which the run goes on has 0 if its steps are used up, 7 if it waits for input,
    /// 8 if it waits for room in the output, and 11 if it waits for the host's value of a call.
    pub fate: u32,
    /// The greatest need of a step, in cells.
    pub peak: u32,
    /// The steps that the run has done so far.
    pub steps: u64,
    /// The bytes of the output that were written, from its front.
    pub written: usize,
    /// The bytes of the script, or of the input of a turn, that were consumed, from their front.
    pub consumed: usize,
    /// How many bytes the next step prints, if it waits for room in the output. After a check, how many bytes all
    /// lines have.
    pub wanted: usize,
}

/// The number of a fate.
pub(crate) fn number(fate: Fate) -> u32
    ensures { result ≡ number fate }
{
    match fate {
        Fate::Halted => 1,
        Fate::InputEnded => 2,
        Fate::Workspace => 3,
        Fate::Steps => 4,
        Fate::InputFailed => 5,
        Fate::OutputFailed => 6,
    }
}

/// The number of an answer of a step: 0 if the run goes on.
pub(crate) fn answer_number(answer: Option<Fate>) -> u32
    ensures { result ≡ answer_number answer }
{
    match answer {
        None => 0,
        Some(fate) => number(fate),
    }
}

/// The report where the number of cells was refused.
pub(crate) fn refused() -> TracReport
    ensures { result ≡ refused }
{
    TracReport {
        fate: REFUSED,
        peak: 0,
        steps: 0,
        written: 0,
        consumed: 0,
        wanted: 0,
    }
}

/// The report where the memory of a check ran out.
pub(crate) fn no_memory() -> TracReport
    ensures { result ≡ no_memory }
{
    TracReport {
        fate: NO_MEMORY,
        peak: 0,
        steps: 0,
        written: 0,
        consumed: 0,
        wanted: 0,
    }
}
