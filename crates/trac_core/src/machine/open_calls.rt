//! The calls that are open in a machine, by their marks.
ghost use Rattle.std.specs.Prelude.{◌≡◌, slice_index_or};
ghost use Rattle.trac_space.specs.Cells.{is_call};
ghost use Rattle.trac_space.specs.declared.cell.Cell.TheVariants.{Byte};
ghost use Rattle.trac_functions.specs.Flat.{mode_at, neutral_of};
ghost use Rattle.trac_core.specs.View.{neutral_in};
ghost use Rattle.trac_core.specs.OpenCalls.{mark_around, mark_of};

use super::Machine;
use trac_forms::{Cell, Work};
use trac_language::Mode;

/// The mark of an open call.
#[derive(Clone, Copy, Debug, PartialEq, Eq)]
pub struct CallMark {
    /// The mode of the call.
    pub mode: Mode,
    /// The place of the mark in the neutral string, in cells from 0.
    pub place: usize,
}

impl<'a> Machine<'a> {
    /// The place of the mark of the call around the one whose mark stands at `mark`, and of the innermost
    /// call where `mark` is `None`: in the neutral string, in cells from 0. None if no call is open around
    /// it, and if no mark of a call stands at `mark`. Looks at one mark, however many calls are open and
    /// however long they are. This processor's own choice.
    pub fn mark_around(&self, mark: Option<u32>) -> Option<u32>
        ensures { result ≡ mark_around mark (neutral_in self.now.memory) }
    {
        mark_around(&self.work, mark)
    }

    /// The mark of an open call. The innermost call has the number 0, the one around it the number 1, and so
    /// on. None if no open call has the number. Looks at the marks of the calls up to this one and at no text.
    /// This processor's own choice.
    pub fn call_mark(&self, number: u32) -> Option<CallMark>
        ensures { result ≡ mark_of number (neutral_in self.now.memory) }
    {
        mark_of(&self.work, number)
    }
}

/// The place of the mark of the call around the one with this mark, and of the innermost call without a
/// mark.
fn mark_around(work: &Work, mark: Option<u32>) -> Option<u32>
    ensures { result ≡ mark_around mark (neutral_of work.now.neutral) }
{
    let Some(place) = mark else {
        return work.last_call();
    };
    if is_mark_at(work, place) {
        work.call_before(place)
    } else {
        None
    }
}

/// Whether the mark of a call stands at a place of the neutral string.
fn is_mark_at(work: &Work, place: u32) -> bool
    ensures { result ≡ is_call (slice_index_or work.now.neutral place (Byte 0)) }
{
    let Some(cell) = work.neutral_at(place) else {
        return false;
    };
    is_mark(cell)
}

/// Whether a cell is the mark of a call.
fn is_mark(cell: Cell) -> bool
    ensures { result ≡ is_call cell }
{
    matches!(cell, Cell::Call(_, _))
}

/// The mark of the open call with this number, the innermost being 0.
fn mark_of(work: &Work, number: u32) -> Option<CallMark>
    ensures { result ≡ mark_of number (neutral_of work.now.neutral) }
{
    let Some(mut place) = work.last_call() else {
        return None;
    };
    for _inner in 0..number {
        let Some(around) = work.call_before(place) else {
            return None;
        };
        place = around;
    }
    Some(CallMark {
        mode: mode_at(work, place),
        place: place as usize,
    })
}

/// The mode of the call whose mark stands at a place.
fn mode_at(work: &Work, place: u32) -> Mode
    ensures { result ≡ mode_at work.now.neutral place }
{
    match work.neutral_at(place) {
        Some(Cell::Call(mode, _)) => mode,
        _ => Mode::Active,
    }
}
