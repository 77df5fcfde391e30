//! What follows a function's answer: the count of what the call needed, and where its value goes.
ghost use Rattle.std.specs.Prelude.{◌≡◌, ◌<◌, ◌≤◌, ◌++◌, length, drop, take, All, if◌then◌else◌};
ghost use Rattle.trac_space.specs.Calls.{IsLastCall};
ghost use Rattle.trac_space.specs.Texts.{IsByte};
ghost use Rattle.trac_forms.specs.Contents.{IsSound};
ghost use Rattle.trac_functions.specs.Flat.{mode_of, mode_at, is_active_mode};
ghost use Rattle.trac_core.specs.StepOutcomes.{value_delivered, settled, fate_after, need_after};
ghost use Rattle.trac_core.specs.StepOutcomes.{Stands};
ghost use Rattle.trac_functions.specs.Calls.{KeepsRoom};

use crate::outcome::StepOutcome;
use trac_forms::Work;
use trac_functions::arguments::CallResult;
use trac_language::{Fate, Mode};
use trac_space::{Cell, Part};

/// Removes the call that is this part of the neutral string, its mark and its arguments, and finishes what
/// its function began: a value that doesn't stand where it belongs is moved there.
/// `before` cells were used when the call was performed.
#[inline(always)]
pub(crate) fn finish_call(
    work: &mut Work,
    call: Part,
    before: u32,
    call_result: CallResult,
) -> StepOutcome
    requires order { call.from < call.to }
    requires stands { Stands call_result before call.to work.old }
    requires sound { IsSound work.old }
    ensures settled { work.new ≡ settled call_result call.from call.to work.old }
    ensures fate { result.fate ≡ fate_after call_result }
    ensures need { result.need ≡ need_after call_result before call.to work.old }
    ensures fits { result.need ≤ work.old.room }
    ensures keeps { KeepsRoom work.old work.new }
{
    let (fate, need) = match call_result {
        CallResult::Full => (Some(Fate::Workspace), 0),
        CallResult::Over(fate) => (Some(fate), work.used()),
        CallResult::InFront(cells) | CallResult::Null(cells) => {
            work.cut_neutral(call.from);
            (None, before + cells)
        }
        CallResult::Unscanned(cells) => {
            work.cut_neutral(call.from);
            work.active_to_neutral(cells);
            (None, before + cells)
        }
        CallResult::AtEnd => {
            let need = before + (work.neutral_len() - call.to);
            deliver(work, call.from, call.to);
            (None, need)
        }
    };
    StepOutcome { fate, need }
}

/// Removes the call whose mark stands at the place. Its value, which stands from another place on, goes
/// before the active string or stays.
#[inline]
fn deliver(work: &mut Work, place: u32, from: u32)
    requires order { place < from }
    requires within { from ≤ length work.old.neutral }
    requires value { All IsByte (drop from work.old.neutral) }
    ensures delivered { work.new ≡ value_delivered place from work.old }
    ensures sound { IsSound work.new }
{
    let scanned = is_scanned_again(work, place);
    move_value(work, place, from, scanned);
}

/// Removes the call whose mark stands at the place. Its value, which stands from another place on, goes before
/// the active string if it is to be scanned again, and else stays.
#[inline(always)]
pub(crate) fn move_value(work: &mut Work, place: u32, from: u32, scanned: bool)
    requires order { place < from }
    requires within { from ≤ length work.old.neutral }
    requires value { All IsByte (drop from work.old.neutral) }
    ensures moved { let value = drop from work.old.neutral in
        work.new ≡ (if scanned
        then record work.old { active = value ++ work.old.active; neutral = take place work.old.neutral }
        else record work.old { neutral = take place work.old.neutral ++ value }) }
    ensures sound { IsSound work.new }
{
    if scanned {
        work.neutral_to_active(from);
        work.cut_neutral(place);
    } else {
        work.drop_neutral(place, from);
    }
}

/// Whether the value of the innermost call, whose mark stands at the place, goes before the active
/// string.
#[inline]
pub(crate) fn is_active_call(work: &Work, place: u32) -> bool
    requires { IsLastCall work.now.neutral place }
    ensures { result ≡ is_active_mode (mode_at work.now.neutral place) }
{
    matches!(work.call_mode(place), Mode::Active)
}

/// Whether the value of the call whose mark stands at the place goes before the active string.
#[inline]
fn is_scanned_again(work: &Work, place: u32) -> bool
    ensures { result ≡ is_active_mode (mode_at work.now.neutral place) }
{
    match work.neutral_at(place) {
        Some(mark) => is_active(mark),
        None => true,
    }
}

/// Whether the value of a call with this mark is scanned again.
fn is_active(mark: Cell) -> bool
    ensures { result ≡ is_active_mode (mode_of mark) }
{
    !matches!(mark, Cell::Call(Mode::Neutral, _))
}
