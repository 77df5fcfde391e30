//! The scanner: the rules that perform no call.
ghost use Rattle.std.specs.Prelude.{◌≡◌, ◌+◌, ◌<◌, ◌≤◌, ℕ, length};
ghost use Rattle.std.specs.Prelude.{take, drop, slice_get, IsTrue, ◌↔◌, None, Some, All};
ghost use Rattle.std.specs.Prelude.{MatchOption};
ghost use Rattle.trac_space.specs.Texts.{text_of_cells, IsByte};
ghost use Rattle.trac_forms.specs.Contents.{used, IsSound};
ghost use Rattle.trac_core.specs.StepOutcomes.{Scans};
ghost use Rattle.trac_core.specs.StepsInRow.{IsOrdinary, IsLayout, Advances, SomeSteps};
ghost use Rattle.trac_core.specs.StepsInRow.{ComesTo, AsksFor, kind_of};
ghost use Rattle.trac_core.specs.Rules.{Begins, Opens};
ghost use Rattle.trac_space.specs.Calls.{IsLastCall};
ghost use Rattle.trac_functions.specs.Calls.{KeepsRoom};

use crate::long_runs::LongRuns;
use crate::machine::closing::closed_call;
use crate::rules::{ScanningRule, rule_of};
use crate::runs::{KINDS, layout_characters, matching, ordinary_characters};
use trac_forms::Work;
use trac_language::Mode;
use trac_space::{Cell, byte_in};

// Up to this many characters of a run in a call are moved as they are looked at; a longer run is long.
// Up to twelve, the compiler makes code without a loop.
const MOVED_ONE_BY_ONE: u64 = 12;

/// The cells of the active string.
#[inline(always)]
pub(crate) fn characters<'w>(work: &'w Work) -> &'w [Cell]
    requires sound { IsSound work.now }
    ensures text { text_of_cells result.now ≡ text_of_cells work.now.active }
    ensures few { length result.now ≤ 16777216 }
    ensures bytes { All IsByte result.now }
{
    work.active_part(0, work.active_len())
}

/// Whether a character stands at a place of the active string.
#[inline]
pub(crate) fn is_at(work: &Work, place: u32, byte: u8) -> bool
    ensures { IsTrue result ↔ (slice_get (text_of_cells work.now.active) place ≡ Some byte) }
{
    prove!(work.used() <= work.room());
    match work.active_at(place) {
        Some(cell) => byte_in(&cell) == byte,
        None => false,
    }
}

/// What the beginning of the active string asks for where no rule fits that only scans.
#[derive(Clone, Copy, Debug, PartialEq, Eq)]
pub(crate) enum NextAction {
    /// It is empty: the idling procedure.
    Idling,
    /// A right parenthesis: the innermost call, whose mark stands at this place of the neutral string.
    EndOfCall(u32),
}

/// One step that performs no call. Gives what the step asks for instead where it does perform one.
pub(crate) fn scan_once(work: &mut Work) -> Option<NextAction>
    requires sound { IsSound work.old }
    ensures comes { MatchOption result
        (Advances 1 work.old work.new)
        (λ action. (work.new ≡ work.old) × AsksFor action work.old) }
    ensures keeps { KeepsRoom work.old work.new }
{
    if let Some(place) = closed_call(work) {
        return Some(NextAction::EndOfCall(place));
    }
    match scan_steps(work, 1, &mut LongRuns::none()) {
        Ok(_) => None,
        Err(action) => Some(action),
    }
}

/// Makes the steps of the rule that fits the beginning of the active string, at most `most`: a whole
/// run of ordinary characters, in a call with the commas between them, or of layout characters, or
/// one step of another rule that performs no call.
#[inline(always)]
pub(crate) fn scan_steps(
    work: &mut Work,
    most: u64,
    long_runs: &mut LongRuns,
) -> Result<u64, NextAction>
    requires some { 0 < most }
    requires sound { IsSound work.old }
    ensures comes { ComesTo result most work.old work.new }
    ensures keeps { KeepsRoom work.old work.new }
{
    match next_rule(work) {
        ScanningRule::Idling => Err(NextAction::Idling),
        ScanningRule::Layout => Ok(delete_layout(work, most)),
        ScanningRule::Protection => {
            protect(work);
            Ok(1)
        }
        ScanningRule::Argument => Ok(begin_argument(work, most, *long_runs)),
        ScanningRule::ActiveCall => Ok(begin_call(work, 2, Mode::Active, most, *long_runs)),
        ScanningRule::NeutralCall => Ok(begin_call(work, 3, Mode::Neutral, most, *long_runs)),
        ScanningRule::NumberSign => {
            add_number_sign(work);
            Ok(1)
        }
        ScanningRule::EndOfCall => end_call(work),
        ScanningRule::Character => Ok(add_characters(work, most, long_runs)),
    }
}

/// The rule that fits the beginning of the active string.
#[inline(always)]
fn next_rule(work: &Work) -> ScanningRule
    requires sound { IsSound work.now }
    ensures { Begins result (text_of_cells work.now.active) }
{
    rule_of(characters(work))
}

/// A right parenthesis closes the innermost call, or, where none is
/// open, is deleted (this processor's own choice).
#[inline]
fn end_call(work: &mut Work) -> Result<u64, NextAction>
    requires closes { slice_get (text_of_cells work.old.active) 0 ≡ Some 41 }
    requires sound { IsSound work.old }
    ensures comes { ComesTo result 1 work.old work.new }
    ensures keeps { KeepsRoom work.old work.new }
{
    match work.last_call() {
        Some(place) => Err(NextAction::EndOfCall(place)),
        None => {
            work.drop_active(1);
            Ok(1)
        }
    }
}

/// Adds the ordinary characters at the front of the active string, at most `most`, and in a call the
/// commas between them too. A run that follows two long ones, or stands in no call, is looked at
/// before it is moved; a run with commas is not long. Gives how many steps these are.
#[inline]
fn add_characters(work: &mut Work, most: u64, long_runs: &mut LongRuns) -> u64
    requires some { 0 < most }
    requires first { (c : ℕ) ×
        ((slice_get (text_of_cells work.old.active) 0 ≡ Some c) × IsOrdinary c) }
    requires sound { IsSound work.old }
    ensures passes { SomeSteps result most work.old work.new }
    ensures keeps { KeepsRoom work.old work.new }
{
    let count = if long_runs.are_in_a_row() || work.last_call().is_none() {
        add_long_run(work, most)
    } else {
        add_run(work, most)
    };
    let without_comma = work.neutral_len().saturating_sub(work.no_comma_from());
    long_runs.count_run(count >= MOVED_ONE_BY_ONE && count <= u64::from(without_comma));
    count
}

/// A comma is deleted. Where a call is open, a new argument of the innermost begins, and what
/// follows is added as by `add_characters`, unless long runs are. Gives how many steps they were.
#[inline]
fn begin_argument(work: &mut Work, most: u64, long_runs: LongRuns) -> u64
    requires some { 0 < most }
    requires first { slice_get (text_of_cells work.old.active) 0 ≡ Some 44 }
    requires sound { IsSound work.old }
    ensures passes { SomeSteps result most work.old work.new }
    ensures keeps { KeepsRoom work.old work.new }
{
    if work.last_call().is_none() {
        work.drop_active(1);
        return 1;
    }
    if long_runs.are_in_a_row() {
        work.active_to_cell(1, Cell::Comma);
        return 1;
    }
    add_run(work, most)
}

/// Adds the ordinary characters and the commas at the front of the active string where a call is
/// open, at most `most` and at most `MOVED_ONE_BY_ONE`. Gives how many steps these are: 0 if another character
/// stands there.
#[inline(always)]
fn add_run(work: &mut Work, most: u64) -> u64
    requires opened { (place : ℕ) × IsLastCall work.old.neutral place }
    requires sound { IsSound work.old }
    ensures passes { Advances result work.old work.new }
    ensures few { result ≤ most }
    ensures some { (c : ℕ) → slice_get (text_of_cells work.old.active) 0 ≡ Some c →
        kind_of c ≤ 1 → 0 < most → 0 < result }
    ensures shorter { length work.new.active + result ≡ length work.old.active }
    ensures keeps { KeepsRoom work.old work.new }
{
    let reach = most.min(u64::from(work.active_len()));
    // A constant makes a shorter loop.
    if reach >= MOVED_ONE_BY_ONE {
        add_run_within(work, MOVED_ONE_BY_ONE as u32)
    } else {
        add_run_within(work, reach as u32)
    }
}

/// Adds the ordinary characters and the commas among the first `reach` characters of the active
/// string, up to the first other one, where a call is open. Gives how many steps these are.
#[inline(always)]
fn add_run_within(work: &mut Work, reach: u32) -> u64
    requires opened { (place : ℕ) × IsLastCall work.old.neutral place }
    requires within { reach ≤ length work.old.active }
    requires sound { IsSound work.old }
    ensures passes { Advances result work.old work.new }
    ensures few { result ≤ reach }
    ensures some { (c : ℕ) → slice_get (text_of_cells work.old.active) 0 ≡ Some c →
        kind_of c ≤ 1 → 0 < reach → 0 < result }
    ensures shorter { length work.new.active + result ≡ length work.old.active }
    ensures keeps { KeepsRoom work.old work.new }
{
    u64::from(work.run_to_neutral(reach, KINDS))
}

/// Adds the ordinary characters at the front of the active string, at most `most`: first it looks how
/// many they are, and then it moves them. Gives how many steps these are.
#[inline(never)]
fn add_long_run(work: &mut Work, most: u64) -> u64
    requires some { 0 < most }
    requires first { (c : ℕ) ×
        ((slice_get (text_of_cells work.old.active) 0 ≡ Some c) × IsOrdinary c) }
    requires sound { IsSound work.old }
    ensures passes { SomeSteps result most work.old work.new }
    ensures keeps { KeepsRoom work.old work.new }
{
    let count = 1 + ordinary_characters(after_first(work, most));
    work.active_to_neutral(count);
    u64::from(count)
}

/// Deletes the layout characters at the front of the active string, at most `most`. Gives how many
/// steps these are.
#[inline(always)]
fn delete_layout(work: &mut Work, most: u64) -> u64
    requires some { 0 < most }
    requires first { (c : ℕ) ×
        ((slice_get (text_of_cells work.old.active) 0 ≡ Some c) × IsLayout c) }
    requires sound { IsSound work.old }
    ensures passes { SomeSteps result most work.old work.new }
    ensures keeps { KeepsRoom work.old work.new }
{
    let count = 1 + layout_characters(after_first(work, most));
    work.drop_active(count);
    u64::from(count)
}

/// The cells of the active string after the first, as far as its first `most` characters reach.
#[inline]
fn after_first<'a>(work: &'a Work, most: u64) -> &'a [Cell]
    requires some { 0 < most }
    requires within { 0 < length work.now.active }
    requires sound { IsSound work.now }
    ensures text { text_of_cells result.now ≡
        take (length result.now) (drop 1 (text_of_cells work.now.active)) }
    ensures few { length result.now + 1 ≤ most }
    ensures short { length result.now + 1 ≤ length work.now.active }
    ensures bounded { length result.now + 1 ≤ 16777216 }
    ensures bytes { All IsByte result.now }
{
    let all = work.active_len();
    work.active_part(1, most.min(u64::from(all)) as u32)
}

/// The text between a left parenthesis and its match is added unscanned; where there is no match
/// the active string becomes empty (this processor's own choice).
#[inline(never)]
fn protect(work: &mut Work)
    requires sound { IsSound work.old }
    requires first { slice_get (text_of_cells work.old.active) 0 ≡ Some 40 }
    ensures scans { Scans work.old work.new (used work.old) }
    ensures no_larger { used work.new ≤ used work.old }
    ensures shorter { length work.new.active < length work.old.active }
    ensures keeps { KeepsRoom work.old work.new }
{
    prove!(work.used() <= work.room());
    match matching(work.active_part(1, work.active_len())) {
        Some(len) => {
            work.drop_active(1);
            work.active_to_neutral(len);
            work.drop_active(1);
        }
        None => work.clear_active(),
    }
}

/// A number sign, or two, and a left parenthesis open a call: they leave the active string, and its
/// mark stands last in the neutral one. What begins its name is added as by `add_run`, unless long
/// runs are. Gives how many steps they were.
#[inline(always)]
fn begin_call(work: &mut Work, characters: u32, mode: Mode, most: u64, long_runs: LongRuns) -> u64
    requires some { 0 < most }
    requires one { 0 < characters }
    requires first { Opens mode characters (text_of_cells work.old.active) }
    requires sound { IsSound work.old }
    ensures passes { SomeSteps result most work.old work.new }
    ensures keeps { KeepsRoom work.old work.new }
{
    work.active_to_cell(characters, Cell::Call(mode, 0));
    if long_runs.are_in_a_row() {
        return 1;
    }
    1 + add_run(work, most - 1)
}

/// A number sign that opens no call goes to the end of the neutral string.
fn add_number_sign(work: &mut Work)
    requires sound { IsSound work.old }
    requires first { Begins ScanningRule.NumberSign (text_of_cells work.old.active) }
    ensures scans { Scans work.old work.new (used work.old) }
    ensures no_larger { used work.new ≤ used work.old }
    ensures shorter { length work.new.active < length work.old.active }
    ensures keeps { KeepsRoom work.old work.new }
{
    work.active_to_cell(1, Cell::Byte(b'#'));
}
