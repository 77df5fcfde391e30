//! The ends of strings that were read: what is still open there.
ghost use Rattle.std.specs.Prelude.{◌≡◌, ◌<◌, ◌&&◌, [], List, OnOk, drop, false, map, nat_lt, reverse};
ghost use Rattle.trac_warnings.specs.Looked.{Looks};
ghost use Rattle.trac_warnings.specs.Origins.{in_input};
ghost use Rattle.trac_warnings.specs.Performed.{Warns};
ghost use Rattle.trac_warnings.specs.StepWarnings.{end_warnings, ended, ends_in_word, is_dropped_last};
ghost use Rattle.trac_warnings.specs.StepWarnings.{is_ended_at, is_letter_at};
ghost use Rattle.trac_warnings.specs.StepWarnings.{is_protection, left_open, not_ended};
ghost use Rattle.trac_warnings.specs.Watched.{Kept, KeepsRun, Said, said};

use super::calls::{calls_beyond, warn_of_open_calls};
use super::{OpenString, Watch};
use crate::origin::Origin;
use crate::performed::warn;
use crate::warning::Suspicion;
use std::alloc::{AllocError, Allocator};
use trac_core::ScanningRule;

#[tactic(auto, using(crate::proofs::Keeping::keeping))]
impl<A: Allocator + Copy> Watch<A> {
    // Looks at the strings that ended with a step by this rule. The step left `active` cells in the active
    // string, and the first of them was written `here`.
    #[inline(always)]
    pub(super) fn warn_of_ends(
        &mut self,
        rule: ScanningRule,
        active: usize,
        here: Origin,
    ) -> Result<(), AllocError>
        ensures kept { Kept self.old.warnings.items self.new.warnings.items }
        ensures said { OnOk result (map said self.new.warnings.items ≡ ended rule active here
            self.old.calls.items (map said self.old.warnings.items) (reverse self.old.strings.items)) }
        ensures strings { OnOk result
            (reverse self.new.strings.items ≡ not_ended active (reverse self.old.strings.items)) }
        ensures runs { self.new.runs.items ≡ self.old.runs.items }
        ensures read { self.new.read ≡ self.old.read }
        ensures calls { self.new.calls.items ≡ self.old.calls.items }
        ensures written { self.new.written ≡ self.old.written }
    {
        if ends_within(&self.strings, active) {
            self.warn_of_each_end(rule, active, here)
        } else {
            Ok(())
        }
    }

    // Looks at each string that ended with a step, as `warn_of_ends` does.
    #[inline(never)]
    fn warn_of_each_end(
        &mut self,
        rule: ScanningRule,
        active: usize,
        here: Origin,
    ) -> Result<(), AllocError>
        ensures kept { Kept self.old.warnings.items self.new.warnings.items }
        ensures said { OnOk result (map said self.new.warnings.items ≡ ended rule active here
            self.old.calls.items (map said self.old.warnings.items) (reverse self.old.strings.items)) }
        ensures strings { OnOk result
            (reverse self.new.strings.items ≡ not_ended active (reverse self.old.strings.items)) }
        ensures runs { self.new.runs.items ≡ self.old.runs.items }
        ensures read { self.new.read ≡ self.old.read }
        ensures calls { self.new.calls.items ≡ self.old.calls.items }
        ensures written { self.new.written ≡ self.old.written }
    {
        for _ in 0..self.strings.len() {
            let Some(string) = self.strings.pop() else {
                return Ok(());
            };
            if active > string.rest {
                self.strings.push(string)?;
                return Ok(());
            }
            self.warn_of_end(string, is_unmatched(rule, active, string.rest), here)?;
        }
        Ok(())
    }

    // Looks at the end of a string, which is `here`, and in which a left parenthesis may have no match.
    fn warn_of_end(
        &mut self,
        string: OpenString,
        is_unmatched: bool,
        here: Origin,
    ) -> Result<(), AllocError>
        ensures kept { Kept self.old.warnings.items self.new.warnings.items }
        ensures said { OnOk result (Warns self.old.warnings.items self.new.warnings.items (end_warnings
            is_unmatched (is_dropped_last (map said self.old.warnings.items)) here
            self.old.calls.items string)) }
        ensures stays { KeepsRun self.old self.new }
    {
        self.warn_of_left_open(string.depth, is_unmatched, here)?;
        if !string.is_in_word || !is_unmatched && self.calls.len() <= string.depth {
            return Ok(());
        }
        let origin = Origin::in_input(string.end);
        warn(
            &mut self.warnings,
            self.alloc,
            Suspicion::EndInside,
            origin,
            &[],
        )
    }

    // Warns of a left parenthesis that has no match, unless there is a warning of it already, or of the open
    // calls beyond the outermost `depth`.
    fn warn_of_left_open(
        &mut self,
        depth: usize,
        is_unmatched: bool,
        here: Origin,
    ) -> Result<(), AllocError>
        ensures kept { Kept self.old.warnings.items self.new.warnings.items }
        ensures said { OnOk result (Warns self.old.warnings.items self.new.warnings.items (left_open
            is_unmatched (is_dropped_last (map said self.old.warnings.items)) here
            (drop depth self.old.calls.items))) }
        ensures stays { KeepsRun self.old self.new }
    {
        if !is_unmatched {
            let open = calls_beyond(&self.calls, depth);
            return warn_of_open_calls(&mut self.warnings, self.alloc, Suspicion::OpenCall, open);
        }
        if self.is_dropped() {
            return Ok(());
        }
        warn(
            &mut self.warnings,
            self.alloc,
            Suspicion::Protection,
            here,
            &[],
        )
    }

    // Whether the last warning says that the rest of a string was dropped.
    fn is_dropped(&self) -> bool
        ensures { result ≡ is_dropped_last (map said self.now.warnings.items) }
    {
        match self.warnings.last() {
            Some(warning) => matches!(warning.suspicion, Suspicion::Dropped),
            None => false,
        }
    }
}

// Whether the last of the strings that are scanned ends where `active` cells are left in the active string.
pub(super) fn ends_within(strings: &[OpenString], active: usize) -> bool
    ensures said { result ≡ false → (rule : ScanningRule) (here : Origin) (calls : List Origin) (reported : List Said) →
        ended rule active here calls reported (reverse strings.now) ≡ reported }
    ensures strings { result ≡ false → not_ended active (reverse strings.now) ≡ reverse strings.now }
{
    match strings {
        [.., string] => active <= string.rest,
        [] => false,
    }
}

// Whether a left parenthesis has no match in a string that ends in front of `rest` cells: the step by this
// rule took more than the string.
fn is_unmatched(rule: ScanningRule, active: usize, rest: usize) -> bool
    ensures { result ≡ (nat_lt active rest && is_protection rule) }
{
    active < rest && matches!(rule, ScanningRule::Protection)
}

// Whether a string ends at a place of the input by a meta character.
pub(super) fn is_ended_at(end: usize, meta: u8, input: &[u8]) -> bool
    ensures { result ≡ is_ended_at input.now end meta }
{
    input.get(end).copied() == Some(meta)
}

// Whether a string ends at a place of the input by a meta character that stands between two letters.
pub(super) fn ends_in_word(end: usize, meta: u8, input: &[u8]) -> bool
    ensures { result ≡ ends_in_word input.now end meta }
{
    is_ended_at(end, meta, input)
        && is_letter_at(end.saturating_sub(1), input)
        && is_letter_at(end.saturating_add(1), input)
}

// Whether a letter stands at a place of the input.
fn is_letter_at(place: usize, input: &[u8]) -> bool
    ensures { result ≡ is_letter_at input.now place }
{
    match input.get(place) {
        Some(byte) => byte.is_ascii_alphabetic(),
        None => false,
    }
}
