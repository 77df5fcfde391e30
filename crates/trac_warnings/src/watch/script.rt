//! The characters of the input that a run reads, and the active string over its steps.
ghost use Rattle.std.specs.Prelude.{◌≡◌, ◌≤◌, [], OnOk, length, min, reverse};
ghost use Rattle.trac_warnings.specs.Looked.{Looks};
ghost use Rattle.trac_warnings.specs.Origins.{first_origin, in_input, moved, origin_at};
ghost use Rattle.trac_warnings.specs.Performed.{Warns};
ghost use Rattle.trac_warnings.specs.StepWarnings.{curly_for, is_ended_at, open_text, read_warnings, strings_read};
ghost use Rattle.trac_warnings.specs.StepWarnings.{text_warnings, with_string};
ghost use Rattle.trac_warnings.specs.Watched.{Adds, EndsText, Kept, KeepsRun, ReadsLen, end_of_text};
ghost use Rattle.trac_warnings.specs.Watched.{said};

use super::ends::{ends_in_word, is_ended_at};
use super::{OpenString, Watch};
use crate::origin::Origin;
use crate::performed::warn;
use crate::strings::layout_len;
use crate::trail::{first_origin, push_run, take_run};
use crate::warning::{Suspicion, Warning};
use crate::written::curly_end;
use std::alloc::{AllocError, Allocator};
use trac_core::{Awaits, Machine, ScanningRule};
use trac_events::Before;
use trac_space::Cell;

#[tactic(auto, using(crate::proofs::Keeping::keeping))]
impl<A: Allocator + Copy> Watch<A> {
    // Looks at what a step read: its value, behind which `active` cells stand in the active string.
    #[inline(always)]
    pub(super) fn warn_of_read(
        &mut self,
        before: &Before,
        value: &[Cell],
        active: usize,
        input: &[u8],
    ) -> Result<(), AllocError>
        ensures kept { Kept self.old.warnings.items self.new.warnings.items }
        ensures said { OnOk result (Warns self.old.warnings.items self.new.warnings.items (read_warnings
            before.now.awaits before.now input.now self.old.read (length value.now))) }
        ensures strings { OnOk result (reverse self.new.strings.items ≡ strings_read before.now.awaits before.now
            input.now self.old.read (length value.now) active (length self.old.calls.items)
            (reverse self.old.strings.items)) }
        ensures read { OnOk result (ReadsLen before.now.awaits before.now input.now (length value.now)
            self.old.read self.new.read) }
        ensures runs { self.new.runs.items ≡ self.old.runs.items }
        ensures calls { self.new.calls.items ≡ self.old.calls.items }
        ensures written { self.new.written ≡ self.old.written }
    {
        match before.awaits {
            Awaits::Text => self.warn_of_string(before, value.len(), active, input),
            Awaits::Byte => {
                let end = self.read.saturating_add(value.len());
                self.read = end.min(input.len());
                Ok(())
            }
            Awaits::Nothing => Ok(()),
        }
    }

    // Where the first character of the active string was written; if nothing is active, where the input is
    // read next.
    pub(super) fn origin(&self) -> Origin
        ensures { result ≡ origin_at self.now.read (first_origin (reverse self.now.runs.items)) }
    {
        first_origin(&self.runs).unwrap_or(Origin::in_input(self.read))
    }

    // Follows the active string over a step, which may have put a value there that was written at
    // `value`.
    #[inline(always)]
    pub(super) fn move_on(
        &mut self,
        before: &Before,
        machine: &Machine,
        value: Origin,
    ) -> Result<(), AllocError>
        ensures warnings { self.new.warnings.items ≡ self.old.warnings.items }
        ensures runs { OnOk result (reverse self.new.runs.items ≡ moved before.now.rule
            before.now.active (length machine.now.memory.active) value
            (reverse self.old.runs.items)) }
        ensures read { self.new.read ≡ self.old.read }
        ensures calls { self.new.calls.items ≡ self.old.calls.items }
        ensures strings { self.new.strings.items ≡ self.old.strings.items }
        ensures written { self.new.written ≡ self.old.written }
    {
        let active = machine.active();
        match before.rule {
            ScanningRule::Idling => {
                self.runs.clear();
                push_run(&mut self.runs, value, active.len())
            }
            ScanningRule::EndOfCall => {
                let added = (active.len() + 1).saturating_sub(before.active);
                take_run(&mut self.runs, 1)?;
                push_run(&mut self.runs, value, added)
            }
            _ => take_run(&mut self.runs, before.active.saturating_sub(active.len())),
        }
    }

    // Looks at a string of `len` characters that was read, behind which `active` cells are active.
    #[inline(never)]
    fn warn_of_string(
        &mut self,
        before: &Before,
        len: usize,
        active: usize,
        input: &[u8],
    ) -> Result<(), AllocError>
        ensures kept { Kept self.old.warnings.items self.new.warnings.items }
        ensures said { let start = min self.old.read (length input.now) in
            let end = end_of_text input.now self.old.read len in
            OnOk result (Warns self.old.warnings.items self.new.warnings.items
            (text_warnings input.now start end before.now.meta)) }
        ensures strings { let end = end_of_text input.now self.old.read len in
            OnOk result (reverse self.new.strings.items ≡ with_string before.now input.now end active
            (length self.old.calls.items) (reverse self.old.strings.items)) }
        ensures read { let end = end_of_text input.now self.old.read len in
            OnOk result (EndsText input.now end before.now.meta self.new.read) }
        ensures runs { self.new.runs.items ≡ self.old.runs.items }
        ensures calls { self.new.calls.items ≡ self.old.calls.items }
        ensures written { self.new.written ≡ self.old.written }
    {
        let start = self.read.min(input.len());
        let end = start.saturating_add(len).min(input.len());
        self.warn_of_read_text(start, end, before.meta, input)?;
        self.read = behind_text(end, before.meta, input);
        self.open_string(before, end, active, input)
    }

    // Warns of a string that stands between two places of the input, unless a meta character ends it.
    fn warn_of_read_text(
        &mut self,
        start: usize,
        end: usize,
        meta: u8,
        input: &[u8],
    ) -> Result<(), AllocError>
        requires { (start ≤ end) × (end ≤ length input.now) }
        ensures kept { Kept self.old.warnings.items self.new.warnings.items }
        ensures said { OnOk result (Warns self.old.warnings.items self.new.warnings.items
            (text_warnings input.now start end meta)) }
        ensures stays { KeepsRun self.old self.new }
    {
        let begin = start.saturating_add(layout_len(&input[start..end]));
        if is_ended_at(end, meta, input) || begin >= end {
            return Ok(());
        }
        let text = &input[begin..end];
        warn_of_text(&mut self.warnings, self.alloc, begin, meta, text)
    }

    // Keeps a string that was read up to a place of the input, unless nothing of it is active.
    fn open_string(
        &mut self,
        before: &Before,
        end: usize,
        active: usize,
        input: &[u8],
    ) -> Result<(), AllocError>
        ensures strings { OnOk result (reverse self.new.strings.items ≡ with_string before.now input.now end active
            (length self.old.calls.items) (reverse self.old.strings.items)) }
        ensures stays { self.new ≡ record self.old { strings = self.new.strings } }
    {
        let rest = before.active.saturating_sub(1);
        if active <= rest {
            return Ok(());
        }
        let is_in_word = ends_in_word(end, before.meta, input);
        let depth = self.calls.len();
        self.strings.push(OpenString {
            end,
            is_in_word,
            rest,
            depth,
        })?;
        Ok(())
    }
}

// Warns of a text that begins at a place of the input, and that no meta character ends; if a typographic apostrophe
// ends it, warns of that.
#[tactic(auto, using(crate::proofs::Keeping::keeping))]
fn warn_of_text<A: Allocator + Copy>(
    warnings: &mut Vec<Warning<A>, A>,
    alloc: A,
    begin: usize,
    meta: u8,
    text: &[u8],
) -> Result<(), AllocError>
    ensures kept { Kept warnings.old.items warnings.new.items }
    ensures said { OnOk result (Adds warnings.old.items warnings.new.items
        (open_text (curly_for meta text.now) begin)) }
{
    match curly_for(meta, text) {
        Some(place) => {
            let origin = Origin::in_input(begin.saturating_add(place));
            warn(warnings, alloc, Suspicion::CurlyEnd, origin, &[])
        }
        None => {
            let origin = Origin::in_input(begin);
            warn(warnings, alloc, Suspicion::OpenString, origin, &[])
        }
    }
}

// Where the typographic apostrophe stands that a text ends with, if the apostrophe is the meta character.
fn curly_for(meta: u8, text: &[u8]) -> Option<usize>
    ensures { result ≡ curly_for meta text.now }
{
    if meta == b'\'' { curly_end(text) } else { None }
}

// Where the input is read behind a string that ends at a place: behind a meta character that stands there.
fn behind_text(end: usize, meta: u8, input: &[u8]) -> usize
    ensures { EndsText input.now end meta result }
{
    if input.get(end).copied() == Some(meta) {
        end.saturating_add(1)
    } else {
        end
    }
}
