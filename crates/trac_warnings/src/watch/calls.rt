//! The calls of a run that is watched: where they and their arguments were written, and what is suspicious at
//! their ends.
ghost use Rattle.std.specs.Prelude.{◌≡◌, ◌<◌, ◌-◌, ◌&&◌, [], OnOk, true, drop, false, length, min, not};
ghost use Rattle.std.specs.Prelude.{reverse, if◌then◌else◌};
ghost use Rattle.trac_warnings.specs.Counted.{counts_behind_call, counts_of};
ghost use Rattle.trac_warnings.specs.Looked.{Looks, LooksAtEnd, LooksAtMark, around_of, begin_of};
ghost use Rattle.trac_warnings.specs.Looked.{is_inside, is_last, is_stray, place_of};
ghost use Rattle.trac_warnings.specs.Looked.{stray_warnings};
ghost use Rattle.trac_space.specs.Texts.{text_of_cells};
ghost use Rattle.trac_warnings.specs.Performed.{Warns, function_of, has_odd_operand};
ghost use Rattle.trac_warnings.specs.Origins.{behind};
ghost use Rattle.trac_warnings.specs.Rows.{argument_origin};
ghost use Rattle.trac_warnings.specs.StepWarnings.{drop_warnings, is_arithmetic, is_null, lowered};
ghost use Rattle.trac_warnings.specs.StepWarnings.{open_warnings, result_warnings, without_last};
ghost use Rattle.trac_warnings.specs.Watched.{Kept, KeepsPlaces, KeepsRun, said};

use super::rows::is_at;
use super::{Choice, OpenString, Watch};
use crate::operands::has_odd_operand;
use crate::origin::Origin;
use crate::performed::{CalledFunction, Ending, commas_in, look_at_call, warn};
use crate::warning::{Suspicion, Warning};
use std::alloc::{AllocError, Allocator};
use trac_core::{CallMark, Machine};
use trac_events::{Before, argument, arguments_of, function_of};
use trac_language::Function;
use trac_space::Cell;

#[tactic(auto, using(crate::proofs::Keeping::keeping))]
impl<A: Allocator + Copy> Watch<A> {
    // Looks at the call that ends, and at the right parenthesis that ends it.
    #[inline(never)]
    pub(super) fn look_at_end_of_call(
        &mut self,
        before: &Before,
        machine: &Machine,
        input: &[u8],
    ) -> Result<(), AllocError>
        requires { before.now.active ≡ length machine.now.memory.active }
        ensures kept { Kept self.old.warnings.items self.new.warnings.items }
        ensures looks { OnOk result (LooksAtEnd self.old machine.now input.now
            self.old.warnings.items self.new.warnings.items) }
        ensures stays { KeepsPlaces self.old self.new }
    {
        self.warn_of_stray(before.active)?;
        match machine.call_mark(0) {
            None => {
                self.choice = Choice::Nothing;
                Ok(())
            }
            Some(mark) => self.look_at_call(machine, mark.place, input),
        }
    }

    // Warns of a right parenthesis that ends no call of its string.
    fn warn_of_stray(&mut self, active: usize) -> Result<(), AllocError>
        ensures kept { Kept self.old.warnings.items self.new.warnings.items }
        ensures said { OnOk result (Warns self.old.warnings.items self.new.warnings.items
            (stray_warnings self.old active)) }
        ensures stays { KeepsRun self.old self.new }
    {
        if !self.is_stray(active) {
            return Ok(());
        }
        let here = self.origin();
        warn(&mut self.warnings, self.alloc, Suspicion::NoCall, here, &[])
    }

    // Looks at the innermost call, whose mark stands at this place of the neutral string.
    fn look_at_call(
        &mut self,
        machine: &Machine,
        mark: usize,
        input: &[u8],
    ) -> Result<(), AllocError>
        ensures kept { Kept self.old.warnings.items self.new.warnings.items }
        ensures looks { OnOk result (LooksAtMark mark self.old machine.now input.now
            self.old.warnings.items self.new.warnings.items) }
        ensures stays { KeepsPlaces self.old self.new }
    {
        let neutral = machine.neutral();
        let arguments = arguments_of(neutral, mark);
        let begin = self.begin();
        let called = CalledFunction::by(machine, arguments);
        self.arguments.extend_from_slice(arguments)?;
        self.given = commas_in(arguments) as usize;
        self.choice = Choice::by(&called);
        self.value = self.origin_of_form(&called, begin)?;
        let is_inside = self.is_inside(begin);
        let is_last = is_last(self.origin(), input);
        let ending = Ending {
            arguments,
            begin,
            places: places_of(&self.commas, self.given),
            around: arguments_around(neutral, machine.call_mark(1), mark),
            input,
            is_inside,
            is_last,
        };
        look_at_call(&mut self.warnings, self.alloc, machine, &called, &ending)
    }

    // Where the innermost call was written; if it isn't known, where its right parenthesis was.
    fn begin(&self) -> Origin
        ensures { result ≡ begin_of self.now }
    {
        self.calls.last().copied().unwrap_or(self.origin())
    }

    // Whether a right parenthesis of the string that is scanned ends no call of it.
    fn is_stray(&self, active: usize) -> bool
        ensures { result ≡ is_stray self.now active }
    {
        match self.strings.last() {
            Some(string) => active > string.rest && self.calls.len() <= string.depth,
            None => false,
        }
    }

    // Whether the innermost call, which was written here, stands in another call of the same text.
    fn is_inside(&self, begin: Origin) -> bool
        ensures { result ≡ is_inside self.now begin }
    {
        let depth = match self.strings.last() {
            Some(string) => string.depth,
            None => 0,
        };
        match self.calls.get(self.calls.len().saturating_sub(2)) {
            Some(outer) => self.calls.len() > depth.saturating_add(1) && outer.form == begin.form,
            None => false,
        }
    }

    // Warns of a left parenthesis that has no match, with the characters of its string that are dropped.
    #[inline(never)]
    pub(super) fn warn_of_protection(
        &mut self,
        before: &Before,
        origin: Origin,
    ) -> Result<(), AllocError>
        requires { origin ≡ place_of self.old }
        ensures kept { Kept self.old.warnings.items self.new.warnings.items }
        ensures said { OnOk result (Warns self.old.warnings.items self.new.warnings.items
            (drop_warnings self.old before.now)) }
        ensures stays { KeepsRun self.old self.new }
    {
        if before.drops == 0 {
            return Ok(());
        }
        let rest = match self.strings.last() {
            Some(string) => string.rest,
            None => 0,
        };
        self.warnings.push(Warning {
            origin,
            suspicion: Suspicion::Dropped,
            count: before.active.saturating_sub(rest),
            text: Vec::new(self.alloc),
        })?;
        Ok(())
    }

    // Looks at a call that was performed. Afterwards the strings have `active` and `neutral` cells.
    #[inline(never)]
    pub(super) fn warn_of_call(
        &mut self,
        before: &Before,
        active: usize,
        neutral: usize,
    ) -> Result<(), AllocError>
        ensures kept { Kept self.old.warnings.items self.new.warnings.items }
        ensures said { OnOk result (Warns self.old.warnings.items self.new.warnings.items
            (result_warnings self.old before.now active neutral)) }
        ensures calls { OnOk result (self.new.calls.items ≡ without_last self.old.calls.items) }
        ensures strings { OnOk result (reverse self.new.strings.items ≡
            lowered (length (without_last self.old.calls.items)) (reverse self.old.strings.items)) }
        ensures counts { OnOk result (counts_of self.new.written.entries ≡ counts_behind_call self.old) }
        ensures runs { self.new.runs.items ≡ self.old.runs.items }
        ensures read { self.new.read ≡ self.old.read }
    {
        let function = function_of(&self.arguments);
        self.warn_of_result(function, before, active, neutral)?;
        self.keep_form(function)?;
        self.close_call()
    }

    // Warns of a call of this function if it computes and has no result, unless something is suspicious in what it
    // computes with.
    #[inline(never)]
    fn warn_of_result(
        &mut self,
        function: Option<Function>,
        before: &Before,
        active: usize,
        neutral: usize,
    ) -> Result<(), AllocError>
        requires { function ≡ function_of self.old.arguments.items }
        ensures kept { Kept self.old.warnings.items self.new.warnings.items }
        ensures said { OnOk result (Warns self.old.warnings.items self.new.warnings.items
            (result_warnings self.old before.now active neutral)) }
        ensures stays { KeepsRun self.old self.new }
    {
        if !self.has_no_result(function, before, active, neutral) {
            return Ok(());
        }
        let begin = self.calls.last().copied().unwrap_or(self.value);
        let name = argument(&self.arguments, 0);
        warn(
            &mut self.warnings,
            self.alloc,
            Suspicion::NoResult,
            begin,
            name,
        )
    }

    // Whether a call of this function computes with two numbers and has no result: it gives no default value, and its
    // value is null.
    fn has_no_result(
        &self,
        function: Option<Function>,
        before: &Before,
        active: usize,
        neutral: usize,
    ) -> bool
        requires { function ≡ function_of self.now.arguments.items }
        ensures { result ≡ (is_arithmetic (function_of self.now.arguments.items)
            && (is_null self.now before.now active neutral
            && not (has_odd_operand self.now.arguments.items))) }
    {
        is_arithmetic(function)
            && self.is_null(before, active, neutral)
            && !has_odd_operand(&self.arguments)
    }

    // Forgets the innermost call. A string that was read in it then belongs to the call around it.
    #[inline(never)]
    fn close_call(&mut self) -> Result<(), AllocError>
        ensures calls { OnOk result (self.new.calls.items ≡ without_last self.old.calls.items) }
        ensures strings { OnOk result (reverse self.new.strings.items ≡
            lowered (length (without_last self.old.calls.items)) (reverse self.old.strings.items)) }
        ensures warnings { self.new.warnings.items ≡ self.old.warnings.items }
        ensures written { self.new.written ≡ self.old.written }
        ensures runs { self.new.runs.items ≡ self.old.runs.items }
        ensures read { self.new.read ≡ self.old.read }
    {
        self.commas
            .truncate(self.commas.len().saturating_sub(self.given));
        self.calls.truncate(self.calls.len().saturating_sub(1));
        let depth = self.calls.len();
        if let Some(string) = self.strings.pop() {
            self.strings.push(OpenString {
                depth: string.depth.min(depth),
                ..string
            })?;
        }
        Ok(())
    }

    // Whether the call that was performed gives no default value and has a null value; after it the strings
    // have `active` and `neutral` cells.
    fn is_null(&self, before: &Before, active: usize, neutral: usize) -> bool
        ensures { result ≡ is_null self.now before.now active neutral }
    {
        let mark = self
            .neutral
            .saturating_sub(self.arguments.len())
            .saturating_sub(1);
        active < before.active && neutral <= mark && argument(&self.arguments, 3).is_empty()
    }
}

// Warns of open calls, of each in the same way.
#[tactic(auto, using(crate::proofs::Keeping::keeping))]
pub(super) fn warn_of_open_calls<A: Allocator + Copy>(
    warnings: &mut Vec<Warning<A>, A>,
    alloc: A,
    suspicion: Suspicion,
    calls: &[Origin],
) -> Result<(), AllocError>
    ensures kept { Kept warnings.old.items warnings.new.items }
    ensures said { OnOk result (Warns warnings.old.items warnings.new.items
        (open_warnings suspicion calls.now)) }
{
    for call in calls {
        warn(warnings, alloc, suspicion, *call, &[])?;
    }
    Ok(())
}

// The open calls beyond the outermost `depth`.
pub(super) fn calls_beyond(calls: &[Origin], depth: usize) -> &[Origin]
    ensures { result.now ≡ drop depth calls.now }
{
    if depth < calls.len() {
        &calls[depth..]
    } else {
        &[]
    }
}

// Whether a function is one of arithmetic.
fn is_arithmetic(function: Option<Function>) -> bool
    ensures { result ≡ is_arithmetic function }
{
    match function {
        Some(Function::Arithmetic(_)) => true,
        _ => false,
    }
}

// The arguments so far of the call around the innermost one, by the places of their marks in the neutral
// string; null if no call is open around it.
fn arguments_around(neutral: &[Cell], outer: Option<CallMark>, mark: usize) -> &[Cell]
    ensures { result.now ≡ around_of outer neutral.now mark }
{
    match outer {
        Some(outer) => arguments_of(&neutral[..mark.min(neutral.len())], outer.place),
        None => &[],
    }
}

// Whether the right parenthesis at a place stands in the input, and another one behind it.
fn is_last(end: Origin, input: &[u8]) -> bool
    ensures { result ≡ is_last end input.now }
{
    end.form.is_none() && input.get(end.offset.saturating_add(1)) == Some(&b')')
}

// Where each argument behind the name of the innermost call was written, which are `given`. `commas` has the places of
// the arguments of all open calls.
pub(super) fn places_of(commas: &[Origin], given: usize) -> &[Origin]
    ensures { result.now ≡ drop (length commas.now - given) commas.now }
{
    &commas[commas.len().saturating_sub(given)..]
}

// Where an argument was written, by the comma before it and what stands behind that: what is protected
// begins behind its parenthesis.
pub(super) fn argument_origin(comma: Origin, active: &[Cell]) -> Origin
    ensures { result ≡ argument_origin comma (text_of_cells active.now) }
{
    begin_of_argument(comma, is_at(active, 0, b'('))
}

// Where an argument begins, by the comma before it and whether the argument is protected.
#[inline]
pub(super) fn begin_of_argument(comma: Origin, is_protected: bool) -> Origin
    ensures { result ≡ behind (if is_protected then 2 else 1) comma }
{
    comma.behind(if is_protected { 2 } else { 1 })
}
