//! What the next step of a machine prints: how many bytes, and the step without them.
ghost use Rattle.std.specs.Prelude.{◌≡◌, ◌≢◌, ◌<◌, ◌≤◌, ◌++◌, ℕ, [], length, false, true, None, Some};
ghost use Rattle.std.specs.Prelude.{MatchOption, OnErr, OnOk, slice_get};
ghost use Rattle.trac_language.specs.Text.{Text};
ghost use Rattle.trac_space.specs.Texts.{text_of_cells};
ghost use Rattle.trac_devices.specs.Devices.{Stream};
ghost use Rattle.trac_functions.specs.Calls.{KeepsRoom};
ghost use Rattle.trac_language.specs.declared.function.Function.TheVariants.{PrintForm};
ghost use Rattle.trac_language.specs.State.{Input};
ghost use Rattle.trac_space.specs.Calls.{IsLastCall};
ghost use Rattle.trac_forms.specs.Contents.{IsTextPart, IsSound};
ghost use Rattle.trac_functions.specs.Flat.{memory_of};
ghost use Rattle.trac_core.specs.StepOutcomes.{function_at, scene, Tried};
ghost use Rattle.trac_core.specs.Machine.{GoesOn, KeepsLimits, KeepsSettings, ending, moment};
ghost use Rattle.trac_core.specs.Display.{display_named};
ghost use Rattle.trac_core.specs.Performed.{performs, prints_output};
ghost use Rattle.trac_core.specs.Session.{next_function, next_printed, step_prints, call_prints};

use super::Machine;
use super::changing::Refused;
use super::closing::{closed_call, named_at};
use crate::delivery::finish_call;
use crate::display::display_len;
use crate::outcome::StepOutcome;
use trac_forms::Work;
use trac_functions::arguments::CallResult;
use trac_language::Function;
use trac_space::Part;

impl<'a> Machine<'a> {
    /// How many bytes the next step prints, by `ps` or `pf` and whatever the input, where they are more than
    /// `free`. None if they aren't, where the run is over, and where the allowance is used up. The caller
    /// says which function that step performs, as `next_function` does. A text isn't measured where there
    /// is room for the whole neutral string. This processor's own choice.
    pub fn prints_past(&mut self, function: Option<Function>, free: u64) -> Option<u32>
        requires asked { function ≡ next_function self.old }
        ensures past { MatchOption result
            ((input : Input) → length (next_printed self.old input) ≤ free)
            (λ printed. (free < printed)
            × ((input : Input) → printed ≡ length (next_printed self.old input))) }
        ensures same { self.new ≡ self.old }
    {
        if prints(function) {
            printed_past(&mut self.work, function, free)
        } else {
            None
        }
    }
}

impl<'a> Machine<'a> {
    /// Makes the next step, which prints, and drops what it prints: a host that took it in pieces goes on so.
    /// `Refused`, with nothing changed, if that step prints nothing, the run is over, or the allowance is
    /// used up. This processor's own choice.
    pub fn skip_print(&mut self) -> Result<(), Refused>
        // the step is the definition's, over any source, behind whatever was written
        ensures done { OnOk result ((next_printed self.old (ending []) ≢ [])
            × ((source : Stream) (written : Text) → GoesOn (moment self.old source written)
            (moment self.new source (written ++ next_printed self.old (ending source.bytes))))) }
        ensures refused { OnErr result
            ((next_printed self.old (ending []) ≡ []) × (self.new ≡ self.old)) }
        ensures going { OnOk result (self.new.fate ≡ None) }
        ensures settings { KeepsSettings self.old self.new }
        ensures limits { KeepsLimits self.new }
    {
        let function = self.next_function();
        if !prints(function) {
            return Err(Refused);
        }
        let Some(outcome) = skip_printing(&mut self.work) else {
            return Err(Refused);
        };
        self.count(outcome);
        Ok(())
    }
}

/// Makes a step that performs a call of a function that prints, and drops what it prints. None, with nothing changed,
/// where it prints nothing.
fn skip_printing(work: &mut Work) -> Option<StepOutcome>
    requires prints { (meta : ℕ) → prints_output (performs (memory_of meta work.old)) ≡ true }
    ensures skipped { MatchOption result
        (((meta : ℕ) (input : Input) → step_prints (memory_of meta work.old) input ≡ [])
        × (work.new ≡ work.old))
        (λ outcome. (outcome.fate ≡ None) × ((outcome.need ≤ work.old.room)
        × (((meta : ℕ) (input : Input) → step_prints (memory_of meta work.old) input ≢ [])
        × ((meta : ℕ) (source : Stream) (written : Text) →
        Tried (scene work.old meta source written) None outcome.need
        (scene work.new meta source
        (written ++ step_prints (memory_of meta work.old) (ending source.bytes))))))) }
    ensures keeps { KeepsRoom work.old work.new }
{
    if printed_len(work) == 0 {
        return None;
    }
    let Some(place) = closed_call(work) else {
        return None;
    };
    Some(end_printing(work, place))
}

/// Deletes the right parenthesis that ends the innermost call, which prints, and has the call leave with its null
/// value.
fn end_printing(work: &mut Work, place: u32) -> StepOutcome
    requires closes { slice_get (text_of_cells work.old.active) 0 ≡ Some 41 }
    requires innermost { IsLastCall work.old.neutral place }
    requires prints { prints_output (function_at work.old.neutral place) ≡ true }
    requires sound { IsSound work.old }
    ensures tried { (meta : ℕ) (source : Stream) (written : Text) →
        Tried (scene work.old meta source written) None result.need
        (scene work.new meta source
        (written ++ call_prints work.old place meta (ending source.bytes))) }
    ensures done { result.fate ≡ None }
    ensures fits { result.need ≤ work.old.room }
    ensures keeps { KeepsRoom work.old work.new }
{
    work.drop_active(1);
    let before = work.used();
    let call = Part {
        from: place,
        to: work.neutral_len(),
    };
    finish_call(work, call, before, CallResult::Null(0))
}

/// Whether a call of the function prints.
#[inline]
fn prints(function: Option<Function>) -> bool
    ensures { result ≡ prints_output function }
{
    matches!(function, Some(Function::PrintString | Function::PrintForm))
}

/// How many bytes a step over these contents prints, which performs this function, where they are
/// more than `free`.
fn printed_past(work: &mut Work, function: Option<Function>, free: u64) -> Option<u32>
    requires asked { (meta : ℕ) → function ≡ performs (memory_of meta work.old) }
    ensures past { (meta : ℕ) → MatchOption result
        ((input : Input) → length (step_prints (memory_of meta work.old) input) ≤ free)
        (λ printed. (free < printed)
        × ((input : Input) → printed ≡ length (step_prints (memory_of meta work.old) input))) }
    ensures same { work.new ≡ work.old }
    ensures sound { IsSound work.new }
{
    match closed_call(work) {
        None => None,
        Some(place) => call_past(work, place, function, free),
    }
}

/// How many bytes the innermost call prints, whose mark stands at the place and which names this function, where
/// they are more than `free`.
fn call_past(work: &mut Work, place: u32, function: Option<Function>, free: u64) -> Option<u32>
    requires innermost { IsLastCall work.old.neutral place }
    requires named { function ≡ function_at work.old.neutral place }
    requires sound { IsSound work.old }
    ensures past { (meta : ℕ) → let printed = call_prints work.old place meta in
        MatchOption result
        ((input : Input) → length (printed input) ≤ free)
        (λ n. (free < n) × ((input : Input) → n ≡ length (printed input))) }
    ensures same { work.new ≡ work.old }
    ensures sound { IsSound work.new }
{
    if u64::from(work.neutral_len()) <= free && !displays(function) {
        return None;
    }
    let printed = call_len(work, place);
    if u64::from(printed) <= free {
        None
    } else {
        Some(printed)
    }
}

/// Whether a call of the function displays a form.
fn displays(function: Option<Function>) -> bool
    ensures { result ≡ false → function ≢ Some PrintForm }
{
    match function {
        None => false,
        Some(function) => match function {
            Function::PrintForm => true,
            _ => false,
        },
    }
}

/// How many bytes a step over these contents prints.
fn printed_len(work: &mut Work) -> u32
    ensures length { (meta : ℕ) (input : Input) →
        result ≡ length (step_prints (memory_of meta work.old) input) }
    ensures same { work.new ≡ work.old }
    ensures sound { IsSound work.new }
{
    match closed_call(work) {
        None => 0,
        Some(place) => call_len(work, place),
    }
}

/// How many bytes the innermost call prints, whose mark stands at the place.
fn call_len(work: &mut Work, place: u32) -> u32
    requires innermost { IsLastCall work.old.neutral place }
    ensures length { (meta : ℕ) (input : Input) →
        result ≡ length (call_prints work.old place meta input) }
    ensures same { work.new ≡ work.old }
    ensures sound { IsSound work.new }
{
    let (function, mut arguments) = named_at(work, place);
    let part = arguments.next(work);
    match function {
        None => 0,
        Some(function) => match function {
            Function::PrintString => part.to - part.from,
            Function::PrintForm => named_len(work, part),
            _ => 0,
        },
    }
}

/// How many bytes the display of the form has whose name is a part of the neutral string, 0 where
/// no form has that name.
fn named_len(work: &mut Work, name: Part) -> u32
    requires part { IsTextPart work.old.neutral name.from name.to }
    requires sound { IsSound work.old }
    ensures length { result ≡ length (display_named work.old name) }
    ensures same { work.new ≡ work.old }
{
    match work.find(name.from, name.to) {
        Some(form) => display_len(&work.stored(form)),
        None => 0,
    }
}
