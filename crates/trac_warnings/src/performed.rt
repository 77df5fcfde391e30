//! What is suspicious in a call that is about to be performed.
ghost use Rattle.std.specs.Prelude.{◌≡◌, ◌<◌, ◌-◌, ◌^◌, true, IfOk, None, OnOk, Some};
ghost use Rattle.trac_space.specs.Texts.{text_of_cells};
ghost use Rattle.trac_language.specs.Table.{traits};
ghost use Rattle.trac_events.specs.Calls.{argument_of};
ghost use Rattle.trac_events.specs.Changes.{form_of};
ghost use Rattle.trac_warnings.specs.Performed.{Warns, acts, call_warnings, commas_of, form_warnings};
ghost use Rattle.trac_warnings.specs.Performed.{given_warnings, has_default, ignored_behind, ignored_place, inside};
ghost use Rattle.trac_warnings.specs.Performed.{is_compared, is_in_default, is_whole_body, missing_warnings, naming};
ghost use Rattle.trac_warnings.specs.Performed.{nested, of_text, suspicion_of_call, suspicion_of_missing};
ghost use Rattle.trac_warnings.specs.Performed.{IsCalled, function_of, function_warnings, use_warnings, written_with};
ghost use Rattle.trac_warnings.specs.Watched.{Adds, Kept};

use crate::blanks::trimmed;
use crate::bodies::look_at_body;
use crate::names::{is_written, suspicion_of_name};
use crate::operands::{has_plain_numbers, look_at_operands, look_at_sides, look_at_thousands};
use crate::origin::Origin;
use crate::printed::{look_at_meta_change, look_at_print};
use crate::warning::{Suspicion, Warning};
use std::alloc::{AllocError, Allocator};
use trac_core::{Machine, StoredForm};
use trac_events::{argument, find_form, function_of};
use trac_language::{Function, Given, Traits, traits_of};
use trac_space::{Cell, character_of};

/// A call before it is performed, and where it was written.
#[derive(Clone, Copy)]
pub struct Ending<'a> {
    /// The arguments, with a comma mark between two.
    pub arguments: &'a [Cell],
    /// Where the call was written.
    pub begin: Origin,
    /// Where each argument behind the name was written.
    pub places: &'a [Origin],
    /// The arguments so far of the call around it; null if there is none.
    pub around: &'a [Cell],
    /// The bytes of the input that are known, from its front.
    pub input: &'a [u8],
    /// Whether the call around it was written in the same text.
    pub is_inside: bool,
    /// Whether it ends in the input, right before another right parenthesis.
    pub is_last: bool,
}

/// A function that a call names.
#[derive(Drop)]
pub struct CalledFunction<'m> {
    /// The function.
    pub function: Function,
    /// What holds for each of its calls.
    pub held: Traits,
    /// The form that the call names, if the function needs one.
    pub form: Option<StoredForm<'m>>,
}

impl<'m> CalledFunction<'m> {
    /// The function that a call with these arguments names. None if no function has the name.
    pub fn by(machine: &'m Machine, arguments: &[Cell]) -> Option<CalledFunction<'m>>
        ensures { IsCalled result arguments.now machine.now.memory.forms }
    {
        let function = function_of(arguments)?;
        let held = traits_of(function);
        let form = if held.needs_form {
            find_form(machine, argument(arguments, 1))
        } else {
            None
        };
        Some(CalledFunction {
            function,
            held,
            form,
        })
    }
}

/// Adds what is suspicious in a call that a machine is about to perform. `called` is the function that has the call's
/// name, if one has. An error means that memory ran out; the earlier warnings stay.
#[inline(always)]
#[tactic(auto, using(crate::proofs::Keeping::keeping))]
pub fn look_at_call<A: Allocator + Copy>(
    warnings: &mut Vec<Warning<A>, A>,
    alloc: A,
    machine: &Machine,
    called: &Option<CalledFunction>,
    ending: &Ending,
) -> Result<(), AllocError>
    requires { IsCalled called.now ending.now.arguments.now machine.now.memory.forms }
    ensures kept { Kept warnings.old.items warnings.new.items }
    ensures said { OnOk result (Warns warnings.old.items warnings.new.items
        (call_warnings machine.now.memory.forms ending.now)) }
{
    match called {
        Some(called) => look_at_function(warnings, alloc, machine, called, ending),
        None => look_at_name(warnings, alloc, machine, ending),
    }
}

// Looks at the name of a call, which no function has.
#[inline(never)]
#[tactic(auto, using(crate::proofs::Keeping::keeping))]
fn look_at_name<A: Allocator + Copy>(
    warnings: &mut Vec<Warning<A>, A>,
    alloc: A,
    machine: &Machine,
    ending: &Ending,
) -> Result<(), AllocError>
    ensures kept { Kept warnings.old.items warnings.new.items }
    ensures said { OnOk result (Warns warnings.old.items warnings.new.items
        (function_warnings None machine.now.memory.forms ending.now)) }
{
    let name = argument(ending.arguments, 0);
    match suspicion_of_call(machine, name) {
        Some(suspicion) => warn(warnings, alloc, suspicion, ending.begin, name),
        None => Ok(()),
    }
}

// Looks at a call of a function.
#[inline(never)]
#[tactic(auto, using(crate::proofs::Keeping::keeping))]
fn look_at_function<A: Allocator + Copy>(
    warnings: &mut Vec<Warning<A>, A>,
    alloc: A,
    machine: &Machine,
    called: &CalledFunction,
    ending: &Ending,
) -> Result<(), AllocError>
    requires held { called.now.held ≡ traits called.now.function }
    requires form { (traits called.now.function).needs_form ≡ true →
        called.now.form ≡ form_of (argument_of ending.now.arguments.now 1) machine.now.memory.forms }
    ensures kept { Kept warnings.old.items warnings.new.items }
    ensures said { OnOk result (Warns warnings.old.items warnings.new.items
        (function_warnings (Some called.now.function) machine.now.memory.forms ending.now)) }
{
    look_at_ignored(warnings, alloc, called.function, &called.held, ending)?;
    look_at_nesting(warnings, alloc, called.function, &called.held, ending)?;
    look_at_use(warnings, alloc, machine, called, ending)
}

// Looks at the arguments that a function uses.
#[inline(always)]
#[tactic(auto, using(crate::proofs::Keeping::keeping))]
fn look_at_use<A: Allocator + Copy>(
    warnings: &mut Vec<Warning<A>, A>,
    alloc: A,
    machine: &Machine,
    called: &CalledFunction,
    ending: &Ending,
) -> Result<(), AllocError>
    requires held { called.now.held ≡ traits called.now.function }
    requires form { (traits called.now.function).needs_form ≡ true →
        called.now.form ≡ form_of (argument_of ending.now.arguments.now 1) machine.now.memory.forms }
    ensures kept { Kept warnings.old.items warnings.new.items }
    ensures said { OnOk result (Warns warnings.old.items warnings.new.items
        (use_warnings called.now.function machine.now.memory.forms ending.now)) }
{
    if has_plain_numbers(called.function, ending) {
        return Ok(());
    }
    look_at_operands(warnings, alloc, machine, called.function, ending)?;
    look_at_given(warnings, alloc, called.function, ending)?;
    if !called.held.needs_form {
        return Ok(());
    }
    look_at_named_form(
        warnings,
        alloc,
        machine,
        called.function,
        &called.form,
        ending,
    )
}

// Looks at the texts that a call compares, or computes with, or that it prints, or that has the new meta character.
#[inline(always)]
#[tactic(auto, using(crate::proofs::Keeping::keeping))]
fn look_at_given<A: Allocator + Copy>(
    warnings: &mut Vec<Warning<A>, A>,
    alloc: A,
    function: Function,
    ending: &Ending,
) -> Result<(), AllocError>
    ensures kept { Kept warnings.old.items warnings.new.items }
    ensures said { OnOk result (Warns warnings.old.items warnings.new.items
        (given_warnings function ending.now)) }
{
    look_at_sides(warnings, alloc, function, ending)?;
    look_at_thousands(warnings, alloc, function, ending)?;
    look_at_print(warnings, alloc, function, ending)?;
    look_at_meta_change(warnings, alloc, function, ending)
}

// What is suspicious in a name that is no function's; if a form has the name, the warning says so.
#[inline(never)]
fn suspicion_of_call(machine: &Machine, name: &[Cell]) -> Option<Suspicion>
    ensures { result ≡ suspicion_of_call machine.now.memory.forms name.now }
{
    let suspicion = suspicion_of_name(name)?;
    if suspicion != Suspicion::NoFunction {
        return Some(suspicion);
    }
    match find_form(machine, name) {
        Some(_) => Some(Suspicion::FormAsFunction),
        None => Some(suspicion),
    }
}

// Looks at the first argument that a function ignores for each of whose calls `held` holds, if the argument isn't null
// and was written in the same text as the call.
#[inline(always)]
#[tactic(auto, using(crate::proofs::Keeping::keeping))]
fn look_at_ignored<A: Allocator + Copy>(
    warnings: &mut Vec<Warning<A>, A>,
    alloc: A,
    function: Function,
    held: &Traits,
    ending: &Ending,
) -> Result<(), AllocError>
    requires { held.now ≡ traits function }
    ensures kept { Kept warnings.old.items warnings.new.items }
    ensures said { OnOk result (Warns warnings.old.items warnings.new.items
        (ignored_behind (traits function).uses ending.now)) }
{
    let Some(most) = held.uses else {
        return Ok(());
    };
    let Some(place) = ignored_place(most, ending) else {
        return Ok(());
    };
    let ignored = argument(ending.arguments, most + 1);
    warn(warnings, alloc, Suspicion::Ignored, place, ignored)
}

// Where argument `most` + 1 was written. None if it is null or wasn't written in the same text as the
// call.
#[inline(always)]
fn ignored_place(most: u32, ending: &Ending) -> Option<Origin>
    requires { most < 2 ^ 32 - 1 }
    ensures { result ≡ ignored_place most ending.now }
{
    let place = ending.places.get(most as usize).copied()?;
    written_with(Some(place), ending, argument(ending.arguments, most + 1))
}

/// The place of an argument. None if it is null or wasn't written in the same text as the call.
pub(crate) fn written_with(place: Option<Origin>, ending: &Ending, cells: &[Cell]) -> Option<Origin>
    ensures { result ≡ written_with place ending.now cells.now }
{
    let place = place?;
    if place.form == ending.begin.form && !cells.is_empty() {
        Some(place)
    } else {
        None
    }
}

// Looks at a call that ends the run, reads, prints or changes forms inside another call. `held` holds for each call of
// its function.
#[inline(always)]
#[tactic(auto, using(crate::proofs::Keeping::keeping))]
fn look_at_nesting<A: Allocator + Copy>(
    warnings: &mut Vec<Warning<A>, A>,
    alloc: A,
    function: Function,
    held: &Traits,
    ending: &Ending,
) -> Result<(), AllocError>
    requires { held.now ≡ traits function }
    ensures kept { Kept warnings.old.items warnings.new.items }
    ensures said { OnOk result (Warns warnings.old.items warnings.new.items
        (nested function ending.now)) }
{
    if !ending.is_inside {
        return Ok(());
    }
    warn_of_nesting(warnings, alloc, function, held, ending)
}

// Warns of a call inside another one if it ends the run, or if it reads, prints or changes forms in vain. `held` holds
// for each call of its function.
#[inline(never)]
#[tactic(auto, using(crate::proofs::Keeping::keeping))]
fn warn_of_nesting<A: Allocator + Copy>(
    warnings: &mut Vec<Warning<A>, A>,
    alloc: A,
    function: Function,
    held: &Traits,
    ending: &Ending,
) -> Result<(), AllocError>
    requires inside { ending.now.is_inside ≡ true }
    requires held { held.now ≡ traits function }
    ensures kept { Kept warnings.old.items warnings.new.items }
    ensures said { OnOk result (Warns warnings.old.items warnings.new.items
        (nested function ending.now)) }
{
    let Some(suspicion) = suspicion_inside(function, held, ending) else {
        return Ok(());
    };
    let name = argument(ending.around, 0);
    warn(warnings, alloc, suspicion, ending.begin, name)
}

// What is suspicious in a call of this function, for each of whose calls `held` holds, in the last argument so far of
// the call around it.
fn suspicion_inside(function: Function, held: &Traits, ending: &Ending) -> Option<Suspicion>
    requires { held.now ≡ traits function }
    ensures { result ≡ inside function ending.now }
{
    if held.ends {
        Some(Suspicion::HaltInside)
    } else if held.reads && is_in_default(ending.around) {
        Some(Suspicion::ReadsAlways)
    } else if acts(held) && (is_in_default(ending.around) || is_whole_body(ending)) {
        Some(Suspicion::ActsAlways)
    } else {
        None
    }
}

// Whether a call is the whole body that `ds` gives a form, but for calls before it that have left nothing.
fn is_whole_body(ending: &Ending) -> bool
    ensures { result ≡ is_whole_body ending.now }
{
    ending.is_last
        && matches!(function_of(ending.around), Some(Function::DefineString))
        && commas_in(ending.around) == 2
        && argument(ending.around, 2).is_empty()
}

// Whether a function with these traits prints, or changes forms and gives nothing of them.
fn acts(traits: &Traits) -> bool
    ensures { result ≡ acts traits.now }
{
    traits.prints || traits.changes_forms && matches!(traits.gives, Given::Nothing)
}

// Whether the last argument so far of a call is its default value, or one of two from which its
// function chooses.
fn is_in_default(arguments: &[Cell]) -> bool
    ensures { result ≡ is_in_default arguments.now }
{
    let place = commas_in(arguments);
    match function_of(arguments) {
        Some(function) => {
            let traits = traits_of(function);
            traits.default == Some(place) || (traits.chooses && place >= 3)
        }
        None => false,
    }
}

/// How many of the cells are comma marks.
pub fn commas_in(cells: &[Cell]) -> u32
    ensures { result ≡ commas_of cells.now }
{
    let mut count: usize = 0;
    for cell in cells {
        if matches!(cell, Cell::Comma) {
            count += 1;
        }
    }
    count.min(u32::MAX as usize) as u32
}

// Looks at the form that a call names which does nothing without it; `form` is that form.
#[inline(never)]
#[tactic(auto, using(crate::proofs::Keeping::keeping))]
fn look_at_named_form<A: Allocator + Copy>(
    warnings: &mut Vec<Warning<A>, A>,
    alloc: A,
    machine: &Machine,
    function: Function,
    form: &Option<StoredForm>,
    ending: &Ending,
) -> Result<(), AllocError>
    requires needs { (traits function).needs_form ≡ true }
    requires form { form.now ≡ form_of (argument_of ending.now.arguments.now 1) machine.now.memory.forms }
    ensures kept { Kept warnings.old.items warnings.new.items }
    ensures said { OnOk result (Warns warnings.old.items warnings.new.items
        (form_warnings function machine.now.memory.forms ending.now)) }
{
    match form {
        Some(form) => look_at_body(warnings, alloc, function, form, ending),
        None => {
            let name = argument(ending.arguments, 1);
            look_at_missing(warnings, alloc, machine, function, name, ending)
        }
    }
}

// Looks at a name that no form has.
#[inline(never)]
#[tactic(auto, using(crate::proofs::Keeping::keeping))]
fn look_at_missing<A: Allocator + Copy>(
    warnings: &mut Vec<Warning<A>, A>,
    alloc: A,
    machine: &Machine,
    function: Function,
    name: &[Cell],
    ending: &Ending,
) -> Result<(), AllocError>
    ensures kept { Kept warnings.old.items warnings.new.items }
    ensures said { OnOk result (Warns warnings.old.items warnings.new.items
        (missing_warnings function machine.now.memory.forms name.now ending.now)) }
{
    if has_default(function, ending.arguments) || is_compared(ending.around) {
        return Ok(());
    }
    match suspicion_of_missing(machine, name, ending) {
        Some(suspicion) => warn(warnings, alloc, suspicion, ending.begin, name),
        None => Ok(()),
    }
}

// What is suspicious in a name that no form has: that one has it without the blanks and the layout around it;
// or that none has it, unless the script makes the name as it runs.
fn suspicion_of_missing(machine: &Machine, name: &[Cell], ending: &Ending) -> Option<Suspicion>
    ensures { result ≡ suspicion_of_missing machine.now.memory.forms name.now ending.now }
{
    if find_form(machine, trimmed(name)).is_some() {
        Some(Suspicion::BlankInName)
    } else if is_written(name, ending.input) {
        Some(Suspicion::NoForm)
    } else {
        None
    }
}

/// Whether a call of this function gives a default value that isn't null.
pub(crate) fn has_default(function: Function, arguments: &[Cell]) -> bool
    ensures { result ≡ has_default function arguments.now }
{
    match traits_of(function).default {
        Some(place) => !argument(arguments, place).is_empty(),
        None => false,
    }
}

/// Whether a call compares its first two arguments, and the last one so far is one of them.
pub(crate) fn is_compared(arguments: &[Cell]) -> bool
    ensures { result ≡ is_compared arguments.now }
{
    match function_of(arguments) {
        Some(function) => traits_of(function).chooses && commas_in(arguments) <= 2,
        None => false,
    }
}

/// Adds a warning of an argument that was written at a place; the warning names a form. Adds none without a place.
/// An error means that memory ran out.
#[tactic(auto, using(crate::proofs::Keeping::keeping))]
pub(crate) fn warn_naming<A: Allocator + Copy>(
    warnings: &mut Vec<Warning<A>, A>,
    alloc: A,
    suspicion: Suspicion,
    place: Option<Origin>,
    name: &[Cell],
) -> Result<(), AllocError>
    ensures kept { Kept warnings.old.items warnings.new.items }
    ensures said { OnOk result (Warns warnings.old.items warnings.new.items
        (naming suspicion place (text_of_cells name.now))) }
{
    match place {
        Some(place) => warn(warnings, alloc, suspicion, place, name),
        None => Ok(()),
    }
}

/// Adds a warning. An error means that memory ran out.
#[tactic(auto, using(crate::proofs::Keeping::saying))]
pub fn warn<A: Allocator + Copy>(
    warnings: &mut Vec<Warning<A>, A>,
    alloc: A,
    suspicion: Suspicion,
    origin: Origin,
    cells: &[Cell],
) -> Result<(), AllocError>
    ensures kept { Kept warnings.old.items warnings.new.items }
    ensures said { OnOk result (Adds warnings.old.items warnings.new.items (record {
      origin = origin;
      suspicion = suspicion;
      count = 0;
      text = text_of_cells cells.now;
    })) }
{
    let text = characters_of(alloc, cells)?;
    warn_of(warnings, suspicion, origin, text)
}

/// Adds a warning of a text. An error means that memory ran out.
#[tactic(auto, using(crate::proofs::Keeping::saying))]
pub(crate) fn warn_of<A: Allocator>(
    warnings: &mut Vec<Warning<A>, A>,
    suspicion: Suspicion,
    origin: Origin,
    text: Vec<u8, A>,
) -> Result<(), AllocError>
    ensures kept { Kept warnings.old.items warnings.new.items }
    ensures said { OnOk result (Adds warnings.old.items warnings.new.items
        (of_text suspicion origin text.items)) }
{
    warnings.push(Warning {
        origin,
        suspicion,
        count: 0,
        text,
    })?;
    Ok(())
}

/// The characters of cells. An error means that memory ran out.
pub fn characters_of<A: Allocator>(alloc: A, cells: &[Cell]) -> Result<Vec<u8, A>, AllocError>
    ensures { IfOk result (λ text. text.items ≡ text_of_cells cells.now) }
{
    let mut text = Vec::with_capacity(alloc, cells.len())?;
    for cell in cells {
        text.push(character_of(cell))?;
    }
    Ok(text)
}
