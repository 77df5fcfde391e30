//! What is suspicious in a call for the form that it names.
ghost use Rattle.std.specs.Prelude.{◌≡◌, OnOk};
ghost use Rattle.trac_warnings.specs.Performed.{Warns, called_warnings, calls_form, function_of, is_provided};
ghost use Rattle.trac_warnings.specs.Performed.{of_body, provides, searches_in_vain, segments};
ghost use Rattle.trac_warnings.specs.Performed.{suspicion_of_part, takes_next};
ghost use Rattle.trac_warnings.specs.Watched.{Kept};

use crate::arguments::look_at_arguments;
use crate::gaps::{body_of, is_absent};
use crate::performed::{Ending, has_default, is_compared, warn};
use crate::segmented::{look_at_texts, look_for_texts};
use crate::warning::{Suspicion, Warning};
use std::alloc::{AllocError, Allocator};
use trac_core::StoredForm;
use trac_events::{argument, function_of, takes_part};
use trac_language::Function;
use trac_space::Cell;

/// Looks at the form whose body a call gives, takes apart or segments. An error means that memory ran out.
#[inline(never)]
#[tactic(auto, using(crate::proofs::Keeping::keeping))]
pub(crate) fn look_at_body<A: Allocator + Copy>(
    warnings: &mut Vec<Warning<A>, A>,
    alloc: A,
    function: Function,
    form: &StoredForm,
    ending: &Ending,
) -> Result<(), AllocError>
    ensures kept { Kept warnings.old.items warnings.new.items }
    ensures said { OnOk result (Warns warnings.old.items warnings.new.items
        (of_body function form.now ending.now)) }
{
    if segments(function) {
        let items = body_of(alloc, form)?;
        look_at_texts(warnings, alloc, &items, ending)?;
        return look_for_texts(warnings, alloc, form.name(), &items, ending);
    }
    if matches!(function, Function::CallForm) {
        return look_at_called(warnings, alloc, form, ending);
    }
    match suspicion_of_part(function, form, ending) {
        Some(suspicion) => warn(warnings, alloc, suspicion, ending.begin, form.name()),
        None => Ok(()),
    }
}

// What is suspicious in a call for a part of a form: that nothing is left of the form, or that nothing is found.
fn suspicion_of_part(function: Function, form: &StoredForm, ending: &Ending) -> Option<Suspicion>
    ensures { result ≡ suspicion_of_part function form.now ending.now }
{
    if takes_next(function) && !is_provided(function, form, ending) {
        Some(Suspicion::NothingLeft)
    } else if searches_in_vain(function, form, ending) {
        Some(Suspicion::NothingFound)
    } else {
        None
    }
}

// Whether a call searches a form in vain, of which something is left, and doesn't provide for that.
fn searches_in_vain(function: Function, form: &StoredForm, ending: &Ending) -> bool
    ensures { result ≡ searches_in_vain function form.now ending.now }
{
    matches!(function, Function::InitialPart)
        && !provides(function, ending)
        && is_absent(argument(ending.arguments, 2), form)
}

// Whether something of a form is left to take, or the call provides for the case that nothing is.
fn is_provided(function: Function, form: &StoredForm, ending: &Ending) -> bool
    ensures { result ≡ is_provided function form.now ending.now }
{
    form.pointer() < form.body_len() || provides(function, ending)
}

// Whether a call provides for the case that it gets no part of a form: it gives a default value, its value is
// compared, or a form gets it as an argument.
fn provides(function: Function, ending: &Ending) -> bool
    ensures { result ≡ provides function ending.now }
{
    has_default(function, ending.arguments)
        || is_compared(ending.around)
        || is_passed(ending.around)
}

// Whether a function segments a form.
fn segments(function: Function) -> bool
    ensures { result ≡ segments function }
{
    matches!(function, Function::SegmentString)
}

// Whether a function takes a part of a form without searching for it.
fn takes_next(function: Function) -> bool
    ensures { result ≡ takes_next function }
{
    takes_part(function) && !matches!(function, Function::InitialPart)
}

// Looks at the form that `cl` calls: at the arguments that it gets, or, if its pointer was moved, at what is left of
// it.
#[inline(never)]
#[tactic(auto, using(crate::proofs::Keeping::keeping))]
fn look_at_called<A: Allocator + Copy>(
    warnings: &mut Vec<Warning<A>, A>,
    alloc: A,
    form: &StoredForm,
    ending: &Ending,
) -> Result<(), AllocError>
    ensures kept { Kept warnings.old.items warnings.new.items }
    ensures said { OnOk result (Warns warnings.old.items warnings.new.items
        (called_warnings form.now ending.now)) }
{
    if form.body_len() == 0 {
        return Ok(());
    }
    if form.pointer() == 0 {
        return look_at_arguments(warnings, alloc, form, ending);
    }
    if is_provided(Function::CallForm, form, ending) {
        return Ok(());
    }
    warn(
        warnings,
        alloc,
        Suspicion::AllTaken,
        ending.begin,
        form.name(),
    )
}

// Whether a call of a form is around, which may look at what it is given.
fn is_passed(arguments: &[Cell]) -> bool
    ensures { result ≡ calls_form (function_of arguments.now) }
{
    matches!(function_of(arguments), Some(Function::CallForm))
}
