//! How many arguments a call of `cl` gives a form.
ghost use Rattle.std.specs.Prelude.{◌≡◌, ◌++◌, IfOk, OnOk, decimal};
ghost use Rattle.trac_space.specs.Texts.{text_of_cells};
ghost use Rattle.trac_warnings.specs.Gaps.{highest_gap};
ghost use Rattle.trac_warnings.specs.Performed.{Warns, argument_warnings, arguments_given, is_short, short_text};
ghost use Rattle.trac_warnings.specs.Performed.{surplus_place};
ghost use Rattle.trac_warnings.specs.Watched.{Kept};

use crate::gaps::highest_gap;
use crate::names::is_called_alone;
use crate::origin::Origin;
use crate::performed::{Ending, characters_of, commas_in, warn_naming, warn_of, written_with};
use crate::warning::{Suspicion, Warning};
use itoa::Buffer;
use std::alloc::{AllocError, Allocator};
use trac_core::StoredForm;
use trac_events::argument;
use trac_space::Cell;

/// Looks at the arguments that `cl` gives a form: at their number, if a gap gets none; else at the first for which the
/// form has no gap. An error means that memory ran out.
#[inline(never)]
#[tactic(auto, using(crate::proofs::Keeping::keeping))]
pub(crate) fn look_at_arguments<A: Allocator + Copy>(
    warnings: &mut Vec<Warning<A>, A>,
    alloc: A,
    form: &StoredForm,
    ending: &Ending,
) -> Result<(), AllocError>
    ensures kept { Kept warnings.old.items warnings.new.items }
    ensures said { OnOk result (Warns warnings.old.items warnings.new.items
        (argument_warnings (highest_gap 0 form.now.body) form.now.name ending.now)) }
{
    if ending.places.len() <= 1 && arguments_given(ending) == 0 {
        return Ok(());
    }
    let gaps = highest_gap(form);
    if is_short(gaps, form.name(), ending) {
        let text = short_text(alloc, form.name(), gaps, arguments_given(ending))?;
        return warn_of(warnings, Suspicion::FewArguments, ending.begin, text);
    }
    let place = surplus_place(gaps, ending);
    warn_naming(warnings, alloc, Suspicion::NoGap, place, form.name())
}

// Whether a call gives a form of this name an argument, but fewer than it has gaps. Not so in a script that also calls
// the form without any argument: it leaves gaps null on purpose.
fn is_short(gaps: u32, name: &[Cell], ending: &Ending) -> bool
    ensures { result ≡ is_short gaps (text_of_cells name.now) ending.now }
{
    let given = arguments_given(ending);
    0 < given && given < gaps && !is_called_alone(name, ending.input)
}

// How many arguments a call gives a form, behind the form's name.
fn arguments_given(ending: &Ending) -> u32
    ensures { result ≡ arguments_given ending.now }
{
    commas_in(ending.arguments).saturating_sub(1)
}

// The name of a form, with how many gaps it has and how many arguments it got. Fails only if memory runs out.
fn short_text<A: Allocator>(
    alloc: A,
    name: &[Cell],
    gaps: u32,
    given: u32,
) -> Result<Vec<u8, A>, AllocError>
    ensures { IfOk result (λ text. text.items ≡ short_text (text_of_cells name.now) gaps given) }
{
    let mut text = characters_of(alloc, name)?;
    text.extend_from_slice(b" has ")?;
    push_number(&mut text, gaps)?;
    text.extend_from_slice(b" gaps and got ")?;
    push_number(&mut text, given)?;
    let words: &[u8] = if given == 1 {
        b" argument"
    } else {
        b" arguments"
    };
    text.extend_from_slice(words)?;
    Ok(text)
}

// Adds a number to a text. Fails only if memory runs out.
fn push_number<A: Allocator>(text: &mut Vec<u8, A>, n: u32) -> Result<(), AllocError>
    ensures { OnOk result (text.new.items ≡ text.old.items ++ decimal n) }
{
    text.extend_from_slice(Buffer::new().format(n).as_bytes())
}

// Where the first argument of `cl` was written that no gap takes, where `highest` is the highest ordinal of a
// gap. None if it is null or wasn't written in the same text as the call.
fn surplus_place(highest: u32, ending: &Ending) -> Option<Origin>
    ensures { result ≡ surplus_place highest ending.now }
{
    let place = ending.places.get(highest as usize + 1).copied()?;
    let surplus = argument(ending.arguments, highest.saturating_add(2));
    written_with(Some(place), ending, surplus)
}
