//! The call that the next step of a machine performs.
ghost use Rattle.std.specs.Prelude.{◌≡◌, ◌≤◌, ℕ, MatchOption, None, Some, drop, slice_get};
ghost use Rattle.trac_space.specs.Calls.{IsLastCall};
ghost use Rattle.trac_space.specs.Texts.{text_of_cells};
ghost use Rattle.trac_forms.specs.Contents.{IsSound};
ghost use Rattle.trac_functions.specs.Flat.{memory_of, arguments_at};
ghost use Rattle.trac_functions.specs.Calls.{AreArguments, texts};
ghost use Rattle.trac_core.specs.StepOutcomes.{function_at};
ghost use Rattle.trac_core.specs.OpenCalls.{performed_call};

use crate::scan::is_at;
use trac_forms::Work;
use trac_functions::arguments::{Arguments, text};
use trac_functions::function::function_named;
use trac_language::Function;

/// Where the mark stands of the call that a step over these contents performs. None if it
/// performs no call.
#[inline]
pub(crate) fn closed_call(work: &Work) -> Option<u32>
    ensures call { MatchOption result
        ((meta : ℕ) → performed_call (memory_of meta work.now) ≡ None)
        (λ place. (slice_get (text_of_cells work.now.active) 0 ≡ Some 41)
        × IsLastCall work.now.neutral place) }
    ensures sound { IsSound work.now }
{
    prove!(work.used() <= work.room());
    if is_at(work, 0, b')') {
        work.last_call()
    } else {
        None
    }
}

/// The arguments of the innermost call, whose mark stands at the place, the name first.
pub(super) fn arguments_at(work: &Work, place: u32) -> Arguments
    requires innermost { IsLastCall work.now.neutral place }
    ensures arguments { AreArguments work.now result }
    ensures texts { texts work.now result ≡ arguments_at work.now.neutral place }
    ensures some { result.from ≤ result.end }
{
    let end = work.neutral_len();
    Arguments {
        from: place + 1,
        end,
        scanned: false,
    }
}

/// The function that the innermost call names, whose mark stands at the place, and the arguments
/// behind the name.
pub(super) fn named_at(work: &Work, place: u32) -> (Option<Function>, Arguments)
    requires innermost { IsLastCall work.now.neutral place }
    ensures function { result.0 ≡ function_at work.now.neutral place }
    ensures arguments { AreArguments work.now result.1 }
    ensures behind { texts work.now result.1 ≡ drop 1 (arguments_at work.now.neutral place) }
{
    let mut arguments = arguments_at(work, place);
    let name = arguments.next(work);
    (function_named(text(work, name)), arguments)
}
