//! What is told of a run that a fault ended: where it ended, the innermost open calls, and the form that was called
//! most often.
ghost use Rattle.std.specs.Prelude.{◌≡◌, ◌-◌, None, OnOk, drop, length, option_map};
ghost use Rattle.trac_warnings.specs.Counted.{counts_of};
ghost use Rattle.trac_warnings.specs.Ended.{busier, busiest, end_place, end_said, fault_warnings, innermost};
ghost use Rattle.trac_warnings.specs.Ended.{next_string, script_calls, seen};
ghost use Rattle.trac_warnings.specs.Performed.{Warns};
ghost use Rattle.trac_warnings.specs.Watched.{Adds, Kept};

use super::calls::{calls_beyond, warn_of_open_calls};
use super::{DefinitionSite, Watch};
use crate::origin::Origin;
use crate::strings::layout_len;
use crate::warning::{Suspicion, Warning};
use std::alloc::{AllocError, Allocator};
use std::collections::BTreeMap;

// So many open calls are told at most.
const MOST_CALLS: usize = 3;
// A form is told if it was called so often.
const MANY_CALLS: usize = 100;

// A form and how often it was called.
#[derive(Clone, Copy)]
struct Called<'w> {
    name: &'w [u8],
    calls: usize,
}

#[tactic(auto, using(crate::proofs::Keeping::keeping))]
impl<A: Allocator + Copy> Watch<A> {
    /// Adds what is told of a run that a fault ended before the step that the watch looked at last: the place where it
    /// ended, with the form that was called most often, if that was 100 times or more, and the three innermost calls
    /// that were open. `input` has at least the bytes that the machine has read. That a fault is told so is this
    /// processor's own choice. Fails only if memory runs out.
    #[inline(never)]
    pub fn warn_of_fault(
        &self,
        warnings: &mut Vec<Warning<A>, A>,
        input: &[u8],
    ) -> Result<(), AllocError>
        ensures kept { Kept warnings.old.items warnings.new.items }
        ensures said { OnOk result (Warns warnings.old.items warnings.new.items
            (fault_warnings input.now self.now)) }
    {
        let place = self.end_place(input);
        warn_of_end(warnings, self.alloc, busiest(&self.written), place)?;
        let open = innermost(self.script_calls());
        warn_of_open_calls(warnings, self.alloc, Suspicion::OpenAtEnd, open)
    }

    // Where the run is: where the first character of the active string was written; where the next string begins, if
    // none is scanned.
    fn end_place(&self, input: &[u8]) -> Origin
        ensures { result ≡ end_place self.now.strings.items self.now input.now }
    {
        if self.strings.is_empty() {
            next_string(input, self.read)
        } else {
            self.origin()
        }
    }

    // Where the open calls were written that were begun in the first of the strings that are scanned, or later.
    fn script_calls(&self) -> &[Origin]
        ensures { result.now ≡ script_calls self.now.strings.items self.now.calls.items }
    {
        match self.strings.first() {
            Some(string) => calls_beyond(&self.calls, string.depth),
            None => &[],
        }
    }
}

// Where the next string begins, if the input was read up to a place.
fn next_string(input: &[u8], read: usize) -> Origin
    ensures { result ≡ next_string input.now read }
{
    let layout = layout_len(&input[read.min(input.len())..]);
    Origin::in_input(read.saturating_add(layout))
}

// The last three, or all if there are fewer.
fn innermost(calls: &[Origin]) -> &[Origin]
    ensures { result.now ≡ innermost calls.now }
{
    &calls[calls.len().saturating_sub(MOST_CALLS)..]
}

// The form that was called most often, if it was called often; the first in the order of names, if several are.
fn busiest<A: Allocator>(written: &BTreeMap<Vec<u8, A>, DefinitionSite, A>) -> Option<Called>
    ensures { option_map seen result ≡ busiest None (counts_of written.now.entries) }
{
    let mut best: Option<Called> = None;
    for (name, form) in written {
        let form = Called {
            name: name.as_slice(),
            calls: form.calls,
        };
        best = busier(best, form);
    }
    best
}

// Of two forms the one that was called more often, if it was called often; `form` is the later one.
fn busier<'w>(best: Option<Called<'w>>, form: Called<'w>) -> Option<Called<'w>>
    ensures { option_map seen result ≡ busier (option_map seen best.entry) (seen form.entry) }
{
    match best {
        Some(best) if form.calls <= best.calls => Some(best),
        None if form.calls < MANY_CALLS => None,
        _ => Some(form),
    }
}

// Warns of the place where a run ended, with the form that was called most often.
#[tactic(auto, using(crate::proofs::Keeping::saying))]
fn warn_of_end<A: Allocator + Copy>(
    warnings: &mut Vec<Warning<A>, A>,
    alloc: A,
    form: Option<Called>,
    place: Origin,
) -> Result<(), AllocError>
    ensures kept { Kept warnings.old.items warnings.new.items }
    ensures said { OnOk result (Adds warnings.old.items warnings.new.items
        (end_said (option_map seen form.entry) place)) }
{
    let (suspicion, called) = match form {
        Some(form) => (Suspicion::EndedCalling, form),
        None => (
            Suspicion::RunEnded,
            Called {
                name: &[],
                calls: 0,
            },
        ),
    };
    let mut text = Vec::new(alloc);
    text.extend_from_slice(called.name)?;
    warnings.push(Warning {
        origin: place,
        suspicion,
        count: called.calls,
        text,
    })?;
    Ok(())
}
