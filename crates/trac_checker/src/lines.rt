//! The lines of warnings. Their form is this processor's own choice.
ghost use Rattle.std.specs.Prelude.{◌≡◌, ◌++◌, OnOk};
ghost use Rattle.trac_checker.specs.Warned.{column_of_value, count_text, number_text, said_text};
ghost use Rattle.trac_checker.specs.Warned.{times_text, value_text, warning_text};
ghost use Rattle.trac_warnings.specs.Watched.{said};

use std::alloc::{AllocError, Allocator};
use trac_events::Place;
use trac_views::{push, push_number, push_place, push_text};
use trac_warnings::{Origin, Suspicion, Warning};

/// Adds the line of a warning that was given `times` times: its place in the input, the name of the
/// form in whose value it is, if it is in one, what it says, and the name or the text that it is
/// about. Fails only if memory runs out.
pub fn push_warning<A: Allocator>(
    line: &mut Vec<u8, A>,
    warning: &Warning<A>,
    place: Place,
    form: &[u8],
    times: u64,
) -> Result<(), AllocError>
    ensures { OnOk result (line.new.items ≡
        line.old.items ++ warning_text (said warning.now) place form.now times) }
{
    push_place(line, place)?;
    push(line, b": ")?;
    push_value(line, warning.origin, form)?;
    push_said(line, warning)?;
    push_times(line, times)?;
    push(line, b"\n")
}

// Adds the value that a warning is in, if it is in one.
fn push_value<A: Allocator>(
    line: &mut Vec<u8, A>,
    origin: Origin,
    form: &[u8],
) -> Result<(), AllocError>
    ensures { OnOk result (line.new.items ≡ line.old.items ++ value_text origin form.now) }
{
    match origin.form {
        None => Ok(()),
        Some(_) => push_value_of(line, origin.column, form),
    }
}

// Adds a column of the value of a form of this name.
fn push_value_of<A: Allocator>(
    line: &mut Vec<u8, A>,
    column: usize,
    form: &[u8],
) -> Result<(), AllocError>
    ensures { OnOk result (line.new.items ≡ line.old.items ++ column_of_value column form.now) }
{
    push(line, b"in the value of ")?;
    push_text(line, form)?;
    push(line, b", column ")?;
    push_number(line, (column as u64).saturating_add(1))?;
    push(line, b": ")
}

// Adds what a warning says: its sentence, the name or the text, and how many characters or calls it
// is about.
fn push_said<A: Allocator>(line: &mut Vec<u8, A>, warning: &Warning<A>) -> Result<(), AllocError>
    ensures { OnOk result (line.new.items ≡ line.old.items ++ said_text (said warning.now)) }
{
    push(line, warning.suspicion.sentence())?;
    push_text(line, warning.text.as_slice())?;
    push_count(line, warning.suspicion, warning.count)
}

// Adds how many characters or calls a warning is about, if it is about any.
fn push_count<A: Allocator>(
    line: &mut Vec<u8, A>,
    suspicion: Suspicion,
    count: usize,
) -> Result<(), AllocError>
    ensures { OnOk result (line.new.items ≡ line.old.items ++ count_text suspicion count) }
{
    if count == 0 {
        return Ok(());
    }
    match suspicion {
        Suspicion::EndedCalling => push_calls(line, count),
        _ => push_number(line, count as u64),
    }
}

// Adds how often a form was called, behind its name.
fn push_calls<A: Allocator>(line: &mut Vec<u8, A>, count: usize) -> Result<(), AllocError>
    ensures { OnOk result (line.new.items ≡ line.old.items ++ number_text Suspicion.EndedCalling count) }
{
    push(line, b" was called ")?;
    push_number(line, count as u64)?;
    push(line, b" times")
}

// Adds how often a warning was given, if more than once.
fn push_times<A: Allocator>(line: &mut Vec<u8, A>, times: u64) -> Result<(), AllocError>
    ensures { OnOk result (line.new.items ≡ line.old.items ++ times_text times) }
{
    if times < 2 {
        return Ok(());
    }
    push(line, b" (")?;
    push_number(line, times)?;
    push(line, b" times)")
}
