//! The largest forms of a machine. What is shown of them is this processor's own choice.
ghost use Rattle.std.specs.Prelude.{◌≡◌, ◌++◌, OnOk, None};
ghost use Rattle.trac_language.specs.Store.{form_cells};
ghost use Rattle.trac_views.specs.Largest.{better, comes_behind, form_at_text, is_larger};
ghost use Rattle.trac_views.specs.Largest.{largest_text, next_largest, sized_line};

use crate::escapes::push_name;
use crate::lines::{push, push_number};
use std::alloc::{AllocError, Allocator};
use trac_core::{Forms, Machine, StoredForm};

// How many forms are shown at most.
const MOST_FORMS: u32 = 5;

/// A form, by how many cells it takes and by its place among the forms, from 0.
#[derive(Clone, Copy)]
pub struct SizedForm {
    pub cells: u64,
    pub place: u64,
}

/// Adds the lines of the five largest forms with their cells, the largest first. Of two that are
/// equally large, the one that was defined first comes first. Fails only if memory runs out.
#[inline(never)]
pub fn push_largest_forms<A: Allocator + Copy>(
    lines: &mut Vec<u8, A>,
    alloc: A,
    machine: &Machine,
    width: u32,
) -> Result<(), AllocError>
    ensures { OnOk result (lines.new.items ≡
        lines.old.items ++ largest_text width 5 None machine.now.memory.forms) }
{
    let mut last = None;
    for _told in 0..MOST_FORMS {
        let Some(next) = next_largest(machine.forms(), last) else {
            return Ok(());
        };
        push_form_at(lines, alloc, machine.forms(), next, width)?;
        last = Some(next);
    }
    Ok(())
}

// Adds the line of the form at a place, and of its cells.
fn push_form_at<A: Allocator + Copy>(
    lines: &mut Vec<u8, A>,
    alloc: A,
    forms: Forms,
    sized: SizedForm,
    width: u32,
) -> Result<(), AllocError>
    ensures { OnOk result (lines.new.items ≡
        lines.old.items ++ form_at_text width sized 0 forms.entry) }
{
    let mut place: u64 = 0;
    for form in forms {
        if place == sized.place {
            return push_sized(lines, alloc, &form, sized.cells, width);
        }
        place = place.saturating_add(1);
    }
    Ok(())
}

// Adds the line of a form and its number of cells.
fn push_sized<A: Allocator + Copy>(
    lines: &mut Vec<u8, A>,
    alloc: A,
    form: &StoredForm,
    cells: u64,
    width: u32,
) -> Result<(), AllocError>
    ensures { OnOk result (lines.new.items ≡
        lines.old.items ++ sized_line width cells form.now.name) }
{
    push(lines, b"form of ")?;
    push_number(lines, cells)?;
    push(lines, b" cells: ")?;
    push_name(lines, alloc, form.name(), width)?;
    push(lines, b"\n")
}

/// The largest of the forms that come after `last`, the first of equally large ones. A form comes after
/// another if it is smaller, or equally large and defined later. None if no form comes after `last`.
pub fn next_largest(forms: Forms, last: Option<SizedForm>) -> Option<SizedForm>
    ensures { result ≡ next_largest last 0 forms.entry None }
{
    let mut found = None;
    let mut place: u64 = 0;
    for form in forms {
        let next = SizedForm {
            cells: cells_of(&form),
            place,
        };
        found = better(next, last, found);
        place = place.saturating_add(1);
    }
    found
}

// The form to keep while looking for the next one after `last`: `next`, or what was found before.
fn better(next: SizedForm, last: Option<SizedForm>, found: Option<SizedForm>) -> Option<SizedForm>
    ensures { result ≡ better next last found }
{
    if comes_behind(next, last) && is_larger(next, found) {
        Some(next)
    } else {
        found
    }
}

// The cells of a form: three, its name and its body.
fn cells_of(form: &StoredForm) -> u64
    ensures { result ≡ form_cells form.now }
{
    3 + form.name().len() as u64 + u64::from(form.body_len())
}

// Whether a form comes after the one that was shown last.
fn comes_behind(form: SizedForm, last: Option<SizedForm>) -> bool
    ensures { result ≡ comes_behind form last }
{
    match last {
        None => true,
        Some(last) if form.cells == last.cells => form.place > last.place,
        Some(last) => form.cells < last.cells,
    }
}

// Whether a form is larger than the one that was found.
fn is_larger(form: SizedForm, found: Option<SizedForm>) -> bool
    ensures { result ≡ is_larger form found }
{
    match found {
        None => true,
        Some(found) => form.cells > found.cells,
    }
}
