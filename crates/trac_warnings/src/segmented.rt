//! What is suspicious in the texts of a call of `ss`.
ghost use Rattle.std.specs.Char.{is_ascii_alphabetic};
ghost use Rattle.std.specs.List.{list_any};
ghost use Rattle.std.specs.Prelude.{◌≡◌, IfOk, OnOk};
ghost use Rattle.trac_space.specs.Texts.{text_of_cells};
ghost use Rattle.trac_warnings.specs.Performed.{Warns, absent_place, gap_behind, gaps_behind, holds_one};
ghost use Rattle.trac_warnings.specs.Performed.{holds_text, is_expected, naming, next_text, suspicion_of_absent};
ghost use Rattle.trac_warnings.specs.Performed.{suspicion_of_gap};
ghost use Rattle.trac_events.specs.Calls.{argument_of};
ghost use Rattle.trac_warnings.specs.Watched.{Adds, Kept};

use crate::gaps::{stands_in, stands_in_name};
use crate::inside::stands_in_words;
use crate::letters::stands_in_letters;
use crate::origin::Origin;
use crate::performed::{Ending, warn, written_with};
use crate::warning::{Suspicion, Warning};
use std::alloc::{AllocError, Allocator};
use trac_core::Item;
use trac_events::argument;
use trac_space::{Cell, character_of};

/// Looks at the texts of a call of `ss`, whose form has these items. An error means that memory ran out.
#[inline(never)]
#[tactic(auto, using(crate::proofs::Keeping::keeping))]
pub(crate) fn look_at_texts<A: Allocator + Copy>(
    warnings: &mut Vec<Warning<A>, A>,
    alloc: A,
    items: &[Item],
    ending: &Ending,
) -> Result<(), AllocError>
    ensures kept { Kept warnings.old.items warnings.new.items }
    ensures said { OnOk result (Warns warnings.old.items warnings.new.items
        (gaps_behind 0 ending.now.arguments.now items.now ending.now)) }
{
    let mut k: u32 = 0;
    for cell in ending.arguments {
        k = look_at_text(warnings, alloc, items, ending, cell, k)?;
    }
    Ok(())
}

// Looks at the text behind a cell of the arguments, where argument `k` stands before it. Gives the argument that
// stands behind the cell.
#[tactic(auto, using(crate::proofs::Keeping::keeping))]
fn look_at_text<A: Allocator + Copy>(
    warnings: &mut Vec<Warning<A>, A>,
    alloc: A,
    items: &[Item],
    ending: &Ending,
    cell: &Cell,
    k: u32,
) -> Result<u32, AllocError>
    ensures kept { Kept warnings.old.items warnings.new.items }
    ensures said { OnOk result (Warns warnings.old.items warnings.new.items
        (gap_behind cell.now k items.now ending.now)) }
    ensures next { IfOk result (λ next. next ≡ next_text cell.now k) }
{
    if !matches!(cell, Cell::Comma) {
        return Ok(k);
    }
    let next = k.saturating_add(1);
    let text = argument(ending.arguments, next);
    if let Some(suspicion) = suspicion_of_gap(text, next, items) {
        warn(warnings, alloc, suspicion, ending.begin, text)?;
    }
    Ok(next)
}

// What is suspicious in argument `k` of `ss`: that it stands in the name of a call, or inside longer words.
fn suspicion_of_gap(text: &[Cell], k: u32, items: &[Item]) -> Option<Suspicion>
    ensures { result ≡ suspicion_of_gap text.now k items.now }
{
    if k <= 1 || text.is_empty() {
        None
    } else if stands_in_name(text, items) {
        Some(Suspicion::GapInName)
    } else if stands_in_words(text, items) {
        Some(Suspicion::GapInWord)
    } else {
        None
    }
}

/// Looks for the texts of a call of `ss` in its form, which has this name and these items. An error means that
/// memory ran out.
#[inline(never)]
#[tactic(auto, using(crate::proofs::Keeping::keeping))]
pub(crate) fn look_for_texts<A: Allocator + Copy>(
    warnings: &mut Vec<Warning<A>, A>,
    alloc: A,
    name: &[Cell],
    items: &[Item],
    ending: &Ending,
) -> Result<(), AllocError>
    ensures kept { Kept warnings.old.items warnings.new.items }
    ensures said { OnOk result (Warns warnings.old.items warnings.new.items
        (naming (suspicion_of_absent (text_of_cells (argument_of ending.now.arguments.now 2)) items.now)
        (absent_place items.now ending.now) (text_of_cells name.now))) }
{
    let Some(place) = absent_place(items, ending) else {
        return Ok(());
    };
    let suspicion = suspicion_of_absent(alloc, argument(ending.arguments, 2), items)?;
    warn(warnings, alloc, suspicion, place, name)
}

// What is suspicious in a text of `ss` that stands nowhere among the items of a body: if it stands there in other
// letters, the warning says so.
fn suspicion_of_absent<A: Allocator + Copy>(
    alloc: A,
    text: &[Cell],
    items: &[Item],
) -> Result<Suspicion, AllocError>
    ensures { IfOk result (λ suspicion. suspicion ≡ suspicion_of_absent (text_of_cells text.now) items.now) }
{
    if stands_in_letters(alloc, text, items)? {
        Ok(Suspicion::InOtherLetters)
    } else {
        Ok(Suspicion::NotInForm)
    }
}

// Where the first text of `ss` was written, if a body is expected to hold one of the texts and holds none.
fn absent_place(items: &[Item], ending: &Ending) -> Option<Origin>
    ensures { result ≡ absent_place items.now ending.now }
{
    if !is_expected(ending) || holds_one(items, ending) {
        return None;
    }
    let place = ending.places.get(1).copied();
    written_with(place, ending, argument(ending.arguments, 2))
}

// Whether a body is expected to hold one of the texts of a call of `ss`: the first has a letter, and the call
// stands in the script itself, not in the value of a form.
fn is_expected(ending: &Ending) -> bool
    ensures { result ≡ is_expected ending.now }
{
    ending.begin.form.is_none() && has_letter(argument(ending.arguments, 2))
}

// Whether one of the characters is a letter.
fn has_letter(text: &[Cell]) -> bool
    ensures { result ≡ list_any is_ascii_alphabetic (text_of_cells text.now) }
{
    for cell in text {
        if character_of(cell).is_ascii_alphabetic() {
            return true;
        }
    }
    false
}

// Whether one of the texts of `ss` stands among the items of a body.
fn holds_one(items: &[Item], ending: &Ending) -> bool
    ensures { result ≡ holds_one 0 ending.now.arguments.now items.now ending.now }
{
    let mut k: u32 = 0;
    for cell in ending.arguments {
        if matches!(cell, Cell::Comma) {
            k = k.saturating_add(1);
            if holds_text(k, items, ending) {
                return true;
            }
        }
    }
    false
}

// Whether argument `k` of `ss` is a text that stands among the items of a body.
fn holds_text(k: u32, items: &[Item], ending: &Ending) -> bool
    ensures { result ≡ holds_text k items.now ending.now }
{
    let text = argument(ending.arguments, k);
    k > 1 && !text.is_empty() && stands_in(text, items)
}
