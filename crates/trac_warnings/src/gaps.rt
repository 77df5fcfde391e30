//! Gaps of a form, and texts of `ss` in it and in the names of its calls.
ghost use Rattle.std.specs.Prelude.{◌≡◌, ◌≤◌, ℕ, drop, IfOk, length};
ghost use Rattle.trac_space.specs.Texts.{text_of_cells};
ghost use Rattle.trac_language.specs.Form.{after_pointer};
ghost use Rattle.trac_warnings.specs.Gaps.{begins, begins_in_name, behind_opening, ends_name, is_absent};
ghost use Rattle.trac_warnings.specs.Gaps.{highest_gap, is_character, stands_in, stands_in_name, with_gap};

use std::alloc::{AllocError, Allocator};
use trac_core::{Item, StoredForm};
use trac_space::{Cell, character_of};

/// Whether a text begins in the name of a call among these items. The name stands behind a number sign and a
/// left parenthesis, up to a comma, a parenthesis, a number sign or a gap.
pub(crate) fn stands_in_name(text: &[Cell], items: &[Item]) -> bool
    ensures { result ≡ stands_in_name (text_of_cells text.now) items.now }
{
    for i in 0..items.len() {
        if begins_in_name(text, behind_opening(&items[i..])) {
            return true;
        }
    }
    false
}

/// Whether a text, which isn't null, stands among these items.
pub(crate) fn stands_in(text: &[Cell], items: &[Item]) -> bool
    ensures { result ≡ stands_in (text_of_cells text.now) items.now }
{
    for i in 0..items.len() {
        if begins(text, &items[i..]) {
            return true;
        }
    }
    false
}

/// Whether something of a form is left, and a text for which `in` looks doesn't stand there.
pub(crate) fn is_absent(text: &[Cell], form: &StoredForm) -> bool
    ensures { result ≡ is_absent (text_of_cells text.now) form.now }
{
    if text.is_empty() {
        return false;
    }
    if form.pointer() >= form.body_len() {
        return false;
    }
    !stands_in_rest(text, form)
}

// Whether a text, which isn't null, stands in a form from its pointer on.
fn stands_in_rest(text: &[Cell], form: &StoredForm) -> bool
    ensures { result ≡ stands_in (text_of_cells text.now) (after_pointer form.now) }
{
    for place in form.pointer()..form.body_len() {
        if begins_at(text, form, place) {
            return true;
        }
    }
    false
}

// Whether the items of a form begin with a text at this place.
fn begins_at(text: &[Cell], form: &StoredForm, place: u32) -> bool
    ensures { result ≡ begins (text_of_cells text.now) (drop place form.now.body) }
{
    let mut rest = text;
    for behind in place..form.body_len() {
        let [cell, others @ ..] = rest else {
            return true;
        };
        let Some(item) = form.item(behind) else {
            return false;
        };
        if !is_character(&item, character_of(cell)) {
            return false;
        }
        rest = others;
    }
    rest.is_empty()
}

/// The highest ordinal of a gap of a form; 0 if it has no gap.
pub(crate) fn highest_gap(form: &StoredForm) -> u32
    ensures { result ≡ highest_gap 0 form.now.body }
{
    let mut highest: u32 = 0;
    let mut place: u32 = 0;
    while place < form.body_len() {
        let gap = behind_characters(form, place);
        let Some(item) = form.item(gap) else {
            return highest;
        };
        highest = with_gap(highest, &item);
        place = gap + 1;
    }
    highest
}

// The place behind the characters that stand in a row from a place of a form on.
fn behind_characters(form: &StoredForm, place: u32) -> u32
    requires { place ≤ length form.now.body }
    ensures within { (place ≤ result) × (result ≤ length form.now.body) }
    ensures characters { (highest : ℕ) → highest_gap highest (drop result form.now.body) ≡
        highest_gap highest (drop place form.now.body) }
{
    place + form.run(place, form.body_len()).len() as u32
}

// A number, or the ordinal of an item that is a gap, whichever is greater.
fn with_gap(highest: u32, item: &Item) -> u32
    ensures { result ≡ with_gap highest item.now }
{
    match item {
        Item::Byte(_) => highest,
        Item::Gap(ordinal) => highest.max(*ordinal),
    }
}

// The items behind a number sign and a left parenthesis, which are the first two. None if they aren't.
fn behind_opening(items: &[Item]) -> &[Item]
    ensures { result.now ≡ behind_opening items.now }
{
    let [first, second, behind @ ..] = items else {
        return &[];
    };
    if is_character(first, b'#') && is_character(second, b'(') {
        behind
    } else {
        &[]
    }
}

// Whether a text begins in the name at the head of the items.
fn begins_in_name(text: &[Cell], items: &[Item]) -> bool
    ensures { result ≡ begins_in_name (text_of_cells text.now) items.now }
{
    for (i, item) in items.iter().enumerate() {
        if ends_name(item) {
            return false;
        }
        if begins(text, &items[i..]) {
            return true;
        }
    }
    false
}

/// Whether the items begin with a text.
pub(crate) fn begins(text: &[Cell], items: &[Item]) -> bool
    ensures { result ≡ begins (text_of_cells text.now) items.now }
{
    let mut rest = items;
    for cell in text {
        let [item, behind @ ..] = rest else {
            return false;
        };
        if !is_character(item, character_of(cell)) {
            return false;
        }
        rest = behind;
    }
    true
}

// Whether an item is this character.
fn is_character(item: &Item, character: u8) -> bool
    ensures { result ≡ is_character character item.now }
{
    match item {
        Item::Byte(byte) => *byte == character,
        Item::Gap(_) => false,
    }
}

// Whether an item ends a name.
fn ends_name(item: &Item) -> bool
    ensures { result ≡ ends_name item.now }
{
    match item {
        Item::Byte(byte) => matches!(byte, b',' | b'(' | b')' | b'#'),
        Item::Gap(_) => true,
    }
}

/// The body of a form. Fails only if memory runs out.
pub(crate) fn body_of<A: Allocator>(alloc: A, form: &StoredForm) -> Result<Vec<Item, A>, AllocError>
    ensures { IfOk result (λ items. items.items ≡ form.now.body) }
{
    let mut items = Vec::new(alloc);
    for place in 0..form.body_len() {
        if let Some(item) = form.item(place) {
            items.push(item)?;
        }
    }
    Ok(items)
}
