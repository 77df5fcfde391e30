//! What is suspicious in a call that prints or changes the meta character.
ghost use Rattle.std.specs.List.{list_any};
ghost use Rattle.std.specs.Prelude.{◌≡◌, ◌<◌, ◌≤◌, false, true, OnOk, length};
ghost use Rattle.trac_space.specs.Texts.{text_of_cells};
ghost use Rattle.trac_warnings.specs.Performed.{Warns, changes_meta, meta_change_warnings, print_warnings, prints};
ghost use Rattle.trac_warnings.specs.Printed.{begins_with_line_end, behind_call, behind_parenthesis};
ghost use Rattle.trac_warnings.specs.Printed.{behind_sign, closes_at_end, has_two_at_end, is_sign};
ghost use Rattle.trac_warnings.specs.Watched.{Kept};

use crate::blanks::trimmed;
use crate::performed::{Ending, characters_of, warn, warn_of};
use crate::spelling::names_function;
use crate::warning::{Suspicion, Warning};
use std::alloc::{AllocError, Allocator};
use trac_events::argument;
use trac_language::Function;
use trac_space::{Cell, character_of};

/// Looks at what a call prints: whether its first call of a function ends it. An error means that memory ran out.
#[inline(always)]
#[tactic(auto, using(crate::proofs::Keeping::keeping))]
pub(crate) fn look_at_print<A: Allocator + Copy>(
    warnings: &mut Vec<Warning<A>, A>,
    alloc: A,
    function: Function,
    ending: &Ending,
) -> Result<(), AllocError>
    ensures kept { Kept warnings.old.items warnings.new.items }
    ensures said { OnOk result (Warns warnings.old.items warnings.new.items
        (print_warnings function ending.now)) }
{
    if !prints(function) {
        return Ok(());
    }
    look_at_printed(warnings, alloc, function, ending)
}

// Looks at the text that a call prints.
#[inline(never)]
#[tactic(auto, using(crate::proofs::Keeping::keeping))]
fn look_at_printed<A: Allocator + Copy>(
    warnings: &mut Vec<Warning<A>, A>,
    alloc: A,
    function: Function,
    ending: &Ending,
) -> Result<(), AllocError>
    requires { prints function ≡ true }
    ensures kept { Kept warnings.old.items warnings.new.items }
    ensures said { OnOk result (Warns warnings.old.items warnings.new.items
        (print_warnings function ending.now)) }
{
    let printed = trimmed(argument(ending.arguments, 1));
    if !has_sign(printed) {
        return Ok(());
    }
    let text = characters_of(alloc, printed)?;
    let behind = behind_call(&text);
    if behind.is_empty() || !closes_at_end(behind) {
        return Ok(());
    }
    let mut name = Vec::new(alloc);
    name.extend_from_slice(&behind[..2])?;
    warn_of(warnings, Suspicion::CallPrinted, ending.begin, name)
}

// Whether a function prints a text.
fn prints(function: Function) -> bool
    ensures { result ≡ prints function }
{
    matches!(function, Function::PrintString)
}

// Whether a number sign stands in a text.
fn has_sign(cells: &[Cell]) -> bool
    ensures { result ≡ list_any is_sign (text_of_cells cells.now) }
{
    for cell in cells {
        if character_of(cell) == b'#' {
            return true;
        }
    }
    false
}

// What stands behind the characters that open the first call of a function in a text; null if none is in it.
fn behind_call(text: &[u8]) -> &[u8]
    ensures value { result.now ≡ behind_call text.now }
    ensures long { 0 < length result.now → 2 ≤ length result.now }
{
    for (i, byte) in text.iter().enumerate() {
        if *byte == b'#' {
            let behind = behind_parenthesis(behind_sign(&text[i + 1..]));
            if names_function(b')', behind) {
                return behind;
            }
        }
    }
    &[]
}

// A text without a number sign at its head, if one is there.
fn behind_sign(text: &[u8]) -> &[u8]
    ensures { result.now ≡ behind_sign text.now }
{
    match text {
        [b'#', behind @ ..] => behind,
        _ => text,
    }
}

// What stands behind a left parenthesis at the head of a text; null, if none is there.
fn behind_parenthesis(text: &[u8]) -> &[u8]
    ensures { result.now ≡ behind_parenthesis text.now }
{
    match text {
        [b'(', behind @ ..] => behind,
        _ => &[],
    }
}

// Whether the last character of a text closes a parenthesis that is open before the text, and none before it does.
fn closes_at_end(text: &[u8]) -> bool
    ensures { result ≡ closes_at_end 1 text.now }
{
    let mut opened: usize = 1;
    for (i, byte) in text.iter().enumerate() {
        if *byte == b'(' {
            opened = opened.saturating_add(1);
        } else if *byte == b')' {
            if opened == 1 {
                return text[i + 1..].is_empty();
            }
            opened = opened.saturating_sub(1);
        }
    }
    false
}

/// Looks at a call that makes a character of a line end the meta character. An error means that memory ran out.
#[inline(always)]
#[tactic(auto, using(crate::proofs::Keeping::keeping))]
pub(crate) fn look_at_meta_change<A: Allocator + Copy>(
    warnings: &mut Vec<Warning<A>, A>,
    alloc: A,
    function: Function,
    ending: &Ending,
) -> Result<(), AllocError>
    ensures kept { Kept warnings.old.items warnings.new.items }
    ensures said { OnOk result (Warns warnings.old.items warnings.new.items
        (meta_change_warnings function ending.now)) }
{
    if !changes_meta(function) {
        return Ok(());
    }
    look_at_new_meta(warnings, alloc, function, ending)
}

// Looks at the character that a call makes the meta character.
#[inline(never)]
#[tactic(auto, using(crate::proofs::Keeping::keeping))]
fn look_at_new_meta<A: Allocator + Copy>(
    warnings: &mut Vec<Warning<A>, A>,
    alloc: A,
    function: Function,
    ending: &Ending,
) -> Result<(), AllocError>
    requires { changes_meta function ≡ true }
    ensures kept { Kept warnings.old.items warnings.new.items }
    ensures said { OnOk result (Warns warnings.old.items warnings.new.items
        (meta_change_warnings function ending.now)) }
{
    let new = argument(ending.arguments, 1);
    if begins_with_line_end(new) && has_two_at_end(ending.input) {
        return warn(warnings, alloc, Suspicion::LineEndAsMeta, ending.begin, new);
    }
    Ok(())
}

// Whether a function changes the meta character.
fn changes_meta(function: Function) -> bool
    ensures { result ≡ changes_meta function }
{
    matches!(function, Function::ChangeMeta)
}

// Whether a text begins with CR or LF.
fn begins_with_line_end(text: &[Cell]) -> bool
    ensures { result ≡ begins_with_line_end (text_of_cells text.now) }
{
    match text {
        [first, ..] => matches!(character_of(first), b'\r' | b'\n'),
        [] => false,
    }
}

// Whether a line ends with CR and LF.
fn has_two_at_end(text: &[u8]) -> bool
    ensures { result ≡ has_two_at_end false text.now }
{
    let mut is_behind = false;
    for byte in text {
        if is_behind && *byte == b'\n' {
            return true;
        }
        is_behind = *byte == b'\r';
    }
    false
}
