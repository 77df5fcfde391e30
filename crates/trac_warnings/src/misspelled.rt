//! Calls in a script whose names are misspelled.
ghost use Rattle.std.specs.Prelude.{◌≡◌, ◌≤◌, OnOk, length};
ghost use Rattle.std.specs.Char.{is_ascii_alphabetic};
ghost use Rattle.std.specs.List.{prefix_len};
ghost use Rattle.trac_warnings.specs.Misspelled.{behind_call, ends_name, has_one_more, has_small, is_function};
ghost use Rattle.trac_warnings.specs.Misspelled.{is_misspelled, is_turned, misspelled_at, misspelled_len};
ghost use Rattle.trac_warnings.specs.Misspelled.{misspelled_warnings};
ghost use Rattle.trac_warnings.specs.Performed.{Warns};
ghost use Rattle.trac_warnings.specs.Watched.{Kept};

use crate::names::suspicion_of_name;
use crate::warning::{Suspicion, Warning};
use crate::written::warn_at;
use std::alloc::{AllocError, Allocator};
use trac_events::{NumberSign, count_before};
use trac_functions::function::function_named;
use trac_space::Cell;

/// Adds the calls in a script whose names no function has, and probably should be those of functions. They are for
/// calls that were never performed: an unknown name in a call that is performed is warned of then. Fails only if memory
/// runs out.
#[inline(never)]
#[tactic(auto, using(crate::proofs::Keeping::keeping))]
pub fn look_at_names<A: Allocator + Copy>(
    warnings: &mut Vec<Warning<A>, A>,
    alloc: A,
    input: &[u8],
) -> Result<(), AllocError>
    ensures kept { Kept warnings.old.items warnings.new.items }
    ensures said { OnOk result (Warns warnings.old.items warnings.new.items
        (misspelled_warnings input.now)) }
{
    let mut place = count_before(&NumberSign, input);
    while place < input.len() {
        look_at_name(warnings, alloc, place, &input[place..])?;
        place += count_before(&NumberSign, &input[place + 1..]) + 1;
    }
    Ok(())
}

// Looks at the head of a text at a place of the input.
#[tactic(auto, using(crate::proofs::Keeping::keeping))]
fn look_at_name<A: Allocator + Copy>(
    warnings: &mut Vec<Warning<A>, A>,
    alloc: A,
    place: usize,
    text: &[u8],
) -> Result<(), AllocError>
    ensures kept { Kept warnings.old.items warnings.new.items }
    ensures said { OnOk result (Warns warnings.old.items warnings.new.items
        (misspelled_at place text.now)) }
{
    let name = behind_call(text);
    let len = misspelled_len(name);
    if len == 0 {
        return Ok(());
    }
    warn_at(warnings, alloc, Suspicion::Misspelled, place, &name[..len])
}

// What stands behind a number sign and a left parenthesis at the head of a text; null, if they aren't there.
fn behind_call(text: &[u8]) -> &[u8]
    ensures { result.now ≡ behind_call text.now }
{
    match text {
        [b'#', b'(', behind @ ..] => behind,
        _ => &[],
    }
}

// How many letters a name has at the head of a text, if it is misspelled and a comma or a right parenthesis ends it. 0
// if there is no such name.
fn misspelled_len(text: &[u8]) -> usize
    ensures value { result ≡ misspelled_len text.now }
    ensures within { result ≤ length text.now }
{
    let len = letters_len(text);
    if ends_name(&text[len..]) && is_misspelled(&text[..len]) {
        len
    } else {
        0
    }
}

// How many letters stand at the head of a text.
fn letters_len(text: &[u8]) -> usize
    ensures value { result ≡ prefix_len is_ascii_alphabetic text.now }
    ensures within { result ≤ length text.now }
{
    for (place, character) in text.iter().enumerate() {
        if !character.is_ascii_alphabetic() {
            return place;
        }
    }
    text.len()
}

// Whether a text begins with a character that ends the name of a call: a comma or a right parenthesis.
fn ends_name(text: &[u8]) -> bool
    ensures { result ≡ ends_name text.now }
{
    matches!(text, [b',' | b')', ..])
}

// Whether no function has a name of these letters, and one was probably meant: the two letters of its name are turned
// round; one letter is added to it; or there are three letters or more, and not all are capitals. One letter, two
// others or more capitals may well stand for a gap.
fn is_misspelled(letters: &[u8]) -> bool
    ensures { result ≡ is_misspelled letters.now }
{
    match *letters {
        [first, second] => is_turned(first, second),
        [first, second, third] => has_one_more(first, second, third) || has_small(letters),
        [_, _, _, _, ..] => has_small(letters),
        _ => false,
    }
}

// Whether a small letter is among these.
fn has_small(letters: &[u8]) -> bool
    ensures { result ≡ has_small letters.now }
{
    letters.iter().any(|letter| letter.is_ascii_lowercase())
}

// Whether two characters, in this order, are the name of no function, and in the other order that of one.
fn is_turned(first: u8, second: u8) -> bool
    ensures { result ≡ is_turned first second }
{
    suspicion_of_name(&[Cell::Byte(first), Cell::Byte(second)]) == Some(Suspicion::NoFunction)
        && is_function(second, first)
}

// Whether two of three letters, in their order, are the name of a function.
fn has_one_more(first: u8, second: u8, third: u8) -> bool
    ensures { result ≡ has_one_more first second third }
{
    is_function(second, third) || is_function(first, third) || is_function(first, second)
}

// Whether two characters are the name of a function.
fn is_function(first: u8, second: u8) -> bool
    ensures { result ≡ is_function first second }
{
    function_named(&[Cell::Byte(first), Cell::Byte(second)]).is_some()
}
