//! What is odd about calls.
ghost use Rattle.std.specs.Prelude.{◌≡◌, false};
ghost use Rattle.trac_tracer.specs.Odd.{asks_for_part, is_default, oddity_of};
ghost use Rattle.trac_tracer.specs.Odd.{has_number};
ghost use Rattle.trac_space.specs.Texts.{text_of_cells};

use trac_core::Cell;
use trac_events::{Named, argument, is_same, takes_part};
use trac_language::{Function, facts_of};
use trac_space::character_of;
use trac_views::Oddity;

/// What is odd about a call with these arguments and this value: no function has its name, no form
/// has the name that its function needs, or its value is its default value. `named` is what it
/// named before it was performed; `pointer` is the pointer of that form afterwards. The value of
/// arithmetic counts as its default value if it is the same text.
#[inline(never)]
pub fn oddity_of(
    named: &Named,
    arguments: &[Cell],
    value: &[Cell],
    pointer: Option<u32>,
) -> Option<Oddity>
    ensures { result ≡
        oddity_of named.now.function named.now.pointer arguments.now value.now pointer }
{
    match named.function {
        None if argument(arguments, 0).is_empty() => None,
        None => Some(Oddity::NoFunction),
        Some(function) if facts_of(function).traits.needs_form && named.pointer.is_none() => {
            Some(Oddity::NoForm)
        }
        Some(function) if is_default(function, arguments, value, named.pointer == pointer) => {
            Some(Oddity::Default)
        }
        Some(_) => None,
    }
}

// Whether the value is the default value: for arithmetic if it is the same text, for a part of a
// form if a part was asked for and the pointer stayed.
fn is_default(function: Function, arguments: &[Cell], value: &[Cell], stays: bool) -> bool
    ensures { result ≡ is_default function arguments.now value.now stays }
{
    match function {
        Function::Arithmetic(_) => is_same(value, argument(arguments, 3)),
        _ => stays && takes_part(function) && asks_for_part(function, argument(arguments, 2)),
    }
}

// Whether a call of a function that takes a part, with this second argument, asks for more than
// null: for a number of characters that isn't 0, or for those before a text that isn't null.
fn asks_for_part(function: Function, second: &[Cell]) -> bool
    ensures { result ≡ asks_for_part function second.now }
{
    match function {
        Function::CallNumber => has_number(second),
        Function::InitialPart => !second.is_empty(),
        _ => true,
    }
}

// Whether a text ends in the digits of a number that isn't 0.
fn has_number(cells: &[Cell]) -> bool
    ensures { result ≡ has_number false (text_of_cells cells.now) }
{
    let mut found = false;
    for cell in cells {
        found = match character_of(cell) {
            b'0' => found,
            b'1'..=b'9' => true,
            _ => false,
        };
    }
    found
}
