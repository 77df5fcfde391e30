//! What is suspicious in the texts that a call computes with or compares.
ghost use Rattle.std.specs.Prelude.{◌≡◌, ◌+◌, true, List, [], MatchOption, None, OnOk, drop};
ghost use Rattle.trac_space.specs.Texts.{text_of_cells};
ghost use Rattle.std.specs.Char.{is_ascii_digit};
ghost use Rattle.std.specs.List.{list_all, position_or_len};
ghost use Rattle.trac_language.specs.Form.{Form};
ghost use Rattle.trac_space.specs.Cells.{is_comma};
ghost use Rattle.trac_events.specs.Calls.{argument_of, first_argument};
ghost use Rattle.trac_warnings.specs.Operands.{operand_among, suspicion_of_number, suspicion_of_operand};
ghost use Rattle.trac_warnings.specs.Operands.{adds, are_digits, are_thousands, behind_digit, is_number, takes_numbers};
ghost use Rattle.trac_warnings.specs.Performed.{Warns, comma_warnings, compares_texts, differ_by_blanks};
ghost use Rattle.trac_warnings.specs.Performed.{has_odd_operand, operand_warnings, parts_number, side_warnings};
ghost use Rattle.trac_warnings.specs.Performed.{suspicion_of_sides, use_warnings};
ghost use Rattle.trac_warnings.specs.Watched.{Kept};

use crate::blanks::trimmed;
use crate::letters::differ_by_letters;
use crate::performed::{Ending, warn};
use crate::warning::{Suspicion, Warning};
use std::alloc::{AllocError, Allocator};
use trac_core::Machine;
use trac_events::{argument, find_form, from_argument, is_same};
use trac_language::{Arith, Function};
use trac_space::{Cell, character_of};

/// Looks at the first argument in which something is suspicious, if a call of this function takes its
/// arguments for numbers. An error means that memory ran out.
#[inline(always)]
#[tactic(auto, using(crate::proofs::Keeping::keeping))]
pub(crate) fn look_at_operands<A: Allocator + Copy>(
    warnings: &mut Vec<Warning<A>, A>,
    alloc: A,
    machine: &Machine,
    function: Function,
    ending: &Ending,
) -> Result<(), AllocError>
    ensures kept { Kept warnings.old.items warnings.new.items }
    ensures said { OnOk result (Warns warnings.old.items warnings.new.items
        (operand_warnings function machine.now.memory.forms ending.now)) }
{
    if !takes_numbers(function) {
        return Ok(());
    }
    look_at_numbers(warnings, alloc, machine, function, ending)
}

// Looks at the first argument in which something is suspicious of a call that takes its arguments for numbers.
#[inline(never)]
#[tactic(auto, using(crate::proofs::Keeping::keeping))]
fn look_at_numbers<A: Allocator + Copy>(
    warnings: &mut Vec<Warning<A>, A>,
    alloc: A,
    machine: &Machine,
    function: Function,
    ending: &Ending,
) -> Result<(), AllocError>
    requires { takes_numbers function ≡ true }
    ensures kept { Kept warnings.old.items warnings.new.items }
    ensures said { OnOk result (Warns warnings.old.items warnings.new.items
        (operand_warnings function machine.now.memory.forms ending.now)) }
{
    let first = argument(ending.arguments, 1);
    if let Some(suspicion) = operand_among(machine, first) {
        return warn(warnings, alloc, suspicion, ending.begin, first);
    }
    let second = argument(ending.arguments, 2);
    match operand_among(machine, second) {
        Some(suspicion) => warn(warnings, alloc, suspicion, ending.begin, second),
        None => Ok(()),
    }
}

/// Whether a call of this function takes two numbers of digits alone, and nothing that could be another one. Then
/// nothing is suspicious in the arguments that it uses.
pub(crate) fn has_plain_numbers(function: Function, ending: &Ending) -> bool
    ensures { result ≡ true → (forms : List Form) → use_warnings function forms ending.now ≡ [] }
{
    takes_numbers(function) && are_plain_numbers(function, ending.arguments)
}

// Whether the first two arguments have no other characters than digits, and a function that adds has no third one.
fn are_plain_numbers(function: Function, arguments: &[Cell]) -> bool
    ensures one { result ≡ true → suspicion_of_operand (argument_of arguments.now 1) ≡ None }
    ensures other { result ≡ true → suspicion_of_operand (argument_of arguments.now 2) ≡ None }
    ensures more { result ≡ true → adds function ≡ true → argument_of arguments.now 3 ≡ [] }
{
    let Some(second) = behind_digits(from_argument(arguments, 1)) else {
        return false;
    };
    let Some(third) = behind_digits(second) else {
        return false;
    };
    third.is_empty() || !adds(function)
}

// The cells behind the first comma mark; none if there is no comma mark. None if another cell than a digit stands
// before it.
fn behind_digits(cells: &[Cell]) -> Option<&[Cell]>
    ensures { MatchOption result (Unit {0}) (λ behind. (are_digits (first_argument cells.now) ≡ true)
        × (behind.now ≡ drop (position_or_len is_comma cells.now + 1) cells.now)) }
{
    for (place, cell) in cells.iter().enumerate() {
        if matches!(cell, Cell::Comma) {
            return Some(&cells[place + 1..]);
        }
        if !character_of(cell).is_ascii_digit() {
            return None;
        }
    }
    Some(&[])
}

/// Whether something is suspicious in one of the first two arguments, which are taken for numbers.
pub(crate) fn has_odd_operand(arguments: &[Cell]) -> bool
    ensures { result ≡ has_odd_operand arguments.now }
{
    suspicion_of_operand(argument(arguments, 1)).is_some()
        || suspicion_of_operand(argument(arguments, 2)).is_some()
}

// Whether a function takes its first two arguments for numbers.
fn takes_numbers(function: Function) -> bool
    ensures { result ≡ takes_numbers function }
{
    matches!(function, Function::Greater | Function::Arithmetic(_))
}

// What is suspicious in an argument that is taken for a number; if it has no digits and is the name of a form,
// the warning says so.
fn operand_among(machine: &Machine, cells: &[Cell]) -> Option<Suspicion>
    ensures { result ≡ operand_among machine.now.memory.forms cells.now }
{
    let suspicion = suspicion_of_operand(cells)?;
    if suspicion != Suspicion::NoDigits {
        return Some(suspicion);
    }
    match find_form(machine, cells) {
        Some(_) => Some(Suspicion::FormAsNumber),
        None => Some(suspicion),
    }
}

// What is suspicious in an argument that is taken for a number. None if it is null.
fn suspicion_of_operand(cells: &[Cell]) -> Option<Suspicion>
    ensures { result ≡ suspicion_of_operand cells.now }
{
    if cells.is_empty() {
        return None;
    }
    suspicion_of_number(cells)
}

// What is suspicious in a text that is taken for a number: another character behind its first digit, or no digit
// at all.
fn suspicion_of_number(text: &[Cell]) -> Option<Suspicion>
    ensures { result ≡ suspicion_of_number (text_of_cells text.now) }
{
    for (i, cell) in text.iter().enumerate() {
        if character_of(cell).is_ascii_digit() {
            return suspicion_behind_digit(&text[i + 1..]);
        }
    }
    Some(Suspicion::NoDigits)
}

// What is suspicious in what stands behind the first digit of a number.
fn suspicion_behind_digit(rest: &[Cell]) -> Option<Suspicion>
    ensures { result ≡ behind_digit (text_of_cells rest.now) }
{
    if are_digits(rest) {
        None
    } else {
        Some(Suspicion::DigitsInside)
    }
}

// Whether all cells are digits.
fn are_digits(cells: &[Cell]) -> bool
    ensures { result ≡ are_digits cells.now }
{
    for cell in cells {
        if !character_of(cell).is_ascii_digit() {
            return false;
        }
    }
    true
}

/// Looks at the two texts that a call compares. An error means that memory ran out.
#[inline(always)]
#[tactic(auto, using(crate::proofs::Keeping::keeping))]
pub(crate) fn look_at_sides<A: Allocator + Copy>(
    warnings: &mut Vec<Warning<A>, A>,
    alloc: A,
    function: Function,
    ending: &Ending,
) -> Result<(), AllocError>
    ensures kept { Kept warnings.old.items warnings.new.items }
    ensures said { OnOk result (Warns warnings.old.items warnings.new.items
        (side_warnings function ending.now)) }
{
    if !compares_texts(function) {
        return Ok(());
    }
    look_at_both(warnings, alloc, function, ending)
}

// Looks at the two texts of a call that compares texts.
#[inline(never)]
#[tactic(auto, using(crate::proofs::Keeping::keeping))]
fn look_at_both<A: Allocator + Copy>(
    warnings: &mut Vec<Warning<A>, A>,
    alloc: A,
    function: Function,
    ending: &Ending,
) -> Result<(), AllocError>
    requires { compares_texts function ≡ true }
    ensures kept { Kept warnings.old.items warnings.new.items }
    ensures said { OnOk result (Warns warnings.old.items warnings.new.items
        (side_warnings function ending.now)) }
{
    let one = argument(ending.arguments, 1);
    match suspicion_of_sides(one, argument(ending.arguments, 2)) {
        Some(suspicion) => warn(warnings, alloc, suspicion, ending.begin, one),
        None => Ok(()),
    }
}

/// Looks at a call that adds, subtracts or multiplies, and in which a comma seems to part a number. An error means
/// that memory ran out.
#[inline(always)]
#[tactic(auto, using(crate::proofs::Keeping::keeping))]
pub(crate) fn look_at_thousands<A: Allocator + Copy>(
    warnings: &mut Vec<Warning<A>, A>,
    alloc: A,
    function: Function,
    ending: &Ending,
) -> Result<(), AllocError>
    ensures kept { Kept warnings.old.items warnings.new.items }
    ensures said { OnOk result (Warns warnings.old.items warnings.new.items
        (comma_warnings function ending.now)) }
{
    if !adds(function) || !parts_number(ending.arguments) {
        return Ok(());
    }
    let name = argument(ending.arguments, 0);
    warn(
        warnings,
        alloc,
        Suspicion::CommaInNumber,
        ending.begin,
        name,
    )
}

// Whether a function adds, subtracts or multiplies.
fn adds(function: Function) -> bool
    ensures { result ≡ adds function }
{
    matches!(
        function,
        Function::Arithmetic(Arith::Add | Arith::Subtract | Arith::Multiply)
    )
}

// Whether a comma seems to part one of the numbers of a call: it has a third number, and one has three digits and
// stands behind one of at most three.
#[inline(never)]
fn parts_number(arguments: &[Cell]) -> bool
    ensures { result ≡ parts_number arguments.now }
{
    let more = argument(arguments, 3);
    if !is_number(more) {
        return false;
    }
    let one = argument(arguments, 1);
    let other = argument(arguments, 2);
    is_number(one) && is_number(other) && (are_thousands(one, other) || are_thousands(other, more))
}

// Whether a text is a number: digits alone, at least one.
fn is_number(cells: &[Cell]) -> bool
    ensures { result ≡ is_number (text_of_cells cells.now) }
{
    !cells.is_empty() && are_digits(cells)
}

// Whether two numbers, with a comma between them, are written as thousands: three digits behind at most three.
fn are_thousands(one: &[Cell], other: &[Cell]) -> bool
    ensures { result ≡ are_thousands (text_of_cells one.now) (text_of_cells other.now) }
{
    one.len() <= 3 && other.len() == 3
}

// What is suspicious in two texts that are compared: that they differ only by blanks and layout around them, or only
// in capitals and small letters.
fn suspicion_of_sides(one: &[Cell], other: &[Cell]) -> Option<Suspicion>
    ensures { result ≡ suspicion_of_sides one.now other.now }
{
    if differ_by_blanks(one, other) {
        Some(Suspicion::BlankInSide)
    } else if differ_by_letters(one, other) {
        Some(Suspicion::LetterInSide)
    } else {
        None
    }
}

// Whether a function compares two texts.
fn compares_texts(function: Function) -> bool
    ensures { result ≡ compares_texts function }
{
    matches!(function, Function::Equal)
}

// Whether two texts differ, and are the same without the blanks and the layout around them, which isn't null.
fn differ_by_blanks(one: &[Cell], other: &[Cell]) -> bool
    ensures { result ≡ differ_by_blanks one.now other.now }
{
    if is_same(one, other) {
        return false;
    }
    let inner = trimmed(one);
    !inner.is_empty() && is_same(inner, trimmed(other))
}
