//! The number at the end of a text as a count of characters or of bits.
ghost use Rattle.std.specs.Prelude.{◌≡◌, ◌+◌, ◌*◌, ◌%◌, ◌<◌, ◌≤◌, min, length, int_lt, pos};
ghost use Rattle.std.specs.Prelude.{unsigned_abs};
ghost use Rattle.std.specs.Int.{int_rem_euclid};
ghost use Rattle.trac_language.specs.Number.{digits, ends_with};
ghost use Rattle.trac_values.specs.Digits.{IsDecimal, decimal_value};
ghost use Rattle.trac_values.specs.Cells.{number_in};

use crate::digits::split_digits;
use crate::text::ends_with;
use trac_space::{Cell, character_of};

/// A number up to a limit: whether it is negative, and its size or the limit, whichever is less.
#[derive(Clone, Copy)]
pub struct Count {
    pub negative: bool,
    pub size: u32,
}

/// The number of digits, or the limit if that is less.
fn value_up_to(digits: &[Cell], limit: u32) -> u32
    requires digits { IsDecimal digits.now }
    requires limit { limit ≤ 50331648 }
    ensures { result ≡ min (decimal_value digits.now) limit }
{
    let mut value = 0;
    for cell in digits {
        value = (value * 10 + u32::from(character_of(cell) - b'0')).min(limit);
    }
    value
}

/// The number at the end of a text, of any length, up to a limit.
fn count_up_to(cells: &[Cell], limit: u32) -> Count
    requires limit { (0 < limit) × (limit ≤ 50331648) }
    ensures negative { result.negative ≡ int_lt (number_in cells.now) (pos 0) }
    ensures size { result.size ≡ min (unsigned_abs (number_in cells.now)) limit }
{
    let (front, digits) = split_digits(cells);
    let size = value_up_to(digits, limit);
    Count {
        negative: size > 0 && ends_with(front, b'-'),
        size,
    }
}

/// The number at the end of a text, for `cn` (Mooers 1966): how many characters, up to 16,777,216, as many
/// as a block can hold. The limit is this processor's own choice.
pub fn count_of(cells: &[Cell]) -> Count
    ensures negative { result.negative ≡ int_lt (number_in cells.now) (pos 0) }
    ensures size { result.size ≡ min (unsigned_abs (number_in cells.now)) 16777216 }
{
    count_up_to(cells, 16_777_216)
}

/// The number at the end of a text, for `bs` (Mooers 1966): by how many bits to shift, up to 50,331,648, as
/// many as the digits in a block can have. The limit is this processor's own choice.
pub fn shift_of(cells: &[Cell]) -> Count
    ensures negative { result.negative ≡ int_lt (number_in cells.now) (pos 0) }
    ensures size { result.size ≡ min (unsigned_abs (number_in cells.now)) 50331648 }
{
    count_up_to(cells, 50_331_648)
}

/// The remainder of the number of digits by a divisor.
fn remainder_of(digits: &[Cell], divisor: u32) -> u32
    requires digits { IsDecimal digits.now }
    requires divisor { (0 < divisor) × (divisor ≤ 50331648) }
    ensures { result ≡ decimal_value digits.now % divisor }
{
    let mut rest = 0;
    for cell in digits {
        rest = (rest * 10 + u32::from(character_of(cell) - b'0')) % divisor;
    }
    rest
}

/// By how many bits, fewer than `bits`, the number at the end of a text rotates a string of `bits` bits to
/// the left, for `br` (Mooers 1966).
pub fn rotation_of(cells: &[Cell], bits: u32) -> u32
    requires { (0 < bits) × (bits ≤ 50331648) }
    ensures { int_rem_euclid (number_in cells.now) (pos bits) ≡ pos result }
{
    let (front, digits) = split_digits(cells);
    let rest = remainder_of(digits, bits);
    if rest > 0 && ends_with(front, b'-') {
        bits - rest
    } else {
        rest
    }
}
