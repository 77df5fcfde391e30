//! Bit strings at the end of texts.
ghost use Rattle.std.specs.Prelude.{◌≡◌, ◌+◌, ◌*◌, ◌%◌, ◌<◌, ◌≤◌, ◌^◌, false, true};
ghost use Rattle.std.specs.Prelude.{length, pos, slice_get, slice_index_or, ◌+ℤ◌};
ghost use Rattle.trac_language.specs.BitString.{bit_at, complement, intersection, is_octal, octal};
ghost use Rattle.trac_language.specs.BitString.{octal_digit, octal_digits, octal_prefix, rotated};
ghost use Rattle.trac_language.specs.BitString.{shifted, union};
ghost use Rattle.trac_language.specs.Number.{number};
ghost use Rattle.trac_space.specs.Texts.{text_of_cells};
ghost use Rattle.trac_values.specs.Digits.{bits_of_cells, padded_text, signed, IsOctal};
ghost use Rattle.trac_values.specs.Cells.{IsText, bits_in, number_in};

use crate::counts::{Count, rotation_of, shift_of};
use trac_space::{Cell, character_of};

/// Whether a character is a digit from 0 to 7.
fn is_octal(character: u8) -> bool
    ensures { result ≡ is_octal character }
{
    b'0' <= character && character <= b'7'
}

/// Where the longest suffix of octal digits begins.
fn octal_digits_start(cells: &[Cell]) -> usize
    ensures { result ≡ length (octal_prefix (text_of_cells cells.now)) }
{
    let mut start = cells.len();
    while start > 0 && is_octal(character_of(&cells[start - 1])) {
        start -= 1;
    }
    start
}

/// The octal digits of the bit string at the end of a text: its longest suffix of the digits 0 to 7, which
/// may have no cell.
fn octal_digits(cells: &[Cell]) -> &[Cell]
    ensures digits { text_of_cells result.now ≡ octal_digits (text_of_cells cells.now) }
    ensures octal { IsOctal result.now }
    ensures short { length result.now ≤ length cells.now }
{
    cells.split_at(octal_digits_start(cells)).1
}

/// Where the bit string at the end of a text begins, in cells: the length of its prefix. The bit string is
/// the longest suffix of the digits 0 to 7, of three bits each, the most significant first. That bits are
/// written as octal digits at the right end is Mooers' rule of 1966, the rest this processor's own choice.
pub fn octal_start(cells: &[Cell]) -> u32
    requires { IsText cells.now }
    ensures { result ≡ length (octal_prefix (text_of_cells cells.now)) }
{
    octal_digits_start(cells) as u32
}

/// The digit at a place of a string that is filled with zeros at the left up to `long` digits.
fn aligned_digit(digits: &[Cell], long: usize, place: usize) -> u8
    requires octal { IsOctal digits.now }
    requires long { (length digits.now ≤ long) × (long < 2 ^ 62) }
    requires place { place < long }
    ensures octal { is_octal result ≡ true }
    ensures digit { result ≡ slice_index_or (padded_text long (text_of_cells digits.now)) place 48 }
{
    if place + digits.len() < long {
        b'0'
    } else {
        character_of(&digits[place + digits.len() - long])
    }
}

/// The octal digit at place `k`, from 0 at the left, of the union of two bit strings, None past its end. `a`
/// and `b` are their octal digits. Computes with the characters of the digits, which differ only in their
/// last three bits.
pub fn union_digit(a: &[Cell], b: &[Cell], k: u32) -> Option<u8>
    requires left { IsOctal a.now }
    requires right { IsOctal b.now }
    requires short { (length a.now ≤ 16777216) × (length b.now ≤ 16777216) }
    ensures { result ≡ slice_get (octal (union (bits_of_cells a.now) (bits_of_cells b.now))) k }
{
    let long = a.len().max(b.len());
    let place = k as usize;
    if place >= long {
        return None;
    }
    Some(aligned_digit(a, long, place) | aligned_digit(b, long, place))
}

/// The octal digit at place `k`, from 0 at the left, of the intersection of two bit strings, None past its
/// end. `a` and `b` are their octal digits.
pub fn intersection_digit(a: &[Cell], b: &[Cell], k: u32) -> Option<u8>
    requires left { IsOctal a.now }
    requires right { IsOctal b.now }
    requires short { (length a.now ≤ 16777216) × (length b.now ≤ 16777216) }
    ensures { result ≡
        slice_get (octal (intersection (bits_of_cells a.now) (bits_of_cells b.now))) k }
{
    let short = a.len().min(b.len());
    let place = k as usize;
    if place >= short {
        return None;
    }
    Some(character_of(&a[place + a.len() - short]) & character_of(&b[place + b.len() - short]))
}

/// The octal digit at place `k`, from 0 at the left, of the complement of the bit string that `digits`
/// gives, None past its end.
pub fn complement_digit(digits: &[Cell], k: u32) -> Option<u8>
    requires { IsOctal digits.now }
    ensures { result ≡ slice_get (octal (complement (bits_of_cells digits.now))) k }
{
    let place = k as usize;
    if place >= digits.len() {
        return None;
    }
    Some(character_of(&digits[place]) ^ 7)
}

/// The bit at a place, 0 past the last.
fn bit_at(digits: &[Cell], place: usize) -> bool
    requires { IsOctal digits.now }
    ensures { result ≡ slice_index_or (bits_of_cells digits.now) place false }
{
    place / 3 < digits.len() && character_of(&digits[place / 3]) & (4 >> (place % 3)) != 0
}

/// The digit of three bits.
fn octal_digit(a: bool, b: bool, c: bool) -> u8
    ensures { result ≡ octal_digit a b c }
{
    b'0' + 4 * u8::from(a) + 2 * u8::from(b) + u8::from(c)
}

/// The bit at a place of a shifted bit string: 0 if no bit moves there.
fn shifted_bit(digits: &[Cell], by: Count, place: usize) -> bool
    requires octal { IsOctal digits.now }
    requires place { place < 2 ^ 62 }
    ensures { result ≡ bit_at (bits_of_cells digits.now) (pos place +ℤ signed by.negative by.size) }
{
    let distance = by.size as usize;
    if by.negative {
        distance <= place && bit_at(digits, place - distance)
    } else {
        bit_at(digits, place + distance)
    }
}

/// The octal digit at place `k`, from 0 at the left, of the bit string that `digits` gives, shifted by `by`
/// bits, to the left unless `by` is negative; None past its end. The function is never inlined: else the
/// compiler computes its places first when another function's digit is asked for.
#[inline(never)]
pub fn shifted_digit(digits: &[Cell], by: Count, k: u32) -> Option<u8>
    requires { IsOctal digits.now }
    ensures { let distance = signed by.negative by.size in
        result ≡ slice_get (octal (shifted distance (bits_of_cells digits.now))) k }
{
    let place = k as usize;
    if place >= digits.len() {
        return None;
    }
    let first = shifted_bit(digits, by, 3 * place);
    let second = shifted_bit(digits, by, 3 * place + 1);
    let third = shifted_bit(digits, by, 3 * place + 2);
    Some(octal_digit(first, second, third))
}

/// The bit at a place of a rotated bit string.
fn rotated_bit(digits: &[Cell], by: u32, place: usize) -> bool
    requires octal { IsOctal digits.now }
    requires by { by < 3 * length digits.now }
    requires place { place < 3 * length digits.now }
    ensures { let moved = (place + by) % (3 * length digits.now) in
        result ≡ slice_index_or (bits_of_cells digits.now) moved false }
{
    let moved = place + by as usize;
    if moved / 3 < digits.len() {
        bit_at(digits, moved)
    } else {
        bit_at(digits, moved - 3 * digits.len())
    }
}

/// The octal digit at place `k`, from 0 at the left, of the bit string that `digits` gives, rotated to the
/// left by `by` bits; None past its end. The string must have more than `by` bits.
#[inline(never)]
pub fn rotated_digit(digits: &[Cell], by: u32, k: u32) -> Option<u8>
    requires octal { IsOctal digits.now }
    requires by { by < 3 * length digits.now }
    ensures { result ≡ slice_get (octal (rotated (pos by) (bits_of_cells digits.now))) k }
{
    let place = k as usize;
    if place >= digits.len() {
        return None;
    }
    let first = rotated_bit(digits, by, 3 * place);
    let second = rotated_bit(digits, by, 3 * place + 1);
    let third = rotated_bit(digits, by, 3 * place + 2);
    Some(octal_digit(first, second, third))
}

/// The union of the bit strings of two texts, for `bu` (Mooers 1966): the character of its octal
/// digit at a place, counted from 0 at the left, and None past its end. That the shorter is filled
/// with zeros at the left is this processor's own choice.
pub fn bool_union(a: &[Cell], b: &[Cell], k: u32) -> Option<u8>
    requires left { IsText a.now }
    requires right { IsText b.now }
    ensures { result ≡ slice_get (octal (union (bits_in a.now) (bits_in b.now))) k }
{
    union_digit(octal_digits(a), octal_digits(b), k)
}

/// The intersection of the bit strings of two texts, for `bi` (Mooers 1966): the character of its
/// octal digit at a place, counted from 0 at the left, and None past its end. That the longer is
/// cut at the left is this processor's own choice.
pub fn bool_intersection(a: &[Cell], b: &[Cell], k: u32) -> Option<u8>
    requires left { IsText a.now }
    requires right { IsText b.now }
    ensures { result ≡ slice_get (octal (intersection (bits_in a.now) (bits_in b.now))) k }
{
    intersection_digit(octal_digits(a), octal_digits(b), k)
}

/// The bit string of a text with each bit turned over, for `bc` (Mooers 1966): the character of its
/// octal digit at a place, counted from 0 at the left, and None past its end.
pub fn bool_complement(a: &[Cell], k: u32) -> Option<u8>
    requires { IsText a.now }
    ensures { result ≡ slice_get (octal (complement (bits_in a.now))) k }
{
    complement_digit(octal_digits(a), k)
}

/// The bit string of the second text, shifted by as many bits as the number of the first says, to
/// the left where that is positive, for `bs` (Mooers 1966): the character of its octal digit at a
/// place, counted from 0 at the left, and None past its end. That zeros come in and the length is
/// kept, and that the number may have any length, is this processor's own choice.
pub fn bool_shift(d: &[Cell], a: &[Cell], k: u32) -> Option<u8>
    requires distance { IsText d.now }
    requires shifted { IsText a.now }
    ensures { result ≡ slice_get (octal (shifted (number_in d.now) (bits_in a.now))) k }
{
    shifted_digit(octal_digits(a), shift_of(d), k)
}

/// The bit string of the second text, rotated by as many bits as the number of the first says, to
/// the left where that is positive, for `br` (Mooers 1966): the character of its octal digit at a
/// place, counted from 0 at the left, and None past its end. That the length is kept, and that the
/// number may have any length, is this processor's own choice.
pub fn bool_rotation(d: &[Cell], a: &[Cell], k: u32) -> Option<u8>
    requires distance { IsText d.now }
    requires rotated { IsText a.now }
    ensures { result ≡ slice_get (octal (rotated (number_in d.now) (bits_in a.now))) k }
{
    let digits = octal_digits(a);
    if digits.is_empty() {
        return None;
    }
    rotated_digit(digits, rotation_of(d, 3 * digits.len() as u32), k)
}
