//! The functions of bit strings: `bu`, `bi`, `bc`, `bs` and `br`.
ghost use Rattle.std.specs.Prelude.{◌≡◌, ◌+◌, ◌-◌, ◌≤◌, ◌++◌, false, List, length, slice_get};
ghost use Rattle.std.specs.Prelude.{Bool};
ghost use Rattle.trac_language.specs.declared.function.Function.{Function};
ghost use Rattle.trac_language.specs.declared.function.Function.TheVariants.{Union, Intersection};
ghost use Rattle.trac_language.specs.declared.function.Function.TheVariants.{Complement, Shift};
ghost use Rattle.trac_language.specs.declared.function.Function.TheVariants.{Rotate};
ghost use Rattle.trac_language.specs.Text.{Text};
ghost use Rattle.trac_language.specs.BitString.{bits, octal, octal_prefix};
ghost use Rattle.trac_space.specs.Texts.{flat_text};
ghost use Rattle.trac_values.specs.Digits.{bits_of_cells, IsOctal};
ghost use Rattle.trac_forms.specs.Contents.{used, part_text, IsTextPart, IsSound};
ghost use Rattle.trac_functions.specs.BitResults.{bits_at, AreDigits, AreFor, octal_made};
ghost use Rattle.trac_functions.specs.Calls.{AreArguments, Valued, Makes, Performs};
ghost use Rattle.trac_functions.specs.Calls.{KeepsRoom};

use crate::arguments::{Arguments, CallResult, put_part, text};
use trac_forms::{Cell, Work};
use trac_space::Part;
use trac_values::Count;

/// An operation on bit strings, and the parts of the neutral string where their octal digits stand. A shift
/// also has its number of bits, to the left unless negative, and a rotation its number of bits to the left.
#[derive(Clone, Copy)]
pub enum BitResult {
    Union(Part, Part),
    Intersection(Part, Part),
    Complement(Part),
    Shift(Count, Part),
    Rotation(u32, Part),
}

/// `bu,A,B`: the prefix of A and after it the union of the bit strings of A and B in octal digits
/// (Mooers 1966). That the shorter is filled with zeros at the left, and that the prefix of B is
/// dropped, is this processor's own choice.
pub fn union(work: &mut Work, mut arguments: Arguments) -> CallResult
    requires { AreArguments work.old arguments }
    ensures makes { Performs Union work.old arguments result work.new }
    ensures unmade { result ≡ CallResult.Full → work.new.forms ≡ work.old.forms }
    ensures keeps { KeepsRoom work.old work.new }
{
    let first = arguments.next(work);
    let second = arguments.next(work);
    let left = digits_of(work, first);
    let right = digits_of(work, second);
    give_bits(work, first, left, BitResult::Union(left, right))
}

/// `bi,A,B`: the prefix of A and after it the intersection of the bit strings
/// of A and B in octal digits (Mooers 1966). That the longer is cut at the
/// left, and that the prefix of B is dropped, is this processor's own choice.
pub fn intersection(work: &mut Work, mut arguments: Arguments) -> CallResult
    requires { AreArguments work.old arguments }
    ensures makes { Performs Intersection work.old arguments result work.new }
    ensures unmade { result ≡ CallResult.Full → work.new.forms ≡ work.old.forms }
    ensures keeps { KeepsRoom work.old work.new }
{
    let first = arguments.next(work);
    let second = arguments.next(work);
    let left = digits_of(work, first);
    let right = digits_of(work, second);
    give_bits(work, first, left, BitResult::Intersection(left, right))
}

/// `bc,O`: the prefix of O and after it the octal digits of
/// its bit string with each bit turned over (Mooers 1966).
pub fn complement(work: &mut Work, mut arguments: Arguments) -> CallResult
    requires { AreArguments work.old arguments }
    ensures makes { Performs Complement work.old arguments result work.new }
    ensures unmade { result ≡ CallResult.Full → work.new.forms ≡ work.old.forms }
    ensures keeps { KeepsRoom work.old work.new }
{
    let first = arguments.next(work);
    let digits = digits_of(work, first);
    give_bits(work, first, digits, BitResult::Complement(digits))
}

/// `bs,D,O`: the prefix of O and after it the octal digits of its bit string, shifted by as many
/// bits as the number of D says, to the left where that is positive and to the right where it is
/// negative (Mooers 1966). That zeros come in and the length is kept, and that the number may have
/// any length, is this processor's own choice.
pub fn shift(work: &mut Work, mut arguments: Arguments) -> CallResult
    requires { AreArguments work.old arguments }
    ensures makes { Performs Shift work.old arguments result work.new }
    ensures unmade { result ≡ CallResult.Full → work.new.forms ≡ work.old.forms }
    ensures keeps { KeepsRoom work.old work.new }
{
    let distance = arguments.next(work);
    let shifted = arguments.next(work);
    let by = trac_values::shift_of(text(work, distance));
    let digits = digits_of(work, shifted);
    give_bits(work, shifted, digits, BitResult::Shift(by, digits))
}

/// `br,D,O`: the prefix of O and after it the octal digits of its bit string,
/// rotated by as many bits as the number of D says, to the left where that is
/// positive and to the right where it is negative (Mooers 1966). That the length is
/// kept, and that the number may have any length, is this processor's own choice.
pub fn rotate(work: &mut Work, mut arguments: Arguments) -> CallResult
    requires { AreArguments work.old arguments }
    ensures makes { Performs Rotate work.old arguments result work.new }
    ensures unmade { result ≡ CallResult.Full → work.new.forms ≡ work.old.forms }
    ensures keeps { KeepsRoom work.old work.new }
{
    let distance = arguments.next(work);
    let rotated = arguments.next(work);
    let digits = digits_of(work, rotated);
    let bits = (3 * (digits.to - digits.from)).max(1);
    let by = trac_values::rotation_of(text(work, distance), bits);
    give_bits(work, rotated, digits, BitResult::Rotation(by, digits))
}

/// Where the octal digits stand at the end of a part of the neutral string.
fn digits_of(work: &Work, part: Part) -> Part
    requires { IsTextPart work.now.neutral part.from part.to }
    ensures digits { AreDigits work.now.neutral result }
    ensures before { IsTextPart work.now.neutral part.from result.from }
    ensures prefix { let text = part_text work.now.neutral part.from part.to in
        part_text work.now.neutral part.from result.from ≡ octal_prefix text }
    ensures bits { let text = part_text work.now.neutral part.from part.to in
        bits_at work.now.neutral result ≡ bits text }
{
    Part {
        from: part.from + trac_values::octal_start(text(work, part)),
        to: part.to,
    }
}

/// The cells of octal digits.
fn digit_cells<'a>(work: &'a Work, part: Part) -> &'a [Cell]
    requires { AreDigits work.now.neutral part }
    ensures octal { IsOctal result.now }
    ensures bits { bits_of_cells result.now ≡ bits_at work.now.neutral part }
    ensures long { length result.now ≡ part.to - part.from }
    ensures short { length result.now ≤ 16777216 }
{
    prove!(work.used() <= work.room());
    work.neutral_part(part.from, part.to)
}

/// How many octal digits a result has.
fn digits_made(work: &Work, bits: BitResult) -> u32
    requires { AreFor work.now.neutral bits }
    ensures { result ≡ length (octal_made work.now.neutral bits) }
{
    match bits {
        BitResult::Union(a, b) => (a.to - a.from).max(b.to - b.from),
        BitResult::Intersection(a, b) => (a.to - a.from).min(b.to - b.from),
        BitResult::Complement(a) => a.to - a.from,
        BitResult::Shift(_, a) => a.to - a.from,
        BitResult::Rotation(_, a) => a.to - a.from,
    }
}

/// The octal digit at a place of a result, counted from the left; None past its end.
fn digit_made(work: &Work, bits: BitResult, place: u32) -> Option<u8>
    requires { AreFor work.now.neutral bits }
    ensures { result ≡ slice_get (octal_made work.now.neutral bits) place }
{
    match bits {
        BitResult::Union(a, b) => {
            trac_values::union_digit(digit_cells(work, a), digit_cells(work, b), place)
        }
        BitResult::Intersection(a, b) => {
            trac_values::intersection_digit(digit_cells(work, a), digit_cells(work, b), place)
        }
        BitResult::Complement(a) => trac_values::complement_digit(digit_cells(work, a), place),
        BitResult::Shift(by, a) => trac_values::shifted_digit(digit_cells(work, a), by, place),
        BitResult::Rotation(by, a) => {
            if a.from == a.to {
                return None;
            }
            trac_values::rotated_digit(digit_cells(work, a), by, place)
        }
    }
}

/// Appends the octal digits of a result to the neutral string. The caller has made sure that they fit.
fn put_digits(work: &mut Work, bits: BitResult)
    requires parts { AreFor work.old.neutral bits }
    requires fits { used work.old + length (octal_made work.old.neutral bits) ≤ work.old.room }
    ensures put { let digits = octal_made work.old.neutral bits in
        work.new ≡ record work.old { neutral = work.old.neutral ++ flat_text digits } }
    ensures sound { IsSound work.new }
{
    prove!(work.used() <= work.room());
    for place in 0..digits_made(work, bits) {
        if let Some(digit) = digit_made(work, bits, place) {
            work.push_neutral(Cell::Byte(digit));
        }
    }
}

/// The prefix of an argument, which is what stands before its digits, and the octal digits of a result behind
/// it are the value of a call.
fn give_bits(work: &mut Work, argument: Part, digits: Part, bits: BitResult) -> CallResult
    requires prefix { IsTextPart work.old.neutral argument.from digits.from }
    requires parts { AreFor work.old.neutral bits }
    ensures makes { (function : Function) (args : List Text) (scanned : Bool) →
        let before = part_text work.old.neutral argument.from digits.from in
        let value = before ++ octal_made work.old.neutral bits in
        Valued function args work.old.forms value false work.old.forms →
        Makes function args scanned work.old result work.new }
    ensures unmade { result ≡ CallResult.Full → work.new.forms ≡ work.old.forms }
    ensures keeps { KeepsRoom work.old work.new }
{
    let prefix = Part {
        from: argument.from,
        to: digits.from,
    };
    if work.free() < prefix.to - prefix.from + digits_made(work, bits) {
        return CallResult::Full;
    }
    put_part(work, prefix);
    put_digits(work, bits);
    CallResult::AtEnd
}
