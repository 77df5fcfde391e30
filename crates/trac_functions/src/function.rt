//! Where the value of each function is computed: a new function gets a line in `value_of`. Its name stands in
//! `trac_language`'s table. One that reads, prints, changes the meta character or ends the run is called by
//! the machine, in `trac_core`'s module of calls.
ghost use Rattle.std.specs.Prelude.{◌≡◌, ◌↔◌, ◌∷◌, [], IsSome, IsTrue, take, true};
ghost use Rattle.trac_language.specs.Function.{function_named};
ghost use Rattle.trac_space.specs.Texts.{character_of, text_of_cells};
ghost use Rattle.trac_forms.specs.Arguments.{before_comma};
ghost use Rattle.trac_functions.specs.Calls.{AreArguments, KeepsRoom, Performs, is_self_contained};
ghost use Rattle.std.specs.Char.{to_ascii_lowercase};

use crate::arguments::{Arguments, CallResult};
use crate::{arithmetic, bit_strings, comparing, form_calls, form_parts};
use trac_forms::Work;
use trac_language::Function;
use trac_space::{Cell, character_of};

/// For each byte the letter of lower case, where it is a letter, and else the byte.
const LOWER: &[u8; 256] = b"\
    \0\x01\x02\x03\x04\x05\x06\x07\x08\t\n\x0b\x0c\r\x0e\x0f\x10\x11\x12\x13\x14\x15\x16\x17\
    \x18\x19\x1a\x1b\x1c\x1d\x1e\x1f !\"#$%&'()*+,-./0123456789:;<=>?@abcdefghijklmnopqrstuv\
    wxyz[\\]^_`abcdefghijklmnopqrstuvwxyz{|}~\x7f\x80\x81\x82\x83\x84\x85\x86\x87\x88\x89\
    \x8a\x8b\x8c\x8d\x8e\x8f\x90\x91\x92\x93\x94\x95\x96\x97\x98\x99\x9a\x9b\x9c\x9d\x9e\x9f\
    \xa0\xa1\xa2\xa3\xa4\xa5\xa6\xa7\xa8\xa9\xaa\xab\xac\xad\xae\xaf\xb0\xb1\xb2\xb3\xb4\xb5\
    \xb6\xb7\xb8\xb9\xba\xbb\xbc\xbd\xbe\xbf\xc0\xc1\xc2\xc3\xc4\xc5\xc6\xc7\xc8\xc9\xca\xcb\
    \xcc\xcd\xce\xcf\xd0\xd1\xd2\xd3\xd4\xd5\xd6\xd7\xd8\xd9\xda\xdb\xdc\xdd\xde\xdf\xe0\xe1\
    \xe2\xe3\xe4\xe5\xe6\xe7\xe8\xe9\xea\xeb\xec\xed\xee\xef\xf0\xf1\xf2\xf3\xf4\xf5\xf6\xf7\
    \xf8\xf9\xfa\xfb\xfc\xfd\xfe\xff";

/// The letter of lower case of a character, or the character where it is no letter.
#[inline]
fn lower(cell: &Cell) -> u8
    ensures { result ≡ to_ascii_lowercase (character_of cell.now) }
{
    LOWER[usize::from(character_of(cell))]
}

/// The function that a name of cells names, in ASCII letters of either case. None if no function has the
/// name. The names are Mooers' (1966 and 1972), the letters of either case this processor's own choice.
pub fn function_named(name: &[Cell]) -> Option<Function>
    ensures { result ≡ function_named (text_of_cells name.now) }
{
    let [first, second] = name else {
        return None;
    };
    function_of(first, second)
}

/// The function that the cells before the first comma mark name, in ASCII letters of either case. None if
/// no function has that name. Looks at three cells at most, since each name has two characters.
#[inline]
pub fn function_before_comma(cells: &[Cell]) -> Option<Function>
    ensures named { let name = text_of_cells (take (before_comma cells.now) cells.now) in
        result ≡ function_named name }
    ensures two { IsSome result → before_comma cells.now ≡ 2 }
{
    let [first, second, ..] = cells else {
        return None;
    };
    if ends_name(&cells[2..]) {
        function_of(first, second)
    } else {
        None
    }
}

/// Whether a comma mark comes first, or nothing.
#[inline]
fn ends_name(cells: &[Cell]) -> bool
    ensures { IsTrue result ↔ (before_comma cells.now ≡ 0) }
{
    matches!(cells.first(), Some(Cell::Comma) | None)
}

/// The function whose name has these two characters.
#[inline]
fn function_of(first: &Cell, second: &Cell) -> Option<Function>
    ensures { result ≡ function_named (character_of first.now ∷ character_of second.now ∷ []) }
{
    trac_language::function_named(lower(first), lower(second))
}

/// Performs a function with the arguments that follow its name. The machine itself performs the functions
/// that touch a device or the meta character, or end the run; here they have a null value.
#[inline(always)]
pub fn value_of(work: &mut Work, function: Function, arguments: Arguments) -> CallResult
    requires arguments { AreArguments work.old arguments }
    ensures makes { is_self_contained function ≡ true →
        Performs function work.old arguments result work.new }
    ensures unmade { result ≡ CallResult.Full → work.new.forms ≡ work.old.forms }
    ensures keeps { KeepsRoom work.old work.new }
{
    match function {
        Function::DefineString => form_calls::define_string(work, arguments),
        Function::SegmentString => form_calls::segment_string(work, arguments),
        Function::DeleteDefinition => form_calls::delete_definition(work, arguments),
        Function::DeleteAll => form_calls::delete_all(work),
        Function::ListNames => form_calls::list_names(work, arguments),
        Function::CallForm => form_calls::call_form(work, arguments),
        Function::CallSegment => form_parts::call_segment(work, arguments),
        Function::CallCharacter => form_parts::call_character(work, arguments),
        Function::CallNumber => form_parts::call_number(work, arguments),
        Function::InitialPart => form_parts::initial_part(work, arguments),
        Function::CallRestore => form_parts::call_restore(work, arguments),
        Function::Equal => comparing::equal(work, arguments),
        Function::Greater => comparing::greater(work, arguments),
        Function::Arithmetic(operation) => arithmetic::arithmetic(work, operation, arguments),
        Function::Union => bit_strings::union(work, arguments),
        Function::Intersection => bit_strings::intersection(work, arguments),
        Function::Complement => bit_strings::complement(work, arguments),
        Function::Shift => bit_strings::shift(work, arguments),
        Function::Rotate => bit_strings::rotate(work, arguments),
        Function::ReadString
        | Function::ReadCharacter
        | Function::ChangeMeta
        | Function::PrintString
        | Function::Halt
        | Function::PrintForm => CallResult::AtEnd,
    }
}
