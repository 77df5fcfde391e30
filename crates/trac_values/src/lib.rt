//! Compares texts, and computes with the numbers and bit strings at their ends. Texts are slices of cells.
//!
//! Each cell of such a slice is a character, and the slice is no longer than a block can be: 16,777,216
//! cells. A number or a bit string stands at the right end of its text, behind a prefix. That is Mooers'
//! rule of 1966; what exactly counts as one, and the range of arithmetic, is this processor's own choice.
#![tactic(auto)]

mod bit_string;
mod comparing;
mod counts;
mod digits;
mod number;
mod text;

pub use bit_string::{
    bool_complement, bool_intersection, bool_rotation, bool_shift, bool_union, complement_digit,
    intersection_digit, octal_start, rotated_digit, shifted_digit, union_digit,
};
pub use comparing::greater;
pub use counts::{Count, count_of, rotation_of, shift_of};
pub use number::{ShortResult, TailNumber, result_of, short_result, tail_number};
pub use text::equal;
pub use trac_language::Arith;
