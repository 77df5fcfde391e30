//! What is nearly the beginning of a call. There is a warning only if the name of a function
//! follows, since otherwise it may well be a text.
ghost use Rattle.std.specs.Prelude.{◌≡◌, ◌≤◌, length, true};
ghost use Rattle.trac_warnings.specs.Spelling.{behind_blanks, names_function, opens, spelling_of};

use crate::warning::Suspicion;
use trac_core::is_layout;
use trac_functions::function::function_named;
use trac_space::Cell;

/// What is nearly the beginning of a call at the head of a text. None if nothing is.
pub fn spelling_of(text: &[u8]) -> Option<Suspicion>
    ensures { result ≡ spelling_of text.now }
{
    let [first, rest @ ..] = text else {
        return None;
    };
    match *first {
        b':' if opens(b'(', b')', rest) => Some(Suspicion::Colon),
        b'#' if opens(b'[', b']', rest) => Some(Suspicion::Bracket),
        b'#' if !opens(b'(', b')', rest) && opens(b'(', b')', behind_blanks(rest)) => {
            Some(Suspicion::Blank)
        }
        _ => None,
    }
}

// Whether a text begins with this parenthesis and the name of a function.
fn opens(parenthesis: u8, other: u8, text: &[u8]) -> bool
    ensures { result ≡ opens parenthesis other text.now }
{
    match *text {
        [first, ref rest @ ..] => first == parenthesis && names_function(other, rest),
        [] => false,
    }
}

/// Whether a text begins with the name of a function and, behind it, a comma or `parenthesis`.
pub fn names_function(parenthesis: u8, text: &[u8]) -> bool
    ensures value { result ≡ names_function parenthesis text.now }
    ensures long { result ≡ true → 3 ≤ length text.now }
{
    match *text {
        [first, second, end, ..] => {
            (end == b',' || end == parenthesis)
                && function_named(&[Cell::Byte(first), Cell::Byte(second)]).is_some()
        }
        _ => false,
    }
}

// What stands behind the blanks and the layout at the head of a text.
fn behind_blanks(text: &[u8]) -> &[u8]
    ensures { result.now ≡ behind_blanks text.now }
{
    for (i, byte) in text.iter().enumerate() {
        if *byte != b' ' && !is_layout(*byte) {
            return &text[i..];
        }
    }
    &[]
}
