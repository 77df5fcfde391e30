//! Names of calls.
ghost use Rattle.std.specs.Prelude.{◌≡◌};
ghost use Rattle.trac_space.specs.Texts.{text_of_cells};
ghost use Rattle.trac_warnings.specs.Suspicions.{begins_argument, behind_name, calls_alone, is_called_alone};
ghost use Rattle.trac_warnings.specs.Suspicions.{is_left_out, is_written, suspicion_of_name};

use crate::warning::Suspicion;
use trac_functions::function::function_named;
use trac_space::{Cell, character_of};

/// What is suspicious in the name of a call. None if it names a function, or is the null name of a remark.
pub(crate) fn suspicion_of_name(name: &[Cell]) -> Option<Suspicion>
    ensures { result ≡ suspicion_of_name (text_of_cells name.now) }
{
    if name.is_empty() || function_named(name).is_some() {
        return None;
    }
    if is_left_out(name) {
        return Some(Suspicion::LeftOut);
    }
    Some(Suspicion::NoFunction)
}

/// Whether a name, in letters of either case, is that of a function of the language that this processor
/// leaves out: one for external blocks, for the trace or for modes.
fn is_left_out(name: &[Cell]) -> bool
    ensures { result ≡ is_left_out (text_of_cells name.now) }
{
    let [first, second] = name else {
        return false;
    };
    matches!(
        (
            character_of(first).to_ascii_lowercase(),
            character_of(second).to_ascii_lowercase(),
        ),
        (b's' | b'f' | b'e', b'b') | (b't', b'n' | b'f') | (b'm', b'o')
    )
}

/// Whether a name stands in the input as an argument: behind a comma, and before another one or a right
/// parenthesis.
#[inline(never)]
pub(crate) fn is_written(name: &[Cell], input: &[u8]) -> bool
    ensures { result ≡ is_written (text_of_cells name.now) input.now }
{
    let mut rest = input;
    for _ in 0..input.len() {
        let [first, behind @ ..] = rest else {
            return false;
        };
        if *first == b',' && begins_argument(name, behind) {
            return true;
        }
        rest = behind;
    }
    false
}

// Whether bytes begin with a name and, behind it, a comma or a right parenthesis.
fn begins_argument(name: &[Cell], bytes: &[u8]) -> bool
    ensures { result ≡ begins_argument (text_of_cells name.now) bytes.now }
{
    matches!(behind_name(name, bytes), [b',' | b')', ..])
}

// What stands behind a name at the head of the bytes; null, if they don't begin with the name.
fn behind_name<'b>(name: &[Cell], bytes: &'b [u8]) -> &'b [u8]
    ensures { result.now ≡ behind_name (text_of_cells name.now) bytes.now }
{
    let mut rest = bytes;
    for cell in name {
        let [byte, behind @ ..] = rest else {
            return &[];
        };
        if *byte != character_of(cell) {
            return &[];
        }
        rest = behind;
    }
    rest
}

/// Whether a call of `cl` without an argument, for the form of a name, stands in the input.
#[inline(never)]
pub(crate) fn is_called_alone(name: &[Cell], input: &[u8]) -> bool
    ensures { result ≡ is_called_alone (text_of_cells name.now) input.now }
{
    let mut rest = input;
    for _ in 0..input.len() {
        let [_, behind @ ..] = rest else {
            return false;
        };
        if calls_alone(name, rest) {
            return true;
        }
        rest = behind;
    }
    false
}

// Whether bytes begin with a call of `cl`, behind its number sign, for the form of a name and without an argument.
fn calls_alone(name: &[Cell], bytes: &[u8]) -> bool
    ensures { result ≡ calls_alone (text_of_cells name.now) bytes.now }
{
    match bytes {
        [b'(', b'c' | b'C', b'l' | b'L', b',', behind @ ..] => {
            matches!(behind_name(name, behind), [b')', ..])
        }
        _ => false,
    }
}
