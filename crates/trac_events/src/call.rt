//! Open calls and their arguments.
ghost use Rattle.std.specs.Prelude.{◌≡◌, ◌+◌, drop};
ghost use Rattle.std.specs.List.{position_or_len};
ghost use Rattle.trac_language.specs.Function.{function_named};
ghost use Rattle.trac_space.specs.Cells.{is_comma};
ghost use Rattle.trac_space.specs.Texts.{text_of_cells};
ghost use Rattle.trac_events.specs.Calls.{argument_of, from_argument, top_frame};
ghost use Rattle.trac_events.specs.Changes.{pointer_of};

use crate::change::pointer_of;
use trac_core::Machine;
use trac_functions::function::function_before_comma;
use trac_language::Function;
use trac_space::Cell;

/// The cells behind the mark of an open call, which stands at this place of a neutral string: its arguments,
/// with a comma mark between two. Those of a call around the innermost one end where the next mark stands.
pub fn arguments_of(neutral: &[Cell], mark: usize) -> &[Cell]
    ensures { result.now ≡ top_frame neutral.now mark }
{
    behind(neutral, mark)
}

/// Argument `k` of a call, by the cells of all arguments; argument 0 names the function. Null if the call
/// has no such argument.
pub fn argument(arguments: &[Cell], k: u32) -> &[Cell]
    ensures { result.now ≡ argument_of arguments.now k }
{
    let rest = from_argument(arguments, k);
    &rest[..before_comma(rest)]
}

/// The arguments of a call from argument `k` on, by the cells of all arguments, with a comma mark between two. Null if
/// the call has no argument `k`.
pub fn from_argument(arguments: &[Cell], k: u32) -> &[Cell]
    ensures { result.now ≡ from_argument arguments.now k }
{
    let mut rest = arguments;
    for _before in 0..k {
        rest = behind_comma(rest);
    }
    rest
}

/// The function that the arguments of a call name, by the cells of all of them. None if no function has the name.
/// Looks at three cells at most.
#[tactic(auto, using(crate::proofs::FirstComma::first_comma))]
pub fn function_of(arguments: &[Cell]) -> Option<Function>
    ensures { result ≡ function_named (text_of_cells (argument_of arguments.now 0)) }
{
    function_before_comma(arguments)
}

// The cells behind the first comma mark; none if there is no comma mark.
fn behind_comma(cells: &[Cell]) -> &[Cell]
    ensures { result.now ≡ drop (position_or_len is_comma cells.now + 1) cells.now }
{
    behind(cells, before_comma(cells))
}

// The cells behind a place.
fn behind(cells: &[Cell], place: usize) -> &[Cell]
    ensures { result.now ≡ drop (place + 1) cells.now }
{
    if place < cells.len() {
        &cells[place + 1..]
    } else {
        &cells[cells.len()..]
    }
}

// How many cells stand before the first comma mark.
fn before_comma(cells: &[Cell]) -> usize
    ensures { result ≡ position_or_len is_comma cells.now }
{
    for (place, cell) in cells.iter().enumerate() {
        if let Cell::Comma = cell {
            return place;
        }
    }
    cells.len()
}

/// What a call names, seen before it is performed.
#[derive(Clone, Copy)]
pub struct Named {
    /// The function. None if no function has the name.
    pub function: Option<Function>,
    /// The pointer of the form that is named behind the function. None if there is no such form.
    pub pointer: Option<u32>,
}

impl Named {
    /// Looks at what a call with these arguments names.
    pub fn new(machine: &Machine, arguments: &[Cell]) -> Named
        ensures function { result.function ≡
            function_named (text_of_cells (argument_of arguments.now 0)) }
        ensures pointer { result.pointer ≡
            pointer_of (argument_of arguments.now 1) machine.now.memory.forms }
    {
        Named {
            function: function_of(arguments),
            pointer: pointer_of(machine, argument(arguments, 1)),
        }
    }
}
