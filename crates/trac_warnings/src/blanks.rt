//! The blanks and the layout around a text.
ghost use Rattle.std.specs.Prelude.{◌≡◌};
ghost use Rattle.trac_warnings.specs.Blanks.{before_blanks, behind_blanks, is_blank, trimmed};

use trac_core::is_layout;
use trac_space::{Cell, character_of};

/// The cells of a text without the blanks and the layout around it.
#[inline(never)]
pub(crate) fn trimmed(cells: &[Cell]) -> &[Cell]
    ensures { result.now ≡ trimmed cells.now }
{
    before_blanks(behind_blanks(cells))
}

// The cells behind the blanks and the layout at their head.
fn behind_blanks(cells: &[Cell]) -> &[Cell]
    ensures { result.now ≡ behind_blanks cells.now }
{
    for (i, cell) in cells.iter().enumerate() {
        if !is_blank(cell) {
            return &cells[i..];
        }
    }
    &[]
}

// The cells before the blanks and the layout at their end. Most texts have none there.
fn before_blanks(cells: &[Cell]) -> &[Cell]
    ensures { result.now ≡ before_blanks cells.now }
{
    match cells {
        [.., last] if !is_blank(last) => cells,
        _ => before_last_blanks(cells),
    }
}

// The cells before the blanks and the layout at their end, found from their end.
#[inline(never)]
fn before_last_blanks(cells: &[Cell]) -> &[Cell]
    ensures { result.now ≡ before_blanks cells.now }
{
    let mut end = cells.len();
    while end > 0 && is_blank(&cells[end - 1]) {
        end -= 1;
    }
    &cells[..end]
}

// Whether a cell is a blank or layout.
fn is_blank(cell: &Cell) -> bool
    ensures { result ≡ is_blank cell.now }
{
    character_of(cell) == b' ' || is_layout(character_of(cell))
}
