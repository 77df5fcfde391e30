//! Tags: numbers that cells of neutral carry for a while. A character or a comma mark leaves 24 bits of its
//! cell free, enough for each place of a block. So a search for a text keeps its table in the cells of
//! that text, and needs no other memory.
ghost use Rattle.std.specs.Prelude.{◌≡◌, ◌<◌, IsTrue, map};
ghost use Rattle.trac_space.specs.Cells.{IsNoCall};
ghost use Rattle.trac_space.specs.Tags.{takes_tag, untagged, tag_of, has_tag, holds_comma};

use crate::cell::{Cell, UNREACHED_NUMBER};

/// A character or a comma mark with a number as its tag. `untagged_cell` and `tag_or_zero` read the two back.
#[inline]
pub fn tagged(cell: Cell, number: u32) -> Cell
    requires takes { IsTrue (takes_tag cell) }
    requires bounded { number < 16777216 }
    ensures untagged { untagged result ≡ untagged cell }
    ensures tag_of { tag_of result ≡ number }
    ensures numbered { IsTrue (has_tag result) }
    ensures no_call { IsNoCall result }
{
    match cell {
        Cell::Byte(byte) => Cell::Head(number * 256 + byte as u32),
        _ => Cell::Gap(number * 256),
    }
}

/// The character or comma mark of a cell without its tag. A cell that has none stays as it is.
#[inline]
pub fn untagged_cell(cell: Cell) -> Cell
    ensures { result ≡ untagged cell }
{
    match cell {
        Cell::Head(number) => Cell::Byte((number % 256) as u8),
        Cell::Gap(_) => Cell::Comma,
        other => other,
    }
}

/// The tag of a cell, or 0 if it has none.
#[inline]
pub fn tag_or_zero(cell: Cell) -> u32
    ensures { result ≡ tag_of cell }
{
    match cell {
        Cell::Head(number) | Cell::Gap(number) => number / 256,
        _ => 0,
    }
}

// The tag of a cell that has one.
#[inline(always)]
pub(crate) fn present_tag(cell: Cell) -> u32
    requires { IsTrue (has_tag cell) }
    ensures { result ≡ tag_of cell }
{
    match cell {
        Cell::Head(number) | Cell::Gap(number) => number / 256,
        _ => UNREACHED_NUMBER[0],
    }
}

// Whether the cell is a comma mark, with or without a tag.
#[inline(always)]
pub(crate) fn holds_comma(cell: &Cell) -> bool
    ensures { result ≡ holds_comma cell.now }
{
    matches!(cell, Cell::Comma | Cell::Gap(_))
}

// Takes the tags off the cells.
#[inline(always)]
pub(crate) fn clear_tags(cells: &mut [Cell])
    ensures { cells.new ≡ map untagged cells.old }
{
    for k in 0..cells.len() {
        cells[k] = untagged_cell(cells[k]);
    }
}
