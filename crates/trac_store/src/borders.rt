//! Searches for a text in one pass, by the method of Knuth, Morris and Pratt. A border of a beginning of
//! the text is a shorter beginning that also ends it; where the text doesn't go on, the search goes on
//! from the border. The lengths of the borders are tags of the text's cells while the search runs.
ghost use Rattle.std.specs.Prelude.{◌≡◌, ◌≤◌, ◌<◌, ◌-◌, length};
ghost use Rattle.trac_store.specs.Borders.{tagged_text, HaveBorders, AreTagged, IsNextBorder};
ghost use Rattle.trac_store.specs.Gaps.{text_cells_at};
ghost use Rattle.trac_store.specs.Parts.{IsTextPart};
ghost use Rattle.trac_store.specs.Search.{FindsFirst};

use crate::gap_making::is_same_byte;
use trac_space::{Cell, Part, Space, tag_or_zero, tagged, untagged_cell};

// The length of the longest beginning of the text that ends with `cell`, if the longest one that ends
// just before it has `before` characters.
#[inline]
fn next_border(text: &[Cell], before: u32, cell: Cell) -> u32
    requires within { before < length text.now }
    requires bounded { length text.now ≤ 16777216 }
    requires borders { HaveBorders text.now before }
    ensures { IsNextBorder (tagged_text text.now) before cell result }
{
    let mut border = before;
    while !is_same_byte(cell, untagged_cell(text[border as usize])) {
        if border == 0 {
            return 0;
        }
        border = tag_or_zero(text[border as usize - 1]);
    }
    border + 1
}

// The first place at `from` or after where the text stands among the cells. None if there is none. The
// borders of the text are its tags.
pub(crate) fn first_place(cells: &[Cell], from: u32, text: &[Cell]) -> Option<u32>
    requires within { from ≤ length cells.now }
    requires bounded { length cells.now ≤ 16777216 }
    requires some { 0 < length text.now }
    requires text_bounded { length text.now ≤ 16777216 }
    requires borders { HaveBorders text.now (length text.now) }
    ensures { let bytes = tagged_text text.now in
        FindsFirst (text_cells_at bytes cells.now) from (length cells.now) result }
{
    let mut before = 0;
    for i in from..cells.len() as u32 {
        before = next_border(text, before, cells[i as usize]);
        if before == text.len() as u32 {
            return Some(i + 1 - before);
        }
    }
    None
}

// Lays the length of the longest border of each beginning of a text, a part of neutral, over the last
// cell of that beginning.
pub(crate) fn tag_borders(space: &mut Space, part: Part)
    requires text_part { IsTextPart space.old.neutral part.from part.to }
    requires some { part.from < part.to }
    ensures tagged { AreTagged space.old.neutral space.new.neutral part.from part.to }
    ensures same { space.new ≡ record space.old { neutral = space.new.neutral } }
{
    // The lists fit in the block.
    prove!(space.used() <= space.room());
    let mut border = 0;
    for count in 1..part.to - part.from {
        let text = space.neutral_part(part.from, part.to);
        let cell = text[count as usize];
        border = next_border(text, border, cell);
        space.write_neutral(part.from + count, tagged(cell, border));
    }
}
