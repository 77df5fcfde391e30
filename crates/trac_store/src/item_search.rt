//! Finds gaps, characters and texts among the cells of a body.
ghost use Rattle.std.specs.Prelude.{◌≡◌, ◌-◌, ◌≤◌, ◌<◌, length};
ghost use Rattle.std.specs.Prelude.{slice_range};
ghost use Rattle.trac_space.specs.Texts.{byte_cell_at};
ghost use Rattle.trac_store.specs.Parts.{IsPart, IsTextPart, part_text};
ghost use Rattle.trac_store.specs.Search.{FindsFirst, FindsLast};
ghost use Rattle.trac_store.specs.Gaps.{is_gap_cell, gap_cell_at, text_cells_at};

use crate::borders::{first_place, tag_borders};
use trac_space::{Cell, Part, Space, is_character};

// Whether the cell is a gap.
#[inline]
fn is_gap(cell: &Cell) -> bool
    ensures { result ≡ is_gap_cell cell.now }
{
    matches!(cell, Cell::Gap(_))
}

/// The place of the first gap at `from` or after. None if there is none.
#[inline]
pub fn first_gap(cells: &[Cell], from: u32) -> Option<u32>
    requires within { from ≤ length cells.now }
    requires bounded { length cells.now ≤ 16777216 }
    ensures { FindsFirst (gap_cell_at cells.now) from (length cells.now) result }
{
    for i in from..cells.len() as u32 {
        if is_gap(&cells[i as usize]) {
            return Some(i);
        }
    }
    None
}

/// The place of the first character at `from` or after. None if there is none.
pub fn first_character(cells: &[Cell], from: u32) -> Option<u32>
    requires within { from ≤ length cells.now }
    requires bounded { length cells.now ≤ 16777216 }
    ensures { FindsFirst (byte_cell_at cells.now) from (length cells.now) result }
{
    for i in from..cells.len() as u32 {
        if is_character(&cells[i as usize]) {
            return Some(i);
        }
    }
    None
}

/// The place of the last character before `from`. None if there is none.
pub fn last_character(cells: &[Cell], from: u32) -> Option<u32>
    requires within { from ≤ length cells.now }
    ensures { FindsLast (byte_cell_at cells.now) from result }
{
    let mut end = from;
    while end > 0 {
        end -= 1;
        if is_character(&cells[end as usize]) {
            return Some(end);
        }
    }
    None
}

/// The first place at `from` or after where a text, a part of neutral, stands in a part of the store. None
/// if there is none.
///
/// Places count from the beginning of the part of the store. The search takes one pass over that part and
/// two over the text. Afterwards nothing has changed.
pub fn find_text(space: &mut Space, body: Part, from: u32, part: Part) -> Option<u32>
    requires body { IsPart space.old.store body.from body.to }
    requires begin { from ≤ body.to - body.from }
    requires text_part { IsTextPart space.old.neutral part.from part.to }
    requires some { part.from < part.to }
    ensures found { let text = part_text space.old.neutral part.from part.to in
        let cells = slice_range space.old.store body.from body.to in
        FindsFirst (text_cells_at text cells) from (length cells) result }
    ensures same { space.new ≡ space.old }
{
    // The lists fit in the block.
    prove!(space.used() <= space.room());
    tag_borders(space, part);
    let text = space.neutral_part(part.from, part.to);
    let found = first_place(space.store_part(body.from, body.to), from, text);
    space.clear_neutral_tags(part.from, part.to);
    found
}
