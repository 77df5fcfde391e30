//! The characters of cells.
ghost use Rattle.std.specs.Prelude.{◌≡◌, ◌↔◌, IsTrue};
ghost use Rattle.trac_language.specs.Number.{ends_with};
ghost use Rattle.trac_space.specs.Texts.{character_of, text_of_cells};
ghost use Rattle.trac_values.specs.Cells.{IsText};

use trac_space::{Cell, byte_in, character_of};

/// Whether the last of the cells is this character. False if there is no cell.
pub(crate) fn ends_with(cells: &[Cell], character: u8) -> bool
    ensures { result ≡ ends_with character (text_of_cells cells.now) }
{
    !cells.is_empty() && character_of(&cells[cells.len() - 1]) == character
}

/// Whether two texts are the same, character by character: the test of `eq` (Mooers 1966).
pub fn equal(a: &[Cell], b: &[Cell]) -> bool
    requires left { IsText a.now }
    requires right { IsText b.now }
    ensures { IsTrue result ↔ (text_of_cells a.now ≡ text_of_cells b.now) }
{
    if a.len() != b.len() {
        return false;
    }
    for i in 0..a.len() {
        if byte_in(&a[i]) != byte_in(&b[i]) {
            return false;
        }
    }
    true
}
