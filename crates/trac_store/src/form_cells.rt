//! Searches the cells of forms for the form of a name.
ghost use Rattle.std.specs.Prelude.{◌≡◌, ◌+◌, ◌-◌, ◌≤◌, ◌<◌, [], length, map, slice_range};
ghost use Rattle.std.specs.Prelude.{slice_index_or, All, Decides, IsTrue};
ghost use Rattle.trac_space.specs.declared.cell.Cell.TheVariants.{Byte};
ghost use Rattle.trac_space.specs.Cells.{seen};
ghost use Rattle.trac_space.specs.Texts.{character_of, flat_text, text_of_cells, IsByte};
ghost use Rattle.trac_store.specs.Forms.{name_at};
ghost use Rattle.trac_store.specs.Stored.{forms_in, IsPlace, IsLocated, IsFoundAt, IsName, AreCellsOfForms};
ghost use Rattle.trac_store.specs.Stored.{AreTextsOfOneLength, IsAnswer, IsAnswerBetween};

use crate::form_heads::number_in_head;
use crate::located::{FIRST_FORM, Located};
use std::marker::Model;
use trac_space::{Cell, byte_in};

// Whether two texts of the same length have the same characters.
#[inline]
pub(crate) fn is_text(cells: &[Cell], text: &[Cell]) -> bool
    requires { AreTextsOfOneLength cells.now text.now }
    ensures { Decides result (text_of_cells cells.now ≡ text_of_cells text.now) }
{
    for i in 0..text.len() {
        if byte_in(&cells[i]) != byte_in(&text[i]) {
            return false;
        }
    }
    true
}

// Whether two texts of the same length have the same characters. Compares the last ones first: most names
// differ there.
#[inline(always)]
fn is_text_back(cells: &[Cell], text: &[Cell]) -> bool
    requires { AreTextsOfOneLength cells.now text.now }
    ensures { IsTrue result → text_of_cells cells.now ≡ text_of_cells text.now }
{
    let mut left = text.len();
    while left > 0 {
        if byte_in(&cells[left - 1]) != byte_in(&text[left - 1]) {
            return false;
        }
        left -= 1;
    }
    true
}

// Whether the `len` cells from place `from` on are the text, whose last character is `last`. Compares the
// last characters first: most names differ there.
#[inline]
fn is_text_at(cells: &[Cell], from: usize, len: usize, text: &[Cell], last: u8) -> bool
    requires within { from + len ≤ length cells.now }
    requires part_bytes { All IsByte (map seen (slice_range cells.now from (from + len))) }
    requires name { IsName text.now }
    requires last { last ≡ character_of (slice_index_or text.now (length text.now - 1) (Byte 0)) }
    ensures { Decides result
        (map seen (slice_range cells.now from (from + len)) ≡ map seen text.now) }
{
    if len != text.len() || byte_in(&cells[from + len - 1]) != last {
        return false;
    }
    is_text(&cells[from..from + len], text)
}

/// The cells of forms, one form behind the other, and how many forms they are.
#[derive(Drop)]
pub struct FormCells<'s> {
    pub cells: &'s [Cell],
    pub count: u32,
}

impl<'s> Model for FormCells<'s> {
    ghost use Rattle.std.specs.Prelude.{List, map};
    ghost use Rattle.trac_language.specs.Form.{Form};
    ghost use Rattle.trac_space.specs.Cells.{seen};
    ghost use Rattle.trac_store.specs.Stored.{forms_in, AreCellsOfForms};

    ghost Value = { List Form };

    ghost view = { λ f. forms_in (map seen f.cells.now) };

    ghost invariant = { λ f. AreCellsOfForms f.cells.now f.count };
}

impl<'s> FormCells<'s> {
    /// Whether the form has the name.
    #[inline(always)]
    pub fn is_named(&self, form: Located, name: &[Cell]) -> bool
        requires form { IsLocated self.now form.number form.start }
        requires bytes { All IsByte (map seen name.now) }
        ensures { let text = text_of_cells (map seen name.now) in
            IsTrue result → IsFoundAt self.now text form.number form.start }
    {
        let cells = self.name_cells(form);
        cells.len() == name.len() && is_text_back(cells, name)
    }

    // The cells of the form's name.
    #[inline(always)]
    pub(crate) fn name_cells(&self, form: Located) -> &[Cell]
        requires form { IsLocated self.now form.number form.start }
        ensures { map seen result.now ≡ flat_text (name_at self.now form.number) }
    {
        let cells = self.cells;
        let start = form.start as usize;
        let len = number_in_head(cells[start]) as usize;
        &cells[start + 3..start + 3 + len]
    }

    /// The form with the null name. None if no form has it.
    pub fn find_null(&self) -> Option<Located>
        ensures { IsAnswer self.now [] result }
    {
        let cells = self.cells;
        let mut start = 0;
        for k in 0..self.count {
            let len = number_in_head(cells[start]) as usize;
            if len == 0 {
                return Some(Located {
                    number: k,
                    start: start as u32,
                });
            }
            start += 3 + len + number_in_head(cells[start + 1]) as usize;
        }
        None
    }

    /// The form with this name, which isn't null, among those from `from` up to number `end`. None if none of
    /// these has it.
    #[inline(always)]
    pub fn find_between(&self, from: Located, end: u32, name: &[Cell]) -> Option<Located>
        requires begins { IsPlace self.now from.number from.start }
        requires order { from.number ≤ end }
        requires within { end ≤ length self.now }
        requires name { IsName name.now }
        ensures { let text = text_of_cells (map seen name.now) in
            IsAnswerBetween self.now from.number end text result }
    {
        let cells = self.cells;
        let last = byte_in(&name[name.len() - 1]);
        let mut at = from.start as usize + 3;
        let mut left = end - from.number;
        while left > 0 {
            let len = number_in_head(cells[at - 3]) as usize;
            if is_text_at(cells, at, len, name, last) {
                return Some(Located {
                    number: end - left,
                    start: (at - 3) as u32,
                });
            }
            at += 3 + len + number_in_head(cells[at - 2]) as usize;
            left -= 1;
        }
        None
    }
}

/// Does what `find_between` does as a function of its own, whose loop has all registers. It takes the fields
/// of a `FormCells`, which would itself be passed through memory.
#[inline(never)]
pub fn find_between_by_call(
    cells: &[Cell],
    count: u32,
    from: Located,
    end: u32,
    name: &[Cell],
) -> Option<Located>
    requires forms { AreCellsOfForms cells.now count }
    requires begins { IsPlace (forms_in (map seen cells.now)) from.number from.start }
    requires order { from.number ≤ end }
    requires within { end ≤ count }
    requires name { IsName name.now }
    ensures { let forms = forms_in (map seen cells.now) in
        let text = text_of_cells (map seen name.now) in
        IsAnswerBetween forms from.number end text result }
{
    FormCells { cells, count }.find_between(from, end, name)
}

/// The form with this name, which isn't null. None if no form has it. Looks at the forms from the one used
/// last on, and then at those before it.
///
/// It takes the fields of a `FormCells`, which would itself be passed through memory.
#[inline(never)]
pub fn find_from_last(cells: &[Cell], last: Located, count: u32, name: &[Cell]) -> Option<Located>
    requires forms { AreCellsOfForms cells.now count }
    requires last { IsPlace (forms_in (map seen cells.now)) last.number last.start }
    requires name { IsName name.now }
    ensures { IsAnswer (forms_in (map seen cells.now)) (text_of_cells (map seen name.now)) result }
{
    let forms = FormCells { cells, count };
    match forms.find_between(last, count, name) {
        None => forms.find_between(FIRST_FORM, last.number, name),
        found => found,
    }
}
