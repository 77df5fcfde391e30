//! Places in the input, and the strings that were read from it.
ghost use Rattle.std.specs.Prelude.{◌≡◌, ◌+◌, ◌-◌, ◌^◌, min};
ghost use Rattle.trac_space.specs.Texts.{text_of_cells};
ghost use Rattle.trac_events.specs.Places.{behind, behind_text, behind_layout, first_place};
ghost use Rattle.trac_events.specs.Places.{one_more};

use crate::byte_search::{ApartFromColumns, count_before};
use trac_core::is_layout;
use trac_space::{Cell, character_of};

/// A place in the input: its line and its column, both from 1. A column is a byte of ASCII or a
/// whole character of UTF-8.
#[derive(Clone, Copy, Debug, PartialEq, Eq)]
pub struct Place {
    pub line: u64,
    pub column: u64,
}

impl Place {
    /// The first place of the input.
    pub fn first() -> Place
        ensures { result ≡ first_place }
    {
        Place { line: 1, column: 1 }
    }

    /// The place behind a byte that stands at this place.
    pub fn behind(self, byte: u8) -> Place
        ensures { result ≡ behind self byte }
    {
        match byte {
            b'\n' => Place {
                line: self.line.saturating_add(1),
                column: 1,
            },
            128..=191 => self,
            _ => Place {
                line: self.line,
                column: self.column.saturating_add(1),
            },
        }
    }

    /// The place behind bytes that stand from this place on.
    pub fn behind_bytes(self, bytes: &[u8]) -> Place
        ensures { result ≡ behind_text self bytes.now }
    {
        let mut place = self;
        let mut done: usize = 0;
        while done < bytes.len() {
            let plain = count_before(&ApartFromColumns, &bytes[done..]);
            place = place.in_columns(plain);
            done += plain;
            if done < bytes.len() {
                place = place.behind(bytes[done]);
                done += 1;
            }
        }
        place
    }

    // The place behind characters that each take a column.
    fn in_columns(self, count: usize) -> Place
        ensures { result ≡ record self { column = min (self.column + count) (2 ^ 64 - 1) } }
    {
        Place {
            line: self.line,
            column: self.column.saturating_add(count as u64),
        }
    }

    /// The place behind the characters of cells, if they stand from this place on.
    pub fn behind_cells(self, cells: &[Cell]) -> Place
        ensures { result ≡ behind_text self (text_of_cells cells.now) }
    {
        let mut place = self;
        for cell in cells {
            place = place.behind(character_of(cell));
        }
        place
    }

    /// The place behind the layout at the head of cells, if they stand from this place on.
    pub fn behind_layout(self, cells: &[Cell]) -> Place
        ensures { result ≡ behind_layout self (text_of_cells cells.now) }
    {
        let mut place = self;
        for cell in cells {
            if !is_layout(character_of(cell)) {
                return place;
            }
            place = place.behind(character_of(cell));
        }
        place
    }
}

/// Where the input is being read, and where the string read last began.
#[derive(Clone, Copy, Debug, PartialEq, Eq)]
pub struct Reading {
    /// The place of the next byte.
    pub next: Place,
    /// The place of the first byte of the string that is no layout.
    pub string: Place,
}

impl Reading {
    /// Where a run stands before it has read anything.
    pub fn first() -> Reading
        ensures { result ≡ record { next = first_place; string = first_place } }
    {
        Reading {
            next: Place::first(),
            string: Place::first(),
        }
    }

    /// Where a run stands after it has read a string and the meta character that ended it.
    pub fn behind_string(self, cells: &[Cell], meta: u8) -> Reading
        ensures { let text = text_of_cells cells.now in result ≡ record {
          next = behind (behind_text self.next text) meta;
          string = behind_layout self.next text;
        } }
    {
        Reading {
            next: self.next.behind_cells(cells).behind(meta),
            string: self.next.behind_layout(cells),
        }
    }

    /// Where a run stands after it has read a character, or none. `string` stays as it is.
    pub fn behind_character(self, cells: &[Cell]) -> Reading
        ensures { result ≡ record self { next = behind_text self.next (text_of_cells cells.now) } }
    {
        Reading {
            next: self.next.behind_cells(cells),
            string: self.string,
        }
    }
}
