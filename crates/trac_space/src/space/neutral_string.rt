//! The neutral string: what is appended to it, changed in it and cut from it.
ghost use Rattle.std.specs.Prelude.{◌≡◌, ◌+◌, ◌-◌, ◌≤◌, ◌<◌, ◌↔◌, ◌++◌, [], ◌∷◌, length, take};
ghost use Rattle.std.specs.Prelude.{drop, map, slice_get, slice_set, slice_index_or, slice_range};
ghost use Rattle.std.specs.Prelude.{IsTrue, ◌⊎◌, ◌==◌, Some, true, false, All};
ghost use Rattle.std.specs.List.{list_any};
ghost use Rattle.std.specs.Bool.{OnTrue, OnFalse};
ghost use Rattle.trac_space.specs.declared.cell.Cell.{Cell};
ghost use Rattle.trac_space.specs.declared.cell.Cell.TheVariants.{Byte};
ghost use Rattle.trac_space.specs.Cells.{seen, bytes, IsNoCall, NoCall};
ghost use Rattle.trac_space.specs.Lists.{used, FitsBesideIndex, reserved};
ghost use Rattle.trac_space.specs.Filled.{HaveCommas};
ghost use Rattle.trac_space.specs.Tags.{takes_tag, untagged, HaveTags};

use super::Space;
use crate::byte_search::count_before;
use crate::byte_writing::write_bytes;
use crate::cell::{Cell, is_call, linked};
use crate::copies::copy_cells;
use crate::filling::tag_commas;
use crate::tags::{clear_tags, holds_comma};

impl<'a> Space<'a> {
    /// Appends a cell to neutral. False, with nothing changed, if no cell is free.
    #[inline]
    pub fn push_neutral(&mut self, cell: Cell) -> bool
        ensures pushed { IsTrue result ↔ (used self.old < self.old.room) }
        ensures last { OnTrue result (self.new ≡ record (reserved 1 self.old) {
          neutral = self.old.neutral ++ seen cell ∷ [];
        }) }
        ensures full { OnFalse result (self.new ≡ self.old) }
    {
        if self.free_beside_index() == 0 {
            return self.push_over_index(cell);
        }
        self.put_neutral(cell);
        true
    }

    // Appends a cell to neutral where no cell is free beside the index area, which is dropped for it. False,
    // with nothing changed, if no cell is free at all.
    #[inline(never)]
    fn push_over_index(&mut self, cell: Cell) -> bool
        requires { self.old.room ≤ used self.old + length self.old.index_area }
        ensures pushed { IsTrue result ↔ (used self.old < self.old.room) }
        ensures last { OnTrue result (self.new ≡ record self.old {
          neutral = self.old.neutral ++ seen cell ∷ [];
          index_area = [];
        }) }
        ensures full { OnFalse result (self.new ≡ self.old) }
    {
        if !self.try_reserve_without_index(1) {
            return false;
        }
        self.put_neutral(cell);
        true
    }

    /// Appends a cell to neutral. A cell must be free beside the index area.
    #[inline]
    pub fn put_neutral(&mut self, cell: Cell)
        requires { FitsBesideIndex 1 self.old }
        ensures { self.new ≡ record self.old { neutral = self.old.neutral ++ seen cell ∷ [] } }
    {
        let place = self.neutral;
        self.cells[(self.store + place) as usize] = linked(cell, place, self.top_frame);
        self.top_frame = if is_call(&cell) {
            place + 1
        } else {
            self.top_frame
        };
        self.no_comma_from = if holds_comma(&cell) {
            place + 1
        } else {
            self.no_comma_from
        };
        self.neutral = place + 1;
    }

    /// Appends cells to neutral. They must fit beside the index area.
    #[inline(always)]
    pub fn put_cells(&mut self, cells: &[Cell])
        requires { FitsBesideIndex (length cells.now) self.old }
        ensures { self.new ≡ record self.old {
          neutral = self.old.neutral ++ map seen cells.now;
        } }
    {
        for cell in cells {
            self.put_neutral(*cell);
        }
    }

    /// Appends the bytes of `text` to neutral. False, with nothing changed, if they don't fit.
    pub fn push_bytes(&mut self, text: &[u8]) -> bool
        ensures pushed { IsTrue result ↔ (used self.old + length text.now ≤ self.old.room) }
        ensures last { OnTrue result (self.new ≡ record (reserved (length text.now) self.old) {
          neutral = self.old.neutral ++ bytes text.now;
        }) }
        ensures full { OnFalse result (self.new ≡ self.old) }
    {
        if !self.try_reserve(text.len()) {
            return false;
        }
        self.put_bytes(text);
        true
    }

    // Appends the bytes of `text` to neutral. They must fit beside the index area.
    #[inline]
    fn put_bytes(&mut self, text: &[u8])
        requires { FitsBesideIndex (length text.now) self.old }
        ensures { self.new ≡ record self.old { neutral = self.old.neutral ++ bytes text.now } }
    {
        let start = (self.store + self.neutral) as usize;
        write_bytes(&mut self.cells[start..start + text.len()], text);
        self.neutral += text.len() as u32;
    }

    /// Appends the bytes of `text` before its first `stop` to neutral, as many as fit, and gives how many
    /// these are.
    pub fn push_before(&mut self, stop: u8, text: &[u8]) -> usize
        ensures within { result ≤ length text.now }
        ensures before { list_any (λ byte. byte == stop) (take result text.now) ≡ false }
        ensures stops { result < length text.now →
            (slice_get text.now result ≡ Some stop) ⊎ (self.new.room ≤ used self.new) }
        ensures fits { used self.old + result ≤ self.old.room }
        ensures last { self.new ≡ record (reserved result self.old) {
          neutral = self.old.neutral ++ bytes (take result text.now);
        } }
    {
        let most = text.len().min(self.free() as usize);
        let count = count_before(stop, &text[..most]);
        self.reserve(count as u32);
        self.put_bytes(&text[..count]);
        count
    }

    /// Copies the cells of neutral from place `a` up to `b` to its end. False, with nothing changed, if
    /// they don't fit.
    #[inline]
    pub fn copy_neutral(&mut self, a: u32, b: u32) -> bool
        requires order { a ≤ b }
        requires within { b ≤ length self.old.neutral }
        requires no_call { NoCall (slice_range self.old.neutral a b) }
        ensures copied { IsTrue result ↔ (used self.old + (b - a) ≤ self.old.room) }
        ensures last { OnTrue result (self.new ≡ record (reserved (b - a) self.old) {
          neutral = self.old.neutral ++ slice_range self.old.neutral a b;
        }) }
        ensures full { OnFalse result (self.new ≡ self.old) }
    {
        if !self.try_reserve((b - a) as usize) {
            return false;
        }
        self.put_from_neutral(a, b);
        true
    }

    // Copies the cells of neutral from place `a` up to `b` to its end. They must fit beside the index area.
    #[inline]
    fn put_from_neutral(&mut self, a: u32, b: u32)
        requires order { a ≤ b }
        requires within { b ≤ length self.old.neutral }
        requires no_call { NoCall (slice_range self.old.neutral a b) }
        requires room { FitsBesideIndex (b - a) self.old }
        ensures { self.new ≡ record self.old {
          neutral = self.old.neutral ++ slice_range self.old.neutral a b;
        } }
    {
        let start = (self.store + a) as usize;
        let end = (self.store + b) as usize;
        let to = (self.store + self.neutral) as usize;
        copy_cells(self.cells, start, end, to);
        self.neutral += b - a;
        self.no_comma_from = self.neutral;
    }

    /// Copies the cells of the store from place `a` up to `b` to the end of neutral. False, with nothing
    /// changed, if they don't fit.
    pub fn copy_store(&mut self, a: u32, b: u32) -> bool
        requires order { a ≤ b }
        requires within { b ≤ length self.old.store }
        requires no_call { NoCall (slice_range self.old.store a b) }
        ensures copied { IsTrue result ↔ (used self.old + (b - a) ≤ self.old.room) }
        ensures last { OnTrue result (self.new ≡ record (reserved (b - a) self.old) {
          neutral = self.old.neutral ++ slice_range self.old.store a b;
        }) }
        ensures full { OnFalse result (self.new ≡ self.old) }
    {
        if !self.try_reserve((b - a) as usize) {
            return false;
        }
        self.put_from_store(a, b);
        true
    }

    // Copies the cells of the store from place `a` up to `b` to the end of neutral. They must fit beside the
    // index area.
    #[inline]
    fn put_from_store(&mut self, a: u32, b: u32)
        requires order { a ≤ b }
        requires within { b ≤ length self.old.store }
        requires no_call { NoCall (slice_range self.old.store a b) }
        requires room { FitsBesideIndex (b - a) self.old }
        ensures { self.new ≡ record self.old {
          neutral = self.old.neutral ++ slice_range self.old.store a b;
        } }
    {
        let to = (self.store + self.neutral) as usize;
        copy_cells(self.cells, a as usize, b as usize, to);
        self.neutral += b - a;
        self.no_comma_from = self.neutral;
    }

    /// Puts the places of the comma marks of neutral from place `first` up to `end` as tags on the first cells
    /// there, and gives how many they are. `clear_neutral_tags` takes them off again.
    #[inline(always)]
    pub fn tag_commas(&mut self, first: u32, end: u32) -> u32
        requires order { first ≤ end }
        requires within { end ≤ length self.old.neutral }
        requires takes { let cells = slice_range self.old.neutral first end in
            All (λ cell. IsTrue (takes_tag cell)) cells }
        ensures commas { HaveCommas (slice_range self.new.neutral first end) result }
        ensures numbers { HaveTags self.old.neutral self.new.neutral first end }
        ensures same { self.new ≡ record self.old { neutral = self.new.neutral } }
    {
        let no_comma_from = self.no_comma_from.max(first).min(end) - first;
        let cells = &mut self.cells[(self.store + first) as usize..(self.store + end) as usize];
        tag_commas(cells, no_comma_from as usize) as u32
    }

    /// Replaces the cell at place `i` of neutral. Neither the old nor the new one may be a call mark.
    #[inline]
    pub fn write_neutral(&mut self, i: u32, cell: Cell)
        requires within { i < length self.old.neutral }
        requires no_call { IsNoCall cell }
        requires for_no_call { IsNoCall (slice_index_or self.old.neutral i (Byte 0)) }
        ensures { self.new ≡ record self.old { neutral = slice_set self.old.neutral i cell } }
    {
        self.cells[(self.store + i) as usize] = cell;
        self.no_comma_from = if holds_comma(&cell) {
            self.no_comma_from.max(i + 1)
        } else {
            self.no_comma_from
        };
    }

    /// Takes the tags off the cells of neutral from place `a` up to `b`.
    #[inline(always)]
    pub fn clear_neutral_tags(&mut self, a: u32, b: u32)
        requires order { a ≤ b }
        requires within { b ≤ length self.old.neutral }
        ensures { let cells = map untagged (slice_range self.old.neutral a b) in
            self.new ≡ record self.old {
              neutral = take a self.old.neutral ++ cells ++ drop b self.old.neutral;
            } }
    {
        clear_tags(&mut self.cells[(self.store + a) as usize..(self.store + b) as usize]);
    }

    /// Empties neutral, its open calls included.
    pub fn clear_neutral(&mut self)
        ensures { self.new ≡ record self.old { neutral = [] } }
    {
        self.neutral = 0;
        self.top_frame = 0;
        self.no_comma_from = 0;
    }

    /// Removes all but the first `n` cells of neutral. Looks at each call mark that it removes.
    #[inline]
    pub fn cut_neutral(&mut self, n: u32)
        requires { n ≤ length self.old.neutral }
        ensures { self.new ≡ record self.old { neutral = take n self.old.neutral } }
    {
        let top_frame = self.frame_before(n);
        self.top_frame = top_frame;
        self.neutral = n;
        self.no_comma_from = n;
    }

    /// Removes the cells of neutral from place `a` up to `b`. No call mark may stand behind them.
    pub fn drop_neutral(&mut self, a: u32, b: u32)
        requires order { a ≤ b }
        requires within { b ≤ length self.old.neutral }
        requires no_call { NoCall (drop b self.old.neutral) }
        ensures { self.new ≡ record self.old {
          neutral = take a self.old.neutral ++ drop b self.old.neutral;
        } }
    {
        let start = (self.store + b) as usize;
        let end = (self.store + self.neutral) as usize;
        let to = (self.store + a) as usize;
        let top_frame = self.frame_before(a);
        let rest = self.neutral - (b - a);
        copy_cells(self.cells, start, end, to);
        self.neutral = rest;
        self.top_frame = top_frame;
        self.no_comma_from = rest;
    }
}
