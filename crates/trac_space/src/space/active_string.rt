//! The active string: what is put in front of it and taken from it.
ghost use Rattle.std.specs.Prelude.{◌≡◌, ◌+◌, ◌-◌, ◌≤◌, ◌<◌, ◌↔◌, ◌++◌, [], length, drop, map};
ghost use Rattle.std.specs.Prelude.{slice_get, slice_range, IsTrue, MatchOption, ◌==◌, Some, true};
ghost use Rattle.std.specs.Prelude.{false, All};
ghost use Rattle.std.specs.Bool.{OnTrue, OnFalse};
ghost use Rattle.std.specs.Option.{option_map};
ghost use Rattle.trac_space.specs.declared.cell.Cell.{Cell};
ghost use Rattle.trac_space.specs.Cells.{seen, bytes};
ghost use Rattle.trac_space.specs.Lists.{used, FitsBesideIndex, reserved};
ghost use Rattle.trac_space.specs.Filled.{HaveCommas, filled};
ghost use Rattle.trac_space.specs.Tags.{untagged};
ghost use Rattle.trac_space.specs.Texts.{IsByte, byte_cell_at};

use super::Space;
use crate::byte_writing::write_bytes;
use crate::cell::Cell;
use crate::character_runs::{are_all_characters, characters_from};
use crate::copies::{HIGHER, copy_apart};
use crate::filling::{ArgumentTable, fill_cells};

impl<'a> Space<'a> {
    /// How many characters stand in a row from place `a` of the store on; counts up to place `b`.
    #[inline(always)]
    pub fn characters_from(&self, a: u32, b: u32) -> u32
        requires order { a ≤ b }
        requires within { b ≤ length self.now.store }
        ensures within { a + result ≤ b }
        ensures bytes { All IsByte (slice_range self.now.store a (a + result)) }
        ensures stop { a + result < b → byte_cell_at self.now.store (a + result) ≡ false }
    {
        characters_from(self.cells, a as usize, (b - a) as usize) as u32
    }

    /// Copies the cells of the store from place `a` up to `b` to the front of active, each gap k replaced
    /// by argument k: the k-th part, from 1, between the comma marks of neutral from place `first` up to
    /// `end`. These are `commas` marks, whose places `tag_commas` put there as tags. Gives how many cells these
    /// are. None, with nothing changed, if the copy doesn't fit beside the index area.
    #[inline(always)]
    pub fn load_filled(&mut self, a: u32, b: u32, first: u32, end: u32, commas: u32) -> Option<u32>
        requires order { a ≤ b }
        requires within { b ≤ length self.old.store }
        requires given_order { first ≤ end }
        requires given_within { end ≤ length self.old.neutral }
        requires commas { HaveCommas (slice_range self.old.neutral first end) commas }
        ensures { let given = map untagged (slice_range self.old.neutral first end) in
            let more = filled given (slice_range self.old.store a b) in
            MatchOption result
            ((self.new ≡ self.old)
            × (self.old.room < used self.old + length more + length self.old.index_area))
            (λ n. (length more ≡ n) × FitsBesideIndex n self.old
            × (self.new ≡ record self.old { active = more ++ self.old.active })) }
    {
        let low = (self.store + self.neutral) as usize;
        let to = (self.end - self.active) as usize;
        let given = ArgumentTable {
            start: (self.store + first) as usize,
            len: (end - first) as usize,
            commas: commas as usize,
        };
        match fill_cells(self.cells, a as usize, b as usize, low, to, given) {
            Some(start) => {
                let n = (to - start) as u32;
                self.active += n;
                Some(n)
            }
            None => None,
        }
    }

    /// Removes the first cell of active and gives it. None if active is empty.
    #[inline]
    pub fn take_active(&mut self) -> Option<Cell>
        ensures first { option_map seen result ≡ slice_get self.old.active 0 }
        ensures rest { self.new ≡ record self.old { active = drop 1 self.old.active } }
    {
        if self.active == 0 {
            return None;
        }
        let first = self.cells[(self.end - self.active) as usize];
        self.active -= 1;
        Some(first)
    }

    /// Makes the bytes of `text` the active string, which must be empty. False, with nothing changed, if
    /// they don't fit.
    pub fn load_active(&mut self, text: &[u8]) -> bool
        requires { self.old.active ≡ [] }
        ensures loaded { IsTrue result ↔ (used self.old + length text.now ≤ self.old.room) }
        ensures is_text { OnTrue result (self.new ≡ record (reserved (length text.now) self.old) {
          active = bytes text.now;
        }) }
        ensures full { OnFalse result (self.new ≡ self.old) }
    {
        if !self.try_reserve(text.len()) {
            return false;
        }
        self.load_bytes(text);
        true
    }

    /// Puts the bytes of `text` in front of active. They must fit beside the index area.
    #[inline]
    pub fn load_bytes(&mut self, text: &[u8])
        requires { FitsBesideIndex (length text.now) self.old }
        ensures { self.new ≡ record self.old { active = bytes text.now ++ self.old.active } }
    {
        let active = self.active + text.len() as u32;
        let start = (self.end - active) as usize;
        write_bytes(&mut self.cells[start..start + text.len()], text);
        self.active = active;
    }

    /// Empties active.
    pub fn clear_active(&mut self)
        ensures { self.new ≡ record self.old { active = [] } }
    {
        self.active = 0;
    }

    /// Removes the first `n` cells of active.
    #[inline]
    pub fn drop_active(&mut self, n: u32)
        requires { n ≤ length self.old.active }
        ensures { self.new ≡ record self.old { active = drop n self.old.active } }
    {
        self.active -= n;
    }

    /// Copies the cells of neutral from place `a` up to `b` to the front of active. They must fit beside
    /// the index area.
    #[inline(always)]
    pub fn load_from_neutral(&mut self, a: u32, b: u32)
        requires order { a ≤ b }
        requires within { b ≤ length self.old.neutral }
        requires room { FitsBesideIndex (b - a) self.old }
        ensures { self.new ≡ record self.old {
          active = slice_range self.old.neutral a b ++ self.old.active;
        } }
    {
        let active = self.active + (b - a);
        let (start, to) = ((self.store + a) as usize, (self.end - active) as usize);
        copy_apart::<HIGHER>(self.cells, start, (b - a) as usize, to);
        self.active = active;
    }

    /// Copies the cells of the store from place `a` up to `b` to the front of active. They must fit beside
    /// the index area.
    #[inline(always)]
    pub fn load_from_store(&mut self, a: u32, b: u32)
        requires order { a ≤ b }
        requires within { b ≤ length self.old.store }
        requires room { FitsBesideIndex (b - a) self.old }
        ensures { self.new ≡ record self.old {
          active = slice_range self.old.store a b ++ self.old.active;
        } }
    {
        let active = self.active + (b - a);
        let to = (self.end - active) as usize;
        copy_apart::<HIGHER>(self.cells, a as usize, (b - a) as usize, to);
        self.active = active;
    }

    /// Copies the cells of the store from place `a` up to `b` to the front of active if all of them are
    /// characters. False, with nothing changed, if one isn't. They must fit beside the index area.
    #[inline(always)]
    pub fn load_characters(&mut self, a: u32, b: u32) -> bool
        requires order { a ≤ b }
        requires within { b ≤ length self.old.store }
        requires room { FitsBesideIndex (b - a) self.old }
        ensures bytes { IsTrue result → All IsByte (slice_range self.old.store a b) }
        ensures loaded { OnTrue result (self.new ≡ record self.old {
          active = slice_range self.old.store a b ++ self.old.active;
        }) }
        ensures left { OnFalse result (self.new ≡ self.old) }
    {
        if !self.has_characters(a, b) {
            return false;
        }
        self.load_from_store(a, b);
        true
    }

    // Whether the cells of the store from place `a` up to `b` are all characters.
    #[inline(always)]
    fn has_characters(&self, a: u32, b: u32) -> bool
        requires order { a ≤ b }
        requires within { b ≤ length self.now.store }
        ensures { IsTrue result → All IsByte (slice_range self.now.store a b) }
    {
        are_all_characters(self.cells, a as usize, (b - a) as usize)
    }
}
