//! Changes of the store where it stands.
ghost use Rattle.std.specs.Prelude.{◌≡◌, ◌+◌, ◌-◌, ◌≤◌, ◌<◌, ◌++◌, List, length, take, drop};
ghost use Rattle.std.specs.Prelude.{slice_set, slice_range};
ghost use Rattle.trac_space.specs.declared.cell.Cell.{Cell};
ghost use Rattle.trac_space.specs.Cells.{IsNoCall};
ghost use Rattle.trac_space.specs.Lists.{FitsBesideIndex};

use super::Space;
use crate::cell::Cell;
use crate::copies::{LOWER, copy_apart, copy_cells, copy_higher};

impl<'a> Space<'a> {
    /// Appends `n` cells to the store, which are unspecified. They must fit beside the index area.
    #[inline(always)]
    pub fn open_store(&mut self, n: u32)
        requires { FitsBesideIndex n self.old }
        ensures { (more : List Cell) × (length more ≡ n)
            × (self.new ≡ record self.old { store = self.old.store ++ more }) }
    {
        let start = self.store as usize;
        let end = (self.store + self.neutral) as usize;
        copy_higher(self.cells, start, end, start + n as usize);
        self.store += n;
    }

    /// Removes the cells of the store from place `a` up to `b`.
    pub fn remove_store(&mut self, a: u32, b: u32)
        requires order { a ≤ b }
        requires within { b ≤ length self.old.store }
        ensures { self.new ≡ record self.old {
          store = take a self.old.store ++ drop b self.old.store;
        } }
    {
        let end = (self.store + self.neutral) as usize;
        copy_cells(self.cells, b as usize, end, a as usize);
        self.store -= b - a;
    }

    /// Copies the cells of the store from place `a` up to `b` to place `to`, which is `a` or lower.
    pub fn move_in_store(&mut self, a: u32, b: u32, to: u32)
        requires order { a ≤ b }
        requires within { b ≤ length self.old.store }
        requires before { to ≤ a }
        ensures { let cells = slice_range self.old.store a b in
            self.new ≡ record self.old {
              store = take to self.old.store ++ cells ++ drop (to + (b - a)) self.old.store;
            } }
    {
        copy_cells(self.cells, a as usize, b as usize, to as usize);
    }

    /// Replaces the cell at place `i` of the store by one that is no call mark.
    pub fn write_store(&mut self, i: u32, cell: Cell)
        requires within { i < length self.old.store }
        requires no_call { IsNoCall cell }
        ensures { self.new ≡ record self.old { store = slice_set self.old.store i cell } }
    {
        self.cells[i as usize] = cell;
    }

    /// Copies the cells of neutral from place `a` up to `b` over as many cells of the store, from place
    /// `at` on.
    #[inline]
    pub fn write_part(&mut self, at: u32, a: u32, b: u32)
        requires order { a ≤ b }
        requires within { b ≤ length self.old.neutral }
        requires inside { at + (b - a) ≤ length self.old.store }
        ensures { self.new ≡ record self.old {
          store = take at self.old.store ++ slice_range self.old.neutral a b
              ++ drop (at + (b - a)) self.old.store;
        } }
    {
        let start = (self.store + a) as usize;
        copy_apart::<LOWER>(self.cells, start, (b - a) as usize, at as usize);
    }
}
