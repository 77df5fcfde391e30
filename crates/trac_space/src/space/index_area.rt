//! The index area, and the free cells beside it.
ghost use Rattle.std.specs.Prelude.{◌≡◌, ◌+◌, ◌-◌, ◌≤◌, ◌<◌, ◌↔◌, [], length, map, slice_set};
ghost use Rattle.std.specs.Prelude.{IsTrue, true, false, replicate};
ghost use Rattle.std.specs.Bool.{OnTrue, OnFalse};
ghost use Rattle.trac_space.specs.declared.cell.Cell.{Cell};
ghost use Rattle.trac_space.specs.declared.cell.Cell.TheVariants.{Byte};
ghost use Rattle.trac_space.specs.Cells.{seen};
ghost use Rattle.trac_space.specs.Lists.{used, FitsBesideIndex, reserved};

use super::Space;
use crate::block::blank;
use crate::cell::Cell;
use crate::copies::copy_cells;

impl<'a> Space<'a> {
    /// How many cells are free beside the index area.
    #[inline]
    pub fn free_beside_index(&self) -> u32
        ensures { result + used self.now + length self.now.index_area ≡ self.now.room }
    {
        self.end - (self.store + self.neutral + self.active)
    }

    // Whether `n` more cells fit. Drops the index area if the cells fit only without it.
    #[inline]
    pub(super) fn try_reserve(&mut self, n: usize) -> bool
        ensures has { IsTrue result ↔ (used self.old + n ≤ self.old.room) }
        ensures free { OnTrue result (FitsBesideIndex n self.new) }
        ensures same { OnTrue result (self.new ≡ reserved n self.old) }
        ensures full { OnFalse result (self.new ≡ self.old) }
    {
        n <= self.free_beside_index() as usize || self.try_reserve_without_index(n)
    }

    // Whether `n` more cells fit, which are too many beside the index area. Drops the list if they fit.
    #[inline(never)]
    pub(super) fn try_reserve_without_index(&mut self, n: usize) -> bool
        requires { self.old.room < used self.old + n + length self.old.index_area }
        ensures has { IsTrue result ↔ (used self.old + n ≤ self.old.room) }
        ensures same { OnTrue result (self.new ≡ record self.old { index_area = [] }) }
        ensures full { OnFalse result (self.new ≡ self.old) }
    {
        if (self.free() as usize) < n {
            return false;
        }
        self.drop_index_area();
        true
    }

    /// Drops the index area if `n` more cells fit only without it; no answer depends on it. The cells must
    /// fit.
    #[inline]
    pub fn reserve(&mut self, n: u32)
        requires { used self.old + n ≤ self.old.room }
        ensures free { FitsBesideIndex n self.new }
        ensures same { self.new ≡ reserved n self.old }
    {
        if self.free_beside_index() < n {
            self.drop_index_area();
        }
    }

    /// How many cells the index area has.
    #[inline]
    pub fn index_area_len(&self) -> u32
        ensures value { result ≡ length self.now.index_area }
        ensures bounded { result ≤ 16777216 }
    {
        self.room() - self.end
    }

    /// The cells of the index area, not copied.
    #[inline]
    pub fn index_area_cells(&self) -> &[Cell]
        ensures value { map seen result.now ≡ self.now.index_area }
        ensures bounded { length result.now ≤ 16777216 }
    {
        &self.cells[self.end as usize..]
    }

    /// Replaces the cell at place `i` of the index area.
    #[inline]
    pub fn set_index_area_at(&mut self, i: u32, cell: Cell)
        requires { i < length self.old.index_area }
        ensures { self.new ≡ record self.old { index_area = slice_set self.old.index_area i (seen cell) } }
    {
        self.cells[(self.end + i) as usize] = cell;
    }

    /// Replaces the index area by one of `n` cells, each the byte 0. The cells must be free.
    pub fn take_index_area(&mut self, n: u32)
        requires { used self.old + n ≤ self.old.room }
        ensures { self.new ≡ record self.old { index_area = replicate n (Byte 0) } }
    {
        self.move_active(n);
        self.blank_index_area();
    }

    /// Makes each cell of the index area the byte 0.
    pub fn blank_index_area(&mut self)
        ensures { self.new ≡ record self.old {
          index_area = replicate (length self.old.index_area) (Byte 0);
        } }
    {
        let start = self.end as usize;
        blank(&mut self.cells[start..]);
    }

    /// Drops the index area.
    #[inline(never)]
    pub fn drop_index_area(&mut self)
        ensures { self.new ≡ record self.old { index_area = [] } }
    {
        // The lists fit in the block.
        prove!(self.free() <= self.room());
        self.move_active(0);
    }

    // Moves active so that `n` cells stand behind it. They are the index area, and unspecified.
    fn move_active(&mut self, n: u32)
        requires { used self.old + n ≤ self.old.room }
        ensures same { self.new ≡ record self.old { index_area = self.new.index_area } }
        ensures index_area { length self.new.index_area ≡ n }
    {
        let end = self.room() - n;
        let start = (self.end - self.active) as usize;
        let to = (end - self.active) as usize;
        copy_cells(self.cells, start, self.end as usize, to);
        self.end = end;
    }
}
