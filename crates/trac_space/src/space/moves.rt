//! Moves of cells from one list to another, which need no free cell.
ghost use Rattle.std.specs.Prelude.{◌≡◌, ◌+◌, ◌-◌, ◌≤◌, ◌<◌, ◌++◌, [], ◌∷◌, length, take, drop};
ghost use Rattle.std.specs.Prelude.{slice_index_or, All};
ghost use Rattle.trac_space.specs.declared.cell.Cell.{Cell};
ghost use Rattle.trac_space.specs.declared.cell.Cell.TheVariants.{Byte};
ghost use Rattle.trac_space.specs.Cells.{seen, bytes, NoCall};
ghost use Rattle.trac_space.specs.Runs.{IsInRun, number_in, turned};
ghost use Rattle.trac_space.specs.Texts.{IsByte};

use super::Space;
use crate::cell::Cell;
use crate::character_runs::translate_run;
use crate::copies::{copy_cells, copy_mostly_apart};

impl<'a> Space<'a> {
    /// Moves the cells of neutral from place `from` on to the front of active, in order.
    #[inline(always)]
    pub fn neutral_to_active(&mut self, from: u32)
        requires within { from ≤ length self.old.neutral }
        requires no_call { NoCall (drop from self.old.neutral) }
        ensures { self.new ≡ record self.old {
          neutral = take from self.old.neutral;
          active = drop from self.old.neutral ++ self.old.active;
        } }
    {
        let count = self.neutral - from;
        let start = (self.store + from) as usize;
        let end = (self.store + self.neutral) as usize;
        let to = (self.end - (self.active + count)) as usize;
        copy_mostly_apart(self.cells, start, end, to);
        self.neutral = from;
        self.active += count;
    }

    /// Moves the first `n` cells of active, which are characters, to the end of neutral.
    #[inline]
    pub fn active_to_neutral(&mut self, n: u32)
        requires within { n ≤ length self.old.active }
        requires bytes { All IsByte (take n self.old.active) }
        ensures moved { self.new ≡ record self.old {
          neutral = self.old.neutral ++ take n self.old.active;
          active = drop n self.old.active;
        } }
    {
        let rest = self.active - n;
        let start = (self.end - self.active) as usize;
        let end = (self.end - rest) as usize;
        let to = (self.store + self.neutral) as usize;
        copy_cells(self.cells, start, end, to);
        self.neutral += n;
        self.active = rest;
    }

    /// Moves characters from the front of active to the end of neutral, at most `most`. `table` has a
    /// number for each byte: 0 keeps the character, 1 makes it a comma mark, a higher number ends the run
    /// before it. Gives how many characters the run has.
    #[inline]
    pub fn run_to_neutral(&mut self, most: u32, table: &[u8]) -> u32
        requires within { most ≤ length self.old.active }
        requires bytes { All IsByte (take most self.old.active) }
        requires whole { length table.now ≡ 256 }
        ensures few { result ≤ most }
        ensures run { All (IsInRun table.now) (take result self.old.active) }
        ensures ends { result < most →
            1 < number_in table.now (slice_index_or self.old.active result (Byte 0)) }
        ensures moved { self.new ≡ record self.old {
          neutral = self.old.neutral ++ turned table.now (take result self.old.active);
          active = drop result self.old.active;
        } }
    {
        let start = (self.end - self.active) as usize;
        let to = (self.store + self.neutral) as usize;
        let run = translate_run(self.cells, start, to, most as usize, table);
        let before = self.neutral;
        self.neutral = before + run.len;
        self.active -= run.len;
        if run.no_comma_from == 0 {
            return run.len;
        }
        self.no_comma_from = before + run.no_comma_from;
        run.len
    }

    /// Removes the first `n` cells of active, one or more, and appends `cell` to neutral for them. Needs
    /// no free cell.
    #[inline]
    pub fn active_to_cell(&mut self, n: u32, cell: Cell)
        requires some { 0 < n }
        requires within { n ≤ length self.old.active }
        ensures { self.new ≡ record self.old {
          neutral = self.old.neutral ++ seen cell ∷ [];
          active = drop n self.old.active;
        } }
    {
        // The lists fit in the block.
        prove!(self.free_beside_index() <= self.room());
        self.drop_active(n);
        self.put_neutral(cell);
    }

    /// Moves the cells of neutral from place `from` on to the end of the store, in order.
    pub fn neutral_to_store(&mut self, from: u32)
        requires within { from ≤ length self.old.neutral }
        requires no_call { NoCall (drop from self.old.neutral) }
        ensures { self.new ≡ record self.old {
          store = self.old.store ++ drop from self.old.neutral;
          neutral = take from self.old.neutral;
        } }
    {
        let start = self.store as usize;
        let end = (self.store + self.neutral) as usize;
        self.cells[start..end].rotate_left(from as usize);
        self.store += self.neutral - from;
        self.neutral = from;
    }
}
