//! Runs of characters in the block: how long they are, and copies of them with commas marked.
ghost use Rattle.std.specs.Prelude.{◌≡◌, ◌+◌, ◌-◌, ◌≤◌, ◌<◌, All, IsTrue, drop, false, length};
ghost use Rattle.std.specs.Prelude.{take, ◌==◌, slice_index_or};
ghost use Rattle.trac_space.specs.declared.cell.Cell.TheVariants.{Byte};
ghost use Rattle.trac_space.specs.Runs.{IsInRun, number_in, turned, with_cells_at};
ghost use Rattle.trac_space.specs.Tags.{NoCommaFrom};
ghost use Rattle.trac_space.specs.Texts.{IsByte, byte_cell_at};

use crate::cell::{Cell, are_characters, are_four, are_two, byte_in, is_character};
use crate::copies::BLOCK;

// A run of characters, each kept or turned into a comma mark: how many they are, and from which of them on
// none is a comma mark.
#[derive(Clone, Copy)]
pub(crate) struct CharacterRun {
    pub(crate) len: u32,
    pub(crate) no_comma_from: u32,
}

// Copies characters to a lower place, at most `most`. `table` has a number for each byte: 0 keeps the
// character, 1 makes it a comma mark, a higher number ends the run before it. Gives the run.
#[inline]
pub(crate) fn translate_run(
    cells: &mut [Cell],
    start: usize,
    to: usize,
    most: usize,
    table: &[u8],
) -> CharacterRun
    requires before { to ≤ start }
    requires within { start + most ≤ length cells.old }
    requires bytes { All IsByte (take most (drop start cells.old)) }
    requires whole { length table.now ≡ 256 }
    requires bounded { length cells.old ≤ 16777216 }
    ensures few { result.len ≤ most }
    ensures run { All (IsInRun table.now) (take result.len (drop start cells.old)) }
    ensures ends { result.len < most →
        1 < number_in table.now (slice_index_or cells.old (start + result.len) (Byte 0)) }
    ensures last { result.no_comma_from ≤ result.len }
    ensures no_comma_from { NoCommaFrom result.no_comma_from
        (take result.len (turned table.now (drop start cells.old))) }
    ensures len { length cells.new ≡ length cells.old }
    ensures after { cells.new ≡
        with_cells_at cells.old to (turned table.now (drop start cells.old)) result.len }
{
    let mut count = 0;
    let mut no_comma_from = 0;
    while count < most {
        let byte = byte_in(&cells[start + count]);
        let number = table[usize::from(byte)];
        if number == 0 {
            cells[to + count] = Cell::Byte(byte);
        } else if number == 1 {
            cells[to + count] = Cell::Comma;
            no_comma_from = count + 1;
        } else {
            break;
        }
        count += 1;
    }
    CharacterRun {
        len: count as u32,
        no_comma_from: no_comma_from as u32,
    }
}

// Whether the `n` cells from place `at` on are all characters. Tests eight cells at a time; the last
// group may overlap the one before it.
#[inline(always)]
pub(crate) fn are_all_characters(cells: &[Cell], at: usize, n: usize) -> bool
    requires { at + n ≤ length cells.now }
    ensures { IsTrue result → All IsByte (take n (drop at cells.now)) }
{
    if n < BLOCK {
        return are_few_characters(cells, at, n);
    }
    let mut done = 0;
    while n - done > BLOCK {
        if !are_characters(cells, at + done) {
            return false;
        }
        done += BLOCK;
    }
    are_characters(cells, at + (n - BLOCK))
}

// Whether the `n` cells from place `at` on, at most eight, are all characters.
#[inline(always)]
fn are_few_characters(cells: &[Cell], at: usize, n: usize) -> bool
    requires few { n ≤ 8 }
    requires within { at + n ≤ length cells.now }
    ensures { IsTrue result → All IsByte (take n (drop at cells.now)) }
{
    if n >= 4 {
        are_four(cells, at) && are_four(cells, at + (n - 4))
    } else if n >= 2 {
        are_two(cells, at) && are_two(cells, at + (n - 2))
    } else {
        n == 0 || is_character(&cells[at])
    }
}

/// How many characters stand in a row from place `start` on; counts up to `most`.
#[inline(always)]
pub fn characters_from(cells: &[Cell], start: usize, most: usize) -> usize
    requires { start + most ≤ length cells.now }
    ensures few { result ≤ most }
    ensures bytes { All IsByte (take result (drop start cells.now)) }
    ensures stop { result < most → byte_cell_at cells.now (start + result) ≡ false }
{
    let mut count = 0;
    while most - count >= BLOCK {
        let more = characters_each(cells, start + count, BLOCK);
        count += more;
        if more < BLOCK {
            return count;
        }
    }
    count + characters_each(cells, start + count, most - count)
}

// How many characters stand in a row from place `start` on; counts up to `most`, cell by cell.
#[inline(always)]
fn characters_each(cells: &[Cell], start: usize, most: usize) -> usize
    requires { start + most ≤ length cells.now }
    ensures few { result ≤ most }
    ensures bytes { All IsByte (take result (drop start cells.now)) }
    ensures stop { result < most → byte_cell_at cells.now (start + result) ≡ false }
{
    let mut count = 0;
    while count < most && is_character(&cells[start + count]) {
        count += 1;
    }
    count
}

// How many characters stand in a row right before place `at`; counts up to eight.
#[inline]
pub(crate) fn characters_before(cells: &[Cell], at: usize) -> usize
    requires behind { 8 ≤ at }
    requires within { at ≤ length cells.now }
    ensures few { result ≤ 8 }
    ensures bytes { All IsByte (take result (drop (at - result) cells.now)) }
    ensures stop { result < 8 → byte_cell_at cells.now (at - result - 1) ≡ false }
{
    let mut count = 0;
    while count < BLOCK && is_character(&cells[at - count - 1]) {
        count += 1;
    }
    count
}
