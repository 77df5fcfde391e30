//! Copies of cells within the block that a `Space` is lent.
//!
//! Each `copy_..` meets the contract of std's `copy_within`. They differ in what they are fast for:
//! `higher`, `lower` and `UP` say where the target lies, `apart` that the ranges are disjoint, `by_..` how
//! many cells go at once.
ghost use Rattle.std.specs.Prelude.{◌≡◌, ◌+◌, ◌-◌, ◌≤◌, ◌<◌, ◌⊎◌, length};
ghost use Rattle.std.specs.List.{copy_within};
ghost use Rattle.trac_space.specs.Apart.{IsApart};

use crate::cell::Cell;

// A long copy moves this many cells at once.
const CELLS_IN_A_PART: usize = 256;
// Up to this many cells are copied inline between ranges that are apart; more take a call.
const MOST_INLINE: usize = 24;
// Up to this many cells of overlapping ranges are copied block by block; more go part by part.
const MOST_OVERLAPPING_BY_BLOCKS: usize = 48;
// The cells of a block, which are copied or tested together.
pub(crate) const BLOCK: usize = 8;

// Where the target of a copy between disjoint ranges lies: the parameter `UP` of such a copy.
pub(crate) const HIGHER: bool = true;

pub(crate) const LOWER: bool = false;

// Copies cells as `copy_within` does. One cell needs no call, nor do a few blocks to a lower place.
#[inline]
pub(crate) fn copy_cells(cells: &mut [Cell], start: usize, end: usize, to: usize)
    requires order { start ≤ end }
    requires within { end ≤ length cells.old }
    requires room { to + (end - start) ≤ length cells.old }
    ensures len { length cells.new ≡ length cells.old }
    ensures after { cells.new ≡ copy_within cells.old start end to }
{
    let n = end - start;
    if n == 1 {
        cells.copy_within(start..start + 1, to);
    } else if n >= BLOCK && n <= MOST_INLINE && to + BLOCK <= start {
        copy_lower_by_blocks(cells, start, n, to);
    } else {
        copy_long(cells, start, end, to);
    }
}

// Copies cells as `copy_within` does. Disjoint ranges are copied as memory; overlapping ranges go
// block by block or part by part, and ranges less than a block apart cell by cell.
#[inline(never)]
fn copy_long(cells: &mut [Cell], start: usize, end: usize, to: usize)
    requires order { start ≤ end }
    requires within { end ≤ length cells.old }
    requires room { to + (end - start) ≤ length cells.old }
    ensures len { length cells.new ≡ length cells.old }
    ensures after { cells.new ≡ copy_within cells.old start end to }
{
    if end - start < BLOCK {
        cells.copy_within(start..end, to);
    } else if end <= to && end - start <= CELLS_IN_A_PART {
        copy_disjoint(cells, start, end, to);
    } else if to + (end - start) <= start && end - start <= CELLS_IN_A_PART {
        copy_disjoint(cells, start, end, to);
    } else if start.abs_diff(to) < BLOCK {
        cells.copy_within(start..end, to);
    } else if start < to {
        copy_higher_by_parts(cells, start, end, to);
    } else if end - start <= MOST_OVERLAPPING_BY_BLOCKS {
        copy_lower_by_blocks(cells, start, end - start, to);
    } else {
        copy_lower_by_parts(cells, start, end, to);
    }
}

// Copies cells as `copy_within` does, between disjoint ranges in either order, as memory.
#[inline]
fn copy_disjoint(cells: &mut [Cell], start: usize, end: usize, to: usize)
    requires order { start ≤ end }
    requires within { end ≤ length cells.old }
    requires room { to + (end - start) ≤ length cells.old }
    requires apart { (end ≤ to) ⊎ (to + (end - start) ≤ start) }
    ensures len { length cells.new ≡ length cells.old }
    ensures after { cells.new ≡ copy_within cells.old start end to }
{
    let n = end - start;
    if end <= to {
        let (front, back) = cells.split_at_mut(to);
        back[..n].copy_from_slice(&front[start..end]);
    } else {
        let (front, back) = cells.split_at_mut(start);
        front[to..to + n].copy_from_slice(&back[..n]);
    }
}

// Copies cells as `copy_within` does, to a higher place: part by part, beginning with the last part.
#[inline(never)]
fn copy_higher_by_parts(cells: &mut [Cell], start: usize, end: usize, to: usize)
    requires order { start ≤ end }
    requires room { to + (end - start) ≤ length cells.old }
    requires behind { start < to }
    ensures len { length cells.new ≡ length cells.old }
    ensures after { cells.new ≡ copy_within cells.old start end to }
{
    let part = (to - start).min(CELLS_IN_A_PART);
    let mut left = end - start;
    while left > 0 {
        let last = left;
        left -= part.min(left);
        copy_disjoint(cells, start + left, start + last, to + left);
    }
}

// Copies cells as `copy_within` does, to a lower place: part by part, beginning with the first part.
#[inline(never)]
fn copy_lower_by_parts(cells: &mut [Cell], start: usize, end: usize, to: usize)
    requires order { start ≤ end }
    requires within { end ≤ length cells.old }
    requires before { to < start }
    ensures len { length cells.new ≡ length cells.old }
    ensures after { cells.new ≡ copy_within cells.old start end to }
{
    let part = (start - to).min(CELLS_IN_A_PART);
    let all = end - start;
    let mut done = 0;
    while done < all {
        let first = done;
        done += part.min(all - done);
        copy_disjoint(cells, start + first, start + done, to + first);
    }
}

// Copies cells as `copy_within` does. A short copy to a higher place apart needs no call.
#[inline(always)]
pub(crate) fn copy_mostly_apart(cells: &mut [Cell], start: usize, end: usize, to: usize)
    requires order { start ≤ end }
    requires within { end ≤ length cells.old }
    requires room { to + (end - start) ≤ length cells.old }
    ensures len { length cells.new ≡ length cells.old }
    ensures after { cells.new ≡ copy_within cells.old start end to }
{
    if end <= to && end - start <= MOST_INLINE {
        copy_short::<HIGHER>(cells, start, end - start, to);
    } else {
        copy_cells(cells, start, end, to);
    }
}

// Copies cells as `copy_within` does, to a higher place. A few blocks need no call.
#[inline(always)]
pub(crate) fn copy_higher(cells: &mut [Cell], start: usize, end: usize, to: usize)
    requires order { start ≤ end }
    requires behind { start ≤ to }
    requires room { to + (end - start) ≤ length cells.old }
    ensures len { length cells.new ≡ length cells.old }
    ensures after { cells.new ≡ copy_within cells.old start end to }
{
    let n = end - start;
    if n >= BLOCK && n <= MOST_OVERLAPPING_BY_BLOCKS && to - start >= BLOCK {
        copy_higher_by_blocks(cells, start, n, to);
    } else {
        copy_cells(cells, start, end, to);
    }
}

// Copies `n` cells as `copy_within` does, to a place that is a block higher or more: block by block,
// beginning with the last. The first block may overlap the second; its cells aren't overwritten yet.
#[inline(always)]
fn copy_higher_by_blocks(cells: &mut [Cell], start: usize, n: usize, to: usize)
    requires some { 8 ≤ n }
    requires behind { start + 8 ≤ to }
    requires room { to + n ≤ length cells.old }
    ensures len { length cells.new ≡ length cells.old }
    ensures after { cells.new ≡ copy_within cells.old start (start + n) to }
{
    let mut left = n;
    while left > BLOCK {
        left -= BLOCK;
        copy_at_once::<BLOCK, HIGHER>(cells, start + left, to + left);
    }
    copy_at_once::<BLOCK, HIGHER>(cells, start, to);
}

// Copies `n` cells as `copy_within` does, to a place that is a block lower or more: block by block,
// beginning with the first. The last block may overlap the one before it; its cells aren't overwritten yet.
#[inline(always)]
fn copy_lower_by_blocks(cells: &mut [Cell], start: usize, n: usize, to: usize)
    requires some { 8 ≤ n }
    requires before { to + 8 ≤ start }
    requires within { start + n ≤ length cells.old }
    ensures len { length cells.new ≡ length cells.old }
    ensures after { cells.new ≡ copy_within cells.old start (start + n) to }
{
    let mut done = 0;
    while n - done > BLOCK {
        copy_at_once::<BLOCK, LOWER>(cells, start + done, to + done);
        done += BLOCK;
    }
    copy_at_once::<BLOCK, LOWER>(cells, start + (n - BLOCK), to + (n - BLOCK));
}

// Copies `n` cells as `copy_within` does, to a place apart, block by block.
#[inline(always)]
fn copy_by_blocks<const UP: bool>(cells: &mut [Cell], start: usize, n: usize, to: usize)
    requires some { 8 ≤ n }
    requires apart { IsApart UP start n to }
    requires within { start + n ≤ length cells.old }
    requires room { to + n ≤ length cells.old }
    ensures len { length cells.new ≡ length cells.old }
    ensures after { cells.new ≡ copy_within cells.old start (start + n) to }
{
    if UP {
        copy_higher_by_blocks(cells, start, n, to);
    } else {
        copy_lower_by_blocks(cells, start, n, to);
    }
}

// Copies `n` cells as `copy_within` does, to a place apart. Up to `MOST_INLINE` need no call.
#[inline(always)]
pub(crate) fn copy_apart<const UP: bool>(cells: &mut [Cell], start: usize, n: usize, to: usize)
    requires apart { IsApart UP start n to }
    requires within { start + n ≤ length cells.old }
    requires room { to + n ≤ length cells.old }
    ensures len { length cells.new ≡ length cells.old }
    ensures after { cells.new ≡ copy_within cells.old start (start + n) to }
{
    if n > MOST_INLINE {
        copy_long(cells, start, start + n, to);
    } else {
        copy_short::<UP>(cells, start, n, to);
    }
}

// Copies `n` cells as `copy_within` does, to a place apart, without a call: by blocks, or by two halves where
// they are fewer than two.
#[inline(always)]
pub(crate) fn copy_short<const UP: bool>(cells: &mut [Cell], start: usize, n: usize, to: usize)
    requires apart { IsApart UP start n to }
    requires within { start + n ≤ length cells.old }
    requires room { to + n ≤ length cells.old }
    ensures len { length cells.new ≡ length cells.old }
    ensures after { cells.new ≡ copy_within cells.old start (start + n) to }
{
    if n > 2 * BLOCK {
        copy_by_blocks::<UP>(cells, start, n, to);
    } else if n >= BLOCK {
        copy_by_halves::<BLOCK, UP>(cells, start, n, to);
    } else if n >= 4 {
        copy_by_halves::<4, UP>(cells, start, n, to);
    } else if n >= 2 {
        copy_by_halves::<2, UP>(cells, start, n, to);
    } else if n == 1 {
        copy_at_once::<1, UP>(cells, start, to);
    }
}

// Copies `n` cells as `copy_within` does, to a place apart: the first `HALF` cells, then the last `HALF`,
// which may overlap them.
#[inline(always)]
fn copy_by_halves<const HALF: usize, const UP: bool>(
    cells: &mut [Cell],
    start: usize,
    n: usize,
    to: usize,
)
    requires some { HALF ≤ n }
    requires few { n ≤ HALF + HALF }
    requires apart { IsApart UP start n to }
    requires within { start + n ≤ length cells.old }
    requires room { to + n ≤ length cells.old }
    ensures len { length cells.new ≡ length cells.old }
    ensures after { cells.new ≡ copy_within cells.old start (start + n) to }
{
    copy_at_once::<HALF, UP>(cells, start, to);
    copy_at_once::<HALF, UP>(cells, start + (n - HALF), to + (n - HALF));
}

// Copies `N` cells as `copy_within` does, to a place apart, all at once.
#[inline(always)]
pub(crate) fn copy_at_once<const N: usize, const UP: bool>(
    cells: &mut [Cell],
    start: usize,
    to: usize,
)
    requires apart { IsApart UP start N to }
    requires within { start + N ≤ length cells.old }
    requires room { to + N ≤ length cells.old }
    ensures len { length cells.new ≡ length cells.old }
    ensures after { cells.new ≡ copy_within cells.old start (start + N) to }
{
    if UP {
        let (front, back) = cells.split_at_mut(to);
        put_at_once::<N>(&front[start..start + N], &mut back[..N]);
    } else {
        let (front, back) = cells.split_at_mut(start);
        put_at_once::<N>(&back[..N], &mut front[to..to + N]);
    }
}

// Copies `N` cells over as many, all at once.
#[inline(always)]
fn put_at_once<const N: usize>(from: &[Cell], to: &mut [Cell])
    requires from { length from.now ≡ N }
    requires to { length to.old ≡ N }
    ensures { to.new ≡ from.now }
{
    if let Some(place) = to.as_mut_array::<N>() {
        if let Some(cells) = from.as_array::<N>() {
            *place = *cells;
        }
    }
}
