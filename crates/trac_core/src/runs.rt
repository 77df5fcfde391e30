//! Runs of characters that follow one rule, which are scanned at once.
ghost use Rattle.std.specs.Prelude.{◌≡◌, ℕ, ◌+◌, ◌≤◌, ◌<◌, All, drop, length, sum_by, take};
ghost use Rattle.std.specs.Prelude.{MatchOption, None, Some};
ghost use Rattle.trac_language.specs.Protected.{protected};
ghost use Rattle.trac_language.specs.Rule.{is_layout};
ghost use Rattle.trac_space.specs.Texts.{IsByte, text_of_cells};
ghost use Rattle.trac_core.specs.Matching.{IsAt, side_in};
ghost use Rattle.trac_core.specs.StepsInRow.{is_special, kind_in, IsLayout, IsOrdinary};

use crate::rules::{ScanningRule, rule_by_first};
use trac_space::{Cell, byte_in};

/// For each byte 1 where it is a comma, 2 where it has another rule of its own, and else 0.
pub(crate) const KINDS: &[u8; 256] = b"\
    \0\0\0\0\0\0\0\0\0\x02\x02\0\0\x02\0\0\0\0\0\0\0\0\0\0\0\0\0\0\0\0\0\0\
    \0\0\0\x02\0\0\0\0\x02\x02\0\0\x01\0\0\0\0\0\0\0\0\0\0\0\0\0\0\0\0\0\0\0\
    \0\0\0\0\0\0\0\0\0\0\0\0\0\0\0\0\0\0\0\0\0\0\0\0\0\0\0\0\0\0\0\0\
    \0\0\0\0\0\0\0\0\0\0\0\0\0\0\0\0\0\0\0\0\0\0\0\0\0\0\0\0\0\0\0\0\
    \0\0\0\0\0\0\0\0\0\0\0\0\0\0\0\0\0\0\0\0\0\0\0\0\0\0\0\0\0\0\0\0\
    \0\0\0\0\0\0\0\0\0\0\0\0\0\0\0\0\0\0\0\0\0\0\0\0\0\0\0\0\0\0\0\0\
    \0\0\0\0\0\0\0\0\0\0\0\0\0\0\0\0\0\0\0\0\0\0\0\0\0\0\0\0\0\0\0\0\
    \0\0\0\0\0\0\0\0\0\0\0\0\0\0\0\0\0\0\0\0\0\0\0\0\0\0\0\0\0\0\0\0";

/// For each byte 1 where it is a left parenthesis, 16 where it is a right one, and else 0.
const SIDES: &[u8; 256] = b"\
    \0\0\0\0\0\0\0\0\0\0\0\0\0\0\0\0\0\0\0\0\0\0\0\0\0\0\0\0\0\0\0\0\
    \0\0\0\0\0\0\0\0\x01\x10\0\0\0\0\0\0\0\0\0\0\0\0\0\0\0\0\0\0\0\0\0\0\
    \0\0\0\0\0\0\0\0\0\0\0\0\0\0\0\0\0\0\0\0\0\0\0\0\0\0\0\0\0\0\0\0\
    \0\0\0\0\0\0\0\0\0\0\0\0\0\0\0\0\0\0\0\0\0\0\0\0\0\0\0\0\0\0\0\0\
    \0\0\0\0\0\0\0\0\0\0\0\0\0\0\0\0\0\0\0\0\0\0\0\0\0\0\0\0\0\0\0\0\
    \0\0\0\0\0\0\0\0\0\0\0\0\0\0\0\0\0\0\0\0\0\0\0\0\0\0\0\0\0\0\0\0\
    \0\0\0\0\0\0\0\0\0\0\0\0\0\0\0\0\0\0\0\0\0\0\0\0\0\0\0\0\0\0\0\0\
    \0\0\0\0\0\0\0\0\0\0\0\0\0\0\0\0\0\0\0\0\0\0\0\0\0\0\0\0\0\0\0\0";

// How many characters of a run are looked at one by one before it is looked at by blocks.
const LOOKED_AT_ONE_BY_ONE: usize = 8;
// How many characters are looked at by one test of a table.
const BLOCK: usize = 8;
// What the table of parentheses says of a right one: more than of the left ones of a block together.
const RIGHT: u8 = 16;

/// How many layout characters begin the cells.
pub(crate) fn layout_characters(cells: &[Cell]) -> u32
    requires few { length cells.now ≤ 16777216 }
    requires bytes { All IsByte cells.now }
    ensures within { result ≤ length cells.now }
    ensures layout { All IsLayout (take result (text_of_cells cells.now)) }
{
    for (i, cell) in cells.iter().enumerate() {
        if !is_layout(byte_in(cell)) {
            return i as u32;
        }
    }
    cells.len() as u32
}

/// Whether a character is a tab, a line feed or a carriage return, which the scanner deletes outside
/// parentheses.
#[inline]
pub fn is_layout(character: u8) -> bool
    ensures { result ≡ is_layout character }
{
    match rule_by_first(character) {
        ScanningRule::Layout => true,
        _ => false,
    }
}

/// How many ordinary characters begin the cells: the first few are looked at one by one, since most
/// runs are short.
pub(crate) fn ordinary_characters(cells: &[Cell]) -> u32
    requires few { length cells.now ≤ 16777216 }
    requires bytes { All IsByte cells.now }
    ensures within { result ≤ length cells.now }
    ensures ordinary { All IsOrdinary (take result (text_of_cells cells.now)) }
{
    let few = cells.len().min(LOOKED_AT_ONE_BY_ONE);
    match special_before(cells, 0, few) {
        Some(i) => i as u32,
        None => ordinary_run(cells, few),
    }
}

/// Where the first character with a rule of its own stands from a place on and before an end.
#[inline]
fn special_before(cells: &[Cell], from: usize, end: usize) -> Option<usize>
    requires few { length cells.now ≤ 16777216 }
    requires bytes { All IsByte cells.now }
    requires order { from ≤ end }
    requires end { end ≤ length cells.now }
    requires before { All IsOrdinary (take from (text_of_cells cells.now)) }
    ensures { MatchOption result
        (All IsOrdinary (take end (text_of_cells cells.now)))
        (λ i. (i < end) × All IsOrdinary (take i (text_of_cells cells.now))) }
{
    let mut i = from;
    while i < end {
        if is_special(byte_in(&cells[i])) {
            return Some(i);
        }
        i += 1;
    }
    None
}

/// Whether a character has a rule of its own.
#[inline]
fn is_special(character: u8) -> bool
    ensures { result ≡ is_special character }
{
    match rule_by_first(character) {
        ScanningRule::Character => false,
        _ => true,
    }
}

/// How many ordinary characters begin the cells, of which these are some.
#[inline(never)]
fn ordinary_run(cells: &[Cell], known: usize) -> u32
    requires few { length cells.now ≤ 16777216 }
    requires bytes { All IsByte cells.now }
    requires within { known ≤ length cells.now }
    requires before { All IsOrdinary (take known (text_of_cells cells.now)) }
    ensures within { result ≤ length cells.now }
    ensures ordinary { All IsOrdinary (take result (text_of_cells cells.now)) }
{
    let i = ordinary_blocks(cells, known);
    match special_before(cells, i, cells.len()) {
        Some(i) => i as u32,
        None => cells.len() as u32,
    }
}

/// How many ordinary characters begin the cells, of which these are some, counted by whole blocks. Two
/// blocks are looked at in a turn.
#[inline]
fn ordinary_blocks(cells: &[Cell], known: usize) -> usize
    requires few { length cells.now ≤ 16777216 }
    requires bytes { All IsByte cells.now }
    requires within { known ≤ length cells.now }
    requires before { All IsOrdinary (take known (text_of_cells cells.now)) }
    ensures within { result ≤ length cells.now }
    ensures ordinary { All IsOrdinary (take result (text_of_cells cells.now)) }
{
    let mut i = known;
    while cells.len() - i >= 2 * BLOCK {
        let first = kinds(cells, i);
        let second = kinds(cells, i + BLOCK);
        if first + second > 0 {
            return if first > 0 { i } else { i + BLOCK };
        }
        i += 2 * BLOCK;
    }
    if cells.len() - i >= BLOCK && kinds(cells, i) == 0 {
        i + BLOCK
    } else {
        i
    }
}

/// What the table says of the eight characters from a place on, in all.
#[inline(always)]
fn kinds(cells: &[Cell], i: usize) -> u8
    requires within { i + 8 ≤ length cells.now }
    requires bytes { All IsByte cells.now }
    ensures kinds { result ≡ sum_by kind_in (take 8 (drop i cells.now)) }
    ensures small { result ≤ 16 }
{
    // A slice of eight tells a compiler that doesn't know the contract that the places are there.
    let cells = &cells[i..i + 8];
    kind(&cells[0])
        + kind(&cells[1])
        + kind(&cells[2])
        + kind(&cells[3])
        + kind(&cells[4])
        + kind(&cells[5])
        + kind(&cells[6])
        + kind(&cells[7])
}

/// What the table says about the character of a cell.
#[inline]
fn kind(cell: &Cell) -> u8
    requires { IsByte cell.now }
    ensures kind { result ≡ kind_in cell.now }
    ensures small { result ≤ 2 }
{
    KINDS[usize::from(byte_in(cell))]
}

/// Where the right parenthesis stands that matches a left one before the cells.
pub(crate) fn matching(cells: &[Cell]) -> Option<u32>
    requires few { length cells.now ≤ 16777216 }
    requires bytes { All IsByte cells.now }
    ensures { let text = text_of_cells cells.now in
        MatchOption result
        (protected text ≡ None)
        (λ place. (place < length cells.now)
        × (protected text ≡ Some (take place text, drop (place + 1) text))) }
{
    let mut depth = 0u32;
    let mut i = 0;
    while cells.len() - i >= BLOCK {
        let found = sides(cells, i);
        if found > 0 {
            let rights = u32::from(found / RIGHT);
            // A block with no more right parentheses than are open has no match.
            if rights > depth {
                if let Some(place) = matching_among(cells, i, BLOCK, depth) {
                    return Some(place);
                }
            }
            depth = depth + u32::from(found % RIGHT) - rights;
        }
        i += BLOCK;
    }
    matching_among(cells, i, cells.len() - i, depth)
}

/// Where among `number` characters from a place on the right parenthesis stands that matches a left
/// one before all cells. Before that place `opened` left parentheses are open.
#[inline]
fn matching_among(cells: &[Cell], from: usize, number: usize, opened: u32) -> Option<u32>
    requires few { length cells.now ≤ 16777216 }
    requires bytes { All IsByte cells.now }
    requires within { from + number ≤ length cells.now }
    requires at { IsAt (text_of_cells cells.now) from opened }
    requires few_opened { opened ≤ from }
    ensures { let text = text_of_cells cells.now in
        MatchOption result
        ((depth : ℕ) × IsAt text (from + number) depth)
        (λ place. (place < length cells.now)
        × (protected text ≡ Some (take place text, drop (place + 1) text))) }
{
    let mut depth = opened;
    let mut count = 0;
    while count < number {
        let character = byte_in(&cells[from + count]);
        if character == b'(' {
            depth += 1;
        } else if character == b')' {
            if depth == 0 {
                return Some((from + count) as u32);
            }
            depth -= 1;
        }
        count += 1;
    }
    None
}

/// What the table of parentheses says of the eight characters from a place on, in all.
#[inline]
fn sides(cells: &[Cell], i: usize) -> u8
    requires within { i + 8 ≤ length cells.now }
    requires bytes { All IsByte cells.now }
    ensures { result ≡ sum_by side_in (take 8 (drop i cells.now)) }
{
    let cells = &cells[i..i + 8];
    side(&cells[0])
        + side(&cells[1])
        + side(&cells[2])
        + side(&cells[3])
        + side(&cells[4])
        + side(&cells[5])
        + side(&cells[6])
        + side(&cells[7])
}

/// What that table says about the character of a cell.
#[inline]
fn side(cell: &Cell) -> u8
    requires { IsByte cell.now }
    ensures side { result ≡ side_in cell.now }
    ensures small { result ≤ 16 }
{
    SIDES[usize::from(byte_in(cell))]
}
