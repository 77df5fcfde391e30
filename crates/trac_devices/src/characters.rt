//! Characters of cells, as bytes.
ghost use Rattle.std.specs.Prelude.{◌≡◌, ◌≤◌, ◌<◌, ◌+◌, ℕ, All, length, slice_index, slice_range};
ghost use Rattle.trac_devices.specs.Characters.{AreWritten};
ghost use Rattle.trac_space.specs.Texts.{text_of_cells, IsByte};

use std::marker::Model;
use trac_space::{Cell, byte_in, character_of};

/// A text in cells, each of which is a character.
#[derive(Drop)]
pub struct Characters<'a> {
    cells: &'a [Cell],
}

impl<'a> Model for Characters<'a> {
    ghost use Rattle.std.specs.Prelude.{All};
    ghost use Rattle.trac_language.specs.Text.{Text};
    ghost use Rattle.trac_space.specs.Texts.{text_of_cells, IsByte};

    ghost Value = { Text };

    ghost view = { λ text. text_of_cells text.cells.now };

    ghost invariant = { λ text. All IsByte text.cells.now };
}

impl<'a> Characters<'a> {
    /// The text of cells that are all characters.
    #[inline]
    pub fn new(cells: &'a [Cell]) -> Characters<'a>
        requires { All IsByte cells.now }
        ensures { result ≡ text_of_cells cells.now }
    {
        Characters { cells }
    }

    /// How many characters the text has.
    #[inline]
    pub fn len(&self) -> usize
        ensures { result ≡ length self.now }
    {
        self.cells.len()
    }

    /// The character at place `i`.
    #[inline]
    pub fn at(&self, i: usize) -> u8
        requires { i < length self.now }
        ensures { result ≡ slice_index self.now i }
    {
        let cells = self.cells;
        byte_in(&cells[i])
    }

    /// The characters from place `a` up to `b`.
    #[inline]
    pub fn part(&self, a: usize, b: usize) -> Characters<'a>
        requires order { a ≤ b }
        requires within { b ≤ length self.now }
        ensures { result ≡ slice_range self.now a b }
    {
        let cells = self.cells;
        Characters {
            cells: &cells[a..b],
        }
    }

    /// Writes the characters over as many bytes. Use it in a sink that has a buffer.
    pub fn write(&self, bytes: &mut [u8])
        requires { length self.now ≡ length bytes.old }
        ensures { bytes.new ≡ self.now }
    {
        write_all(self.cells, bytes);
    }
}

/// Writes the characters of cells over as many bytes, and 0 for a cell that is no character.
pub fn write_characters(text: &[Cell], bytes: &mut [u8])
    requires { length text.now ≡ length bytes.old }
    ensures { bytes.new ≡ text_of_cells text.now }
{
    let mut i = 0;
    while i < text.len() {
        write_character(text, bytes, i);
        i += 1;
    }
}

// Writes the character of cell `i` over byte `i`.
#[inline]
fn write_character(text: &[Cell], bytes: &mut [u8], i: usize)
    requires within { i < length text.now }
    requires same { length text.now ≡ length bytes.old }
    ensures written { (next : ℕ) → next ≡ i + 1 → AreWritten i text.now bytes.old →
        AreWritten next text.now bytes.new }
    ensures same { length bytes.new ≡ length bytes.old }
{
    bytes[i] = character_of(&text[i]);
}

// Writes characters over as many bytes.
fn write_all(text: &[Cell], bytes: &mut [u8])
    requires characters { All IsByte text.now }
    requires same { length text.now ≡ length bytes.old }
    ensures { bytes.new ≡ text_of_cells text.now }
{
    let mut i = write_blocks(text, bytes);
    while i < text.len() {
        write_byte(text, bytes, i);
        i += 1;
    }
}

// Writes characters over as many bytes, but only whole blocks of eight, two at a time. Gives how many bytes it
// wrote.
#[inline]
fn write_blocks(text: &[Cell], bytes: &mut [u8]) -> usize
    requires characters { All IsByte text.now }
    requires same { length text.now ≡ length bytes.old }
    ensures within { result ≤ length text.now }
    ensures written { AreWritten result text.now bytes.new }
{
    let mut i = 0;
    while text.len() - i >= 16 {
        write_block(text, bytes, i);
        write_block(text, bytes, i + 8);
        i += 16;
    }
    if text.len() - i < 8 {
        return i;
    }
    write_block(text, bytes, i);
    i + 8
}

// Writes the eight characters from cell `i` on over their bytes.
#[inline(always)]
fn write_block(text: &[Cell], bytes: &mut [u8], i: usize)
    requires within { i + 8 ≤ length text.now }
    requires characters { All IsByte text.now }
    requires same { length text.now ≡ length bytes.old }
    ensures written { (next : ℕ) → next ≡ i + 8 → AreWritten i text.now bytes.old →
        AreWritten next text.now bytes.new }
    ensures same { length bytes.new ≡ length bytes.old }
{
    // Slices of eight tell a compiler that doesn't know the contract that the places are there.
    let cells = &text[i..i + 8];
    let block = &mut bytes[i..i + 8];
    write_byte(cells, block, 0);
    write_byte(cells, block, 1);
    write_byte(cells, block, 2);
    write_byte(cells, block, 3);
    write_byte(cells, block, 4);
    write_byte(cells, block, 5);
    write_byte(cells, block, 6);
    write_byte(cells, block, 7);
}

// Writes the character of cell `i`, which is one, over byte `i`.
#[inline(always)]
fn write_byte(text: &[Cell], bytes: &mut [u8], i: usize)
    requires within { i < length text.now }
    requires characters { All IsByte text.now }
    requires same { length text.now ≡ length bytes.old }
    ensures written { (next : ℕ) → next ≡ i + 1 → AreWritten i text.now bytes.old →
        AreWritten next text.now bytes.new }
    ensures same { length bytes.new ≡ length bytes.old }
{
    bytes[i] = byte_in(&text[i]);
}
