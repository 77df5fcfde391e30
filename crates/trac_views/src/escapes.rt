//! Texts as the views show them: whole characters of UTF-8 as they are, everything else escaped,
//! and long texts cut in the middle. All of it is this processor's own choice.
ghost use Rattle.std.specs.Prelude.{◌≡◌, ◌++◌, ◌≤◌, OnOk, length};
ghost use Rattle.std.specs.List.{flat_map};
ghost use Rattle.trac_space.specs.Texts.{text_of_cells};
ghost use Rattle.trac_views.specs.Shown.{begins_character, character_length, cut_text, fits};
ghost use Rattle.trac_views.specs.Shown.{is_whole, left_at, opening_text, raw_cell, shown_byte};
ghost use Rattle.trac_views.specs.Shown.{begin_of_tail, end_of_head, goes_on, shown_text, step_back};
ghost use Rattle.trac_views.specs.Shown.{step_on, turns_direction};

use crate::lines::{push, push_byte};
use std::alloc::{AllocError, Allocator};
use std::str;
use trac_core::Cell;
use trac_space::{Mode, character_of};

/// Adds a text. Of one that is longer than `width` bytes, adds the first and the last half of that
/// many, with two full stops between, and leaves out a character that would be cut. A width of 0
/// sets no bound. Fails only if memory runs out.
pub fn push_cut<A: Allocator>(
    line: &mut Vec<u8, A>,
    bytes: &[u8],
    width: u32,
) -> Result<(), AllocError>
    ensures { OnOk result (line.new.items ≡ line.old.items ++ cut_text width bytes.now) }
{
    let width = width as usize;
    if fits(width, bytes.len()) {
        return push_text(line, bytes);
    }
    let half = width / 2;
    let head = end_of_head(bytes, width - half);
    let tail = begin_of_tail(bytes, bytes.len() - half);
    push_text(line, &bytes[..head])?;
    push(line, b" .. ")?;
    push_text(line, &bytes[tail..])
}

// Where the first half of a text ends: at this place, or up to three bytes before it if a character
// stands across it.
#[tactic(auto, unfolding(crate::specs::Shown::end_of_head))]
fn end_of_head(bytes: &[u8], place: usize) -> usize
    ensures value { result ≡ end_of_head bytes.now place }
    ensures order { result ≤ place }
{
    step_back(bytes, step_back(bytes, step_back(bytes, place)))
}

// Where the last half of a text begins: at this place, or up to three bytes behind it.
#[tactic(auto, unfolding(crate::specs::Shown::begin_of_tail))]
fn begin_of_tail(bytes: &[u8], place: usize) -> usize
    requires { place ≤ length bytes.now }
    ensures value { result ≡ begin_of_tail bytes.now place }
    ensures within { result ≤ length bytes.now }
{
    step_on(bytes, step_on(bytes, step_on(bytes, place)))
}

// The place before this one if the byte here continues a character, else this place.
fn step_back(bytes: &[u8], place: usize) -> usize
    ensures value { result ≡ step_back bytes.now place }
    ensures order { result ≤ place }
{
    if goes_on(bytes, place) {
        place.saturating_sub(1)
    } else {
        place
    }
}

// The place behind this one if the byte here continues a character, else this place.
fn step_on(bytes: &[u8], place: usize) -> usize
    requires { place ≤ length bytes.now }
    ensures value { result ≡ step_on bytes.now place }
    ensures within { result ≤ length bytes.now }
{
    if place < bytes.len() && goes_on(bytes, place) {
        place + 1
    } else {
        place
    }
}

// Whether the byte at a place continues a character of UTF-8. False past the end.
fn goes_on(bytes: &[u8], place: usize) -> bool
    ensures { result ≡ goes_on bytes.now place }
{
    if place < bytes.len() {
        128 <= bytes[place] && bytes[place] < 192
    } else {
        false
    }
}

// Whether a text of `len` bytes needs no cut.
fn fits(width: usize, len: usize) -> bool
    ensures { result ≡ fits width len }
{
    width == 0 || len <= width
}

/// Adds a text: visible ASCII and whole characters of UTF-8 as they are, except control characters.
/// Escapes each other byte, as in the lines of steps. Fails only if memory runs out.
pub fn push_text<A: Allocator>(line: &mut Vec<u8, A>, bytes: &[u8]) -> Result<(), AllocError>
    ensures { OnOk result (line.new.items ≡ line.old.items ++ shown_text bytes.now) }
{
    let mut left = 0;
    for place in 0..bytes.len() {
        left = left_at(left, &bytes[place..]);
        push_shown(line, bytes[place], left)?;
        left = left.saturating_sub(1);
    }
    Ok(())
}

// How many bytes of a whole character are left from the first of these bytes on: of the character
// that was begun before, or else of the one that begins here.
#[tactic(auto, unfolding(crate::specs::Shown::left_at))]
fn left_at(left: u32, bytes: &[u8]) -> u32
    ensures { result ≡ left_at left bytes.now }
{
    if left == 0 {
        character_len(bytes)
    } else {
        left
    }
}

// Adds a byte: as it is inside a whole character, else escaped.
fn push_shown<A: Allocator>(line: &mut Vec<u8, A>, byte: u8, left: u32) -> Result<(), AllocError>
    ensures { OnOk result (line.new.items ≡ line.old.items ++ shown_byte left byte) }
{
    if left == 0 {
        push_byte(line, byte)
    } else {
        line.extend_from_slice(&[byte])
    }
}

/// The length in bytes of the first character, if it is a whole character of UTF-8 beyond ASCII and
/// no control character; else 0.
pub fn character_len(bytes: &[u8]) -> u32
    ensures { result ≡ character_length bytes.now }
{
    if !begins_character(bytes) {
        0
    } else if is_whole(bytes, 2) {
        2
    } else if is_whole(bytes, 3) {
        3
    } else if is_whole(bytes, 4) {
        4
    } else {
        0
    }
}

// Whether a character beyond ASCII that is no control character can begin with these bytes.
fn begins_character(bytes: &[u8]) -> bool
    ensures { result ≡ begins_character bytes.now }
{
    match *bytes {
        [] => false,
        [0xc2, second, ..] if second < 0xa0 => false,
        [first, ..] => first >= 128 && !turns_direction(bytes),
    }
}

// Whether a control of the writing direction stands first, which would show the line in another
// order.
fn turns_direction(bytes: &[u8]) -> bool
    ensures { result ≡ turns_direction bytes.now }
{
    match *bytes {
        [0xd8, 0x9c, ..] => true,
        [0xe2, 0x80, third, ..] => third == 0x8e
            || third == 0x8f
            || (third >= 0xaa && third <= 0xae),
        [0xe2, 0x81, third, ..] => third >= 0xa6 && third <= 0xa9,
        _ => false,
    }
}

// Whether the first `len` bytes are UTF-8.
fn is_whole(bytes: &[u8], len: usize) -> bool
    ensures { result ≡ is_whole len bytes.now }
{
    if bytes.len() < len {
        return false;
    }
    str::from_utf8(&bytes[..len]).is_ok()
}

/// Adds cells as the views show them, cut to `width` bytes as by `push_cut`. Fails only if memory runs out.
pub fn push_cells_cut<A: Allocator + Copy>(
    line: &mut Vec<u8, A>,
    alloc: A,
    cells: &[Cell],
    width: u32,
) -> Result<(), AllocError>
    ensures { OnOk result (line.new.items ≡
        line.old.items ++ cut_text width (flat_map raw_cell cells.now)) }
{
    let mut bytes = Vec::new(alloc);
    push_raw(&mut bytes, cells)?;
    push_cut(line, bytes.as_slice(), width)
}

/// Adds the bytes of cells of the neutral string. A comma mark is shown in angle brackets; a call
/// mark adds nothing. Fails only if memory runs out.
pub fn push_raw<A: Allocator>(bytes: &mut Vec<u8, A>, cells: &[Cell]) -> Result<(), AllocError>
    ensures { OnOk result (bytes.new.items ≡ bytes.old.items ++ flat_map raw_cell cells.now) }
{
    for cell in cells {
        push_raw_cell(bytes, cell)?;
    }
    Ok(())
}

// Adds the bytes of a cell.
fn push_raw_cell<A: Allocator>(bytes: &mut Vec<u8, A>, cell: &Cell) -> Result<(), AllocError>
    ensures { OnOk result (bytes.new.items ≡ bytes.old.items ++ raw_cell cell.now) }
{
    match *cell {
        Cell::Byte(byte) => bytes.extend_from_slice(&[byte]),
        Cell::Comma => bytes.extend_from_slice(b"<,>"),
        Cell::Call(_, _) | Cell::Gap(_) | Cell::Head(_) => Ok(()),
    }
}

/// Adds a text that cells hold, cut to `width` bytes as by `push_cut`. Fails only if memory runs out.
pub fn push_name<A: Allocator + Copy>(
    line: &mut Vec<u8, A>,
    alloc: A,
    cells: &[Cell],
    width: u32,
) -> Result<(), AllocError>
    ensures { OnOk result (line.new.items ≡
        line.old.items ++ cut_text width (text_of_cells cells.now)) }
{
    let mut bytes = Vec::new(alloc);
    push_characters(&mut bytes, cells)?;
    push_cut(line, bytes.as_slice(), width)
}

// Adds the characters of cells.
fn push_characters<A: Allocator>(bytes: &mut Vec<u8, A>, cells: &[Cell]) -> Result<(), AllocError>
    ensures { OnOk result (bytes.new.items ≡ bytes.old.items ++ text_of_cells cells.now) }
{
    for cell in cells {
        bytes.push(character_of(cell))?;
    }
    Ok(())
}

/// The characters with which a call of this mode begins (Mooers 1966).
pub fn opening(mode: Mode) -> &'static [u8]
    ensures { result.now ≡ opening_text mode }
{
    match mode {
        Mode::Active => b"#(",
        Mode::Neutral => b"##(",
    }
}
