//! The strings of a machine as numbers, and what else it shows of itself.
ghost use Rattle.std.specs.Prelude.{◌≡◌, ◌-◌, ◌≤◌, drop, length, take};
ghost use Rattle.trac_language.specs.Store.{cells};
ghost use Rattle.trac_language.specs.State.{size};
ghost use Rattle.trac_language.specs.Rule.{rule};
ghost use Rattle.trac_space.specs.Texts.{text_of_cells};
ghost use Rattle.trac_functions.specs.Flat.{neutral_of};
ghost use Rattle.trac_core.specs.OpenCalls.{call_places, next_texts};
ghost use Rattle.trac_core.specs.Session.{awaited, next_function};
ghost use Rattle.trac_core.specs.View.{neutral_in, row_of};
ghost use Rattle.trac_c.specs.Buffers.{Lays, laid};
ghost use Rattle.trac_c.specs.View.{codes_of_neutral, cell_code, rule_number, awaits_number};
ghost use Rattle.trac_c.specs.View.{part_cells, mark_code, comma_code, is_open_after, has_call};
ghost use Rattle.trac_core.specs.View.{dropped, steps_before_call, taken};

use trac_core::{Awaits, Cell, Machine, ScanningRule};
use trac_image::put;
use trac_space::{Mode, character_of};

/// Puts the active string from a place on to the front of a buffer, as much as fits, and gives how
/// long that part is.
pub(crate) fn lay_active(machine: &Machine<'static>, from: usize, room: &mut [u32]) -> usize
    ensures { Lays (drop from machine.now.memory.active) result room.old room.new }
{
    lay_characters(cells_from(machine.active(), from), room)
}

/// The cells from a place on, none where the string ends before it.
pub(crate) fn cells_from(cells: &[Cell], from: usize) -> &[Cell]
    ensures { result.now ≡ drop from cells.now }
{
    &cells[from.min(cells.len())..]
}

/// Puts characters to the front of a buffer, as many as fit, and gives how many there are.
fn lay_characters(cells: &[Cell], room: &mut [u32]) -> usize
    ensures length { result ≡ length (text_of_cells cells.now) }
    ensures laid { room.new ≡ laid (text_of_cells cells.now) room.old }
{
    for i in 0..cells.len().min(room.len()) {
        put(u32::from(character_of(&cells[i])), i, room);
    }
    cells.len()
}

/// Puts the codes of the neutral string from a place on to the front of a buffer, as many as fit, and
/// gives how many there are from there on.
pub(crate) fn lay_neutral(machine: &Machine<'static>, from: usize, room: &mut [u32]) -> usize
    ensures { Lays (drop from (codes_of_neutral (neutral_in machine.now.memory))) result room.old
        room.new }
{
    lay_marks(machine.neutral(), from, room)
}

/// Puts the codes of the cells of a neutral string to the front of a buffer, as far as it reaches, and
/// gives how many codes these cells have. A comma mark outside all calls, where none ever stands,
/// counts as a character.
fn lay_marks(cells: &[Cell], from: usize, room: &mut [u32]) -> usize
    ensures length { result ≡ length (drop from (codes_of_neutral (neutral_of cells.now))) }
    ensures laid { room.new ≡ laid (drop from (codes_of_neutral (neutral_of cells.now))) room.old }
{
    if from > cells.len() {
        return 0;
    }
    let mut in_call = is_open_before(cells, from);
    let count = cells.len() - from;
    for i in 0..count.min(room.len()) {
        let cell = cells[from + i];
        put(code(cell, in_call), i, room);
        in_call = is_in_call(cell, in_call);
    }
    count
}

/// Puts the places at which the marks of the open calls stand in the neutral string to the front of a
/// buffer, that of the innermost first, as many as fit, and gives how many calls are open. Goes from mark to
/// mark and looks at no text.
pub(crate) fn lay_calls(machine: &Machine<'static>, room: &mut [u32]) -> usize
    ensures { Lays (call_places (neutral_in machine.now.memory)) result room.old room.new }
{
    let _size: u32 = machine.size();
    let mut count = 0;
    let mut mark = None;
    while let Some(place) = machine.mark_around(mark) {
        put(place, count, room);
        count += 1;
        mark = Some(place);
    }
    count
}

/// Whether a call is open in front of a place of the neutral string.
fn is_open_before(cells: &[Cell], place: usize) -> bool
    requires { place ≤ length cells.now }
    ensures { result ≡ has_call (neutral_of (take place cells.now)).calls }
{
    for i in 0..place {
        if is_in_call(cells[i], false) {
            return true;
        }
    }
    false
}

/// Whether a call is open behind a cell of the neutral string.
fn is_in_call(cell: Cell, in_call: bool) -> bool
    ensures { result ≡ is_open_after cell in_call }
{
    match cell {
        Cell::Call(_, _) => true,
        _ => in_call,
    }
}

/// The code of a cell of the neutral string.
fn code(cell: Cell, in_call: bool) -> u32
    ensures { result ≡ cell_code in_call cell }
{
    match cell {
        Cell::Byte(byte) => u32::from(byte),
        Cell::Call(mode, _) => mark_code(mode),
        Cell::Comma => comma_code(in_call),
        Cell::Gap(_) => 0,
        Cell::Head(_) => 0,
    }
}

/// The code of the mark of a call.
fn mark_code(mode: Mode) -> u32
    ensures { result ≡ mark_code mode }
{
    match mode {
        Mode::Active => 256,
        Mode::Neutral => 257,
    }
}

/// The code of a comma mark.
fn comma_code(in_call: bool) -> u32
    ensures { result ≡ comma_code in_call }
{
    if in_call { 258 } else { u32::from(b',') }
}

/// How many arguments the call has that the next step performs, its name counted.
pub(crate) fn argument_count(machine: &Machine<'static>) -> usize
    ensures { result ≡ length (next_texts machine.now) }
{
    machine.argument_count() as usize
}

/// The number of the rule that the next step follows, in the order of the table of rules.
pub(crate) fn rule_number(machine: &Machine<'static>) -> u32
    ensures { result ≡ rule_number (row_of (rule machine.now.memory.active)) }
{
    match machine.next_rule() {
        ScanningRule::Idling => 0,
        ScanningRule::Layout => 1,
        ScanningRule::Protection => 2,
        ScanningRule::Argument => 3,
        ScanningRule::ActiveCall => 4,
        ScanningRule::NeutralCall => 5,
        ScanningRule::NumberSign => 6,
        ScanningRule::EndOfCall => 7,
        ScanningRule::Character => 8,
    }
}

/// The number of what the next step reads.
pub(crate) fn awaits_number(machine: &Machine<'static>) -> u32
    ensures { result ≡ awaits_number (awaited (next_function machine.now)) }
{
    match machine.awaits() {
        Awaits::Nothing => 0,
        Awaits::Text => 1,
        Awaits::Byte => 2,
    }
}

/// The meta character.
pub(crate) fn meta(machine: &Machine<'static>) -> u32
    ensures { result ≡ machine.now.memory.meta }
{
    u32::from(machine.meta())
}

/// How many characters the next step takes from the active string.
pub(crate) fn takes(machine: &Machine<'static>) -> usize
    ensures { let active = machine.now.memory.active in result ≡ taken (rule active) (length active) }
{
    machine.takes() as usize
}

/// How many characters the next step drops, since its left parenthesis has no match.
pub(crate) fn drops(machine: &Machine<'static>) -> usize
    ensures { let active = machine.now.memory.active in result ≡ dropped (rule active) (length active) }
{
    machine.drops() as usize
}

/// How many steps come before the next one that may perform a call or loads the idling procedure, at
/// most `most`.
pub(crate) fn steps_to_call(machine: &Machine<'static>, most: u64) -> u64
    ensures { result ≡ steps_before_call most machine.now.memory.active }
{
    machine.steps_to_call(most)
}

/// The cells of a part of the block.
pub(crate) fn part(machine: &Machine<'static>, which: u32) -> usize
    ensures { result ≡ part_cells which machine.now }
{
    match which {
        0 => store_cells(machine),
        1 => neutral_cells(machine),
        2 => free_cells(machine),
        3 => machine.active().len(),
        _ => 0,
    }
}

/// The cells of the store of forms.
fn store_cells(machine: &Machine<'static>) -> usize
    ensures { result ≡ cells machine.now.memory.forms }
{
    let rest = (machine.size() as usize).saturating_sub(machine.active().len());
    rest.saturating_sub(neutral_cells(machine))
}

/// The cells of the neutral string.
fn neutral_cells(machine: &Machine<'static>) -> usize
    ensures { result ≡ length (codes_of_neutral (neutral_in machine.now.memory)) }
{
    machine.neutral().len()
}

/// The cells that are free.
fn free_cells(machine: &Machine<'static>) -> usize
    ensures { result ≡ machine.now.room - size machine.now.memory }
{
    (machine.room() as usize).saturating_sub(machine.size() as usize)
}
