//! The lines on a machine whose run a fault ended. They are this processor's own choice.
ghost use Rattle.std.specs.Prelude.{◌≡◌, ◌++◌, OnOk, count_by};
ghost use Rattle.std.specs.List.{position_or_len};
ghost use Rattle.trac_space.specs.Cells.{is_call};
ghost use Rattle.trac_views.specs.CallLines.{around_text, is_fault, open_calls_text, open_text};
ghost use Rattle.trac_views.specs.CallLines.{opened_text};
ghost use Rattle.trac_views.specs.Faults.{AddsFault, parts_of};
ghost use Rattle.trac_views.specs.CallLines.{open_line, parts_text, place_text, skip_behind, where_text};

use crate::escapes::{opening, push_cells_cut};
use crate::largest::push_largest_forms;
use crate::lines::{push, push_number};
use std::alloc::{AllocError, Allocator};
use trac_core::{Cell, Fate, Machine};
use trac_events::Place;
use trac_space::Mode;

// How many open calls are shown at most.
const MOST_CALLS: usize = 5;

/// Whether a run with this fate ended by a fault.
pub fn is_fault(fate: Fate) -> bool
    ensures { result ≡ is_fault fate }
{
    match fate {
        Fate::Halted | Fate::InputEnded => false,
        Fate::Workspace | Fate::Steps | Fate::InputFailed | Fate::OutputFailed => true,
    }
}

/// Adds the lines on a fault: the step that was not done, where the string that was read last
/// began, the innermost open calls, the largest forms, and the cells of each part of the block.
/// Fails only if memory runs out.
#[inline(never)]
pub fn push_fault<A: Allocator + Copy>(
    lines: &mut Vec<u8, A>,
    alloc: A,
    machine: &Machine,
    string: Place,
    width: u32,
) -> Result<(), AllocError>
    ensures { OnOk result (AddsFault width string machine.now lines.old.items lines.new.items) }
{
    let neutral = machine.neutral();
    push_where(lines, machine.steps().saturating_add(1), string)?;
    push_open_calls(lines, alloc, neutral, width)?;
    push_largest_forms(lines, alloc, machine, width)?;
    push_parts(lines, &Parts::of(machine, neutral.len()))
}

// Adds the line of the step that was not done, and of where the string that was read last began.
fn push_where<A: Allocator>(
    lines: &mut Vec<u8, A>,
    step: u64,
    string: Place,
) -> Result<(), AllocError>
    ensures { OnOk result (lines.new.items ≡ lines.old.items ++ where_text step string) }
{
    push(lines, b"at step ")?;
    push_number(lines, step)?;
    push(lines, b", in the string that begins at ")?;
    push_place(lines, string)?;
    push(lines, b"\n")
}

/// Adds a place in the input. Fails only if memory runs out.
pub fn push_place<A: Allocator>(lines: &mut Vec<u8, A>, place: Place) -> Result<(), AllocError>
    ensures { OnOk result (lines.new.items ≡ lines.old.items ++ place_text place) }
{
    push(lines, b"line ")?;
    push_number(lines, place.line)?;
    push(lines, b", column ")?;
    push_number(lines, place.column)
}

/// Adds the lines of the five innermost open calls of a neutral string, with their arguments so
/// far, the innermost one last. Fails only if memory runs out.
pub fn push_open_calls<A: Allocator + Copy>(
    lines: &mut Vec<u8, A>,
    alloc: A,
    neutral: &[Cell],
    width: u32,
) -> Result<(), AllocError>
    ensures { OnOk result (lines.new.items ≡
        lines.old.items ++ open_calls_text width neutral.now) }
{
    let skip = calls_in(neutral).saturating_sub(MOST_CALLS);
    push_around(lines, skip)?;
    push_opened(lines, alloc, neutral, skip, width)
}

// How many calls are open in a neutral string.
fn calls_in(neutral: &[Cell]) -> usize
    ensures { result ≡ count_by is_call neutral.now }
{
    let mut count = 0;
    for cell in neutral {
        if let Cell::Call(_, _) = cell {
            count += 1;
        }
    }
    count
}

// Adds how many open calls stand around the ones that are shown, if there are any.
fn push_around<A: Allocator>(lines: &mut Vec<u8, A>, skip: usize) -> Result<(), AllocError>
    ensures { OnOk result (lines.new.items ≡ lines.old.items ++ around_text skip) }
{
    if skip == 0 {
        return Ok(());
    }
    push(lines, b"open calls around these: ")?;
    push_number(lines, skip as u64)?;
    push(lines, b"\n")
}

// Adds the lines of the innermost open calls, leaving out the outermost `skip`.
fn push_opened<A: Allocator + Copy>(
    lines: &mut Vec<u8, A>,
    alloc: A,
    neutral: &[Cell],
    skip: usize,
    width: u32,
) -> Result<(), AllocError>
    ensures { OnOk result (lines.new.items ≡
        lines.old.items ++ opened_text skip width neutral.now) }
{
    let mut left = skip;
    for place in 0..neutral.len() {
        push_opened_at(
            lines,
            alloc,
            left,
            &neutral[place],
            &neutral[place + 1..],
            width,
        )?;
        left = skip_behind(left, &neutral[place]);
    }
    Ok(())
}

// How many calls are still left out behind a cell.
fn skip_behind(skip: usize, cell: &Cell) -> usize
    ensures { result ≡ skip_behind skip cell.now }
{
    match cell {
        Cell::Call(_, _) => skip.saturating_sub(1),
        _ => skip,
    }
}

// Adds the line of a call if the cell is the mark of one that isn't left out.
fn push_opened_at<A: Allocator + Copy>(
    lines: &mut Vec<u8, A>,
    alloc: A,
    skip: usize,
    cell: &Cell,
    behind: &[Cell],
    width: u32,
) -> Result<(), AllocError>
    ensures { OnOk result (lines.new.items ≡
        lines.old.items ++ open_text skip width cell.now behind.now) }
{
    match *cell {
        Cell::Call(mode, _) if skip == 0 => {
            push_open_call(lines, alloc, mode, &behind[..until_call(behind)], width)
        }
        _ => Ok(()),
    }
}

// Adds the line of an open call with these arguments so far.
fn push_open_call<A: Allocator + Copy>(
    lines: &mut Vec<u8, A>,
    alloc: A,
    mode: Mode,
    arguments: &[Cell],
    width: u32,
) -> Result<(), AllocError>
    ensures { OnOk result (lines.new.items ≡
        lines.old.items ++ open_line width mode arguments.now) }
{
    push(lines, b"open call: ")?;
    push(lines, opening(mode))?;
    push_cells_cut(lines, alloc, arguments, width)?;
    push(lines, b"\n")
}

// How many cells stand before the first call mark.
fn until_call(cells: &[Cell]) -> usize
    ensures { result ≡ position_or_len is_call cells.now }
{
    for (place, cell) in cells.iter().enumerate() {
        if let Cell::Call(_, _) = cell {
            return place;
        }
    }
    cells.len()
}

/// The cells that each part of a block holds.
#[derive(Clone, Copy)]
pub struct Parts {
    pub forms: u64,
    pub neutral: u64,
    pub active: u64,
    pub free: u64,
}

impl Parts {
    /// The parts of a machine's block; `neutral` is the length of its neutral string, in cells.
    pub fn of(machine: &Machine, neutral: usize) -> Parts
        ensures { result ≡ parts_of machine.now neutral }
    {
        let active = machine.active().len();
        let used = u64::from(machine.size());
        Parts {
            forms: used
                .saturating_sub(neutral as u64)
                .saturating_sub(active as u64),
            neutral: neutral as u64,
            active: active as u64,
            free: u64::from(machine.room()).saturating_sub(used),
        }
    }
}

/// Adds the line of the cells that each part of a block holds. Fails only if memory runs out.
pub fn push_parts<A: Allocator>(lines: &mut Vec<u8, A>, parts: &Parts) -> Result<(), AllocError>
    ensures { OnOk result (lines.new.items ≡ lines.old.items
        ++ parts_text parts.now.forms parts.now.neutral parts.now.active parts.now.free) }
{
    push(lines, b"cells: forms ")?;
    push_number(lines, parts.forms)?;
    push(lines, b", neutral string ")?;
    push_number(lines, parts.neutral)?;
    push(lines, b", active string ")?;
    push_number(lines, parts.active)?;
    push(lines, b", free ")?;
    push_number(lines, parts.free)?;
    push(lines, b"\n")
}
