//! The forms that a call deletes.
ghost use Rattle.std.specs.Prelude.{◌≡◌, ◌++◌, OnOk};
ghost use Rattle.std.specs.List.{flat_map};
ghost use Rattle.trac_space.specs.Texts.{text_of_cells};
ghost use Rattle.trac_views.specs.CallLines.{behind_deleted, deleted_text, deletion, first_deleted, form_deleted};
ghost use Rattle.trac_views.specs.CallLines.{is_argument, named_deleted};

use crate::escapes::push_name;
use crate::lines::push;
use std::alloc::{AllocError, Allocator};
use trac_core::{Cell, Forms, Machine};
use trac_events::{argument, find_form, is_same};
use trac_language::Concerned;

/// Adds the names of the forms that a call with these arguments deletes: those of the arguments, in
/// their order, or all forms, in the order of their definition. `touched` says which. Fails only if
/// memory runs out.
#[inline(never)]
pub fn push_deleted<A: Allocator + Copy>(
    line: &mut Vec<u8, A>,
    alloc: A,
    touched: Concerned,
    arguments: &[Cell],
    machine: &Machine,
    width: u32,
) -> Result<(), AllocError>
    ensures { OnOk result (line.new.items ≡ line.old.items
        ++ deleted_text width touched machine.now.memory.forms arguments.now) }
{
    match touched {
        Concerned::Nothing | Concerned::First => Ok(()),
        Concerned::Each => push_named(line, alloc, machine, arguments, width),
        Concerned::All => push_all(line, alloc, machine.forms(), width),
    }
}

// Adds the names of all forms.
fn push_all<A: Allocator + Copy>(
    line: &mut Vec<u8, A>,
    alloc: A,
    forms: Forms,
    width: u32,
) -> Result<(), AllocError>
    ensures { OnOk result (line.new.items ≡ line.old.items
        ++ flat_map (form_deleted width) forms.entry) }
{
    for form in forms {
        push_deletion(line, alloc, form.name(), width)?;
    }
    Ok(())
}

// Adds each argument behind the function's name that names a form, once.
fn push_named<A: Allocator + Copy>(
    line: &mut Vec<u8, A>,
    alloc: A,
    machine: &Machine,
    arguments: &[Cell],
    width: u32,
) -> Result<(), AllocError>
    ensures { OnOk result (line.new.items ≡ line.old.items
        ++ named_deleted width machine.now.memory.forms arguments.now) }
{
    for place in 0..arguments.len() {
        push_behind(
            line,
            alloc,
            machine,
            &arguments[place],
            &arguments[place + 1..],
            width,
        )?;
    }
    Ok(())
}

// Adds the argument that begins behind a cell, if one does, and that names a form.
fn push_behind<A: Allocator + Copy>(
    line: &mut Vec<u8, A>,
    alloc: A,
    machine: &Machine,
    cell: &Cell,
    behind: &[Cell],
    width: u32,
) -> Result<(), AllocError>
    ensures { OnOk result (line.new.items ≡ line.old.items
        ++ behind_deleted width machine.now.memory.forms cell.now behind.now) }
{
    match cell {
        Cell::Comma => push_first(line, alloc, machine, behind, width),
        _ => Ok(()),
    }
}

// Adds that the form which the first of the arguments names is deleted, if there is such a form and no later
// argument is the same.
fn push_first<A: Allocator + Copy>(
    line: &mut Vec<u8, A>,
    alloc: A,
    machine: &Machine,
    arguments: &[Cell],
    width: u32,
) -> Result<(), AllocError>
    ensures { OnOk result (line.new.items ≡ line.old.items
        ++ first_deleted width machine.now.memory.forms arguments.now) }
{
    let name = argument(arguments, 0);
    if find_form(machine, name).is_none() || is_argument(arguments, name) {
        return Ok(());
    }
    push_deletion(line, alloc, name, width)
}

// Adds that a form of this name is deleted.
fn push_deletion<A: Allocator + Copy>(
    line: &mut Vec<u8, A>,
    alloc: A,
    name: &[Cell],
    width: u32,
) -> Result<(), AllocError>
    ensures { OnOk result (line.new.items ≡ line.old.items
        ++ deletion width (text_of_cells name.now)) }
{
    push(line, b" deletes ")?;
    push_name(line, alloc, name, width)
}

// Whether one of the arguments behind the first is `name`.
fn is_argument(arguments: &[Cell], name: &[Cell]) -> bool
    ensures { result ≡ is_argument arguments.now (text_of_cells name.now) }
{
    let mut rest = arguments;
    for cell in arguments {
        rest = &rest[1..];
        if matches!(cell, Cell::Comma) && is_same(argument(rest, 0), name) {
            return true;
        }
    }
    false
}
