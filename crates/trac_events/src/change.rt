//! Which forms a call can change or take apart.
ghost use Rattle.std.specs.Prelude.{◌≡◌};
ghost use Rattle.std.specs.List.{list_all};
ghost use Rattle.trac_space.specs.Texts.{is_byte_cell, text_of_cells};
ghost use Rattle.trac_events.specs.Changes.{form_of, pointer_of, is_same, takes_part, touched_by};

use trac_core::{Machine, StoredForm};
use trac_language::{Concerned, Function, Given, traits_of};
use trac_space::{Cell, character_of, is_character};

/// The forms that a call of this function can make, change or remove.
pub fn touched_by(function: Function) -> Concerned
    ensures { result ≡ touched_by function }
{
    let traits = traits_of(function);
    if traits.changes_forms {
        traits.forms
    } else {
        Concerned::Nothing
    }
}

/// Whether the value of this function is a part of a form, or its default value.
pub fn takes_part(function: Function) -> bool
    ensures { result ≡ takes_part function }
{
    matches!(traits_of(function).gives, Given::Part)
}

/// The form whose name these cells are. None if no form has it, or if a cell is no character.
pub fn find_form<'m>(machine: &'m Machine, name: &[Cell]) -> Option<StoredForm<'m>>
    ensures { result ≡ form_of name.now machine.now.memory.forms }
{
    if are_characters(name) {
        machine.form_named(name)
    } else {
        None
    }
}

/// The pointer of the form whose name these cells are. None if there is no such form.
pub fn pointer_of(machine: &Machine, name: &[Cell]) -> Option<u32>
    ensures { result ≡ pointer_of name.now machine.now.memory.forms }
{
    let form = find_form(machine, name)?;
    Some(form.pointer())
}

// Whether all cells are characters.
fn are_characters(cells: &[Cell]) -> bool
    ensures { result ≡ list_all is_byte_cell cells.now }
{
    for cell in cells {
        if !is_character(cell) {
            return false;
        }
    }
    true
}

/// Whether two texts have the same characters.
pub fn is_same(a: &[Cell], b: &[Cell]) -> bool
    ensures { result ≡ is_same (text_of_cells a.now) (text_of_cells b.now) }
{
    let mut rest = b;
    for x in a {
        let [y, behind @ ..] = rest else {
            return false;
        };
        if character_of(x) != character_of(y) {
            return false;
        }
        rest = behind;
    }
    rest.is_empty()
}
