//! Reads the heads of forms, the three cells before a form's name, and the items of their bodies.
ghost use Rattle.std.specs.Prelude.{◌≡◌, ◌+◌, ◌≤◌, length, map, slice_range, Some};
ghost use Rattle.trac_space.specs.declared.cell.Cell.TheVariants.{Head};
ghost use Rattle.trac_space.specs.Texts.{flat_text};
ghost use Rattle.trac_store.specs.FlatForms.{flat_item};
ghost use Rattle.trac_store.specs.Forms.{name_at, body_at, pointer_at};
ghost use Rattle.trac_store.specs.Stored.{AreForms, IsLocated, forms_in, head_number, head_at};
ghost use Rattle.trac_store.specs.Stored.{start_of};
ghost use Rattle.trac_store.specs.Stored.{stored_item, item_of};

use crate::located::Located;
use trac_language::Item;
use trac_space::{Cell, Space};

/// The number in the head cell at place `i` of the store, 0 if no head cell stands there.
#[inline]
pub fn head(space: &Space, i: u32) -> u32
    ensures { result ≡ head_at space.now.store i }
{
    match space.store_at(i) {
        Some(cell) => number(cell),
        None => 0,
    }
}

/// The numbers in the three head cells of a form: the lengths of its name and of its body, in cells, and
/// its pointer, a place in the body.
#[derive(Clone, Copy)]
pub struct Heads {
    pub name: u32,
    pub body: u32,
    pub pointer: u32,
}

/// The numbers in the three cells from place `start` of the store on. Each cell is tested: one that is no
/// head gives 0.
#[inline]
pub fn tested_heads(space: &Space, start: u32) -> Heads
    requires within { start + 3 ≤ length space.now.store }
    ensures name { result.name ≡ head_at space.now.store start }
    ensures body { result.body ≡ head_at space.now.store (start + 1) }
    ensures pointer { result.pointer ≡ head_at space.now.store (start + 2) }
{
    // The lists fit in the block.
    prove!(space.used() <= space.room());
    let cells = space.store_part(start, start + 3);
    Heads {
        name: number(cells[0]),
        body: number(cells[1]),
        pointer: number(cells[2]),
    }
}

/// The three head numbers of a form whose place is known. The cells are read without a test. Behind them
/// stand the name and the body, and behind these the next form.
#[inline]
pub fn heads_of(space: &Space, form: Located) -> Heads
    requires forms { AreForms space.now.store }
    requires form { IsLocated (forms_in space.now.store) form.number form.start }
    ensures name { result.name ≡ length (name_at (forms_in space.now.store) form.number) }
    ensures body { result.body ≡ length (body_at (forms_in space.now.store) form.number) }
    ensures pointer { result.pointer ≡ pointer_at (forms_in space.now.store) form.number }
    ensures next { let end = form.start + 3 + result.name + result.body in
        start_of (forms_in space.now.store) (form.number + 1) ≡ end }
    ensures within { form.start + 3 + result.name + result.body ≤ length space.now.store }
    ensures name_cells { let at = form.start + 3 in
        slice_range space.now.store at (at + result.name)
        ≡ flat_text (name_at (forms_in space.now.store) form.number) }
    ensures body_cells { let at = form.start + 3 + result.name in
        slice_range space.now.store at (at + result.body)
        ≡ map flat_item (body_at (forms_in space.now.store) form.number) }
{
    let cells = space.store_part(form.start, form.start + 3);
    Heads {
        name: number_in_head(cells[0]),
        body: number_in_head(cells[1]),
        pointer: number_in_head(cells[2]),
    }
}

/// Where a form whose place is known ends, and the next one begins.
#[inline(always)]
pub fn end_of(space: &Space, form: Located) -> u32
    requires forms { AreForms space.now.store }
    requires form { IsLocated (forms_in space.now.store) form.number form.start }
    ensures next { result ≡ start_of (forms_in space.now.store) (form.number + 1) }
    ensures within { result ≤ length space.now.store }
    ensures order { form.start + 3 ≤ result }
{
    form.start + 3 + head(space, form.start) + head(space, form.start + 1)
}

/// The item in the cell at place `i` of the store. A gap of ordinal 0 if no item stands there.
pub fn item_in(space: &Space, i: u32) -> Item
    ensures { result ≡ stored_item space.now.store i }
{
    match space.store_at(i) {
        Some(cell) => item_of(&cell),
        None => Item::Gap(0),
    }
}

/// The item in a cell. A gap of ordinal 0 if the cell holds no item.
pub fn item_of(cell: &Cell) -> Item
    ensures { result ≡ item_of cell.now }
{
    match *cell {
        Cell::Byte(byte) => Item::Byte(byte),
        Cell::Gap(ordinal) => Item::Gap(ordinal),
        _ => Item::Gap(0),
    }
}

/// The number in a head cell, 0 for any other cell.
#[inline]
pub fn number(cell: Cell) -> u32
    ensures { result ≡ head_number (Some cell) }
{
    match cell {
        Cell::Head(number) => number,
        _ => 0,
    }
}

// A match arm that is never reached reads from this array without elements, so the compiler leaves out
// the test for that arm.
const UNREACHED_NUMBER: [u32; 0] = [];

/// The number in a head cell, read without a test.
#[inline]
pub fn number_in_head(cell: Cell) -> u32
    requires { cell ≡ Head (head_number (Some cell)) }
    ensures { result ≡ head_number (Some cell) }
{
    match cell {
        Cell::Head(number) => number,
        _ => UNREACHED_NUMBER[0],
    }
}
