//! Writes the cells of a new form into the store.
ghost use Rattle.std.specs.Prelude.{◌≡◌, ◌+◌, ◌≤◌, ◌++◌, length};
ghost use Rattle.std.specs.Prelude.{drop, map, take};
ghost use Rattle.trac_space.specs.Lists as lists;
ghost use Rattle.trac_store.specs.FlatForms.{flat_form, flat_item};
ghost use Rattle.trac_store.specs.Parts.{new_form};
ghost use Rattle.trac_forms.specs.Defining.{AreNameAndText, cells_for};
ghost use Rattle.trac_forms.specs.Given.{given};
ghost use Rattle.trac_store.specs.Index.{IsKept};

use crate::body::{Body, TextBody};
use trac_language::Item;
use trac_space::{Cell, Part, Space};

// Appends the cells of a new form to the store: three head cells, its name and its text, both copied from
// neutral, and pointer 0. They must fit; the index area is dropped if they fit only without it.
pub(crate) fn store_form(space: &mut Space, name: Part, text: Part)
    requires parts { AreNameAndText space.old.neutral name text }
    requires room { lists.used space.old + cells_for name text ≤ space.old.room }
    ensures kept { IsKept space.old.index_area space.new.index_area }
    ensures stored { let form = new_form space.old.neutral name.from name.to text.from text.to in
        space.new ≡ record space.old {
          store = space.old.store ++ flat_form form;
          index_area = space.new.index_area;
        } }
{
    // The lists fit in the block.
    prove!(space.used() <= space.room());
    let need = 3 + (name.to - name.from) + (text.to - text.from);
    space.reserve(need);
    let start = space.store_len();
    space.open_store(need);
    write_form(space, start, name, text);
}

// Writes the cells of a new form over the last cells of the store, from place `start` on.
fn write_form(space: &mut Space, start: u32, name: Part, text: Part)
    requires parts { AreNameAndText space.old.neutral name text }
    requires last { length space.old.store ≡ start + cells_for name text }
    ensures { let form = new_form space.old.neutral name.from name.to text.from text.to in
        space.new ≡ record space.old { store = take start space.old.store ++ flat_form form } }
{
    // The lists fit in the block.
    prove!(space.used() <= space.room());
    space.write_store(start, Cell::Head(name.to - name.from));
    space.write_store(start + 1, Cell::Head(text.to - text.from));
    space.write_store(start + 2, Cell::Head(0));
    space.write_part(start + 3, name.from, name.to);
    space.write_part(start + 3 + (name.to - name.from), text.from, text.to);
}

// Appends the cells of a form that is given to the store: three head cells, its name and the `len` items of its
// body. They must fit; the index area is dropped if they fit only without it.
pub(crate) fn store_given<B: Body>(
    space: &mut Space,
    name: &[u8],
    body: &mut B,
    len: u32,
    pointer: u32,
)
    requires len { len ≡ length (B.items body.old) }
    requires room { lists.used space.old + (3 + length name.now + len) ≤ space.old.room }
    ensures kept { IsKept space.old.index_area space.new.index_area }
    ensures stored { let form = given name.now (B.items body.old) pointer in
        space.new ≡ record space.old {
          store = space.old.store ++ flat_form form;
          index_area = space.new.index_area;
        } }
{
    // The lists fit in the block.
    prove!(space.used() <= space.room());
    let need = 3 + name.len() as u32 + len;
    space.reserve(need);
    let start = space.store_len();
    space.open_store(need);
    write_given(space, start, name, body, len, pointer);
}

// Writes the cells of a form that is given over the last cells of the store, from place `start` on.
fn write_given<B: Body>(
    space: &mut Space,
    start: u32,
    name: &[u8],
    body: &mut B,
    len: u32,
    pointer: u32,
)
    requires len { len ≡ length (B.items body.old) }
    requires last { length space.old.store ≡ start + (3 + length name.now + len) }
    ensures { let form = given name.now (B.items body.old) pointer in
        space.new ≡ record space.old { store = take start space.old.store ++ flat_form form } }
{
    // The lists fit in the block.
    prove!(space.used() <= space.room());
    let name_len = name.len() as u32;
    space.write_store(start, Cell::Head(name_len));
    space.write_store(start + 1, Cell::Head(len));
    space.write_store(start + 2, Cell::Head(pointer));
    write_items(space, start + 3, &mut TextBody::of(name), name_len);
    write_items(space, start + 3 + name_len, body, len);
}

// Writes the `len` items of a body over as many cells of the store, from place `at` on.
fn write_items<B: Body>(space: &mut Space, at: u32, body: &mut B, len: u32)
    requires len { len ≡ length (B.items body.old) }
    requires within { at + len ≤ length space.old.store }
    ensures { space.new ≡ record space.old {
      store = take at space.old.store ++ map flat_item (B.items body.old)
          ++ drop (at + len) space.old.store;
    } }
{
    // The lists fit in the block.
    prove!(space.used() <= space.room());
    for i in 0..len {
        space.write_store(at + i, cell_of(body.next_item()));
    }
}

// The cell of an item.
fn cell_of(item: Item) -> Cell
    ensures { result ≡ flat_item item }
{
    match item {
        Item::Byte(byte) => Cell::Byte(byte),
        Item::Gap(ordinal) => Cell::Gap(ordinal),
    }
}
