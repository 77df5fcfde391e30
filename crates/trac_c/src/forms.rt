//! The forms of a machine, one after the other: names, bodies and displays; the arguments of a call, and what it
//! prints.
ghost use Rattle.std.specs.Prelude.{◌≡◌, ◌≤◌, [], drop, length, map, slice_get, take};
ghost use Rattle.trac_checker.specs.WrittenBytes.{bytes_of};
ghost use Rattle.trac_language.specs.Meaning.{show_form};
ghost use Rattle.trac_language.specs.State.{argument};
ghost use Rattle.trac_core.specs.OpenCalls.{next_texts};
ghost use Rattle.trac_space.specs.Texts.{text_of_cells};
ghost use Rattle.trac_c.specs.Buffers.{Lays, laid};
ghost use Rattle.trac_c.specs.Forms.{item_code, code_of, name_of, display_of, codes_of};
ghost use Rattle.trac_c.specs.Forms.{pointer_of};
ghost use Rattle.trac_c.specs.Printed.{next_text};
ghost use Rattle.trac_core.specs.Display.{display};
ghost use Rattle.trac_language.specs.Store.{form_named};

use crate::filling::PartSink;
use crate::strings::cells_from;
use trac_checker::NullSink;
use trac_core::{Cell, Item, Machine, StoredForm, display_len, show_form};
use trac_image::put;
use trac_language::Function;
use trac_space::character_of;

/// The form at place `k`, from 0, in the order of definition. None if it has no such place.
fn form_at<'m>(machine: &'m Machine<'static>, k: usize) -> Option<StoredForm<'m>>
    ensures { result ≡ slice_get machine.now.memory.forms k }
{
    if k >= machine.forms().len() as usize {
        return None;
    }
    machine.form(k as u32)
}

/// The length of a form's name, which goes to the front of a buffer.
pub(crate) fn lay_name(machine: &Machine<'static>, k: usize, room: &mut [u8]) -> usize
    ensures { Lays (name_of (slice_get machine.now.memory.forms k)) result room.old room.new }
{
    match form_at(machine, k) {
        Some(form) => lay_characters(form.name(), room),
        None => 0,
    }
}

/// The length of a form's display, which goes to the front of a buffer.
pub(crate) fn lay_display(machine: &Machine<'static>, k: usize, room: &mut [u8]) -> usize
    ensures { Lays (display_of (slice_get machine.now.memory.forms k)) result room.old room.new }
{
    match form_at(machine, k) {
        Some(form) => lay_shown(&form, 0, room),
        None => 0,
    }
}

/// The length of a form's body, whose codes go to the front of a buffer.
pub(crate) fn lay_codes(machine: &Machine<'static>, k: usize, room: &mut [u32]) -> usize
    ensures { Lays (codes_of (slice_get machine.now.memory.forms k)) result room.old room.new }
{
    match form_at(machine, k) {
        Some(form) => lay_items(&form, room),
        None => 0,
    }
}

/// The pointer of a form, 0 if there is no such form.
pub(crate) fn pointer(machine: &Machine<'static>, k: usize) -> usize
    ensures { result ≡ pointer_of (slice_get machine.now.memory.forms k) }
{
    match form_at(machine, k) {
        Some(form) => form.pointer() as usize,
        None => 0,
    }
}

/// The length of an argument of the call that the next step performs, which goes to the front of a buffer. The name is
/// argument 0.
pub(crate) fn lay_argument(machine: &Machine<'static>, which: usize, room: &mut [u8]) -> usize
    ensures { Lays (argument (next_texts machine.now) which) result room.old room.new }
{
    if which >= machine.argument_count() as usize {
        return 0;
    }
    match machine.argument(which as u32) {
        Some(text) => lay_characters(text, room),
        None => 0,
    }
}

/// The length of what the next step prints from a place on, which goes to the front of a buffer.
pub(crate) fn lay_printed(machine: &Machine<'static>, from: usize, room: &mut [u8]) -> usize
    ensures { Lays (drop from (next_text machine.now)) result room.old room.new }
{
    let Some(function) = machine.next_function() else {
        return 0;
    };
    match function {
        Function::PrintString => lay_string(machine, from, room),
        Function::PrintForm => lay_named(machine, from, room),
        _ => 0,
    }
}

/// The length of the text from a place on that the next step prints, a call of `ps`; it goes to the front of a buffer.
fn lay_string(machine: &Machine<'static>, from: usize, room: &mut [u8]) -> usize
    ensures { Lays (drop from (argument (next_texts machine.now) 1)) result room.old room.new }
{
    match machine.argument(1) {
        Some(text) => lay_characters(cells_from(text, from), room),
        None => 0,
    }
}

/// The length from a place on of the display that the next step prints, a call of `pf`; it goes to the front of a
/// buffer.
fn lay_named(machine: &Machine<'static>, from: usize, room: &mut [u8]) -> usize
    ensures { Lays (drop from (display (form_named (argument (next_texts machine.now) 1)
        machine.now.memory.forms))) result room.old room.new }
{
    let name: &[Cell] = match machine.argument(1) {
        Some(name) => name,
        None => &[],
    };
    match machine.form_named(name) {
        Some(form) => lay_shown(&form, from, room),
        None => 0,
    }
}

/// How many forms there are.
pub(crate) fn count(machine: &Machine<'static>) -> usize
    ensures { result ≡ length machine.now.memory.forms }
{
    machine.forms().len() as usize
}

/// Puts characters to the front of a buffer, as many as fit, and gives how many there are.
fn lay_characters(cells: &[Cell], room: &mut [u8]) -> usize
    ensures length { result ≡ length cells.now }
    ensures laid { room.new ≡ laid (text_of_cells cells.now) room.old }
{
    for i in 0..cells.len().min(room.len()) {
        put(character_of(&cells[i]), i, room);
    }
    cells.len()
}

/// Puts the codes of a body to the front of a buffer, as many as fit, and gives how many there are.
fn lay_items(form: &StoredForm, room: &mut [u32]) -> usize
    ensures length { result ≡ length form.now.body }
    ensures laid { room.new ≡ laid (map item_code form.now.body) room.old }
{
    let len = form.body_len();
    for i in 0..len {
        put(item_code(form.item(i)), i as usize, room);
    }
    len as usize
}

/// The code of an item: that of a byte is the byte, that of a gap its ordinal and 255.
fn item_code(item: Option<Item>) -> u32
    ensures { result ≡ code_of item }
{
    match item {
        Some(Item::Byte(byte)) => u32::from(byte),
        Some(Item::Gap(ordinal)) => ordinal.saturating_add(255),
        None => 0,
    }
}

/// Puts the display of a form from a place on to the front of a buffer, as much as fits, and gives how long it is from
/// there on.
fn lay_shown(form: &StoredForm, from: usize, room: &mut [u8]) -> usize
    ensures length { result ≡ length (drop from (show_form form.now)) }
    ensures laid { room.new ≡ laid (drop from (show_form form.now)) room.old }
{
    let len = (display_len(form) as usize).saturating_sub(from);
    let fitting = len.min(room.len());
    fill_with(form, from, &mut room[..fitting]);
    len
}

/// Fills a buffer with the display of a form from a place on, which is no shorter, as far as it reaches.
fn fill_with(form: &StoredForm, from: usize, room: &mut [u8])
    requires { length room.old ≤ length (drop from (show_form form.now)) }
    ensures { room.new ≡ take (length room.old) (drop from (show_form form.now)) }
{
    let mut all = NullSink::new();
    let mut sink = PartSink::new(from, room, &mut all);
    show_part(form, &mut sink);
}

/// Puts the display of a form into a sink over a part of it, to which nothing was put. The buffer is no longer than
/// that part.
fn show_part(form: &StoredForm, sink: &mut PartSink)
    requires empty { bytes_of sink.old.all.now.written.value ≡ [] }
    requires short { length sink.old.room.now ≤ length (drop sink.old.from (show_form form.now)) }
    ensures same_room { sink.new.room.ghost_name ≡ sink.old.room.ghost_name }
    ensures part { sink.new.room.now ≡
        take (length sink.old.room.now) (drop sink.old.from (show_form form.now)) }
{
    let _ = show_form(form, sink);
}
