//! Changes from outside: forms that are defined, found and removed without a step, and the meta character.
//!
//! They are possible whatever state the machine is in: in the middle of a run, once it is over, and with a
//! full block. This processor's own choice.
ghost use Rattle.std.specs.Prelude.{◌≡◌, ◌+◌, ◌≤◌, ◌↔◌, [], length, map, All, IsOk, OnOk, OnErr};
ghost use Rattle.std.specs.Prelude.{Decides, MatchOption, is_some};
ghost use Rattle.trac_language.specs.State.{size};
ghost use Rattle.trac_language.specs.Store.{NoneNamed, defined, form_named, without};
ghost use Rattle.trac_forms.specs.Contents.{IsNamedAt};
ghost use Rattle.trac_forms.specs.Given.{given, with_form};
ghost use Rattle.trac_core.specs.Changing.{HasRoomFor, IsCode, IsDefinable, item_of_code};
ghost use Rattle.trac_core.specs.Changing.{items_of_codes, with_forms};
ghost use Rattle.trac_core.specs.Machine.{KeepsLimits};

use super::Machine;
use std::marker::Model;
use trac_forms::{Body, Full, TextBody};
use trac_language::Item;

/// What was asked from outside, a change or the value of a call, was refused. Nothing has changed.
#[derive(Clone, Copy, Debug, PartialEq, Eq)]
pub struct Refused;

impl From<Full> for Refused {
    fn from(_full: Full) -> Refused {
        Refused
    }
}

impl<'a> Machine<'a> {
    /// Makes a form of a name, the items of a body and a pointer, as `ds` makes one of two texts: it becomes
    /// the last form, and an older form of that name is removed. The strings, the counters and the fate stay.
    /// No step is made, so the peak doesn't count what this needs.
    ///
    /// `Refused`, with nothing changed, if 3 cells, the name and the body don't fit while the older form is
    /// still there.
    pub fn define_items<B: Body>(
        &mut self,
        name: &[u8],
        body: &mut B,
        len: u32,
        pointer: u32,
    ) -> Result<(), Refused>
        requires len { len ≡ length (B.items body.old) }
        requires pointer { pointer ≤ len }
        ensures taken { IsOk result ↔ HasRoomFor self.old (length name.now) len }
        ensures ok { let form = given name.now (B.items body.old) pointer in
            OnOk result (self.new ≡ with_forms (with_form form self.old.memory.forms) self.old) }
        ensures err { OnErr result (self.new ≡ self.old) }
        ensures limits { KeepsLimits self.new }
    {
        self.work.put_form(name, body, len, pointer)?;
        Ok(())
    }

    /// Makes a form of a name, the codes of a body and a pointer, as `define_items` does. The code of a
    /// character is its byte, and that of the gap with ordinal n is 255 + n, for n from 1 to 16,777,216. The
    /// pointer is a place of the body, from 0 to its length.
    ///
    /// `Refused`, with nothing changed, if a code is greater, if the pointer is no place of the body, and if
    /// 3 cells, the name and the body don't fit while an older form of that name is still there.
    pub fn define(&mut self, name: &[u8], codes: &[u32], pointer: usize) -> Result<(), Refused>
        ensures taken { IsOk result ↔ IsDefinable self.old name.now codes.now pointer }
        ensures ok { let form = given name.now (items_of_codes codes.now) pointer in
            OnOk result (self.new ≡ with_forms (with_form form self.old.memory.forms) self.old) }
        ensures err { OnErr result (self.new ≡ self.old) }
        ensures limits { KeepsLimits self.new }
    {
        // A block has fewer cells than 32 bits count.
        prove!(self.work.used() <= self.work.room());
        let Ok(len) = u32::try_from(codes.len()) else {
            return Err(Refused);
        };
        if pointer > codes.len() || !are_codes(codes) {
            return Err(Refused);
        }
        self.define_items(name, &mut CodeBody::of(codes), len, pointer as u32)
    }

    /// Makes a form of a name and the characters of a body, with pointer 0, as `define` does.
    ///
    /// `Refused`, with nothing changed, if 3 cells, the name and the body don't fit while an older form of
    /// that name is still there.
    pub fn define_text(&mut self, name: &[u8], body: &[u8]) -> Result<(), Refused>
        ensures taken { IsOk result ↔ HasRoomFor self.old (length name.now) (length body.now) }
        ensures ok { let forms = defined name.now body.now self.old.memory.forms in
            OnOk result (self.new ≡ with_forms forms self.old) }
        ensures err { OnErr result (self.new ≡ self.old) }
        ensures limits { KeepsLimits self.new }
    {
        // A block has fewer cells than 32 bits count.
        prove!(self.work.used() <= self.work.room());
        let Ok(len) = u32::try_from(body.len()) else {
            return Err(Refused);
        };
        self.define_items(name, &mut TextBody::of(body), len, 0)
    }

    /// Removes the form with this name, and says whether there was one. The others keep their order; the
    /// strings, the counters and the fate stay.
    pub fn delete(&mut self, name: &[u8]) -> bool
        ensures was { result ≡ is_some (form_named name.now self.old.memory.forms) }
        ensures gone { self.new ≡ with_forms (without name.now self.old.memory.forms) self.old }
        ensures limits { KeepsLimits self.new }
    {
        self.work.delete_by_name(name)
    }

    /// Removes all forms. The strings, the counters and the fate stay.
    pub fn delete_all(&mut self)
        ensures gone { self.new ≡ with_forms [] self.old }
        ensures limits { KeepsLimits self.new }
    {
        self.work.delete_all();
    }

    /// Makes a byte the meta character, as `cm` does (Mooers 1966). All else stays.
    pub fn set_meta(&mut self, byte: u8)
        ensures set { self.new ≡ record self.old {
          memory = record self.old.memory { meta = byte };
        } }
    {
        self.meta = byte;
    }

    /// The place of the form with this name, from 0, in the order in which the forms were defined. None if no
    /// form has the name. Looks at one form after the other.
    pub fn find(&self, name: &[u8]) -> Option<u32>
        ensures { let forms = self.now.memory.forms in
            MatchOption result
            (NoneNamed name.now forms)
            (λ k. IsNamedAt forms name.now k) }
    {
        self.work.place_by_name(name)
    }
}

/// The code of the gap with the greatest ordinal, 16,777,216.
const LAST_CODE: u32 = 16_777_471;

/// Whether each is the code of an item.
fn are_codes(codes: &[u32]) -> bool
    ensures { Decides result (All IsCode codes.now) }
{
    for code in codes {
        if *code > LAST_CODE {
            return false;
        }
    }
    true
}

/// The item of a code.
fn item_of_code(code: u32) -> Item
    ensures { result ≡ item_of_code code }
{
    match u8::try_from(code) {
        Ok(byte) => Item::Byte(byte),
        Err(_) => Item::Gap(code - 255),
    }
}

/// Codes as the items of a body.
#[derive(Drop)]
struct CodeBody<'c> {
    codes: &'c [u32],
}

impl<'c> Model for CodeBody<'c> {
    ghost use Rattle.std.specs.Prelude.{List, ℕ};

    ghost Value = { List ℕ };

    ghost view = { λ b. b.codes.now };
}

impl<'c> CodeBody<'c> {
    /// The items of these codes.
    fn of(codes: &'c [u32]) -> CodeBody<'c>
        ensures { result ≡ codes.now }
    {
        CodeBody { codes }
    }
}

impl<'c> Body for CodeBody<'c> {
    ghost use Rattle.trac_core.specs.Changing.{items_of_codes};

    ghost items = { items_of_codes };

    fn next_item(&mut self) -> Item {
        let code = self.codes[0];
        self.codes = &self.codes[1..];
        item_of_code(code)
    }
}
