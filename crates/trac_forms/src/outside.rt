//! Defines, finds and removes forms from outside the block: their names needn't stand in it.
ghost use Rattle.std.specs.Prelude.{◌≡◌, ◌+◌, ◌≤◌, ◌<◌, ◌↔◌, ◌++◌, ◌∷◌, [], length};
ghost use Rattle.std.specs.Prelude.{Decides, IsErr, OnOk, OnErr, MatchOption, is_some};
ghost use Rattle.trac_language.specs.Store.{NoneNamed, form_named, without};
ghost use Rattle.trac_space.specs.Texts.{text_of_cells};
ghost use Rattle.trac_forms.specs.Contents.{used, IsSound};
ghost use Rattle.trac_forms.specs.Given.{given, with_form};
ghost use Rattle.trac_store.specs.Forms.{name_at, IsNamedAt};
ghost use Rattle.trac_store.specs.Stored.{IsAnswer, IsLocated};

use crate::body::Body;
use crate::form_writing::store_given;
use crate::index::index_last;
use crate::item::Full;
use crate::work::Work;
use trac_space::{Cell, character_of};
use trac_store::{Located, end_of, heads_of};

impl<'a> Work<'a> {
    /// Makes a form of a name, the `len` items of a body and a pointer, none of which need stand in the block.
    /// It becomes the last form; an older form of that name is removed. The strings stay. This processor's own
    /// choice.
    ///
    /// `Full`, with nothing changed, if 3 cells, the name and the body don't fit while the older form is still
    /// there, as in `define`.
    pub fn put_form<B: Body>(
        &mut self,
        name: &[u8],
        body: &mut B,
        len: u32,
        pointer: u32,
    ) -> Result<(), Full>
        requires len { len ≡ length (B.items body.old) }
        requires pointer { pointer ≤ len }
        ensures full { let need = 3 + length name.now + len in
            IsErr result ↔ (self.old.room < used self.old + need) }
        ensures ok { let form = given name.now (B.items body.old) pointer in
            OnOk result (self.new ≡ record self.old { forms = with_form form self.old.forms }) }
        ensures err { OnErr result (self.new ≡ self.old) }
        ensures sound { IsSound self.new }
    {
        let need = 3 + name.len() + len as usize;
        if (self.space.free() as usize) < need {
            return Err(Full);
        }
        self.delete_by_name(name);
        self.append_given(name, body, len, pointer);
        Ok(())
    }

    // Appends a form of a name, the `len` items of a body and a pointer, and enters it into the index if there
    // is one.
    fn append_given<B: Body>(&mut self, name: &[u8], body: &mut B, len: u32, pointer: u32)
        requires len { len ≡ length (B.items body.old) }
        requires pointer { pointer ≤ len }
        requires unnamed { NoneNamed name.now self.old.forms }
        requires room { used self.old + (3 + length name.now + len) ≤ self.old.room }
        ensures last { let form = given name.now (B.items body.old) pointer in
            self.new ≡ record self.old { forms = self.old.forms ++ form ∷ [] } }
        ensures sound { IsSound self.new }
    {
        let form = Located {
            number: self.count,
            start: self.space.store_len(),
        };
        store_given(&mut self.space, name, body, len, pointer);
        index_last(&mut self.space, form);
        self.count += 1;
        self.last = form;
    }

    /// Removes the form with this name, and says whether there was one. The others keep their order.
    pub fn delete_by_name(&mut self, name: &[u8]) -> bool
        ensures was { result ≡ is_some (form_named name.now self.old.forms) }
        ensures gone { self.new ≡ record self.old { forms = without name.now self.old.forms } }
        ensures sound { IsSound self.new }
    {
        // No two forms have one name.
        prove!(self.space.used() <= self.space.room());
        match self.located_by_name(name) {
            Some(form) => {
                self.remove(form);
                true
            }
            None => false,
        }
    }

    /// The place in the list, from 0, of the form with this name. None if no form has it. Looks at one form
    /// after the other.
    pub fn place_by_name(&self, name: &[u8]) -> Option<u32>
        ensures { MatchOption result
            (NoneNamed name.now self.now.forms)
            (λ k. IsNamedAt self.now.forms name.now k) }
    {
        match self.located_by_name(name) {
            Some(form) => Some(form.number),
            None => None,
        }
    }

    // The form with this name. None if no form has it. Looks at one form after the other.
    fn located_by_name(&self, name: &[u8]) -> Option<Located>
        ensures { IsAnswer self.now.forms name.now result }
    {
        let mut start = 0;
        for number in 0..self.count {
            let form = Located { number, start };
            if self.is_named(form, name) {
                return Some(form);
            }
            start = end_of(&self.space, form);
        }
        None
    }

    // Whether the form has the name.
    fn is_named(&self, form: Located, name: &[u8]) -> bool
        requires { IsLocated self.now.forms form.number form.start }
        ensures { Decides result (name_at self.now.forms form.number ≡ name.now) }
    {
        let heads = heads_of(&self.space, form);
        let from = form.start + 3;
        is_text(self.space.store_part(from, from + heads.name), name)
    }
}

// Whether the characters of cells are these bytes.
fn is_text(cells: &[Cell], text: &[u8]) -> bool
    ensures { Decides result (text_of_cells cells.now ≡ text.now) }
{
    if cells.len() != text.len() {
        return false;
    }
    for i in 0..text.len() {
        if character_of(&cells[i]) != text[i] {
            return false;
        }
    }
    true
}
