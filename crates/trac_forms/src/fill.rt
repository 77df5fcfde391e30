//! Copies the rest of a form with its gaps filled, to the front of active (Mooers 1966). Takes the character at
//! the pointer.
ghost use Rattle.std.specs.Prelude.{◌≡◌, ◌+◌, ◌≤◌, ◌<◌, ◌↔◌, ◌++◌};
ghost use Rattle.std.specs.Prelude.{◌∷◌, [], length, map, slice_range, slice_index_or, set, IsTrue};
ghost use Rattle.std.specs.Prelude.{MatchOption};
ghost use Rattle.std.specs.Bool.{OnTrue, OnFalse};
ghost use Rattle.trac_space.specs.declared.cell.Cell.TheVariants.{Comma};
ghost use Rattle.trac_space.specs.Lists.{used as cells_used, reserved};
ghost use Rattle.trac_space.specs.Texts.{flat_text, IsByte};
ghost use Rattle.trac_forms.specs.Contents.{used, IsSound, form_place, form_at, pointer_at};
ghost use Rattle.trac_store.specs.Loading.{called_part};
ghost use Rattle.trac_forms.specs.Loading.{IsLoaded, HasNext, next_text};
ghost use Rattle.trac_store.specs.Arguments.{AreParted};
ghost use Rattle.trac_forms.specs.Arguments.{filled_body};
ghost use Rattle.trac_store.specs.FlatForms.{flat_forms};
ghost use Rattle.trac_store.specs.Stored.{item_of, IsLocated};

use crate::item::FormId;
use crate::work::Work;
use trac_space::{Cell, Part, Space};
use trac_store::{Located, fill_items, heads_of};

impl<'a> Work<'a> {
    /// Copies the form's body from its pointer on to the front of active, each gap k replaced by argument k:
    /// the k-th, from 1, of the texts between the comma marks of neutral from place `first` up to `end`, or
    /// nothing if there is no such text. Gives how many characters these are. None, with nothing changed, if the
    /// copy doesn't fit.
    #[inline(always)]
    pub fn load_filled(&mut self, form: FormId, first: u32, end: u32) -> Option<u32>
        requires known { form_place form < length self.old.forms }
        requires arguments { AreParted self.old.neutral first end }
        ensures loaded { let text = filled_body self.old (form_place form) first end in
            MatchOption result
            ((self.new ≡ self.old) × (self.old.room < used self.old + length text))
            (λ n. IsLoaded self.old self.new text n) }
        ensures sound { IsSound self.new }
    {
        let at = self.locate(form);
        let items = self.called_place(at);
        let texts = Part {
            from: first,
            to: end,
        };
        fill_items(&mut self.space, items, texts)
    }

    // The part of the store that a call of the form copies: its body from its pointer on.
    #[inline(always)]
    fn called_place(&self, form: Located) -> Part
        requires form { IsLocated self.now.forms form.number form.start }
        ensures order { result.from ≤ result.to }
        ensures within { result.to ≤ length (flat_forms self.now.forms) }
        ensures items { let cells = slice_range (flat_forms self.now.forms) result.from result.to in
            map item_of cells ≡ called_part self.now.forms form.number }
    {
        let heads = heads_of(&self.space, form);
        let place = form.start + 3 + heads.name;
        Part {
            from: place + heads.pointer,
            to: place + heads.body,
        }
    }
}

impl<'a> Work<'a> {
    /// Takes the next item of the form from its pointer on, if it is a character and a cell is free for it:
    /// copies it to the end of neutral, and moves the pointer behind it. False, with nothing changed, if it
    /// is no character, if no item follows, or if no cell is free.
    #[inline]
    pub fn take_character(&mut self, form: FormId) -> bool
        requires known { form_place form < length self.old.forms }
        ensures taken { IsTrue result ↔ HasNext self.old (form_place form) }
        ensures last { let place = form_place form in
            let pointer = pointer_at self.old.forms place + 1 in
            let moved = record (form_at self.old.forms place) { pointer = pointer } in
            OnTrue result (self.new ≡ record self.old {
              forms = set self.old.forms place moved;
              neutral = self.old.neutral ++ flat_text (next_text self.old place);
            }) }
        ensures left { OnFalse result (self.new ≡ self.old) }
        ensures sound { IsSound self.new }
    {
        let pointer = self.pointer(form);
        let at = self.locate(form);
        if !self.put_next(at) {
            return false;
        }
        self.set_pointer(form, pointer + 1);
        true
    }

    // Copies the next item of the form from its pointer on to the end of neutral, if it is a character and
    // a cell is free for it.
    #[inline(always)]
    fn put_next(&mut self, form: Located) -> bool
        requires form { IsLocated self.old.forms form.number form.start }
        ensures put { IsTrue result ↔ HasNext self.old form.number }
        ensures last { OnTrue result (self.new ≡ record self.old {
          neutral = self.old.neutral ++ flat_text (next_text self.old form.number);
        }) }
        ensures left { OnFalse result (self.new ≡ self.old) }
        ensures sound { IsSound self.new }
    {
        let items = self.called_place(form);
        if items.from == items.to {
            return false;
        }
        put_character(&mut self.space, items.from)
    }
}

// Copies the cell at a place of the store to the end of neutral, if it is a character and a cell is free
// for it.
#[inline(always)]
fn put_character(space: &mut Space, place: u32) -> bool
    requires { place < length space.old.store }
    ensures put { let cell = slice_index_or space.old.store place Comma in
        IsTrue result ↔ (IsByte cell × (cells_used space.old < space.old.room)) }
    ensures last { let cell = slice_index_or space.old.store place Comma in
        OnTrue result (space.new ≡ record (reserved 1 space.old) {
          neutral = space.old.neutral ++ cell ∷ [];
        }) }
    ensures left { OnFalse result (space.new ≡ space.old) }
{
    match space.store_at(place) {
        Some(Cell::Byte(byte)) => space.push_neutral(Cell::Byte(byte)),
        _ => false,
    }
}
