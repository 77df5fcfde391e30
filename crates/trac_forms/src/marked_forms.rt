//! Removes the forms of several names from the store in one pass.
//!
//! Each of them is marked first, by a pointer that no form can have; searches still find it by its name.
//! Then the forms that stay move over the marked ones.
ghost use Rattle.std.specs.Prelude.{◌≡◌, ◌∷◌, [], ◌++◌, ◌+◌, ◌-◌, ◌≤◌};
ghost use Rattle.std.specs.Prelude.{length, take, drop};
ghost use Rattle.std.specs.Prelude.{slice_range, ◌⊎◌};
ghost use Rattle.trac_store.specs.Arguments.{AreParted, texts_between};
ghost use Rattle.trac_store.specs.Parts.{IsTextPart, part_text};
ghost use Rattle.trac_store.specs.FlatForms.{flat_forms};
ghost use Rattle.trac_store.specs.Index.{IsIndexed};
ghost use Rattle.trac_forms.specs.Removal.{AreMarking, IsFormed, IsMarkedFrom, unmarked, with_marks};
ghost use Rattle.trac_forms.specs.Stored.{HasForms, HoldsForms};
ghost use Rattle.trac_store.specs.Stored.{forms_in};

use crate::form_finder::FormFinder;
use crate::index::{index_from, keep_index, unindex_from};
use trac_space::{Cell, Part, Space};
use trac_store::{Located, before_comma, tested_heads};

// The pointer of a marked form.
const MARK: u32 = u32::MAX;

// Marks each form whose name stands between the comma marks of a part of neutral. Gives a form before
// which no form is marked. `last` is the form used last, and the searches add to `search_cost`.
pub(crate) fn mark_all(
    space: &mut Space,
    count: u32,
    last: Located,
    names: Part,
    search_cost: &mut u32,
) -> Located
    requires formed { IsFormed space.old count last.number last.start }
    requires names { AreParted space.old.neutral names.from names.to }
    requires none_before { let forms = forms_in space.old.store in
        IsMarkedFrom forms (length forms) (length space.old.store) }
    ensures marked { let texts = texts_between space.old.neutral names.from names.to in
        let forms = with_marks texts (forms_in space.old.store) in
        space.new ≡ record space.old { store = flat_forms forms; index_area = space.new.index_area } }
    ensures first { IsMarkedFrom (forms_in space.new.store) result.number result.start }
    ensures index { IsIndexed space.new.index_area (forms_in space.new.store) }
{
    let end = Located {
        number: count,
        start: space.store_len(),
    };
    let mut places = Marking { last, first: end };
    let mut from = names.from;
    while from <= names.to {
        let to = from + before_comma(space.neutral_part(from, names.to));
        keep_index(space, count, search_cost);
        places = mark_named(space, count, places, Part { from, to }, search_cost);
        from = to + 1;
    }
    places.first
}

// `last` is the form used last; no form before `first` is marked.
#[derive(Clone, Copy)]
struct Marking {
    last: Located,
    first: Located,
}

// Marks the named form, if there is one. `last` is the form used last; no form before `first` is marked.
fn mark_named(
    space: &mut Space,
    count: u32,
    places: Marking,
    name: Part,
    search_cost: &mut u32,
) -> Marking
    requires marking { AreMarking space.old count places.last places.first }
    requires name_part { IsTextPart space.old.neutral name.from name.to }
    ensures marked { let named = part_text space.old.neutral name.from name.to in
        let forms = with_marks (named ∷ []) (forms_in space.old.store) in
        space.new ≡ record space.old { store = flat_forms forms } }
    ensures marking { AreMarking space.new count result.last result.first }
{
    match FormFinder::new(space, count, places.last).find_named(name, search_cost) {
        Some(form) => {
            space.write_store(form.start + 2, Cell::Head(MARK));
            Marking {
                last: form,
                first: earlier(places.first, form),
            }
        }
        None => places,
    }
}

// The form that comes first in the list.
fn earlier(a: Located, b: Located) -> Located
    ensures one { (result ≡ a) ⊎ (result ≡ b) }
    ensures first { result.number ≤ a.number }
    ensures second { result.number ≤ b.number }
{
    if b.number < a.number { b } else { a }
}

// Removes the marked forms from the store and from the index, and gives how many forms are left. No form
// before `first` is marked.
pub(crate) fn take_out_marked(space: &mut Space, first: Located, count: u32) -> u32
    requires forms { HasForms space.old count }
    requires first { IsMarkedFrom (forms_in space.old.store) first.number first.start }
    ensures gone { let forms = unmarked (forms_in space.old.store) in
        space.new ≡ record space.old { store = flat_forms forms; index_area = space.new.index_area } }
    ensures count { result ≡ length (unmarked (forms_in space.old.store)) }
    ensures index { IsIndexed space.new.index_area (unmarked (forms_in space.old.store)) }
{
    unindex_from(space, first.number, count);
    let count = remove_marked(space, first, count);
    index_from(space, first, count);
    count
}

// Removes the marked forms from the store, and gives how many forms are left. No form before `first` is
// marked.
fn remove_marked(space: &mut Space, first: Located, count: u32) -> u32
    requires forms { HoldsForms space.old count }
    requires first { IsMarkedFrom (forms_in space.old.store) first.number first.start }
    ensures gone { let forms = unmarked (forms_in space.old.store) in
        space.new ≡ record space.old { store = flat_forms forms } }
    ensures count { result ≡ length (unmarked (forms_in space.old.store)) }
{
    let mut kept = first.number;
    let mut gap = Part {
        from: first.start,
        to: first.start,
    };
    let mut from = first.start;
    for _form in first.number..count {
        let form = tested_heads(space, from);
        let end = from + 3 + form.name + form.body;
        if form.pointer == MARK {
            gap = move_gap(space, gap, from, end);
        } else {
            kept += 1;
        }
        from = end;
    }
    space.remove_store(gap.from, gap.to);
    kept
}

// Moves the cells between the gap and place `from` to the beginning of the gap. Gives the new gap, which
// ends at `end`. Here a gap is cells of the store that are to be removed.
fn move_gap(space: &mut Space, gap: Part, from: u32, end: u32) -> Part
    requires gap { gap.from ≤ gap.to }
    requires order { gap.to ≤ from }
    requires more { from ≤ end }
    requires within { end ≤ length space.old.store }
    ensures begin { result.from ≡ gap.from + (from - gap.to) }
    ensures end { result.to ≡ end }
    ensures moved { let store = space.old.store in
        let cells = slice_range store gap.to from in
        space.new ≡ record space.old {
          store = take gap.from store ++ cells ++ drop (gap.from + (from - gap.to)) store;
        } }
{
    if gap.from == gap.to {
        return Part { from, to: end };
    }
    space.move_in_store(gap.to, from, gap.from);
    Part {
        from: gap.from + (from - gap.to),
        to: end,
    }
}
