//! Removes the forms of several names in one pass.
ghost use Rattle.std.specs.Prelude.{◌≡◌};
ghost use Rattle.trac_store.specs.Arguments.{AreParted, texts_between};
ghost use Rattle.trac_forms.specs.Contents.{IsSound};
ghost use Rattle.trac_forms.specs.Removal.{without_all};

use crate::marked_forms::{mark_all, take_out_marked};
use crate::work::Work;
use trac_space::Part;
use trac_store::FIRST_FORM;

impl<'a> Work<'a> {
    /// Removes the forms whose names are the texts between the comma marks of neutral from place `from` up to
    /// `end`. The others keep their order. Takes a search for each name, and one pass over the forms from the
    /// first removed one on.
    pub fn delete_named(&mut self, from: u32, end: u32)
        requires { AreParted self.old.neutral from end }
        ensures gone { let names = texts_between self.old.neutral from end in
            self.new ≡ record self.old { forms = without_all names self.old.forms } }
        ensures sound { IsSound self.new }
    {
        let last = self.last;
        let names = Part { from, to: end };
        let first = mark_all(
            &mut self.space,
            self.count,
            last,
            names,
            &mut self.search_cost,
        );
        self.count = take_out_marked(&mut self.space, first, self.count);
        self.last = FIRST_FORM;
    }
}
