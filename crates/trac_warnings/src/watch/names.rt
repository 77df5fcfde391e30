//! The names of the forms that a run defined, and where a value was written that comes from a form.
ghost use Rattle.std.specs.Prelude.{◌≡◌, [], true, MatchOption, OnOk, false, slice_get, unwrap_or};
ghost use Rattle.std.specs.BTreeMap.{get, insert_entry};
ghost use Rattle.trac_space.specs.Texts.{text_of_cells};
ghost use Rattle.trac_events.specs.Calls.{argument_of, reads};
ghost use Rattle.trac_warnings.specs.Counted.{calls_of, counts_behind_call, counts_of, with_call};
ghost use Rattle.trac_warnings.specs.Counted.{with_form};
ghost use Rattle.trac_warnings.specs.Origins.{in_input};
ghost use Rattle.trac_warnings.specs.Performed.{function_of};
ghost use Rattle.trac_warnings.specs.Watched.{KeepsNames};

use super::calls::places_of;
use super::{Choice, DefinitionSite, Watch};
use crate::origin::Origin;
use crate::performed::{CalledFunction, characters_of};
use std::alloc::{AllocError, Allocator};
use std::collections::BTreeMap;
use trac_core::{Awaits, Machine, ScanningRule, StoredForm};
use trac_events::{Before, argument, from_argument, is_same};
use trac_language::{Function, Given};
use trac_space::Cell;

#[tactic(auto, using(crate::proofs::Keeping::keeping))]
impl<A: Allocator + Copy> Watch<A> {
    /// The name of a form by its number in an origin. It is null if no name has the number.
    pub fn name(&self, number: usize) -> &[u8]
        ensures { MatchOption (slice_get self.now.names.items number)
            (result.now ≡ []) (λ name. result.now ≡ name.items) }
    {
        match self.names.get(number) {
            Some(name) => name.as_slice(),
            None => &[],
        }
    }

    // Where the value of the call that the step performs was written, if it comes from the form that the call names;
    // else where the call was written, at `begin`. `called` is the function of the call, if it has one.
    pub(super) fn origin_of_form(
        &self,
        called: &Option<CalledFunction>,
        begin: Origin,
    ) -> Result<Origin, AllocError> {
        match called {
            Some(called) if !matches!(called.held.gives, Given::Nothing) => {
                self.origin_of_body(pointer_in(&called.form), begin)
            }
            _ => Ok(begin),
        }
    }

    // Where the value of the call that the step performs was written, which comes from a form whose pointer has this
    // place; where the call was written, if it isn't known where the form was.
    #[inline(never)]
    fn origin_of_body(&self, pointer: u32, begin: Origin) -> Result<Origin, AllocError> {
        let name = characters_of(self.alloc, argument(&self.arguments, 1))?;
        match self.written.get(&name) {
            Some(written) => Ok(written.body.in_value(written.number, pointer as usize)),
            None => Ok(begin),
        }
    }

    // Where what the step puts in front of the active string was written.
    #[inline(always)]
    pub(super) fn value_origin(&self, before: &Before, machine: &Machine) -> Origin
        ensures { reads before.now.awaits ≡ true → result ≡ in_input self.now.read }
    {
        if !matches!(before.awaits, Awaits::Nothing)
            || !matches!(before.rule, ScanningRule::EndOfCall)
        {
            return Origin::in_input(self.read);
        }
        let active = machine.active();
        let added = active.len().saturating_add(1).saturating_sub(before.active);
        match active.get(..added) {
            Some(value) if added > 0 => self.origin_of_value(value),
            _ => self.value,
        }
    }

    // Where the value of the call that the step performs was written: an argument of the call, or what the function
    // makes.
    #[inline(always)]
    fn origin_of_value(&self, value: &[Cell]) -> Origin {
        let place = match self.choice {
            Choice::Nothing => None,
            Choice::Default(default) => self.place_of_default(value, default),
            Choice::OfTwo => Some(self.place_of_chosen(value)),
        };
        match place {
            Some(place) => places_of(&self.commas, self.given)
                .get(place)
                .copied()
                .unwrap_or(self.value),
            None => self.value,
        }
    }

    // How many arguments stand between the name of the call and its default value, the argument `default`. None if
    // that is not the value of the call.
    #[inline(never)]
    fn place_of_default(&self, value: &[Cell], default: u32) -> Option<usize> {
        if self.given < default as usize {
            return None;
        }
        let text = self.first_given(from_argument(&self.arguments, default), default);
        if value.len() == text.len() && is_same(value, text) {
            Some((default as usize).saturating_sub(1))
        } else {
            None
        }
    }

    // How many arguments stand between the name of the call and the one that is its value: the third or the fourth.
    // Their characters are looked at only if both are as long as the value.
    #[inline(never)]
    fn place_of_chosen(&self, value: &[Cell]) -> usize {
        let rest = from_argument(&self.arguments, 3);
        let third = self.first_given(rest, 3);
        if value.len() != third.len() {
            return 3;
        }
        let fourth = self.first_given(from_argument(rest, 1), 4);
        if value.len() != fourth.len() || is_same(value, third) {
            2
        } else {
            3
        }
    }

    // The first of the arguments of the call from argument `k` on. The last argument of the call is found without a
    // search for its end.
    fn first_given<'w>(&self, rest: &'w [Cell], k: u32) -> &'w [Cell] {
        if self.given <= k as usize {
            rest
        } else {
            argument(rest, 0)
        }
    }

    // Keeps which form a call of this function defined, if it defined one; and counts the call, if it is one of `cl`.
    #[inline(always)]
    pub(super) fn keep_form(&mut self, function: Option<Function>) -> Result<(), AllocError>
        requires { function ≡ function_of self.old.arguments.items }
        ensures stays { KeepsNames self.old self.new }
        ensures counts { OnOk result (counts_of self.new.written.entries ≡ counts_behind_call self.old) }
    {
        match function {
            Some(Function::DefineString) => self.keep_definition(),
            Some(Function::CallForm) => self.keep_call(),
            _ => Ok(()),
        }
    }

    // Keeps the form that a call of `ds` defined.
    #[inline(never)]
    fn keep_definition(&mut self) -> Result<(), AllocError>
        ensures stays { KeepsNames self.old self.new }
        ensures counts { let name = text_of_cells (argument_of self.old.arguments.items 1) in
            OnOk result (counts_of self.new.written.entries ≡
            with_form name (counts_of self.old.written.entries)) }
    {
        let name = characters_of(self.alloc, argument(&self.arguments, 1))?;
        self.define(name)
    }

    // Counts a call of `cl`.
    #[inline(never)]
    fn keep_call(&mut self) -> Result<(), AllocError>
        ensures stays { KeepsNames self.old self.new }
        ensures counts { let name = text_of_cells (argument_of self.old.arguments.items 1) in
            OnOk result (counts_of self.new.written.entries ≡
            with_call (calls_of name (counts_of self.old.written.entries)) name
            (counts_of self.old.written.entries)) }
    {
        let name = characters_of(self.alloc, argument(&self.arguments, 1))?;
        self.count_call(&name);
        Ok(())
    }

    // Keeps where the body of a form of this name was written that was defined.
    fn define(&mut self, name: Vec<u8, A>) -> Result<(), AllocError>
        ensures stays { KeepsNames self.old self.new }
        ensures counts { OnOk result
            (counts_of self.new.written.entries ≡ with_form name.items (counts_of self.old.written.entries)) }
    {
        let body = places_of(&self.commas, self.given)
            .get(1)
            .copied()
            .unwrap_or(self.value);
        let new = DefinitionSite {
            number: self.names.len(),
            body,
            calls: 0,
        };
        let copy = name.clone()?;
        if put(&mut self.written, name, new)? == new.number {
            self.names.push(copy)?;
        }
        Ok(())
    }

    // Counts a call of a form of this name, if one was defined.
    fn count_call(&mut self, name: &Vec<u8, A>)
        ensures stays { KeepsNames self.old self.new }
        ensures counts { counts_of self.new.written.entries ≡
            with_call (calls_of name.now.items (counts_of self.old.written.entries)) name.now.items
            (counts_of self.old.written.entries) }
    {
        if let Some(written) = self.written.get_mut(name) {
            written.calls = written.calls.saturating_add(1);
        }
    }
}

// Puts the place of a form's body to its name. `new` stands there if no form of the name was defined; else the number
// and the calls stay, and the place is that of `new`. Gives the number.
fn put<A: Allocator + Copy>(
    written: &mut BTreeMap<Vec<u8, A>, DefinitionSite, A>,
    name: Vec<u8, A>,
    new: DefinitionSite,
) -> Result<usize, AllocError>
    ensures { OnOk result (written.new.entries ≡ insert_entry ⟦<Vec<u8, A> as Ord>⟧.cmp written.old.entries name
        (record (unwrap_or (get ⟦<Vec<u8, A> as Ord>⟧.cmp written.old name) new) { body = new.body })) }
{
    let site = written.entry(name)?.or_insert(new);
    site.body = new.body;
    Ok(site.number)
}

impl Choice {
    // Which argument can be the value of a call of a function.
    pub(super) fn by(called: &Option<CalledFunction>) -> Choice {
        match called {
            Some(called) if called.held.chooses => Choice::OfTwo,
            Some(called) => match called.held.default {
                Some(default) => Choice::Default(default),
                None => Choice::Nothing,
            },
            None => Choice::Nothing,
        }
    }
}

// The pointer of a form; 0 if there is none.
fn pointer_in(form: &Option<StoredForm>) -> u32 {
    match form {
        Some(form) => form.pointer(),
        None => 0,
    }
}
