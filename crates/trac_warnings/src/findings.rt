//! The warnings of a whole run, in the order of their places, with how often each was given.
ghost use Rattle.std.specs.Prelude.{◌≡◌, ◌==◌, [], length, not, true, false, IfOk, OnOk};
ghost use Rattle.std.specs.BTreeMap.{get, insert_entry};
ghost use Rattle.trac_warnings.specs.Findings.{is_among, is_noted, is_of_form, is_repeated, once_more};
ghost use Rattle.trac_warnings.specs.Findings.{texts_of, with_text};

use crate::warning::{Suspicion, Warning};
use std::alloc::{AllocError, Allocator};
use std::collections::{BTreeMap, BTreeSet};

/// Warnings, each kept once.
#[derive(Drop)]
pub struct Findings<A: Allocator> {
    // How often each warning was given, in the order of the places.
    counts: BTreeMap<Warning<A>, u64, A>,
    // The names of the forms of which a warning was kept that each form gets once, and the names that no function has.
    reported: BTreeSet<Vec<u8, A>, A>,
}

impl<A: Allocator + Copy> Findings<A> {
    /// No warning yet.
    pub fn new(alloc: A) -> Findings<A>
        ensures counts { result.counts.entries ≡ [] }
        ensures reported { texts_of result.reported ≡ [] }
    {
        Findings {
            counts: BTreeMap::new(alloc),
            reported: BTreeSet::new(alloc),
        }
    }

    /// Adds a warning. Of a form's name only the first warning is kept that no form has it, that a text of `ss`
    /// isn't in the form, or that the form has no gap for an argument, wherever the others stand: they mostly
    /// come from one mistake. The same goes for the number of arguments that a form got. A misspelled name is
    /// warned of once, and not at all if there was a warning of a call of that name. Fails only if memory runs
    /// out.
    pub fn add(&mut self, warning: Warning<A>) -> Result<(), AllocError>
        ensures repeated { is_repeated warning self.old.reported ≡ true →
            self.new.counts.entries ≡ self.old.counts.entries }
        ensures counted { is_repeated warning self.old.reported ≡ false →
            OnOk result (self.new.counts.entries ≡ insert_entry ⟦<Warning<A> as Ord>⟧.cmp self.old.counts.entries
            warning (once_more (get ⟦<Warning<A> as Ord>⟧.cmp self.old.counts warning))) }
        ensures others { is_noted warning.suspicion ≡ false → self.new.reported ≡ self.old.reported }
        ensures reported { is_noted warning.suspicion ≡ true → OnOk result (texts_of self.new.reported ≡
            with_text warning.text.items (texts_of self.old.reported)) }
    {
        if !is_noted(warning.suspicion) {
            return count(&mut self.counts, warning);
        }
        if !note_name(&mut self.reported, &warning.text)? && is_of_form(warning.suspicion) {
            return Ok(());
        }
        count(&mut self.counts, warning)
    }

    /// How many warnings there are, each counted once.
    pub fn len(&self) -> usize
        ensures { result ≡ length self.now.counts.entries }
    {
        self.counts.len()
    }

    /// Whether there is no warning.
    pub fn is_empty(&self) -> bool
        ensures { result ≡ (length self.now.counts.entries == 0) }
    {
        self.counts.is_empty()
    }

    /// Each warning with how often it was given, in the order of their places.
    pub fn counts(&self) -> &BTreeMap<Warning<A>, u64, A>
        ensures { result.now ≡ self.now.counts }
    {
        &self.counts
    }
}

// Whether each form, or name, gets one warning of this kind and of its kin.
fn is_of_form(suspicion: Suspicion) -> bool
    ensures { result ≡ is_of_form suspicion }
{
    matches!(
        suspicion,
        Suspicion::NoForm
            | Suspicion::BlankInName
            | Suspicion::NotInForm
            | Suspicion::InOtherLetters
            | Suspicion::NoGap
            | Suspicion::FewArguments
            | Suspicion::Misspelled
    )
}

// Whether the name of a warning of this kind is kept, so that no other is given of it.
fn is_noted(suspicion: Suspicion) -> bool
    ensures { result ≡ is_noted suspicion }
{
    is_of_form(suspicion) || matches!(suspicion, Suspicion::NoFunction | Suspicion::FormAsFunction)
}

// Adds a name. False if it was there before.
fn note_name<A: Allocator + Copy>(
    names: &mut BTreeSet<Vec<u8, A>, A>,
    name: &Vec<u8, A>,
) -> Result<bool, AllocError>
    ensures value { IfOk result (λ is_new. is_new ≡ not (is_among name.now.items names.old)) }
    ensures noted { OnOk result (texts_of names.new ≡ with_text name.now.items (texts_of names.old)) }
{
    let name = name.clone()?;
    Ok(names.insert(name)?)
}

// Counts a warning once more.
#[tactic(auto, using(crate::proofs::Noted::with_one))]
fn count<A: Allocator + Copy>(
    counts: &mut BTreeMap<Warning<A>, u64, A>,
    warning: Warning<A>,
) -> Result<(), AllocError>
    ensures { OnOk result (counts.new.entries ≡ insert_entry ⟦<Warning<A> as Ord>⟧.cmp counts.old.entries
        warning (once_more (get ⟦<Warning<A> as Ord>⟧.cmp counts.old warning))) }
{
    let times = counts.entry(warning)?.or_insert(0);
    *times = times.saturating_add(1);
    Ok(())
}
