//! A run that is watched, step by step.
ghost use Rattle.std.specs.Prelude.{◌≡◌, ◌≢◌, ◌<◌, ◌↔◌, ◌++◌, ◌-◌, [], IfOk, OnOk, IsSome, false};
ghost use Rattle.std.specs.Prelude.{length, map, option_to_list, reverse};
ghost use Rattle.trac_events.specs.Calls.{IsSeen};
ghost use Rattle.trac_warnings.specs.Counted.{counts_behind, counts_of};
ghost use Rattle.trac_warnings.specs.Looked.{Looks, place_of};
ghost use Rattle.trac_warnings.specs.Origins.{in_input, moved, taken};
ghost use Rattle.trac_warnings.specs.Performed.{Warns};
ghost use Rattle.trac_warnings.specs.StepWarnings.{JudgesStep, calls_behind, ended, is_plain, not_ended};
ghost use Rattle.trac_warnings.specs.StepWarnings.{rule_warnings, strings_behind};
ghost use Rattle.trac_warnings.specs.Watched.{IsFresh, Kept, KeepsPlaces, KeepsRun, Moves, Reads};
ghost use Rattle.trac_warnings.specs.Watched.{Stays, said};

use crate::origin::Origin;
use crate::trail::{Run, take_run};
use crate::warning::Warning;
use calls::argument_origin;
use ends::ends_within;
use std::alloc::{AllocError, Allocator};
use std::collections::BTreeMap;
use trac_core::{Awaits, Machine, ScanningRule};
use trac_events::Before;
use trac_space::Cell;

mod calls;
mod ends;
mod faults;
mod names;
mod rows;
mod script;

/// A string that was read and is being scanned.
#[derive(Clone, Copy)]
struct OpenString {
    // Where it ends in the input.
    end: usize,
    // Whether a meta character stands there, between two letters: it seems to belong to a text.
    is_in_word: bool,
    // The cells of the active string that stand behind it.
    rest: usize,
    // How many calls were open when it was read.
    depth: usize,
}

/// A name of forms that were defined.
#[derive(Clone, Copy)]
struct DefinitionSite {
    // Its number among the names.
    number: usize,
    // Where the body of the form that was defined last was written.
    body: Origin,
    // How often cl called a form of this name.
    calls: usize,
}

// Which argument of a call can be its value.
#[derive(Clone, Copy)]
enum Choice {
    // None.
    Nothing,
    // The argument of this number, its default value.
    Default(u32),
    // The third or the fourth, one of which is the value.
    OfTwo,
}

/// Finds what is suspicious in a run. Show it the machine before and after each step; its warnings
/// are then those of that step. It keeps the origins of the active string, the open calls, and the
/// names of the forms that were defined.
#[derive(Drop)]
pub struct Watch<A: Allocator> {
    alloc: A,
    // The warnings of the last step that it saw.
    warnings: Vec<Warning<A>, A>,
    // The bytes of the input that were read.
    read: usize,
    // The origins of the active string, its first characters last.
    runs: Vec<Run, A>,
    // The strings that are being scanned, the one that was read last at the end.
    strings: Vec<OpenString, A>,
    // Where each open call was written, the innermost at the end, and where each argument of them was.
    calls: Vec<Origin, A>,
    commas: Vec<Origin, A>,
    // The names of the forms that were defined, by their number, and what is known by a name.
    names: Vec<Vec<u8, A>, A>,
    written: BTreeMap<Vec<u8, A>, DefinitionSite, A>,
    // The arguments of the call that the step performs, and where its value was written, unless it is
    // one of them.
    arguments: Vec<Cell, A>,
    // How many comma marks stand among these arguments.
    given: usize,
    // Which of them can be the value.
    choice: Choice,
    value: Origin,
    // How long the neutral string was before the step.
    neutral: usize,
}

#[tactic(auto, using(crate::proofs::Keeping::keeping))]
impl<A: Allocator + Copy> Watch<A> {
    /// A watch before the first step.
    pub fn new(alloc: A) -> Watch<A>
        ensures { IsFresh result }
    {
        Watch {
            alloc,
            warnings: Vec::new(alloc),
            read: 0,
            runs: Vec::new(alloc),
            strings: Vec::new(alloc),
            calls: Vec::new(alloc),
            commas: Vec::new(alloc),
            names: Vec::new(alloc),
            written: BTreeMap::new(alloc),
            arguments: Vec::new(alloc),
            given: 0,
            choice: Choice::Nothing,
            value: Origin::in_input(0),
            neutral: 0,
        }
    }

    /// The warnings of the last step that it saw.
    pub fn warnings(&self) -> &[Warning<A>]
        ensures { result.now ≡ self.now.warnings.items }
    {
        self.warnings.as_slice()
    }

    /// Takes away the last warning of the last step that it saw, and gives it. None if none is left.
    pub fn take_warning(&mut self) -> Option<Warning<A>>
        ensures left { self.old.warnings.items ≡ self.new.warnings.items ++ option_to_list result }
        ensures some { IsSome result ↔ (0 < length self.old.warnings.items) }
        ensures stays { KeepsRun self.old self.new }
    {
        self.warnings.pop()
    }

    /// Looks at a machine before a step. `input` has at least the bytes that the machine has read.
    /// Fails only if memory runs out.
    pub fn look(&mut self, machine: &Machine, input: &[u8]) -> Result<Before, AllocError>
        ensures seen { IfOk result (IsSeen machine.now false) }
        ensures looks { OnOk result (Looks self.old machine.now input.now self.new.warnings.items) }
        ensures stays { KeepsPlaces self.old self.new }
    {
        self.warnings.clear();
        self.arguments.clear();
        let before = Before::new(machine, false);
        if let ScanningRule::EndOfCall = before.rule {
            self.neutral = machine.neutral().len();
            self.look_at_end_of_call(&before, machine, input)?;
        }
        Ok(before)
    }

    /// Looks at a machine after a step, before which `look` gave `before`. `input` has at least the bytes that
    /// the machine has read. Fails only if memory runs out.
    pub fn judge_step(
        &mut self,
        before: &Before,
        machine: &Machine,
        input: &[u8],
    ) -> Result<(), AllocError>
        ensures undone { machine.now.steps ≡ before.now.done → Stays self.old self.new }
        ensures kept { machine.now.steps ≢ before.now.done →
            Kept self.old.warnings.items self.new.warnings.items }
        ensures moved { machine.now.steps ≢ before.now.done →
            OnOk result (Moves before.now machine.now self.old self.new) }
        ensures read { machine.now.steps ≢ before.now.done → OnOk result (Reads before.now machine.now
            input.now self.old.read self.new.read) }
        ensures tells { machine.now.steps ≢ before.now.done →
            OnOk result (JudgesStep before.now machine.now input.now self.old self.new) }
        ensures counted { machine.now.steps ≢ before.now.done → OnOk result
            (counts_of self.new.written.entries ≡ counts_behind before.now.rule self.old) }
    {
        if machine.steps() == before.done {
            self.warnings.clear();
            return Ok(());
        }
        let active = machine.active();
        if is_plain(before) {
            let _value = before.value(machine);
            let _neutral = machine.neutral();
            return self.warn_of_plain(before, active.len());
        }
        let here = self.origin();
        let origin = self.value_origin(before, machine);
        self.warn_of_rule(before, here, active, machine.neutral().len())?;
        self.move_on(before, machine, origin)?;
        self.warn_of_read(before, before.value(machine), active.len(), input)?;
        self.warn_of_ends(before.rule, active.len(), here)
    }

    // Looks at a step by a rule that only takes a character from the active string, in which `active` are left.
    fn warn_of_plain(&mut self, before: &Before, active: usize) -> Result<(), AllocError>
        ensures kept { Kept self.old.warnings.items self.new.warnings.items }
        ensures said { OnOk result (map said self.new.warnings.items ≡ ended before.now.rule active
            (place_of self.old) self.old.calls.items (map said self.old.warnings.items)
            (reverse self.old.strings.items)) }
        ensures strings { OnOk result
            (reverse self.new.strings.items ≡ not_ended active (reverse self.old.strings.items)) }
        ensures runs { OnOk result (reverse self.new.runs.items ≡
            taken (before.now.active - active) (reverse self.old.runs.items)) }
        ensures read { self.new.read ≡ self.old.read }
        ensures calls { self.new.calls.items ≡ self.old.calls.items }
        ensures written { self.new.written ≡ self.old.written }
    {
        let taken = before.active.saturating_sub(active);
        if !ends_within(&self.strings, active) {
            return take_run(&mut self.runs, taken);
        }
        let here = self.origin();
        take_run(&mut self.runs, taken)?;
        self.warn_of_ends(before.rule, active, here)
    }

    // Looks at what a step did, by its rule, and left in the strings. The first character of the active string was
    // written at `origin` before it.
    #[inline(always)]
    fn warn_of_rule(
        &mut self,
        before: &Before,
        origin: Origin,
        active: &[Cell],
        neutral: usize,
    ) -> Result<(), AllocError>
        requires { origin ≡ place_of self.old }
        ensures kept { Kept self.old.warnings.items self.new.warnings.items }
        ensures said { OnOk result (Warns self.old.warnings.items self.new.warnings.items
            (rule_warnings before.now.rule self.old before.now (length active.now) neutral)) }
        ensures calls { OnOk result (self.new.calls.items ≡ calls_behind before.now.rule self.old) }
        ensures strings { OnOk result
            (reverse self.new.strings.items ≡ strings_behind before.now.rule self.old) }
        ensures counts { OnOk result
            (counts_of self.new.written.entries ≡ counts_behind before.now.rule self.old) }
        ensures runs { self.new.runs.items ≡ self.old.runs.items }
        ensures read { self.new.read ≡ self.old.read }
    {
        match before.rule {
            ScanningRule::Idling => {
                self.begin_again();
                Ok(())
            }
            ScanningRule::ActiveCall | ScanningRule::NeutralCall => Ok(self.calls.push(origin)?),
            ScanningRule::Argument => Ok(self.commas.push(argument_origin(origin, active))?),
            ScanningRule::Protection => self.warn_of_protection(before, origin),
            ScanningRule::EndOfCall => self.warn_of_call(before, active.len(), neutral),
            _ => Ok(()),
        }
    }

    // Forgets what belongs to strings that are over.
    fn begin_again(&mut self)
        ensures warnings { self.new.warnings.items ≡ self.old.warnings.items }
        ensures runs { self.new.runs.items ≡ self.old.runs.items }
        ensures read { self.new.read ≡ self.old.read }
        ensures calls { self.new.calls.items ≡ [] }
        ensures strings { self.new.strings.items ≡ [] }
        ensures written { self.new.written ≡ self.old.written }
    {
        self.strings.clear();
        self.calls.clear();
        self.commas.clear();
    }
}

// Whether a step reads nothing, and neither opens a call, begins an argument, ends a call nor takes over a text.
fn is_plain(before: &Before) -> bool
    ensures { result ≡ is_plain before.now }
{
    matches!(before.awaits, Awaits::Nothing)
        && matches!(
            before.rule,
            ScanningRule::Layout | ScanningRule::NumberSign | ScanningRule::Character
        )
}
