//! What is shown of a run, as it goes on.
ghost use Rattle.std.specs.Prelude.{◌≡◌, ◌++◌, ◌&&◌, [], IfOk, IfSome, OnOk, max, not, true, false};
ghost use Rattle.std.specs.Prelude.{if◌then◌else◌};
ghost use Rattle.trac_events.specs.Calls.{IsSeen, depth_in};
ghost use Rattle.trac_events.specs.Changes.{form_of};
ghost use Rattle.trac_views.specs.Lines.{dropped_text, head_text};
ghost use Rattle.trac_views.specs.CallLines.{event_text, has_steps, has_strings, is_fault, meta_text};
ghost use Rattle.trac_views.specs.Faults.{AddsDone, AddsEnd, AddsStep, AddsWhere, forms_text};
ghost use Rattle.trac_views.specs.Faults.{is_shown_step};
ghost use Rattle.trac_tracer.specs.ShownRuns.{first_progress};
ghost use Rattle.trac_tracer.specs.ShownCalls.{IsKept, AddsCall, kept_in, made_text, seen_text, touched_of};

use crate::oddities::oddity_of;
use std::alloc::{AllocError, Allocator};
use trac_core::{Awaits, CallMark, Cell, Fate, Machine, Report};
use trac_events::{
    Before, Named, Reading, argument, arguments_of, find_form, pointer_of, touched_by,
};
use trac_language::Concerned;
use trac_views::{
    Called, Event, Step, Views, head, is_fault, push, push_byte, push_deleted, push_end,
    push_event, push_fault, push_form, push_forms,
};

/// How far a run that is shown has come: what is kept of it from step to step.
#[derive(Clone, Copy)]
pub struct Progress {
    /// Where the input is read.
    pub reading: Reading,
    /// How many calls are open.
    pub depth: usize,
    /// The greatest need of a step so far, in cells.
    pub peak: u32,
}

impl Progress {
    /// Where a run stands before its first step.
    pub fn first() -> Progress
        ensures { result ≡ first_progress }
    {
        Progress {
            reading: Reading::first(),
            depth: 0,
            peak: 0,
        }
    }
}

/// The lines of the views of a run, and what they are made from.
#[derive(Drop)]
pub struct Shown<A: Allocator> {
    alloc: A,
    views: Views,
    // The lines of the step that was seen last.
    lines: Vec<u8, A>,
    // The arguments of the call that the step performs, what it names, and the forms that it deletes.
    arguments: Vec<Cell, A>,
    named: Named,
    deleted: Vec<u8, A>,
    // The form that it makes or changes.
    form: Vec<u8, A>,
    reading: Reading,
    // How many calls are open.
    depth: usize,
    peak: u32,
}

impl<A: Allocator + Copy> Shown<A> {
    /// What is shown before the first step: the lines above all others. Fails only if memory runs out.
    pub fn new(alloc: A, views: Views) -> Result<Shown<A>, AllocError>
        ensures { IfOk result (λ shown. (shown.views ≡ views) × (shown.peak ≡ 0) × (shown.depth ≡ 0)
            × (shown.lines.items ≡ head_text views.calls views.forms)) }
    {
        let mut shown = Shown::resumed(alloc, views, Progress::first());
        push(&mut shown.lines, head(&views))?;
        Ok(shown)
    }

    /// What is shown of a run that has come so far. There are no lines yet.
    pub fn resumed(alloc: A, views: Views, progress: Progress) -> Shown<A>
        ensures { (result.views ≡ views) × (result.depth ≡ progress.depth) × (result.peak ≡ progress.peak)
            × (result.lines.items ≡ []) × (result.reading ≡ progress.reading) }
    {
        Shown {
            alloc,
            views,
            lines: Vec::new(alloc),
            arguments: Vec::new(alloc),
            named: Named {
                function: None,
                pointer: None,
            },
            deleted: Vec::new(alloc),
            form: Vec::new(alloc),
            reading: progress.reading,
            depth: progress.depth,
            peak: progress.peak,
        }
    }

    /// How far the run has come.
    pub fn progress(&self) -> Progress
        ensures { (result.depth ≡ self.now.depth) × (result.peak ≡ self.now.peak)
            × (result.reading ≡ self.now.reading) }
    {
        Progress {
            reading: self.reading,
            depth: self.depth,
            peak: self.peak,
        }
    }

    /// The lines of the step that was seen last.
    pub fn lines(&self) -> &[u8]
        ensures { result.now ≡ self.now.lines.items }
    {
        self.lines.as_slice()
    }

    /// Looks at a machine before a step. Fails only if memory runs out.
    pub fn look(&mut self, machine: &Machine) -> Result<Before, AllocError>
        ensures seen { let asked = is_shown_step self.old.views machine.now.steps in
            IfOk result (IsSeen machine.now (asked && not (has_steps self.old.views))) }
        ensures kept { is_shown_step self.old.views machine.now.steps ≡ true →
            has_steps self.old.views ≡ false → IfOk result (λ before. IfSome before.call
            (λ mark. IsKept machine.now.memory self.old.views.width mark (kept_in self.new))) }
        ensures cleared { self.new.lines.items ≡ [] }
        ensures views { self.new.views ≡ self.old.views }
        ensures peak { self.new.peak ≡ self.old.peak }
        ensures depth { self.new.depth ≡ self.old.depth }
    {
        self.lines.clear();
        let is_shown = self.views.has(machine.steps().saturating_add(1));
        let with_call = is_shown && !self.views.has_steps();
        let before = Before::new(machine, with_call);
        if with_call && let Some(call) = before.call {
            self.look_at_call(machine, call)?;
        }
        Ok(before)
    }

    // Keeps what must be known of a call after it is performed.
    #[inline(never)]
    fn look_at_call(&mut self, machine: &Machine, call: CallMark) -> Result<(), AllocError>
        ensures kept { OnOk result (IsKept machine.now.memory self.old.views.width call
            (kept_in self.new)) }
        ensures lines { self.new.lines ≡ self.old.lines }
        ensures views { self.new.views ≡ self.old.views }
        ensures peak { self.new.peak ≡ self.old.peak }
        ensures depth { self.new.depth ≡ self.old.depth }
    {
        let arguments = arguments_of(machine.neutral(), call.place);
        let named = Named::new(machine, arguments);
        self.named = named;
        self.arguments.clear();
        self.arguments.extend_from_slice(arguments)?;
        self.deleted.clear();
        push_deleted(
            &mut self.deleted,
            self.alloc,
            touched_of(&named),
            arguments,
            machine,
            self.views.width,
        )
    }

    /// Adds the lines of what a step did. `machine` is the machine after it, `need` the cells that it needed, and
    /// `printed` the bytes that it printed. Fails only if memory runs out.
    #[inline(never)]
    pub fn add_lines(
        &mut self,
        before: &Before,
        machine: &Machine,
        fate: Option<Fate>,
        need: u32,
        printed: &[u8],
    ) -> Result<(), AllocError>
        ensures peak { self.new.peak ≡ max self.old.peak need }
        ensures depth { self.new.depth ≡ depth_in before.now machine.now self.old.depth }
        ensures views { self.new.views ≡ self.old.views }
        ensures hidden { is_shown_step self.old.views before.now.done ≡ false →
            self.new.lines.items ≡ self.old.lines.items }
        ensures steps { is_shown_step self.old.views before.now.done ≡ true →
            has_steps self.old.views ≡ true → OnOk result (AddsStep self.old.views.width
            before.now need printed.now machine.now self.old.lines.items self.new.lines.items) }
        ensures calls { is_shown_step self.old.views before.now.done ≡ true →
            has_steps self.old.views ≡ false → OnOk result (AddsCall self.old.views before.now fate
            (kept_in self.old)
            (record { depth = self.new.depth; printed = printed.now; machine = machine.now })
            self.old.lines.items self.new.lines.items) }
    {
        self.peak = self.peak.max(need);
        self.depth = before.depth_after(machine, self.depth);
        let value = match fate {
            None => before.value(machine),
            Some(_) => &[],
        };
        self.reading = read(self.reading, before, fate, value);
        if !self.views.has(before.done.saturating_add(1)) {
            return Ok(());
        }
        if machine.steps() > before.done {
            self.add_step(before, machine, need)?;
            self.add_call(before, machine, value, printed)?;
        }
        self.show(&Event::Printed(printed))
    }

    // Adds the lines of an event.
    fn show(&mut self, event: &Event) -> Result<(), AllocError>
        ensures lines { OnOk result (self.new.lines.items ≡
            self.old.lines.items ++ event_text self.old.views event.now) }
        ensures arguments { self.new.arguments ≡ self.old.arguments }
        ensures named { self.new.named ≡ self.old.named }
        ensures deleted { self.new.deleted ≡ self.old.deleted }
        ensures views { self.new.views ≡ self.old.views }
        ensures peak { self.new.peak ≡ self.old.peak }
        ensures depth { self.new.depth ≡ self.old.depth }
    {
        push_event(&mut self.lines, self.alloc, &self.views, event)
    }

    // Adds that a step was done, and what it dropped.
    #[inline(never)]
    fn add_step(&mut self, before: &Before, machine: &Machine, need: u32) -> Result<(), AllocError>
        ensures lines { has_steps self.old.views ≡ true → OnOk result (AddsDone self.old.views.width
            before.now need machine.now self.old.lines.items self.new.lines.items) }
        ensures dropped { has_steps self.old.views ≡ false → OnOk result (self.new.lines.items ≡
            self.old.lines.items
            ++ (if has_strings self.old.views then dropped_text before.now.drops else [])) }
        ensures arguments { self.new.arguments ≡ self.old.arguments }
        ensures named { self.new.named ≡ self.old.named }
        ensures deleted { self.new.deleted ≡ self.old.deleted }
        ensures views { self.new.views ≡ self.old.views }
        ensures peak { self.new.peak ≡ self.old.peak }
        ensures depth { self.new.depth ≡ self.old.depth }
    {
        let step = Step {
            number: machine.steps(),
            rule: before.rule,
            size: before.size,
            need,
        };
        self.show(&Event::Done(step, machine.neutral(), machine.active()))?;
        self.show(&Event::Dropped(before.drops))
    }

    // Adds the call that a step performed, if it performed one.
    #[inline(never)]
    fn add_call(
        &mut self,
        before: &Before,
        machine: &Machine,
        value: &[Cell],
        printed: &[u8],
    ) -> Result<(), AllocError>
        ensures lines { has_steps self.old.views ≡ true →
            OnOk result (self.new.lines.items ≡ self.old.lines.items) }
        ensures called { has_steps self.old.views ≡ false → OnOk result (self.new.lines.items ≡
            self.old.lines.items ++ seen_text self.old.views before.now.call (kept_in self.old) value.now
            (record { depth = self.old.depth; printed = printed.now; machine = machine.now })) }
        ensures views { self.new.views ≡ self.old.views }
        ensures peak { self.new.peak ≡ self.old.peak }
        ensures depth { self.new.depth ≡ self.old.depth }
    {
        let Some(call) = before.call else {
            return Ok(());
        };
        if self.views.has_steps() {
            return Ok(());
        }
        let arguments = self.arguments.as_slice();
        let name = argument(arguments, 1);
        let pointer = pointer_of(machine, name);
        self.form.clear();
        push_touched(
            &mut self.form,
            self.alloc,
            &self.named,
            machine,
            name,
            self.views.width,
        )?;
        let called = Called {
            number: machine.steps(),
            mode: call.mode,
            depth: self.depth,
            arguments,
            value,
            printed,
            form: self.form.as_slice(),
            deleted: self.deleted.as_slice(),
            oddity: oddity_of(&self.named, arguments, value, pointer),
        };
        push_event(
            &mut self.lines,
            self.alloc,
            &self.views,
            &Event::Called(called),
        )
    }

    /// Adds how the run ended. Fails only if memory runs out.
    pub fn add_end(&mut self, fate: Fate, machine: &Machine) -> Result<(), AllocError>
        ensures { OnOk result (AddsEnd self.old.views fate self.old.peak machine.now
            self.old.lines.items self.new.lines.items) }
    {
        let report = Report {
            fate,
            steps: machine.steps(),
            peak: self.peak,
        };
        push_end(&mut self.lines, &report)?;
        self.add_forms(machine)?;
        self.add_fault(fate, machine)
    }

    // Adds the forms and the meta character, if forms are shown.
    #[inline(never)]
    fn add_forms(&mut self, machine: &Machine) -> Result<(), AllocError>
        ensures lines { OnOk result (self.new.lines.items ≡
            self.old.lines.items ++ forms_text self.old.views machine.now) }
        ensures views { self.new.views ≡ self.old.views }
    {
        if !self.views.forms {
            return Ok(());
        }
        push_forms(
            &mut self.lines,
            self.alloc,
            machine.forms(),
            self.views.width,
        )?;
        push_meta(&mut self.lines, machine.meta())
    }

    // Adds the lines on a fault, if one ended the run.
    #[inline(never)]
    fn add_fault(&mut self, fate: Fate, machine: &Machine) -> Result<(), AllocError>
        ensures { OnOk result (AddsWhere (is_fault fate) self.old.views.width machine.now
            self.old.lines.items self.new.lines.items) }
    {
        if !is_fault(fate) {
            return Ok(());
        }
        push_fault(
            &mut self.lines,
            self.alloc,
            machine,
            self.reading.string,
            self.views.width,
        )
    }
}

// The forms that a call of what it names can make, change or delete.
fn touched_of(named: &Named) -> Concerned
    ensures { result ≡ touched_of named.now.function }
{
    match named.function {
        Some(function) => touched_by(function),
        None => Concerned::Nothing,
    }
}

// Adds the form of this name, where the call can have made or changed it.
fn push_touched<A: Allocator + Copy>(
    text: &mut Vec<u8, A>,
    alloc: A,
    named: &Named,
    machine: &Machine,
    name: &[Cell],
    width: u32,
) -> Result<(), AllocError>
    ensures { OnOk result (text.new.items ≡ text.old.items ++ made_text width
        (touched_of named.now.function) (form_of name.now machine.now.memory.forms)) }
{
    if touched_of(named) != Concerned::First {
        return Ok(());
    }
    match find_form(machine, name) {
        Some(form) => push_form(text, alloc, &form, width),
        None => Ok(()),
    }
}

// Adds the line of the meta character.
fn push_meta<A: Allocator>(lines: &mut Vec<u8, A>, meta: u8) -> Result<(), AllocError>
    ensures { OnOk result (lines.new.items ≡ lines.old.items ++ meta_text meta) }
{
    push(lines, b"meta character: ")?;
    push_byte(lines, meta)?;
    push(lines, b"\n")
}

// Where the input is read behind a step with this value.
fn read(reading: Reading, before: &Before, fate: Option<Fate>, value: &[Cell]) -> Reading {
    match before.awaits {
        Awaits::Text if fate.is_none() => reading.behind_string(value, before.meta),
        Awaits::Byte if fate.is_none() => reading.behind_character(value),
        _ => reading,
    }
}
