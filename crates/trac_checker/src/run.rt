//! A run that is watched from its first step to its last.
ghost use Rattle.std.specs.Prelude.{◌≡◌, ◌++◌, ◌+◌, ◌-◌, ◌^◌, ◌<◌, ◌≤◌, IfOk, None, OnOk, [], length, map};
ghost use Rattle.std.specs.Prelude.{reverse, take};
ghost use Rattle.std.specs.List.{flat_map};
ghost use Rattle.trac_core.specs.Machine.{KeepsLimits, reported_input_failures};
ghost use Rattle.trac_events.specs.Places.{behind_text, first_place};
ghost use Rattle.trac_views.specs.CallLines.{is_fault};
ghost use Rattle.trac_checker.specs.Warned.{causes_with, fault_end, form_named, found_of, names_of};
ghost use Rattle.trac_checker.specs.Warned.{summary_text, unexplained, warning_line, warning_text};
ghost use Rattle.trac_warnings.specs.Explained.{no_cause};
ghost use Rattle.trac_checker.specs.FoundSoFar.{found_in, found_in_script, with_all, with_fault, with_names};
ghost use Rattle.trac_checker.specs.Rows.{PassesRow};
ghost use Rattle.trac_checker.specs.WatchedRuns.{WatchesRun};
ghost use Rattle.trac_warnings.specs.Watched.{KeepsRun, said};

use crate::lines::push_warning;
use crate::null_sink::NullSink;
use std::alloc::{AllocError, Allocator};
use trac_core::{Cell, Fate, Machine, Report, Source};
use trac_events::Place;
use trac_views::{is_fault, push, push_end, push_number};
use trac_warnings::{Causes, Findings, Warning, Watch, look_at_names, look_at_script};

/// A run that was watched, and what was found.
#[derive(Drop)]
pub struct WatchedRun<A: Allocator> {
    watch: Watch<A>,
    findings: Findings<A>,
    /// How the run ended, with its steps and its peak.
    pub report: Report,
}

/// Runs the script that the source gives, in a block of cells and with at most `steps` steps, and keeps what is
/// suspicious, but not what is printed. `input` is the whole input. Fails only if memory runs out.
pub fn watched<A: Allocator + Copy, I: Source>(
    alloc: A,
    block: &mut [Cell],
    steps: u64,
    input: &[u8],
    source: &mut I,
) -> Result<WatchedRun<A>, AllocError>
    requires room { length block.old ≤ 16777216 }
    requires source_counts { I.failure_count source.old < 2 ^ 64 - 1 }
    ensures input_failed { IfOk result (λ watched. I.failure_count source.new ≡
        I.failure_count source.old + reported_input_failures watched.report.fate) }
    ensures steps { IfOk result (λ watched. watched.report.steps ≤ steps) }
    ensures peak { IfOk result (λ watched. watched.report.peak ≤ length block.old) }
    // what was found is what a watch of the definition's run finds, step by step
    ensures watches { I.tells source.old → IfOk result (λ watched. WatchesRun A input.now (length block.old) steps
        (I.stream source.old) (I.stream source.new) (names_of watched.watch.names.items)
        (found_of watched.findings.counts.entries) watched.report) }
{
    let mut machine = Machine::over(block, steps);
    let mut null_sink = NullSink::new();
    let mut watch = Watch::new(alloc);
    let mut findings = of_script(alloc, input)?;
    loop {
        pass_row(&mut machine, &mut watch, steps)?;
        let before = watch.look(&machine, input)?;
        let fate = machine.step(source, &mut null_sink);
        watch.judge_step(&before, &machine, input)?;
        keep_warnings(&mut watch, &mut findings)?;
        if let Some(fate) = fate {
            add_fault(&mut findings, alloc, &watch, fate, input)?;
            add_names(&mut findings, alloc, input)?;
            let report = Report {
                fate,
                steps: machine.steps(),
                peak: machine.peak(),
            };
            return Ok(WatchedRun {
                watch,
                findings,
                report,
            });
        }
    }
}

// Makes the steps up to the next one at which something may be suspicious, at once, and lets the watch follow them.
// The machine may make `steps` steps in all.
#[inline(never)]
fn pass_row<A: Allocator + Copy>(
    machine: &mut Machine,
    watch: &mut Watch<A>,
    steps: u64,
) -> Result<(), AllocError>
    requires going { machine.old.fate ≡ None }
    requires limits { KeepsLimits machine.old }
    requires allowance { machine.old.allowance ≡ steps }
    ensures passes { OnOk result (PassesRow machine.old machine.new watch.old watch.new) }
    ensures limits { KeepsLimits machine.new }
    ensures room { machine.new.room ≡ machine.old.room }
    ensures allowance { machine.new.allowance ≡ machine.old.allowance }
{
    let count = watch.follow_row(machine, steps - machine.steps())?;
    let _neutral = machine.neutral();
    if count == 0 {
        return Ok(());
    }
    machine.advance(count);
    Ok(())
}

// What is suspicious in how a script is written.
#[inline(never)]
fn of_script<A: Allocator + Copy>(alloc: A, input: &[u8]) -> Result<Findings<A>, AllocError>
    ensures { IfOk result (λ findings. found_in findings ≡ found_in_script input.now) }
{
    let mut findings = Findings::new(alloc);
    let mut warnings = Vec::new(alloc);
    look_at_script(&mut warnings, alloc, input)?;
    add_all(&mut findings, warnings)?;
    Ok(findings)
}

// Adds what is told of the fault that ended a run, if this fate is a fault. `watch` saw the whole run.
#[inline(never)]
fn add_fault<A: Allocator + Copy>(
    findings: &mut Findings<A>,
    alloc: A,
    watch: &Watch<A>,
    fate: Fate,
    input: &[u8],
) -> Result<(), AllocError>
    ensures { OnOk result (found_in findings.new ≡
        with_fault (is_fault fate) input.now watch.now (found_in findings.old)) }
{
    if !is_fault(fate) {
        return Ok(());
    }
    let mut warnings = Vec::new(alloc);
    watch.warn_of_fault(&mut warnings, input)?;
    add_all(findings, warnings)
}

// Adds the names in a script that are nearly those of functions, and that no call had that was performed.
#[inline(never)]
fn add_names<A: Allocator + Copy>(
    findings: &mut Findings<A>,
    alloc: A,
    input: &[u8],
) -> Result<(), AllocError>
    ensures { OnOk result (found_in findings.new ≡ with_names input.now (found_in findings.old)) }
{
    let mut warnings = Vec::new(alloc);
    look_at_names(&mut warnings, alloc, input)?;
    add_all(findings, warnings)
}

// Adds warnings, the first of them first.
fn add_all<A: Allocator + Copy>(
    findings: &mut Findings<A>,
    warnings: Vec<Warning<A>, A>,
) -> Result<(), AllocError>
    ensures { OnOk result (found_in findings.new ≡
        with_all (map said warnings.items) (found_in findings.old)) }
{
    for warning in warnings {
        findings.add(warning)?;
    }
    Ok(())
}

// Keeps the warnings of a step, the last first.
fn keep_warnings<A: Allocator + Copy>(
    watch: &mut Watch<A>,
    findings: &mut Findings<A>,
) -> Result<(), AllocError>
    ensures stays { KeepsRun watch.old watch.new }
    ensures none { OnOk result (watch.new.warnings.items ≡ []) }
    ensures found { OnOk result (found_in findings.new ≡
        with_all (reverse (map said watch.old.warnings.items)) (found_in findings.old)) }
{
    while let Some(warning) = watch.take_warning() {
        findings.add(warning)?;
    }
    Ok(())
}

impl<A: Allocator + Copy> WatchedRun<A> {
    /// How many warnings are told, each counted once.
    pub fn len(&self) -> usize
        ensures { result ≡ length (unexplained (found_of self.now.findings.counts.entries)) }
    {
        let causes = causes_of(&self.findings);
        let all = self.findings.len();
        let mut count: usize = 0;
        for (warning, _) in self.findings.counts() {
            if !causes.explain(warning) {
                prove!(count < all);
                count += 1;
            }
        }
        count
    }

    /// Adds a line for each warning, which begins with `head`, in the order of their places in `input`, the whole
    /// input; but no line for a warning that another one explains. Fails only if memory runs out.
    #[inline(never)]
    pub fn push_warnings(
        &self,
        lines: &mut Vec<u8, A>,
        head: &[u8],
        input: &[u8],
    ) -> Result<(), AllocError>
        ensures { let names = names_of self.now.watch.names.items in OnOk result (lines.new.items ≡ lines.old.items
            ++ flat_map (warning_line head.now input.now names)
            (unexplained (found_of self.now.findings.counts.entries))) }
    {
        let causes = causes_of(&self.findings);
        let mut read: usize = 0;
        let mut place = Place::first();
        for (warning, times) in self.findings.counts() {
            place = place_behind(input, read, place, warning.origin.offset);
            read = warning.origin.offset;
            if !causes.explain(warning) {
                self.push_line(lines, head, warning, place, *times)?;
            }
        }
        Ok(())
    }

    // Adds the line of a warning at this place, which begins with `head`.
    #[inline(never)]
    fn push_line(
        &self,
        lines: &mut Vec<u8, A>,
        head: &[u8],
        warning: &Warning<A>,
        place: Place,
        times: u64,
    ) -> Result<(), AllocError>
        ensures { let form = form_named (names_of self.now.watch.names.items) warning.now.origin.form in
            OnOk result (lines.new.items ≡
            lines.old.items ++ head.now ++ warning_text (said warning.now) place form times) }
    {
        push(lines, head)?;
        push_warning(lines, warning, place, self.form(warning), times)
    }

    // The name of the form in whose value a warning is; null if it is in none.
    #[tactic(auto, using(crate::proofs::Named::named))]
    fn form(&self, warning: &Warning<A>) -> &[u8]
        ensures { result.now ≡ form_named (names_of self.now.watch.names.items) warning.now.origin.form }
    {
        match warning.origin.form {
            Some(number) => self.watch.name(number),
            None => &[],
        }
    }

    /// Adds the line on how the run ended, if by a fault. Fails only if memory runs out.
    pub fn push_fault(&self, lines: &mut Vec<u8, A>) -> Result<(), AllocError>
        ensures { OnOk result (lines.new.items ≡
            lines.old.items ++ fault_end (is_fault self.now.report.fate) self.now.report) }
    {
        if is_fault(self.report.fate) {
            push_end(lines, &self.report)
        } else {
            Ok(())
        }
    }

    /// Adds the line of a file of this name: how many warnings there are, and how the run ended.
    /// Fails only if memory runs out.
    pub fn push_summary(&self, lines: &mut Vec<u8, A>, name: &[u8]) -> Result<(), AllocError>
        ensures { OnOk result (lines.new.items ≡ lines.old.items
            ++ summary_text name.now (length (unexplained (found_of self.now.findings.counts.entries)))
            self.now.report) }
    {
        push(lines, name)?;
        push(lines, b": warnings ")?;
        push_number(lines, self.len() as u64)?;
        push(lines, b"; ")?;
        push_end(lines, &self.report)
    }
}

// Which kinds of warnings were found that explain others.
fn causes_of<A: Allocator + Copy>(findings: &Findings<A>) -> Causes
    ensures { result ≡ causes_with no_cause (found_of findings.now.counts.entries) }
{
    let mut causes = Causes::none();
    for (warning, _) in findings.counts() {
        causes = causes.with(warning.suspicion);
    }
    causes
}

// The place behind the first `offset` bytes of the input. `place` is that behind the first `read`, which aren't
// read again unless `offset` is less.
fn place_behind(input: &[u8], read: usize, place: Place, offset: usize) -> Place
    requires { place ≡ behind_text first_place (take read input.now) }
    ensures { result ≡ behind_text first_place (take offset input.now) }
{
    let from = read.min(input.len());
    let to = offset.min(input.len());
    if to < from {
        return Place::first().behind_bytes(&input[..to]);
    }
    place.behind_bytes(&input[from..to])
}
