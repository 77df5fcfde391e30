//! What is shown of a machine that C keeps, step by step.
ghost use Rattle.std.specs.Prelude.{◌≡◌, ◌⊎◌, IfErr, IfOk, List, ℕ, is_ok, length, true};
ghost use Rattle.trac_core.specs.Machine.{MachineState};
ghost use Rattle.trac_lent.specs.Units.{units_at};
ghost use Rattle.trac_c.specs.Buffers.{laid};
ghost use Rattle.trac_c.specs.Machines.{machine_after, machine_at};
ghost use Rattle.trac_c.specs.Traced.{Traced, Unseen, StepTraced, WithEnd, behind, counting, fate_of, head_of};
ghost use Rattle.trac_c.specs.Traced.{is_waiting, last_shown, progress_of, reported, views_of, written_text};
ghost use types.Logic.{sem};

use crate::filling::lay;
use crate::report::{ASKS, FULL, NO_MEMORY, TracReport, WAITS};
use crate::stepping::one_step;
use std::alloc::{AllocError, Allocator};
use trac_core::{Fate, Machine};
use trac_events::{Place, Reading};
use trac_lent::{Units, arena_over};
use trac_tracer::{Progress, Shown};
use trac_views::{Views, head, push_folded};

/// What is shown of a run, and how far it has come, as C keeps it from step to step. C says what is shown, and gives
/// all other fields 0 before the first step.
#[repr(C)]
#[derive(Clone, Copy)]
pub struct TracTrace {
    /// The first step that is shown, from 1.
    pub from: u64,
    /// The last step that is shown.
    pub to: u64,
    /// The most bytes of a text that are shown, 0 for all.
    pub width: u32,
    /// The most columns of a line, 0 for any number.
    pub columns: u32,
    /// Whether the calls are shown that are performed: not 0.
    pub calls: u32,
    /// Whether the forms are shown that change, and all at the end: not 0. Without both the steps are shown.
    pub forms: u32,
    /// The last step of which something was shown; 0 if there is none.
    pub shown: u64,
    /// How many bytes the last lines have.
    pub lines: u64,
    /// The greatest need of a step so far, in cells.
    pub peak: u32,
    /// Whether there were lines of the run before: not 0.
    pub begun: u32,
    /// How many calls are open.
    pub depth: u64,
    /// Where the input is read.
    pub line: u64,
    pub column: u64,
    /// Where the string began that was read last.
    pub string_line: u64,
    pub string_column: u64,
}

impl TracTrace {
    /// What is shown.
    fn views(&self) -> Views
        ensures { result ≡ views_of self.now }
    {
        Views {
            from: self.from,
            to: self.to,
            last: 0,
            width: self.width,
            columns: self.columns,
            calls: self.calls != 0,
            forms: self.forms != 0,
            warn: false,
        }
    }

    /// How far the run has come.
    fn progress(&self) -> Progress
        ensures { result ≡ progress_of self.now }
    {
        Progress {
            reading: self.reading(),
            depth: self.depth as usize,
            peak: self.peak,
        }
    }

    /// Where the input is read.
    fn reading(&self) -> Reading
        ensures { result ≡ (progress_of self.now).reading }
    {
        if self.begun == 0 {
            return Reading::first();
        }
        Reading {
            next: Place {
                line: self.line,
                column: self.column,
            },
            string: Place {
                line: self.string_line,
                column: self.string_column,
            },
        }
    }

    /// The state before the head, the line above all others.
    fn head(&self) -> &'static [u8]
        ensures { result.now ≡ head_of self.now }
    {
        if self.begun == 0 {
            head(&self.views())
        } else {
            &[]
        }
    }

    /// The same with a peak that is taken over, and without lines.
    fn counting(&self, peak: u32) -> TracTrace
        ensures { result ≡ counting peak self.now }
    {
        TracTrace {
            peak: self.peak.max(peak),
            lines: 0,
            ..*self
        }
    }

    /// The same behind a step.
    fn behind(&self, progress: Progress) -> TracTrace
        ensures { result ≡ behind self.now progress.depth progress.peak result }
    {
        TracTrace {
            depth: progress.depth as u64,
            peak: progress.peak,
            line: progress.reading.next.line,
            column: progress.reading.next.column,
            string_line: progress.reading.string.line,
            string_column: progress.reading.string.column,
            begun: 1,
            ..*self
        }
    }
}

/// Has the machine at a place make a step as a turn does, and puts what is shown of it to the front of `lines`: all
/// `trace.lines` bytes where they fit, and else as many as fit. Behind the input more may come (`ended` is 0), it ends
/// (1), or reading fails (2): a step that waits for input then ends the run by a failed input. Where the step ends the
/// run, how it ended stands behind its lines, and in front of the first step's stands the head. The lists that this
/// needs stand in the `units` units of 16 bytes at `memory`, which are aligned to 16, and are the caller's no more. If
/// they are too few, `fate` is 10: either nothing was done, or the step was, as `steps`, `written` and `consumed` tell,
/// and only its lines are lost. An end of the run that counts no step is told by the next call, without the head. The
/// peak of the machine is taken over into that of the trace, which the report has, and counts from 0 again.
#[unsafe(no_mangle)]
pub unsafe extern "C" fn trac_engine_trace_step(
    machine: *mut u64,
    trace: &mut TracTrace,
    input: &[u8],
    output: &mut [u8],
    ended: u32,
    memory: *mut u64,
    units: usize,
    lines: &mut [u8],
) -> TracReport
    ghost held: { MachineState }
    requires* { sem 𝓛 (machine_at machine held) ∗ sem 𝓛 (units_at units memory) }
    ensures* { sem 𝓛 (machine_after machine (Traced ended input.now output.old output.new
        lines.old lines.new trace.old held result trace.new)) }
{
    let lent = Units::from_raw(memory as *mut u128);
    show_step(
        &mut *(machine as *mut Machine<'static>),
        trace,
        input,
        output,
        ended,
        lent,
        units,
        lines,
    )
}

/// Has a machine make a step, and shows it, with the lists in memory of `count` units.
fn show_step(
    machine: &mut Machine<'static>,
    trace: &mut TracTrace,
    input: &[u8],
    output: &mut [u8],
    ended: u32,
    units: Units,
    count: usize,
    lines: &mut [u8],
) -> TracReport
    requires { count ≡ units.count }
    ensures { Traced ended input.now output.old output.new lines.old lines.new trace.old machine.old
        result trace.new machine.new }
{
    *trace = trace.counting(machine.take_peak());
    match arena_over(units, count) {
        Ok(arena) => show_in(&arena, machine, trace, input, output, ended, lines),
        Err(_) => unseen(machine, trace),
    }
}

/// The report where the memory is too small to look at a step.
fn unseen(machine: &Machine<'static>, trace: &TracTrace) -> TracReport
    ensures { result ≡ record {
      fate = 10;
      peak = trace.now.peak;
      steps = machine.now.steps;
      written = 0;
      consumed = 0;
      wanted = 0;
    } }
{
    TracReport {
        fate: NO_MEMORY,
        peak: trace.peak,
        steps: machine.steps(),
        written: 0,
        consumed: 0,
        wanted: 0,
    }
}

/// Has a machine make a step, and shows it, with the lists in the memory of an allocator.
fn show_in<A: Allocator + Copy>(
    alloc: A,
    machine: &mut Machine<'static>,
    trace: &mut TracTrace,
    input: &[u8],
    output: &mut [u8],
    ended: u32,
    lines: &mut [u8],
) -> TracReport
    ensures { (Unseen output.old output.new lines.old lines.new trace.old machine.old result trace.new machine.new)
        ⊎ (StepTraced ended input.now output.new lines.old lines.new trace.old machine.old result trace.new
        machine.new) }
{
    let mut shown = Shown::resumed(alloc, trace.views(), trace.progress());
    let Ok(before) = shown.look(machine) else {
        return unseen(machine, trace);
    };
    let turn = one_step(machine, input, output, ended);
    let need = machine.take_peak();
    if is_waiting(turn.fate) {
        return reported(&turn, turn.fate, trace.peak);
    }
    let fate = fate_of(turn.fate);
    let added = shown.add_lines(&before, machine, fate, need, &output[..turn.written]);
    let after = trace.behind(shown.progress());
    match lay_lines(alloc, &mut shown, added, trace, fate, machine, lines) {
        Ok(lines) => {
            *trace = TracTrace {
                lines: lines.bytes,
                shown: lines.step,
                ..after
            };
            reported(&turn, turn.fate, after.peak)
        }
        Err(_) => {
            *trace = after;
            reported(&turn, NO_MEMORY, after.peak)
        }
    }
}

/// The report of a step that is shown, by that of its turn.
fn reported(turn: &TracReport, fate: u32, peak: u32) -> TracReport
    ensures { result ≡ reported fate peak turn.now }
{
    TracReport {
        fate,
        peak,
        steps: turn.steps,
        written: turn.written,
        consumed: turn.consumed,
        wanted: turn.wanted,
    }
}

/// Lines that were shown: how many bytes they have, and the last step of which something was shown.
#[derive(Clone, Copy)]
struct Lines {
    bytes: u64,
    step: u64,
}

/// Puts the lines of a step that was made, and those on the end of the run where that is over, to the front of a
/// buffer. Fails only if memory runs out, or ran out before, and then the buffer stays as it is.
fn lay_lines<A: Allocator + Copy>(
    alloc: A,
    shown: &mut Shown<A>,
    added: Result<(), AllocError>,
    trace: &TracTrace,
    fate: Option<Fate>,
    machine: &Machine<'static>,
    room: &mut [u8],
) -> Result<Lines, AllocError>
    requires { shown.old.views.columns ≡ trace.now.columns }
    ensures worked { IfOk result (λ _. is_ok added ≡ true) }
    ensures ok { IfOk result (λ lines. (all : List ℕ)
        × (WithEnd shown.old.views fate shown.old.peak machine.now shown.old.lines.items all
        × (room.new ≡ laid (written_text trace.now all) room.old)
        × (lines.bytes ≡ length (written_text trace.now all))
        × (lines.step ≡ last_shown trace.now shown.old.lines.items machine.now.steps))) }
    ensures err { IfErr result (λ _. room.new ≡ room.old) }
{
    added?;
    let step = if shown.lines().is_empty() {
        trace.shown
    } else {
        machine.steps()
    };
    if let Some(fate) = fate {
        shown.add_end(fate, machine)?;
    }
    let mut text = Vec::new(alloc);
    push_folded(&mut text, trace.head(), trace.columns)?;
    push_folded(&mut text, shown.lines(), trace.columns)?;
    lay(&text, room);
    Ok(Lines {
        bytes: text.len() as u64,
        step,
    })
}

/// Whether a report says that no step was made.
fn is_waiting(fate: u32) -> bool
    ensures { result ≡ is_waiting fate }
{
    fate == WAITS || fate == FULL || fate == ASKS
}

/// The fate that has this number. None if it is the number of none.
fn fate_of(number: u32) -> Option<Fate>
    ensures { result ≡ fate_of number }
{
    match number {
        1 => Some(Fate::Halted),
        2 => Some(Fate::InputEnded),
        3 => Some(Fate::Workspace),
        4 => Some(Fate::Steps),
        5 => Some(Fate::InputFailed),
        6 => Some(Fate::OutputFailed),
        _ => None,
    }
}
