//! A run that is shown step by step.
ghost use Rattle.std.specs.Prelude.{◌≡◌, ◌+◌, ◌-◌, ◌^◌, ◌<◌, ◌≤◌, ℕ, List, IfOk, OnOk, IsSome};
ghost use Rattle.std.specs.Prelude.{min, true, false};
ghost use Rattle.std.specs.Io.KnownBytes.{Appends};
ghost use Rattle.trac_core.specs.Machine.{reported_input_failures};
ghost use Rattle.trac_views.specs.Lines.{folded_text};
ghost use Rattle.trac_views.specs.CallLines.{has_steps};
ghost use Rattle.trac_devices.specs.Devices.{Stream, told_stream};
ghost use Rattle.trac_tracer.specs.ShownRuns.{ShowsRun, all_steps, views_from};

use crate::last::LastSteps;
use crate::options::Options;
use crate::record::{Record, Recording};
use crate::shown::Shown;
use std::alloc::{AllocError, Global};
use std::io;
use std::io::{Read, Write};
use thiserror::Error;
use trac_core::{Fate, Input, Machine, Output, SliceSource, Source};
use trac_space::make_block;
use trac_views::{Printed, push_folded};

/// Why a trace broke off.
#[derive(Debug, Drop, Error)]
pub enum TraceError {
    /// What is shown could not be written.
    #[error("output failed")]
    NotWritten,
    /// There is no memory for the block or for a line.
    #[error("no memory")]
    NoMemory,
}

impl From<AllocError> for TraceError {
    fn from(_: AllocError) -> TraceError {
        TraceError::NoMemory
    }
}

/// What a trace came to.
#[derive(Clone, Copy)]
pub struct Traced {
    /// How the run ended.
    pub fate: Fate,
    /// The first of the last steps that the views show something of; the views say how many steps
    /// these are.
    pub first: u64,
}

/// Runs the script that the source gives, in a workspace of the options' cells and with the steps
/// that they allow, and writes what their views show of each step, and how the run ended. Fails only if
/// memory runs out or the output can't be written.
pub fn trace<I: Source, W: Write>(
    alloc: Global,
    options: &Options,
    source: &mut I,
    output: &mut W,
) -> Result<Traced, TraceError>
    requires source_counts { I.failure_count source.old < 2 ^ 64 - 1 }
    ensures input_failed { IfOk result (λ traced. I.failure_count source.new ≡
        I.failure_count source.old + reported_input_failures traced.fate) }
    // what was written shows the definition's run, step by step
    ensures shows { let asked = options.now in I.tells source.old → IfOk result (λ traced. (text : List ℕ)
        × (Appends (W.contents output.old) (W.contents output.new) text
        × ShowsRun asked.views asked.cells asked.steps (I.stream source.old) (I.stream source.new)
        traced.fate traced.first text)) }
{
    let mut block = make_block(alloc, options.cells)?;
    let mut machine = Machine::over(&mut block, options.steps);
    let mut printed = Printed::new(alloc);
    let mut shown = Shown::new(alloc, options.views)?;
    let mut last = LastSteps::new(alloc, options.views.last);
    write_folded(alloc, output, shown.lines(), options.views.columns)?;
    loop {
        let before = shown.look(&machine)?;
        let fate = machine.step(source, &mut printed);
        let need = machine.take_peak();
        shown.add_lines(&before, &machine, fate, need, printed.as_bytes())?;
        printed.clear();
        last.add(machine.steps(), shown.lines())?;
        if let Some(fate) = fate {
            shown.add_end(fate, &machine)?;
            write_folded(alloc, output, shown.lines(), options.views.columns)?;
            let first = last.first();
            return Ok(Traced { fate, first });
        }
        write_folded(alloc, output, shown.lines(), options.views.columns)?;
    }
}

/// Runs the script that the reader gives, as `trace` does, and shows the last steps that the views
/// show something of. The script is run twice: the first run finds the first of these steps and
/// keeps what it reads, and the second reads that again. No lines are kept in between, since the
/// strings of each step may be as long as the block. The second run ends as the first: it reads the
/// same bytes, and fails where the first did. Fails only if memory runs out or the output can't be
/// written.
pub fn trace_last<R: Read + Drop, W: Write>(
    alloc: Global,
    options: &Options,
    reader: R,
    output: &mut W,
) -> Result<Traced, TraceError>
    // what was written shows the definition's run over some bytes, from some step on
    ensures { let asked = options.now in IfOk result (λ traced.
        (text : List ℕ) × ((bytes : List ℕ) × ((left : Stream) × ((first : ℕ)
        × (Appends (W.contents output.old) (W.contents output.new) text
        × ShowsRun (views_from first asked.views) asked.cells asked.steps
        (record { bytes = bytes; ended = false }) left traced.fate traced.first text))))) }
{
    let mut record = Record::new(alloc);
    let once = run_once(alloc, options, reader, &mut record)?;
    if !record.is_whole {
        return Err(TraceError::NoMemory);
    }
    let fails_at = match once.fate {
        Fate::InputFailed => Some(record.bytes.len() as u64),
        _ => None,
    };
    let options = options.showing(options.views.beginning_at(once.first));
    let mut source = SliceSource::new(record.bytes.as_slice(), fails_at);
    trace(alloc, &options, &mut source, output)
}

// Runs a script, keeps what it reads, and finds the first of the last steps that are shown. If the
// steps themselves are shown, counting them is enough.
fn run_once<R: Read + Drop>(
    alloc: Global,
    options: &Options,
    reader: R,
    record: &mut Record,
) -> Result<Traced, TraceError>
    ensures views { let asked = options.now in has_steps asked.views ≡ false →
        IsSome (R.remaining reader) → IfOk result (λ traced. (text : List ℕ) × ((left : Stream)
        × ShowsRun (all_steps asked.views) asked.cells asked.steps
        (told_stream (R.remaining reader) false) left traced.fate traced.first text)) }
    ensures steps { has_steps options.now.views ≡ true → IfOk result (λ traced.
        (steps : ℕ) × ((steps ≤ options.now.steps)
        × (traced.first ≡ min (steps - options.now.views.last + 1) (2 ^ 64 - 1)))) }
{
    let mut source = Input::new(Recording { reader, record });
    if !options.views.has_steps() {
        let views = options.views.of_all_steps();
        let options = options.showing(views);
        return trace(alloc, &options, &mut source, &mut io::sink());
    }
    let mut block = make_block(alloc, options.cells)?;
    let mut sink = Output::new(io::sink());
    let report = Machine::over(&mut block, options.steps).run(&mut source, &mut sink);
    Ok(Traced {
        fate: report.fate,
        first: options.views.first_of(report.steps),
    })
}

// Writes a text in lines of at most `columns` columns.
fn write_folded<W: Write>(
    alloc: Global,
    output: &mut W,
    text: &[u8],
    columns: u32,
) -> Result<(), TraceError>
    ensures { OnOk result (Appends (W.contents output.old) (W.contents output.new)
        (folded_text columns 0 text.now)) }
{
    if columns == 0 {
        return write(output, text);
    }
    let mut lines = Vec::new(alloc);
    push_folded(&mut lines, text, columns)?;
    write(output, &lines)
}

/// Writes all the bytes to the output. Fails if the output does.
pub fn write<W: Write>(output: &mut W, bytes: &[u8]) -> Result<(), TraceError>
    ensures { OnOk result (Appends (W.contents output.old) (W.contents output.new) bytes.now) }
{
    if bytes.is_empty() {
        return Ok(());
    }
    match output.write_all(bytes) {
        Ok(()) => Ok(()),
        Err(_) => Err(TraceError::NotWritten),
    }
}
