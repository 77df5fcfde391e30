//! A run in a block of its own.
ghost use Rattle.std.specs.Prelude.{◌≡◌, ◌≢◌, ◌+◌, ◌-◌, ◌^◌, ◌<◌, ◌≤◌, OnErr, IfOk};
ghost use Rattle.trac_language.specs.declared.fate.Fate.TheVariants.{OutputFailed};
ghost use Rattle.trac_devices.specs.Devices.{Sent};
ghost use Rattle.trac_core.specs.Machine.{Reports, course, fresh_machine, reported_input_failures};
ghost use Rattle.trac_core.specs.Machine.{reported_output_failures};

use std::alloc::Global;
use thiserror::Error;
use trac_command::Settings;
use trac_core::{Machine, Report, Sink, Source};
use trac_space::make_block;

/// There is no memory for the block of cells. Nothing was read or written.
#[derive(Debug, Drop, Error)]
#[error("no memory for the block")]
pub struct NoMemory;

/// Makes a block of the settings' cells and runs the script of the source in it, with the settings' steps.
/// An error means that there is no memory for the block; then source and sink are unchanged. This
/// processor's own choice.
pub fn serve<I: Source, O: Sink>(
    alloc: Global,
    settings: &Settings,
    source: &mut I,
    sink: &mut O,
) -> Result<Report, NoMemory>
    requires source_counts { I.failure_count source.old < 2 ^ 64 - 1 }
    requires sink_counts { O.failure_count sink.old < 2 ^ 64 - 1 }
    ensures reports { I.tells source.old → O.tells sink.old → IfOk result (λ report.
        let machine = fresh_machine settings.now.cells settings.now.steps in
        let course = course machine (I.stream source.old) (O.written sink.old)
        (I.stream source.new) (O.written sink.new) in
        Reports report.fate course report) }
    ensures input_failed { IfOk result (λ report. I.failure_count source.new ≡
        I.failure_count source.old + reported_input_failures report.fate) }
    ensures output_failed { IfOk result (λ report. O.failure_count sink.new ≡
        O.failure_count sink.old + reported_output_failures report.fate) }
    ensures sent { IfOk result (λ report. report.fate ≢ OutputFailed →
        Sent O.tells O.flushed O.written sink.old sink.new) }
    ensures steps { IfOk result (λ report. report.steps ≤ settings.now.steps) }
    ensures peak { IfOk result (λ report. report.peak ≤ settings.now.cells) }
    ensures no_memory { OnErr result ((source.new ≡ source.old) × (sink.new ≡ sink.old)) }
{
    let Ok(mut block) = make_block(alloc, settings.cells) else {
        return Err(NoMemory);
    };
    Ok(Machine::over(&mut block, settings.steps).run(source, sink))
}
