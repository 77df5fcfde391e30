//! The machine: one step, and a run to the end.
ghost use Rattle.std.specs.Prelude.{◌≡◌, ◌≢◌, ◌+◌, ◌-◌, ◌^◌, ◌<◌, ◌≤◌, ◌++◌};
ghost use Rattle.std.specs.Prelude.{length, false, true, max, None, Some, IsSome};
ghost use Rattle.trac_language.specs.Text.{Text};
ghost use Rattle.trac_language.specs.State.{Memory};
ghost use Rattle.trac_devices.specs.Devices.{Sent};
ghost use Rattle.trac_core.specs.Performed.{performs, reads_input, prints_output};
ghost use Rattle.trac_core.specs.Machine.{fresh_machine, KeepsLimits, moment, Answers, Takes, StaysOver};
ghost use Rattle.trac_core.specs.Machine.{input_failures, output_failures, reported_input_failures};
ghost use Rattle.trac_core.specs.Machine.{reported_output_failures, Reports, course, counted};
ghost use Rattle.trac_core.specs.Machine.{MachineState, Resumes, LeavesMemory, counts_as_step};
ghost use Rattle.trac_functions.specs.Flat.{memory_of};

use crate::call::perform_next;
use crate::outcome::StepOutcome;
use crate::performer::WithDevices;
use crate::scan::scan_once;
use std::marker::Model;
use trac_devices::{Sink, Source};
use trac_forms::Work;
use trac_language::{Fate, Report};
use trac_space::Cell;

pub(crate) mod advancing;
pub(crate) mod answering;
pub(crate) mod arguments;
pub(crate) mod changing;
pub(crate) mod closing;
pub(crate) mod open_calls;
pub(crate) mod printing;
pub(crate) mod session;
pub(crate) mod view;

pub use advancing::Progress;
pub use answering::Delivery;
pub use changing::Refused;
pub use open_calls::CallMark;
pub use session::Awaits;

/// A processor over a lent block of cells, with an allowance of steps. It takes no other memory.
/// The rules that it follows are Mooers' (1966 and 1972); the block, the allowance and the
/// accounting are this processor's own choice.
#[derive(Drop)]
pub struct Machine<'a> {
    work: Work<'a>,
    meta: u8,
    allowance: u64,
    steps: u64,
    peak: u32,
    fate: Option<Fate>,
    /// Whether turns stop before a call whose name is no function.
    stops: bool,
}

impl<'a> Model for Machine<'a> {
    ghost use Rattle.std.specs.Prelude.{◌≤◌};
    ghost use Rattle.trac_forms.specs.Contents.{IsSound};
    ghost use Rattle.trac_functions.specs.Flat.{memory_of};
    ghost use Rattle.trac_core.specs.Machine.{MachineState};

    ghost Value = { MachineState };

    ghost view = { λ m. record {
      memory = memory_of m.meta m.work;
      room = m.work.room;
      allowance = m.allowance;
      steps = m.steps;
      peak = m.peak;
      fate = m.fate;
      stops = m.stops;
    } };

    ghost invariant = { λ m. (m.steps ≤ m.allowance) × (m.peak ≤ m.work.room) × IsSound m.work };
}

impl<'a> Machine<'a> {
    /// A machine over the cells of a block, whatever they hold, which may make `steps` steps.
    /// It has no form, and the apostrophe is its meta character.
    pub fn over(block: &'a mut [Cell], steps: u64) -> Machine<'a>
        requires { length block.old ≤ 16777216 }
        ensures { result ≡ fresh_machine (length block.old) steps }
    {
        Machine {
            work: Work::over(block),
            meta: b'\'',
            allowance: steps,
            steps: 0,
            peak: 0,
            fate: None,
            stops: false,
        }
    }

    /// The steps done.
    pub fn steps(&self) -> u64
        ensures { result ≡ self.now.steps }
    {
        self.steps
    }

    /// The greatest need of a step so far, in cells.
    pub fn peak(&self) -> u32
        ensures { result ≡ self.now.peak }
    {
        self.peak
    }

    /// One step. None: it was done, and the run goes on. Some: the run is over with this fate, and
    /// each later call answers it again and calls neither source nor sink.
    pub fn step<I: Source, O: Sink>(&mut self, source: &mut I, sink: &mut O) -> Option<Fate>
        requires source_counts { I.failure_count source.old < 2 ^ 64 - 1 }
        requires sink_counts { O.failure_count sink.old < 2 ^ 64 - 1 }
        // what each answer says about the machine, the source and the sink
        ensures answers { self.old.fate ≡ None → I.tells source.old → O.tells sink.old →
            Answers (moment self.old (I.stream source.old) (O.written sink.old)) result
            (moment self.new (I.stream source.new) (O.written sink.new)) }
        // the run is over exactly where a fate was answered
        ensures fate { self.new.fate ≡ result }
        // an answer None counts a step that was allowed
        ensures proceeds { result ≡ None →
            (self.old.steps < self.old.allowance) × (self.new.steps ≡ self.old.steps + 1) }
        // a run that is over stays so, and its devices are not called
        ensures over { IsSome self.old.fate →
            StaysOver self.old result self.new × (source.new ≡ source.old) × (sink.new ≡ sink.old) }
        // with the allowance used up nothing is called
        ensures spent { result ≡ Some Fate.Steps →
            (source.new ≡ source.old) × (sink.new ≡ sink.old) }
        // each failure of a device is answered, and no other is
        ensures input_failed { I.failure_count source.new ≡
            I.failure_count source.old + input_failures self.old.fate result }
        ensures output_failed { O.failure_count sink.new ≡
            O.failure_count sink.old + output_failures self.old.fate result }
        // unless the sink failed, what was put was sent on,
        // and where nothing was put the sink was not called
        ensures sent { result ≢ Some Fate.OutputFailed →
            Sent O.tells O.flushed O.written sink.old sink.new }
        // only a call that reads calls the source, for at most two bytes more than are free; only a
        // call that prints calls the sink
        ensures unread { reads_input (performs self.old.memory) ≡ false → source.new ≡ source.old }
        ensures unprinted { prints_output (performs self.old.memory) ≡ false → sink.new ≡ sink.old }
        ensures takes { I.tells source.old → (taken : Text) ×
            Takes self.old (I.stream source.old) (I.stream source.new) taken }
        ensures told_source { I.tells source.old → I.tells source.new }
        ensures told_sink { O.tells sink.old → O.tells sink.new }
        ensures kept { O.lent sink.new ≡ O.lent sink.old }
        // a step that ends the run leaves the forms and the meta character as they were
        ensures stay { result ≢ None → (self.new.memory.forms ≡ self.old.memory.forms)
            × (self.new.memory.meta ≡ self.old.memory.meta) }
        // the limits stay, and are kept
        ensures room { self.new.room ≡ self.old.room }
        ensures allowance { self.new.allowance ≡ self.old.allowance }
        ensures stops { self.new.stops ≡ self.old.stops }
        ensures limits { KeepsLimits self.new }
    {
        if self.fate.is_some() {
            return self.fate;
        }
        if self.steps == self.allowance {
            return self.count(StepOutcome {
                fate: Some(Fate::Steps),
                need: 0,
            });
        }
        let need = self.work.used();
        let Some(action) = scan_once(&mut self.work) else {
            return self.count(StepOutcome { fate: None, need });
        };
        let outcome = perform_next(&mut self.work, action, &mut self.meta, source, sink);
        self.count(outcome)
    }

    /// Counts a step with this outcome, of a run that is not over.
    fn count(&mut self, outcome: StepOutcome) -> Option<Fate>
        requires not_over { self.old.fate ≡ None }
        requires allowed { counts_as_step outcome.fate ≡ true →
            self.old.steps < self.old.allowance }
        requires fits { outcome.need ≤ self.old.room }
        ensures answer { result ≡ outcome.fate }
        ensures after { self.new ≡ counted self.old self.old.memory outcome.need outcome.fate }
        ensures limits { KeepsLimits self.new }
    {
        prove!(self.steps <= self.allowance);
        prove!(self.work.used() <= self.work.room());
        let before = Counters {
            allowance: self.allowance,
            steps: self.steps,
            peak: self.peak,
        };
        let counters = before.after(outcome);
        self.steps = counters.steps;
        self.peak = counters.peak;
        self.fate = outcome.fate;
        prove!(self.steps <= self.allowance);
        prove!(self.peak <= self.work.room());
        prove!(self.work.used() <= self.work.room());
        outcome.fate
    }

    /// Makes steps to the end of the run, and reports the result: with neither device failing,
    /// the output, the fate, the steps and the peak of the definition's run in this room with this
    /// allowance. The machine must be fresh.
    pub fn run<I: Source, O: Sink>(mut self, source: &mut I, sink: &mut O) -> Report
        requires fresh_machine { self ≡ fresh_machine self.room self.allowance }
        requires source_counts { I.failure_count source.old < 2 ^ 64 - 1 }
        requires sink_counts { O.failure_count sink.old < 2 ^ 64 - 1 }
        ensures reports { I.tells source.old → O.tells sink.old →
            let course = course self.entry (I.stream source.old) (O.written sink.old)
            (I.stream source.new) (O.written sink.new) in
            Reports result.fate course result }
        ensures input_failed { I.failure_count source.new ≡
            I.failure_count source.old + reported_input_failures result.fate }
        ensures output_failed { O.failure_count sink.new ≡
            O.failure_count sink.old + reported_output_failures result.fate }
        ensures sent { result.fate ≢ Fate.OutputFailed →
            Sent O.tells O.flushed O.written sink.old sink.new }
        ensures kept { O.lent sink.new ≡ O.lent sink.old }
        ensures steps { result.steps ≤ self.entry.allowance }
        ensures peak { result.peak ≤ self.entry.room }
    {
        self.resume(source, sink)
    }

    /// Makes steps to the end of the run, as `run` does, from wherever the machine stands, and
    /// leaves it to be looked at: the report has its steps and its peak. With neither device
    /// failing, what is printed, the fate, the steps and the peak are those of the definition's run
    /// from there. If the run is over already, the same fate is reported again, and nothing is
    /// called.
    pub fn resume<I: Source, O: Sink>(&mut self, source: &mut I, sink: &mut O) -> Report
        requires source_counts { I.failure_count source.old < 2 ^ 64 - 1 }
        requires sink_counts { O.failure_count sink.old < 2 ^ 64 - 1 }
        ensures reports { self.old.fate ≡ None → I.tells source.old → O.tells sink.old →
            let course = course self.old (I.stream source.old) (O.written sink.old)
            (I.stream source.new) (O.written sink.new) in
            Resumes self.old result.fate course result }
        // with the allowance used up the memory is that of the definition after these steps; else
        // the forms and the meta character are, those before the step that wasn't done or that
        // ended the run
        ensures leaves { self.old.fate ≡ None → I.tells source.old → O.tells sink.old →
            let course = course self.old (I.stream source.old) (O.written sink.old)
            (I.stream source.new) (O.written sink.new) in
            LeavesMemory result.fate course self.old.memory (result.steps - self.old.steps)
            self.new.memory }
        // a run that is over stays so, and its devices are not called
        ensures over { IsSome self.old.fate →
            (self.new ≡ self.old) × (source.new ≡ source.old) × (sink.new ≡ sink.old) }
        // the machine after it
        ensures told { result ≡ record {
          fate = result.fate;
          steps = self.new.steps;
          peak = self.new.peak;
        } }
        ensures fate { self.new.fate ≡ Some result.fate }
        // each failure of a device is answered, and no other is
        ensures input_failed { I.failure_count source.new ≡
            I.failure_count source.old + input_failures self.old.fate (Some result.fate) }
        ensures output_failed { O.failure_count sink.new ≡
            O.failure_count sink.old + output_failures self.old.fate (Some result.fate) }
        ensures sent { result.fate ≢ Fate.OutputFailed →
            Sent O.tells O.flushed O.written sink.old sink.new }
        ensures told_source { I.tells source.old → I.tells source.new }
        ensures told_sink { O.tells sink.old → O.tells sink.new }
        ensures kept { O.lent sink.new ≡ O.lent sink.old }
        ensures room { self.new.room ≡ self.old.room }
        ensures allowance { self.new.allowance ≡ self.old.allowance }
        ensures stops { self.new.stops ≡ self.old.stops }
        ensures limits { KeepsLimits self.new }
    {
        if let Some(fate) = self.fate {
            return self.report_with(fate);
        }
        let left = self.allowance - self.steps;
        self.drive(WithDevices, left, source, sink);
        let fate = self.fate.unwrap_or(Fate::Steps);
        self.fate = Some(fate);
        self.report_with(fate)
    }

    /// The report of a run that ended with this fate.
    fn report_with(&self, fate: Fate) -> Report
        ensures { result ≡ record {
          fate = fate;
          steps = self.now.steps;
          peak = self.now.peak;
        } }
    {
        Report {
            fate,
            steps: self.steps,
            peak: self.peak,
        }
    }
}

/// The counters of a run.
#[derive(Clone, Copy, Debug, PartialEq, Eq)]
struct Counters {
    allowance: u64,
    steps: u64,
    peak: u32,
}

impl Counters {
    /// The counters after a step that came to this.
    #[inline]
    fn after(self, outcome: StepOutcome) -> Counters
        requires within { self.steps ≤ self.allowance }
        requires allowed { counts_as_step outcome.fate ≡ true → self.steps < self.allowance }
        ensures counts { (m : MachineState) (memory : Memory) →
            m.steps ≡ self.steps → m.peak ≡ self.peak →
            let after = counted m memory outcome.need outcome.fate in
            result ≡ record self { steps = after.steps; peak = after.peak } }
        ensures steps { result.steps ≤ self.allowance }
        ensures peak { result.peak ≤ max self.peak outcome.need }
    {
        let peak = self.peak.max(outcome.need);
        match outcome.fate {
            None | Some(Fate::Halted | Fate::InputEnded) => Counters {
                steps: self.steps + 1,
                peak,
                ..self
            },
            Some(Fate::InputFailed | Fate::OutputFailed) => Counters { peak, ..self },
            Some(Fate::Workspace | Fate::Steps) => self,
        }
    }
}
