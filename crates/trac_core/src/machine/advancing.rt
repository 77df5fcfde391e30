//! Steps, as many as follow one another.
ghost use Rattle.std.specs.Prelude.{◌≡◌, ◌+◌, ◌<◌, ◌≤◌, ◌^◌, Bool, None, Some, IsSome, length, max};
ghost use Rattle.trac_language.specs.State.{Memory};
ghost use Rattle.trac_forms.specs.Contents.{IsSound};
ghost use Rattle.trac_functions.specs.Calls.{KeepsRoom};
ghost use Rattle.trac_core.specs.Machine.{KeepsLimits, MachineState, counted};
ghost use Rattle.trac_core.specs.StepsInRow.{turning};
ghost use Rattle.trac_core.specs.Advancing.{Advanced, advanced_to};
ghost use Rattle.trac_core.specs.Driving.{Driven, standing};
ghost use Rattle.trac_core.specs.Session.{next_function};

use super::{Counters, Machine};
use crate::idling::{IDLING_STEPS, idling_need, may_begin_idling};
use crate::long_runs::LongRuns;
use crate::outcome::StepOutcome;
use crate::performer::{Alone, Performer};
use crate::scan::{NextAction, scan_steps};
use trac_forms::Work;
use trac_language::{Fate, Function};

/// What `advance` did.
#[derive(Clone, Copy)]
pub struct Progress {
    /// The steps that were done and after which the run went on.
    pub done: u64,
    /// The function of the call that it stopped before, which reads or prints. `None` if it stopped
    /// before a call of no function, or for another reason.
    pub next: Option<Function>,
}

/// How far a machine went.
#[derive(Clone, Copy)]
pub(super) struct Advance {
    progress: Progress,
    /// The steps and the peak that are counted then, and how the run ended, if it did.
    steps: u64,
    peak: u32,
    fate: Option<Fate>,
}

impl<'a> Machine<'a> {
    /// Makes at most `most` steps, as `step` does, but none that needs a device: it stops before a
    /// call of `rs`, `rc` or `pf`, before one of `ps` whose text isn't null, and before one whose name is no
    /// function if `stop_at_unknown` asked for that. Gives how many steps were done after which the run went on.
    /// They are fewer than `most` only if it stopped there, the allowance is used up, or the next step
    /// ended the run, by `hl` or since it needs more than the room. With
    /// the allowance used up, the next call of `step` ends the run. Where the run is over before,
    /// nothing is done. This processor's own choice.
    pub fn advance(&mut self, most: u64) -> Progress
        // these are steps of the definition, whatever the devices hold, and this is why no more are done
        ensures advanced { self.old.fate ≡ None → Advanced most result.done self.old self.new }
        ensures few { result.done ≤ most }
        // where they are fewer, what the next step performs
        ensures next { result.done < most → result.next ≡ next_function self.new }
        // a run that is over stays so
        ensures over { IsSome self.old.fate → (result.done ≡ 0) × (self.new ≡ self.old) }
        // the limits stay, and are kept
        ensures room { self.new.room ≡ self.old.room }
        ensures allowance { self.new.allowance ≡ self.old.allowance }
        ensures stops { self.new.stops ≡ self.old.stops }
        ensures limits { KeepsLimits self.new }
    {
        if self.fate.is_some() {
            return Progress {
                done: 0,
                next: None,
            };
        }
        let performer = Alone { stops: self.stops };
        self.drive(performer, most, &mut (), &mut ())
    }

    /// Makes at most `most` steps of a run that isn't over, whose calls this performer performs. They are
    /// fewer only if it declined a call, the allowance is used up, or the next step ended the run.
    #[inline(always)]
    pub(super) fn drive<I, O, P: Performer<I, O>>(
        &mut self,
        performer: P,
        most: u64,
        source: &mut I,
        sink: &mut O,
    ) -> Progress
        requires going { self.old.fate ≡ None }
        requires ready { P.ready source.old sink.old }
        ensures driven { Driven (P.performed performer) (P.declines performer) most result.done
            (standing self.old source.old sink.old) (standing self.new source.new sink.new) }
        ensures few { result.done ≤ most }
        ensures next { result.done < most → result.next ≡ next_function self.new }
        ensures counts { self.new.fate ≡ None → self.new.steps ≡ self.old.steps + result.done }
        ensures room { self.new.room ≡ self.old.room }
        ensures allowance { self.new.allowance ≡ self.old.allowance }
        ensures stops { self.new.stops ≡ self.old.stops }
        ensures limits { KeepsLimits self.new }
    {
        let at = Counters {
            allowance: self.allowance,
            steps: self.steps,
            peak: self.peak,
        };
        let to = go_on(
            &mut self.work,
            &mut self.meta,
            at,
            most,
            performer,
            source,
            sink,
        );
        self.steps = to.steps;
        self.peak = to.peak;
        self.fate = to.fate;
        to.progress
    }
}

/// Makes at most `most` steps of a run that isn't over and has these counters. They are single values
/// here, and no part of a machine, so that they need not stand in memory. `need` has the cells of the first step
/// since a call: those that perform none need no more than it does.
#[inline(never)]
fn go_on<I, O, P: Performer<I, O>>(
    work: &mut Work,
    meta: &mut u8,
    at: Counters,
    most: u64,
    performer: P,
    source: &mut I,
    sink: &mut O,
) -> Advance
    requires sound { IsSound work.old }
    requires steps { at.steps ≤ at.allowance }
    requires peak { at.peak ≤ work.old.room }
    requires ready { P.ready source.old sink.old }
    ensures driven { (stops : Bool) →
        Driven (P.performed performer) (P.declines performer) most result.progress.done
        (standing (turning stops work.old meta.old at) source.old sink.old)
        (standing (advanced_to stops work.new meta.new at result) source.new sink.new) }
    ensures few { result.progress.done ≤ most }
    ensures next { (stops : Bool) → result.progress.done < most →
        result.progress.next ≡ next_function (advanced_to stops work.new meta.new at result) }
    ensures counts { result.fate ≡ None → result.steps ≡ at.steps + result.progress.done }
    ensures steps { result.steps ≤ at.allowance }
    ensures peak { result.peak ≤ work.old.room }
    ensures keeps { KeepsRoom work.old work.new }
{
    let reach = most.min(at.allowance - at.steps);
    let mut left = reach;
    let mut peak = at.peak;
    let mut need = work.used();
    let mut long_runs = LongRuns::none();
    while left > 0 {
        match scan_steps(work, left, &mut long_runs) {
            Ok(done) => {
                left -= done;
                peak = peak.max(need);
            }
            Err(NextAction::Idling) if may_begin_idling(work, left) => {
                peak = peak.max(idling_need(work));
                left -= IDLING_STEPS;
                long_runs = LongRuns::none();
                if let Some(read) = performer.idle(work, &mut left, *meta, source, &*sink) {
                    if let Some(fate) = read.fate {
                        return over(at, reach - left, peak, read, fate);
                    }
                    peak = peak.max(read.need);
                }
                need = work.used();
            }
            Err(action) => {
                let last = match performer.perform(work, action, meta, source, sink) {
                    Ok(last) => last,
                    Err(function) => return going(reach - left, function, at.steps, peak),
                };
                if let Some(fate) = last.fate {
                    return over(at, reach - left, peak, last, fate);
                }
                left -= 1;
                peak = peak.max(last.need);
                need = work.used();
                long_runs = LongRuns::none();
            }
        }
    }
    going(reach, None, at.steps, peak)
}

/// The advance of `done` steps, after which the peak is `peak` and a step with this outcome ends the run with this
/// fate. `at` has the counters before all of them.
fn over(at: Counters, done: u64, peak: u32, last: StepOutcome, fate: Fate) -> Advance
    requires allowed { at.steps + done < at.allowance }
    requires fate { last.fate ≡ Some fate }
    ensures progress { result.progress ≡ record { done = done; next = None } }
    ensures counts { (m : MachineState) (memory : Memory) → m.steps ≡ at.steps + done → m.peak ≡ peak →
        let after = counted m memory last.need (Some fate) in
        (result.steps ≡ after.steps) × (result.peak ≡ after.peak) }
    ensures steps { result.steps ≤ at.allowance }
    ensures peak { result.peak ≤ max peak last.need }
    ensures fate { result.fate ≡ Some fate }
{
    let before = Counters {
        allowance: at.allowance,
        steps: at.steps + done,
        peak,
    };
    let counters = before.after(last);
    Advance {
        progress: Progress { done, next: None },
        steps: counters.steps,
        peak: counters.peak,
        fate: Some(fate),
    }
}

/// The advance of `done` steps after `steps` others, with this peak, and what the next one performs; the run goes
/// on.
fn going(done: u64, next: Option<Function>, steps: u64, peak: u32) -> Advance
    requires { steps + done < 2 ^ 64 }
    ensures { result ≡ record {
      progress = record { done = done; next = next };
      steps = steps + done;
      peak = peak;
      fate = None;
    } }
{
    Advance {
        progress: Progress { done, next },
        steps: steps + done,
        peak,
        fate: None,
    }
}
