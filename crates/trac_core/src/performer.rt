//! What performs the calls that the scanner comes to: all of them, with a source and a sink, or those
//! that need neither.
ghost use Rattle.std.specs.Prelude.{◌≡◌, ◌≢◌, ◌+◌, ◌-◌, ◌<◌, ◌≤◌, ◌^◌, ◌⊎◌, ⊤, [], true, Option, None, IfOk, IfSome, IsSome, MatchResult};
ghost use Rattle.trac_language.specs.State.{Memory};
ghost use Rattle.trac_language.specs.Store.{cells};
ghost use Rattle.trac_language.specs.declared.fate.Fate.{Fate};
ghost use Rattle.trac_forms.specs.Contents.{IsSound};
ghost use Rattle.trac_functions.specs.Calls.{KeepsRoom};
ghost use Rattle.trac_core.specs.StepsInRow.{AsksFor, idling_begun};
ghost use Rattle.trac_core.specs.Performed.{needs_device};
ghost use Rattle.trac_core.specs.OpenCalls.{stops_at};
ghost use Rattle.trac_core.specs.Driving.{Stage, stage, Standing, PerformedFor, Declined};
ghost use Rattle.trac_core.specs.Driving.{PerformedAlone, PerformedWith, ReadsOn};

use crate::call::{asks_host, named, needs_device, perform_alone, perform_next};
use crate::idling::{begin_idling, load_idling};
use crate::outcome::StepOutcome;
use crate::read_in_place::{STRING_FROM, read_in_place};
use crate::scan::NextAction;
use trac_devices::{Sink, Source};
use trac_forms::Work;
use trac_language::Function;

/// Makes the steps that perform a call or load the idling procedure. It may decline one.
pub(crate) trait Performer<I, O>: Copy {
    /// That the source and the sink may be called.
    ghost ready: { I → O → Type 0 };

    /// That a step led from a machine and its devices to these, and ended the run with this fate, or with none.
    ghost performed: { Self → Standing I O → Option Fate → Standing I O → Type 0 };

    /// That the call is declined which the next step over a memory performs.
    ghost declines: { Self → Memory → Type 0 };

    /// Makes the step that the beginning of the active string asks for. An error is the function of the
    /// call that is declined, if it names one: then nothing is done.
    fn perform(
        self,
        work: &mut Work,
        action: NextAction,
        meta: &mut u8,
        source: &mut I,
        sink: &mut O,
    ) -> Result<StepOutcome, Option<Function>>
        requires ready { ready source.old sink.old }
        requires sound { IsSound work.old }
        requires asks { AsksFor action work.old }
        ensures done { MatchResult result
            (λ outcome. PerformedFor (performed self) outcome.fate outcome.need
            (stage work.old meta.old source.old sink.old) (stage work.new meta.new source.new sink.new))
            (λ function. Declined (declines self) function
            (stage work.old meta.old source.old sink.old) (stage work.new meta.new source.new sink.new)) }
        ensures ready { IfOk result (λ outcome. outcome.fate ≡ None → ready source.new sink.new) }
        ensures fits { IfOk result (λ outcome. outcome.need ≤ work.old.room) }
        ensures keeps { KeepsRoom work.old work.new };

    /// The active string is empty, and eight steps may be made, for which there is room: the idling procedure is
    /// loaded and its two calls are opened. Then it may make more of the steps that are left, and takes those from
    /// `left` after which the run goes on: it reads the string, and scans the ordinary characters in front of it. Gives
    /// the outcome of the step that reads. `None` if it makes no more.
    fn idle(
        self,
        work: &mut Work,
        left: &mut u64,
        meta: u8,
        source: &mut I,
        sink: &O,
    ) -> Option<StepOutcome>
        requires ready { ready source.old sink.now }
        requires empty { work.old.active ≡ [] }
        requires room { cells work.old.forms + 11 ≤ work.old.room }
        requires sound { IsSound work.old }
        ensures begun { result ≡ None →
            (work.new ≡ idling_begun work.old) × ((left.new ≡ left.old) × (source.new ≡ source.old)) }
        ensures read { IfSome result (λ outcome. ReadsOn (performed self) outcome (left.old - left.new - 1)
            (stage (idling_begun work.old) meta source.old sink.now) work.new source.new) }
        ensures left { left.new ≤ left.old }
        ensures goes_on { IfSome result (λ outcome. outcome.fate ≡ None → left.new < left.old) }
        ensures ends { IfSome result (λ outcome. outcome.fate ≢ None → left.new ≡ left.old) }
        ensures some { IsSome result → 0 < left.old }
        ensures ready { IfSome result (λ outcome. outcome.fate ≡ None → ready source.new sink.now) }
        ensures fits { IfSome result (λ outcome. outcome.need ≤ work.old.room) }
        ensures keeps { KeepsRoom work.old work.new };
}

/// Performs each call. Those that read or print use the source and the sink.
#[derive(Clone, Copy)]
pub(crate) struct WithDevices;

impl<I: Source, O: Sink> Performer<I, O> for WithDevices {
    ghost ready = { λ source sink.
        (I.failure_count source < 2 ^ 64 - 1) × (O.failure_count sink < 2 ^ 64 - 1) };

    ghost performed = { λ performer. PerformedWith I.tells I.stream I.failure_count O.tells O.flushed
        O.written O.lent O.failure_count };

    ghost declines = { λ performer memory. ⊥ };

    #[inline(always)]
    fn perform(
        self,
        work: &mut Work,
        action: NextAction,
        meta: &mut u8,
        source: &mut I,
        sink: &mut O,
    ) -> Result<StepOutcome, Option<Function>> {
        Ok(perform_next(work, action, meta, source, sink))
    }

    #[inline(always)]
    fn idle(
        self,
        work: &mut Work,
        left: &mut u64,
        meta: u8,
        source: &mut I,
        _sink: &O,
    ) -> Option<StepOutcome> {
        if *left == 0 {
            begin_idling(work);
            return None;
        }
        let outcome = read_in_place(work, *left - 1, meta, source);
        if outcome.fate.is_none() {
            *left -= 1 + u64::from(work.neutral_len() - STRING_FROM);
        }
        Some(outcome)
    }
}

/// Performs the calls that need no device, and declines the others.
#[derive(Clone, Copy)]
pub(crate) struct Alone {
    /// Whether it declines a call whose name is no function, too.
    pub(crate) stops: bool,
}

impl Performer<(), ()> for Alone {
    ghost ready = { λ source sink. ⊤ };

    ghost performed = { λ performer old fate new. old.machine.stops ≡ performer.stops →
        PerformedAlone old.machine fate new.machine };

    ghost declines = { λ performer memory.
        (needs_device memory ≡ true) ⊎ (stops_at performer.stops memory ≡ true) };

    #[inline(always)]
    fn perform(
        self,
        work: &mut Work,
        action: NextAction,
        meta: &mut u8,
        _source: &mut (),
        _sink: &mut (),
    ) -> Result<StepOutcome, Option<Function>> {
        match action {
            NextAction::Idling => Ok(load_idling(work)),
            NextAction::EndOfCall(place) => {
                let call = named(work, place);
                if needs_device(work, call) {
                    return Err(call.function);
                }
                if asks_host(self.stops, call) {
                    return Err(call.function);
                }
                work.drop_active(1);
                Ok(perform_alone(work, call, meta))
            }
        }
    }

    #[inline(always)]
    fn idle(
        self,
        work: &mut Work,
        _left: &mut u64,
        _meta: u8,
        _source: &mut (),
        _sink: &(),
    ) -> Option<StepOutcome> {
        begin_idling(work);
        None
    }
}
