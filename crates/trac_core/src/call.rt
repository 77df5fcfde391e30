//! Calls: one is performed when its right parenthesis is scanned. The table of functions stands in
//! `trac_functions::function`. The functions that read, print, change the meta character or end the
//! run are called here; one that reads or prints has a line in `needs_device` too.
ghost use Rattle.std.specs.Prelude.{◌≡◌, ◌≢◌, ◌-◌, ◌<◌, ◌≤◌, ◌^◌, ℕ};
ghost use Rattle.std.specs.Prelude.{◌&&◌, is_none, length, nat_lt, None, Some, true, false, IfOk, MatchResult};
ghost use Rattle.trac_language.specs.Text.{Text};
ghost use Rattle.trac_space.specs.Calls.{IsLastCall};
ghost use Rattle.trac_forms.specs.Contents.{IsSound, used};
ghost use Rattle.trac_language.specs.State.{argument};
ghost use Rattle.trac_functions.specs.Flat.{arguments_at, memory_of, mode_at, is_active_mode};
ghost use Rattle.trac_functions.specs.Calls.{AreArguments, texts};
ghost use Rattle.trac_core.specs.Performed.{calls_device, performs, touches_device};
ghost use Rattle.trac_core.specs.StepOutcomes.{scene, Tried, TriedCall, function_at, TakesFrom};
ghost use Rattle.trac_core.specs.StepOutcomes.{TakesAtMost, AnswersCall, Stands, fate_after};
ghost use Rattle.trac_core.specs.StepOutcomes.{LeavesSource, LeavesSink, EndsQuietly, NoneFailed, HasArguments};
ghost use Rattle.trac_core.specs.NamedCalls.{IsAlone, IsNamed};
ghost use Rattle.trac_devices.specs.Devices.{Stream};
ghost use Rattle.trac_core.specs.StepsInRow.{AsksFor};
ghost use Rattle.trac_functions.specs.Calls.{KeepsRoom};

use crate::delivery::{finish_call, is_active_call};
use crate::display::print_form;
use crate::idling::load_idling;
use crate::input_output::{change_meta, print_string, read_character, read_string};
use crate::outcome::StepOutcome;
use crate::scan::NextAction;
use trac_devices::{Sink, Source};
use trac_forms::Work;
use trac_functions::arguments::{Arguments, CallResult};
use trac_functions::function::value_of;
use trac_language::{Fate, Function};
use trac_space::Part;

/// The step that the beginning of the active string asks for, where no rule fits that only scans:
/// the idling procedure is loaded, or the right parenthesis is deleted and the innermost call
/// performed.
#[inline(always)]
pub(crate) fn perform_next<I: Source, O: Sink>(
    work: &mut Work,
    action: NextAction,
    meta: &mut u8,
    source: &mut I,
    sink: &mut O,
) -> StepOutcome
    requires source_counts { I.failure_count source.old < 2 ^ 64 - 1 }
    requires sink_counts { O.failure_count sink.old < 2 ^ 64 - 1 }
    requires sound { IsSound work.old }
    requires asks { AsksFor action work.old }
    ensures tried { I.tells source.old → O.tells sink.old →
        Tried (scene work.old meta.old (I.stream source.old) (O.written sink.old))
        result.fate result.need
        (scene work.new meta.new (I.stream source.new) (O.written sink.new)) }
    ensures source { LeavesSource I.tells I.failure_count result.fate
        (performs (memory_of meta.old work.old)) source.old source.new }
    ensures sink { LeavesSink O.tells O.flushed O.written O.lent O.failure_count result.fate
        (performs (memory_of meta.old work.old)) sink.old sink.new }
    ensures unspent { result.fate ≢ Some Fate.Steps }
    ensures stay { result.fate ≢ None →
        (work.new.forms ≡ work.old.forms) × (meta.new ≡ meta.old) }
    ensures takes { I.tells source.old → (taken : Text) ×
        TakesAtMost work.old (I.stream source.old) (I.stream source.new) taken }
    ensures fits { result.need ≤ work.old.room }
    ensures keeps { KeepsRoom work.old work.new }
{
    match action {
        NextAction::Idling => load_idling(work),
        NextAction::EndOfCall(place) => {
            work.drop_active(1);
            perform(work, place, meta, source, sink)
        }
    }
}

/// Performs the innermost call, whose mark stands at the place and whose right parenthesis was deleted.
#[inline(always)]
fn perform<I: Source, O: Sink>(
    work: &mut Work,
    place: u32,
    meta: &mut u8,
    source: &mut I,
    sink: &mut O,
) -> StepOutcome
    requires innermost { IsLastCall work.old.neutral place }
    requires source_counts { I.failure_count source.old < 2 ^ 64 - 1 }
    requires sink_counts { O.failure_count sink.old < 2 ^ 64 - 1 }
    requires sound { IsSound work.old }
    ensures tried { I.tells source.old → O.tells sink.old →
        TriedCall place (scene work.old meta.old (I.stream source.old) (O.written sink.old))
        result.fate result.need
        (scene work.new meta.new (I.stream source.new) (O.written sink.new)) }
    ensures source { LeavesSource I.tells I.failure_count result.fate
        (function_at work.old.neutral place) source.old source.new }
    ensures sink { LeavesSink O.tells O.flushed O.written O.lent O.failure_count result.fate
        (function_at work.old.neutral place) sink.old sink.new }
    ensures unspent { result.fate ≢ Some Fate.Steps }
    ensures stay { result.fate ≢ None →
        (work.new.forms ≡ work.old.forms) × (meta.new ≡ meta.old) }
    ensures takes { I.tells source.old → (taken : Text) ×
        TakesFrom work.old (I.stream source.old) (I.stream source.new) taken }
    ensures fits { result.need ≤ work.old.room }
    ensures keeps { KeepsRoom work.old work.new }
{
    let before = work.used();
    let part = Part {
        from: place,
        to: work.neutral_len(),
    };
    let parts = named(work, place);
    let Some(function) = parts.function else {
        return finish_call(work, part, before, nothing(work, parts));
    };
    let call_result = answer(work, parts, function, meta, source, sink);
    finish_call(work, part, before, call_result)
}

/// Performs the innermost call, whose right parenthesis was deleted and which needs no device.
#[inline(always)]
pub(crate) fn perform_alone(work: &mut Work, call: NamedCall, meta: &mut u8) -> StepOutcome
    requires named { IsNamed call work.old }
    requires alone { IsAlone work.old call.place }
    ensures tried { (source : Stream) (written : Text) →
        TriedCall call.place (scene work.old meta.old source written) result.fate result.need
        (scene work.new meta.new source written) }
    ensures fate { NoneFailed result.fate }
    ensures stay { result.fate ≢ None →
        (work.new.forms ≡ work.old.forms) × (meta.new ≡ meta.old) }
    ensures fits { result.need ≤ work.old.room }
    ensures keeps { KeepsRoom work.old work.new }
{
    let before = work.used();
    let end = work.neutral_len();
    let call_result = answer_alone(work, call, meta);
    let part = Part {
        from: call.place,
        to: end,
    };
    finish_call(work, part, before, call_result)
}

/// The innermost call by its parts.
#[derive(Clone, Copy)]
pub(crate) struct NamedCall {
    /// Where its mark stands in the neutral string.
    place: u32,
    /// The function that it names, if it names one.
    pub(crate) function: Option<Function>,
    /// The arguments behind that name.
    arguments: Arguments,
}

/// The parts of the innermost call, whose mark stands at the place.
#[inline(always)]
pub(crate) fn named(work: &Work, place: u32) -> NamedCall
    requires innermost { IsLastCall work.now.neutral place }
    requires sound { IsSound work.now }
    ensures named { IsNamed result work.now }
    ensures place { result.place ≡ place }
{
    let mut arguments = Arguments {
        from: place + 1,
        end: work.neutral_len(),
        scanned: is_active_call(work, place),
    };
    NamedCall {
        place,
        function: arguments.function(work),
        arguments,
    }
}

/// Whether a call needs a device: it reads, it displays a form, or it prints a text that isn't null.
#[inline(always)]
pub(crate) fn needs_device(work: &Work, call: NamedCall) -> bool
    requires { IsNamed call work.now }
    ensures { let neutral = work.now.neutral in
        result ≡ calls_device (function_at neutral call.place) (arguments_at neutral call.place) }
{
    match call.function {
        Some(Function::ReadString | Function::ReadCharacter | Function::PrintForm) => true,
        Some(Function::PrintString) => has_text(work, call.arguments),
        _ => false,
    }
}

/// Whether a turn stops before a call for its host: its name is no function, and `stops` says to stop there.
#[inline(always)]
pub(crate) fn asks_host(stops: bool, call: NamedCall) -> bool
    ensures { result ≡ (stops && is_none call.function) }
{
    call.function.is_none() && stops
}

/// Whether the next argument is a text that isn't null.
#[inline(always)]
fn has_text(work: &Work, mut arguments: Arguments) -> bool
    requires { AreArguments work.now arguments }
    ensures { result ≡ nat_lt 0 (length (argument (texts work.now arguments) 0)) }
{
    let part = arguments.next(work);
    part.from < part.to
}

/// What a call of a name that is no function answers: its value is null (this processor's own choice).
#[inline(always)]
fn nothing(work: &Work, call: NamedCall) -> CallResult
    requires named { IsNamed call work.now }
    requires none { call.function ≡ None }
    ensures answers { (meta : ℕ) (source : Stream) (written : Text) →
        AnswersCall call.place (scene work.now meta source written) result
        (scene work.now meta source written) }
    ensures stands { Stands result (used work.now) (length work.now.neutral) work.now }
    ensures null { result ≡ CallResult.Null 0 }
{
    CallResult::Null(0)
}

/// What the function of the innermost call answers, which is `function`.
#[inline(always)]
fn answer<I: Source, O: Sink>(
    work: &mut Work,
    call: NamedCall,
    function: Function,
    meta: &mut u8,
    source: &mut I,
    sink: &mut O,
) -> CallResult
    requires named { IsNamed call work.old }
    requires function { call.function ≡ Some function }
    requires source_counts { I.failure_count source.old < 2 ^ 64 - 1 }
    requires sink_counts { O.failure_count sink.old < 2 ^ 64 - 1 }
    requires sound { IsSound work.old }
    ensures answers { I.tells source.old → O.tells sink.old →
        AnswersCall call.place (scene work.old meta.old (I.stream source.old) (O.written sink.old))
        result (scene work.new meta.new (I.stream source.new) (O.written sink.new)) }
    ensures stands { Stands result (used work.old) (length work.old.neutral) work.new }
    ensures source { LeavesSource I.tells I.failure_count (fate_after result)
        (function_at work.old.neutral call.place) source.old source.new }
    ensures sink { LeavesSink O.tells O.flushed O.written O.lent O.failure_count (fate_after result)
        (function_at work.old.neutral call.place) sink.old sink.new }
    ensures unspent { result ≢ CallResult.Over Fate.Steps }
    ensures stay { fate_after result ≢ None →
        (work.new.forms ≡ work.old.forms) × (meta.new ≡ meta.old) }
    ensures takes { I.tells source.old → (taken : Text) ×
        TakesFrom work.old (I.stream source.old) (I.stream source.new) taken }
    ensures keeps { KeepsRoom work.old work.new }
{
    match function {
        Function::ReadString => read_string(work, *meta, source),
        Function::ReadCharacter => read_character(work, source),
        Function::PrintString => print_string(work, call.arguments, sink),
        Function::PrintForm => print_form(work, call.arguments, sink),
        _ => result_alone(work, function, call.arguments, meta),
    }
}

/// What the function of a call answers that needs no device.
#[inline(always)]
fn answer_alone(work: &mut Work, call: NamedCall, meta: &mut u8) -> CallResult
    requires named { IsNamed call work.old }
    requires alone { IsAlone work.old call.place }
    ensures answers { (source : Stream) (written : Text) →
        AnswersCall call.place (scene work.old meta.old source written) result
        (scene work.new meta.new source written) }
    ensures stands { Stands result (used work.old) (length work.old.neutral) work.new }
    ensures quiet { EndsQuietly result }
    ensures stay { fate_after result ≢ None →
        (work.new.forms ≡ work.old.forms) × (meta.new ≡ meta.old) }
    ensures keeps { KeepsRoom work.old work.new }
{
    match call.function {
        None => CallResult::Null(0),
        Some(function) => match function {
            Function::PrintString => CallResult::Null(0),
            _ => result_alone(work, function, call.arguments, meta),
        },
    }
}

/// What a function that touches no device makes of the arguments that follow its name.
#[inline(always)]
fn result_alone(
    work: &mut Work,
    function: Function,
    arguments: Arguments,
    meta: &mut u8,
) -> CallResult
    requires arguments { AreArguments work.old arguments }
    requires alone { touches_device (Some function) ≡ false }
    ensures answers { (place : ℕ) (source : Stream) (written : Text) →
        HasArguments work.old place function arguments →
        arguments.scanned ≡ is_active_mode (mode_at work.old.neutral place) →
        AnswersCall place (scene work.old meta.old source written) result
        (scene work.new meta.new source written) }
    ensures stands { Stands result (used work.old) (length work.old.neutral) work.new }
    ensures quiet { EndsQuietly result }
    ensures stay { fate_after result ≢ None →
        (work.new.forms ≡ work.old.forms) × (meta.new ≡ meta.old) }
    ensures keeps { KeepsRoom work.old work.new }
{
    match function {
        Function::ChangeMeta => change_meta(work, arguments, meta),
        Function::Halt => CallResult::Over(Fate::Halted),
        _ => value_of(work, function, arguments),
    }
}
