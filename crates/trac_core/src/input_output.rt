//! The functions that read, print and change the meta
//! character: `rs`, `rc`, `ps`, `cm`.
ghost use Rattle.std.specs.Prelude.{◌≡◌, ◌≢◌, ◌-◌, ◌<◌, ◌^◌, ℕ, Some, length, slice_get};
ghost use Rattle.trac_language.specs.Text.{Text};
ghost use Rattle.trac_space.specs.Texts.{text_of_cells};
ghost use Rattle.trac_forms.specs.Contents.{IsSound, used};
ghost use Rattle.trac_devices.specs.Devices.{Stream};
ghost use Rattle.trac_functions.specs.Calls.{AreArguments};
ghost use Rattle.trac_core.specs.StepOutcomes.{scene, IsCall, HasArguments, AnswersCall, Stands};
ghost use Rattle.trac_core.specs.StepOutcomes.{TakesFrom, fate_after, LeavesSource, LeavesSink};
ghost use Rattle.trac_functions.specs.Calls.{KeepsRoom};

use crate::streaming::{ReadEnd, print_text, read_text};
use trac_devices::{Characters, Next, Sink, Source};
use trac_forms::Work;
use trac_functions::arguments::{Arguments, CallResult, text};
use trac_language::{Fate, Function};
use trac_space::{Cell, character_of};

/// `rs`: the input up to the meta character, which is consumed (Mooers 1966).
/// A last string that no meta character follows is a value too, and the end
/// of the input with no byte read ends the run (this processor's own choice).
pub(crate) fn read_string<I: Source>(work: &mut Work, meta: u8, source: &mut I) -> CallResult
    requires counts { I.failure_count source.old < 2 ^ 64 - 1 }
    requires sound { IsSound work.old }
    ensures answers { I.tells source.old → (place : ℕ) (written : Text) →
        IsCall work.old place (Some Function.ReadString) →
        AnswersCall place (scene work.old meta (I.stream source.old) written) result
        (scene work.new meta (I.stream source.new) written) }
    ensures stands { Stands result (used work.old) (length work.old.neutral) work.new }
    ensures over { (result ≢ CallResult.Over Fate.OutputFailed) × (result ≢ CallResult.Over Fate.Steps) }
    ensures source { LeavesSource I.tells I.failure_count (fate_after result)
        (Some Function.ReadString) source.old source.new }
    ensures takes { I.tells source.old → (taken : Text) ×
        TakesFrom work.old (I.stream source.old) (I.stream source.new) taken }
    ensures forms { work.new.forms ≡ work.old.forms }
    ensures keeps { KeepsRoom work.old work.new }
{
    let from = work.neutral_len();
    match read_text(work, meta, source) {
        ReadEnd::Meta if work.neutral_len() == from => CallResult::Null(0),
        ReadEnd::Meta => CallResult::AtEnd,
        ReadEnd::Ended if work.neutral_len() == from => CallResult::Over(Fate::InputEnded),
        ReadEnd::Ended => CallResult::AtEnd,
        ReadEnd::Failed => CallResult::Over(Fate::InputFailed),
        ReadEnd::Full => CallResult::Full,
    }
}

/// `rc`: the next byte of the input, whatever it is (Mooers 1966). At
/// the end of the input the run ends (this processor's own choice).
pub(crate) fn read_character<I: Source>(work: &mut Work, source: &mut I) -> CallResult
    requires counts { I.failure_count source.old < 2 ^ 64 - 1 }
    requires sound { IsSound work.old }
    ensures answers { I.tells source.old → (place meta : ℕ) (written : Text) →
        IsCall work.old place (Some Function.ReadCharacter) →
        AnswersCall place (scene work.old meta (I.stream source.old) written) result
        (scene work.new meta (I.stream source.new) written) }
    ensures stands { Stands result (used work.old) (length work.old.neutral) work.new }
    ensures over { (result ≢ CallResult.Over Fate.OutputFailed) × (result ≢ CallResult.Over Fate.Steps) }
    ensures source { LeavesSource I.tells I.failure_count (fate_after result)
        (Some Function.ReadCharacter) source.old source.new }
    ensures takes { I.tells source.old → (taken : Text) ×
        TakesFrom work.old (I.stream source.old) (I.stream source.new) taken }
    ensures forms { work.new.forms ≡ work.old.forms }
    ensures keeps { KeepsRoom work.old work.new }
{
    match source.next() {
        Next::Byte(byte) => {
            if work.push_neutral(Cell::Byte(byte)) {
                CallResult::AtEnd
            } else {
                CallResult::Full
            }
        }
        Next::End => CallResult::Over(Fate::InputEnded),
        Next::Failed => CallResult::Over(Fate::InputFailed),
    }
}

/// `ps,X`: X is printed, and the sink flushed once where X isn't null (Mooers 1966).
pub(crate) fn print_string<O: Sink>(
    work: &Work,
    mut arguments: Arguments,
    sink: &mut O,
) -> CallResult
    requires arguments { AreArguments work.now arguments }
    requires counts { O.failure_count sink.old < 2 ^ 64 - 1 }
    ensures answers { O.tells sink.old → (place meta : ℕ) (source : Stream) →
        HasArguments work.now place Function.PrintString arguments →
        AnswersCall place (scene work.now meta source (O.written sink.old)) result
        (scene work.now meta source (O.written sink.new)) }
    ensures stands { Stands result (used work.now) (length work.now.neutral) work.now }
    ensures over { (result ≢ CallResult.Over Fate.InputFailed) × (result ≢ CallResult.Over Fate.Steps) }
    ensures sink { LeavesSink O.tells O.flushed O.written O.lent O.failure_count
        (fate_after result) (Some Function.PrintString) sink.old sink.new }
{
    let part = arguments.next(work);
    let printed = Characters::new(text(work, part));
    match print_text(&printed, sink) {
        Ok(()) => CallResult::Null(0),
        Err(_) => CallResult::Over(Fate::OutputFailed),
    }
}

/// `cm,X`: the first character of X becomes the meta character (Mooers
/// 1966); a null X changes nothing (this processor's own choice).
pub(crate) fn change_meta(work: &Work, mut arguments: Arguments, meta: &mut u8) -> CallResult
    requires arguments { AreArguments work.now arguments }
    ensures answers { (place : ℕ) (source : Stream) (written : Text) →
        HasArguments work.now place Function.ChangeMeta arguments →
        AnswersCall place (scene work.now meta.old source written) result
        (scene work.now meta.new source written) }
    ensures value { result ≡ CallResult.Null 0 }
    ensures stands { Stands result (used work.now) (length work.now.neutral) work.now }
{
    let part = arguments.next(work);
    if let Some(first) = first_character(text(work, part)) {
        *meta = first;
    }
    CallResult::Null(0)
}

/// The first character of a text.
fn first_character(text: &[Cell]) -> Option<u8>
    ensures { result ≡ slice_get (text_of_cells text.now) 0 }
{
    match text {
        [first, ..] => Some(character_of(first)),
        [] => None,
    }
}
