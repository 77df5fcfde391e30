//! Bytes from a source into the neutral string, and from there to a sink.
ghost use Rattle.std.specs.Prelude.{◌≡◌, ◌≢◌, ◌+◌, ◌-◌, ◌<◌, ◌≤◌, ◌^◌, [], ◌++◌};
ghost use Rattle.std.specs.Prelude.{MatchResult, OnErr, OnOk};
ghost use Rattle.trac_language.specs.Text.{Text};
ghost use Rattle.trac_forms.specs.Contents.{used, IsSound};
ghost use Rattle.trac_devices.specs.Devices.{failures_of, Prints, Breaks};
ghost use Rattle.trac_core.specs.ReadTexts.{Reads, StreamsTo, failures_of_read};

use trac_devices::{Characters, Next, Sink, SinkFailed, Source};
use trac_forms::Work;
use trac_space::Cell;

// How many characters are put one by one.
const PUT_ONE_BY_ONE: usize = 16;

/// How the reading of a text ended.
#[derive(Clone, Copy, Debug, PartialEq, Eq)]
pub(crate) enum ReadEnd {
    /// The meta character followed, and was consumed.
    Meta,
    /// The source ended.
    Ended,
    /// The source failed.
    Failed,
    /// No cell was free for a byte that followed.
    Full,
}

/// Puts the bytes of a source up to the meta character at the end of the neutral string, as far as
/// they fit. Those that the source holds already go at once.
pub(crate) fn read_text<I: Source>(work: &mut Work, meta: u8, source: &mut I) -> ReadEnd
    requires counts { I.failure_count source.old < 2 ^ 64 - 1 }
    requires sound { IsSound work.old }
    ensures reads { (text : Text) × (Reads meta work.old work.new text × (I.tells source.old →
        StreamsTo result meta (I.stream source.old) text (I.stream source.new))) }
    ensures full { result ≡ ReadEnd.Full → work.new.room ≤ used work.new }
    ensures told { I.tells source.old → I.tells source.new }
    ensures counts { I.failure_count source.new ≡
        I.failure_count source.old + failures_of_read result }
    ensures sound { IsSound work.new }
{
    loop {
        source.take_held(meta, work);
        match source.next() {
            Next::Byte(byte) if byte == meta => return ReadEnd::Meta,
            Next::Byte(byte) => {
                if !work.push_neutral(Cell::Byte(byte)) {
                    return ReadEnd::Full;
                }
            }
            Next::End => return ReadEnd::Ended,
            Next::Failed => return ReadEnd::Failed,
        }
    }
}

/// Puts the characters of a text into a sink, and then flushes it where there was one.
pub(crate) fn print_text<O: Sink>(text: &Characters<'_>, sink: &mut O) -> Result<(), SinkFailed>
    requires { O.failure_count sink.old < 2 ^ 64 - 1 }
    ensures writes { O.tells sink.old → MatchResult result
        (λ _. O.written sink.new ≡ O.written sink.old ++ text.now)
        (λ _. Breaks (O.written sink.old) text.now (O.written sink.new)) }
    ensures some { OnErr result (text.now ≢ []) }
    ensures untouched { text.now ≡ [] → sink.new ≡ sink.old }
    ensures flushed { OnOk result (text.now ≢ [] → O.flushed sink.new) }
    ensures told { O.tells sink.old → O.tells sink.new }
    ensures kept { O.lent sink.new ≡ O.lent sink.old }
    ensures counts { O.failure_count sink.new ≡ O.failure_count sink.old + failures_of result }
{
    if text.len() == 0 {
        return Ok(());
    }
    if let Err(failed) = put_characters(text, sink) {
        return Err(failed);
    }
    sink.flush()
}

/// Puts the characters of a text into a sink, those of a longer one at once.
#[inline(always)]
pub(crate) fn put_characters<O: Sink>(text: &Characters<'_>, sink: &mut O) -> Result<(), SinkFailed>
    requires { O.failure_count sink.old < 2 ^ 64 - 1 }
    ensures prints { O.tells sink.old →
        Prints result (O.written sink.old) text.now (O.written sink.new) }
    ensures told { O.tells sink.old → O.tells sink.new }
    ensures kept { O.lent sink.new ≡ O.lent sink.old }
    ensures counts { O.failure_count sink.new ≡ O.failure_count sink.old + failures_of result }
{
    if text.len() < PUT_ONE_BY_ONE {
        put_each(text, sink)
    } else {
        sink.put_all(text)
    }
}

// Puts the characters of a text into a sink, one by one.
fn put_each<O: Sink>(text: &Characters<'_>, sink: &mut O) -> Result<(), SinkFailed>
    requires { O.failure_count sink.old < 2 ^ 64 - 1 }
    ensures prints { O.tells sink.old →
        Prints result (O.written sink.old) text.now (O.written sink.new) }
    ensures told { O.tells sink.old → O.tells sink.new }
    ensures kept { O.lent sink.new ≡ O.lent sink.old }
    ensures counts { O.failure_count sink.new ≡ O.failure_count sink.old + failures_of result }
{
    for i in 0..text.len() {
        sink.put(text.at(i))?;
    }
    Ok(())
}
