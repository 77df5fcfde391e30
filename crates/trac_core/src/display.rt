//! The display of a form, and the function that prints it: `pf`.
ghost use Rattle.std.specs.Prelude.{◌≡◌, ◌≢◌, ◌+◌, ◌-◌, ◌<◌, ◌≤◌, ◌^◌, []};
ghost use Rattle.std.specs.Prelude.{◌++◌, ℕ, length, Some, slice_range, OnErr, OnOk, codes};
ghost use Rattle.std.specs.Prelude.{decimal, ◌*◌, IfOk, MatchResult};
ghost use Rattle.trac_language.specs.Meaning.{show, show_form};
ghost use Rattle.trac_forms.specs.Contents.{used, IsTextPart, IsSound};
ghost use Rattle.trac_devices.specs.Devices.{Stream, failures_of, Breaks, Prints};
ghost use Rattle.trac_functions.specs.Calls.{AreArguments};
ghost use Rattle.trac_core.specs.StepOutcomes.{scene, HasArguments, AnswersCall, Stands, fate_after};
ghost use Rattle.trac_core.specs.StepOutcomes.{LeavesSink};
ghost use Rattle.trac_core.specs.Display.{display_named, is_byte, shown};

use crate::streaming::put_characters;
use trac_devices::{Characters, Sink, SinkFailed, decimal_len};
use trac_forms::{StoredForm, Work};
use trac_functions::arguments::{Arguments, CallResult};
use trac_language::{Fate, Function, Item};
use trac_space::Part;

/// `pf,N`: the form N is displayed, and the sink flushed once: its characters as they are, each gap
/// as its ordinal in angle brackets, and `<^>` at the pointer. A form that isn't defined prints
/// nothing. The display is this processor's own choice.
pub(crate) fn print_form<O: Sink>(
    work: &mut Work,
    mut arguments: Arguments,
    sink: &mut O,
) -> CallResult
    requires arguments { AreArguments work.old arguments }
    requires counts { O.failure_count sink.old < 2 ^ 64 - 1 }
    ensures answers { O.tells sink.old → (place meta : ℕ) (source : Stream) →
        HasArguments work.old place Function.PrintForm arguments →
        AnswersCall place (scene work.old meta source (O.written sink.old)) result
        (scene work.new meta source (O.written sink.new)) }
    ensures same { work.new ≡ work.old }
    ensures stands { Stands result (used work.old) (length work.old.neutral) work.new }
    ensures over { (result ≢ CallResult.Over Fate.InputFailed) × (result ≢ CallResult.Over Fate.Steps) }
    ensures sink { LeavesSink O.tells O.flushed O.written O.lent O.failure_count
        (fate_after result) (Some Function.PrintForm) sink.old sink.new }
{
    let name = arguments.next(work);
    match show_named(work, name, sink) {
        Ok(()) => CallResult::Null(0),
        Err(_) => CallResult::Over(Fate::OutputFailed),
    }
}

/// Displays the form whose name is a part of the neutral string, where there is one.
fn show_named<O: Sink>(work: &mut Work, name: Part, sink: &mut O) -> Result<(), SinkFailed>
    requires part { IsTextPart work.old.neutral name.from name.to }
    requires sound { IsSound work.old }
    requires counts { O.failure_count sink.old < 2 ^ 64 - 1 }
    ensures prints { O.tells sink.old →
        Prints result (O.written sink.old) (display_named work.old name) (O.written sink.new) }
    ensures some { OnErr result (display_named work.old name ≢ []) }
    ensures untouched { display_named work.old name ≡ [] → sink.new ≡ sink.old }
    ensures flushed { OnOk result (display_named work.old name ≢ [] → O.flushed sink.new) }
    ensures same { work.new ≡ work.old }
    ensures told { O.tells sink.old → O.tells sink.new }
    ensures kept { O.lent sink.new ≡ O.lent sink.old }
    ensures counts { O.failure_count sink.new ≡ O.failure_count sink.old + failures_of result }
{
    match work.find(name.from, name.to) {
        Some(form) => show_and_flush(&work.stored(form), sink),
        None => Ok(()),
    }
}

/// Puts the display of a form into a sink, and then flushes it.
fn show_and_flush<O: Sink>(form: &StoredForm, sink: &mut O) -> Result<(), SinkFailed>
    requires { O.failure_count sink.old < 2 ^ 64 - 1 }
    ensures prints { O.tells sink.old →
        Prints result (O.written sink.old) (show_form form.now) (O.written sink.new) }
    ensures flushed { OnOk result (O.flushed sink.new) }
    ensures told { O.tells sink.old → O.tells sink.new }
    ensures kept { O.lent sink.new ≡ O.lent sink.old }
    ensures counts { O.failure_count sink.new ≡ O.failure_count sink.old + failures_of result }
{
    show_form(form, sink)?;
    sink.flush()
}

/// Puts the display of a form into a sink, as `pf` prints it: its characters as they
/// are, each gap as its ordinal in angle brackets, and `<^>` at the pointer. It doesn't flush. An
/// error is the sink's: a first part of the display was then put. The display is this processor's
/// own choice.
pub fn show_form<O: Sink>(form: &StoredForm, sink: &mut O) -> Result<(), SinkFailed>
    requires { O.failure_count sink.old < 2 ^ 64 - 1 }
    ensures prints { O.tells sink.old →
        Prints result (O.written sink.old) (show_form form.now) (O.written sink.new) }
    ensures told { O.tells sink.old → O.tells sink.new }
    ensures kept { O.lent sink.new ≡ O.lent sink.old }
    ensures counts { O.failure_count sink.new ≡ O.failure_count sink.old + failures_of result }
{
    let pointer = form.pointer();
    show_items(form, 0, pointer, sink)?;
    sink.put_bytes(b"<^>")?;
    show_items(form, pointer, form.body_len(), sink)
}

/// Puts the display of the items of a form from a place up to another into a sink.
fn show_items<O: Sink>(
    form: &StoredForm,
    from: u32,
    to: u32,
    sink: &mut O,
) -> Result<(), SinkFailed>
    requires order { from ≤ to }
    requires within { to ≤ length form.now.body }
    requires counts { O.failure_count sink.old < 2 ^ 64 - 1 }
    ensures prints { let text = show (slice_range form.now.body from to) in
        O.tells sink.old → Prints result (O.written sink.old) text (O.written sink.new) }
    ensures told { O.tells sink.old → O.tells sink.new }
    ensures kept { O.lent sink.new ≡ O.lent sink.old }
    ensures counts { O.failure_count sink.new ≡ O.failure_count sink.old + failures_of result }
{
    let mut place = from;
    while place < to {
        place = show_next(form, place, to, sink)?;
    }
    Ok(())
}

/// Puts the display of the characters in a row from a place of a form on into a sink, or of the gap that
/// stands there, and gives the place behind. It ends at place `to`, or before.
#[inline(always)]
fn show_next<O: Sink>(
    form: &StoredForm,
    place: u32,
    to: u32,
    sink: &mut O,
) -> Result<u32, SinkFailed>
    requires order { place < to }
    requires within { to ≤ length form.now.body }
    requires counts { O.failure_count sink.old < 2 ^ 64 - 1 }
    ensures further { IfOk result (λ next. (place < next) × (next ≤ to)) }
    ensures prints { let old = O.written sink.old in
        O.tells sink.old → MatchResult result
        (λ next. O.written sink.new ≡ old ++ show (slice_range form.now.body place next))
        (λ _. Breaks old (show (slice_range form.now.body place to)) (O.written sink.new)) }
    ensures told { O.tells sink.old → O.tells sink.new }
    ensures kept { O.lent sink.new ≡ O.lent sink.old }
    ensures counts { O.failure_count sink.new ≡ O.failure_count sink.old + failures_of result }
{
    let item = form.item(place);
    if is_byte(item) {
        let run = form.run(place, to);
        put_characters(&Characters::new(run), sink)?;
        return Ok(place + run.len() as u32);
    }
    show_item(item, sink)?;
    Ok(place + 1)
}

/// Whether an item is a character.
#[inline(always)]
fn is_byte(item: Option<Item>) -> bool
    ensures { result ≡ is_byte item }
{
    match item {
        Some(Item::Byte(_)) => true,
        Some(Item::Gap(_)) => false,
        None => false,
    }
}

/// Puts the display of an item into a sink, where there is one.
#[inline(always)]
fn show_item<O: Sink>(item: Option<Item>, sink: &mut O) -> Result<(), SinkFailed>
    requires { O.failure_count sink.old < 2 ^ 64 - 1 }
    ensures prints { O.tells sink.old →
        Prints result (O.written sink.old) (shown item) (O.written sink.new) }
    ensures told { O.tells sink.old → O.tells sink.new }
    ensures kept { O.lent sink.new ≡ O.lent sink.old }
    ensures counts { O.failure_count sink.new ≡ O.failure_count sink.old + failures_of result }
{
    match item {
        Some(Item::Byte(byte)) => sink.put(byte),
        Some(Item::Gap(ordinal)) => show_gap(ordinal, sink),
        None => Ok(()),
    }
}

/// Puts an ordinal in angle brackets into a sink.
fn show_gap<O: Sink>(ordinal: u32, sink: &mut O) -> Result<(), SinkFailed>
    requires { O.failure_count sink.old < 2 ^ 64 - 1 }
    ensures prints { let text = codes "<" ++ decimal ordinal ++ codes ">" in
        O.tells sink.old → Prints result (O.written sink.old) text (O.written sink.new) }
    ensures told { O.tells sink.old → O.tells sink.new }
    ensures kept { O.lent sink.new ≡ O.lent sink.old }
    ensures counts { O.failure_count sink.new ≡ O.failure_count sink.old + failures_of result }
{
    sink.put(b'<')?;
    sink.put_number(ordinal)?;
    sink.put(b'>')
}

/// How many bytes the display of a form has, which `show_form` puts into a sink.
pub fn display_len(form: &StoredForm) -> u32
    ensures { result ≡ length (show_form form.now) }
{
    let mut len = 3;
    let mut place = 0;
    while place < form.body_len() {
        let (more, next) = next_len(form, place);
        len += more;
        place = next;
    }
    len
}

/// How many bytes the display of the characters in a row from a place of a form on has, or of the gap that
/// stands there, and the place behind.
#[inline(always)]
fn next_len(form: &StoredForm, place: u32) -> (u32, u32)
    requires { place < length form.now.body }
    ensures further { (place < result.1) × (result.1 ≤ length form.now.body) }
    ensures length { result.0 ≡ length (show (slice_range form.now.body place result.1)) }
    ensures short { result.0 ≤ 12 * (result.1 - place) }
{
    let end = form.body_len();
    let item = form.item(place);
    if is_byte(item) {
        let len = form.run(place, end).len() as u32;
        return (len, place + len);
    }
    (item_len(item), place + 1)
}

/// How many bytes the display of an item has, 0 if there is none.
#[inline(always)]
fn item_len(item: Option<Item>) -> u32
    ensures length { result ≡ length (shown item) }
    ensures short { result ≤ 12 }
{
    match item {
        Some(Item::Byte(_)) => 1,
        Some(Item::Gap(ordinal)) => 2 + decimal_len(ordinal),
        None => 0,
    }
}
