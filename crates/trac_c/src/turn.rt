//! A machine that C keeps, and which makes some steps a turn.
ghost use Rattle.std.specs.Prelude.{◌≡◌, ℕ, ◌+◌, ◌^◌, ◌<◌, ◌≤◌, None, Some, length};
ghost use Rattle.trac_devices.specs.Devices.{has_byte};
ghost use Rattle.trac_core.specs.Session.{awaited, next_function, next_printed};
ghost use Rattle.trac_language.specs.State.{Input};
ghost use Rattle.trac_c.specs.Turns.{TurnsTo, LacksRoom, is_short, is_ended, stands, SomeTurned};
ghost use Rattle.trac_c.specs.Turns.{TurnedOrOver, turn_number, last_over, wanted_by, MayGetMore};
ghost use Rattle.trac_core.specs.Machine.{KeepsLimits, KeepsSettings};

use crate::devices::{GivenSource, OverflowSink};
use crate::report::{ASKS, FULL, TracReport, WAITS, number};
use trac_core::{Fate, Machine};
use trac_language::Function;

/// What a part of a turn came to.
#[derive(Clone, Copy, Debug, PartialEq, Eq)]
pub(crate) enum Turn {
    /// A step was done.
    Went,
    /// The next step waits for input; it wasn't done.
    Waits,
    /// The next step prints this many bytes, more than there is room for; it wasn't done.
    Full(u32),
    /// The next step performs a call of no function, and the host is to give its value; it wasn't done.
    Asks,
    /// The run is over.
    Over(Fate),
}

/// Has a machine take a turn: at most `most` steps over the bytes of `input`, behind which the input ends if `ended`
/// is not 0.
pub(crate) fn take_turn(
    machine: &mut Machine<'static>,
    input: &[u8],
    output: &mut [u8],
    ended: u32,
    most: u64,
) -> TracReport
    ensures { TurnedOrOver (is_ended ended) most input.now output.new machine.old result
        machine.new }
{
    let mut source = GivenSource::new(input);
    let mut sink = OverflowSink::new(output);
    let last = go_on(machine, &mut source, &mut sink, ended != 0, most);
    TracReport {
        fate: turn_number(last),
        peak: machine.peak(),
        steps: machine.steps(),
        written: sink.len(),
        consumed: input.len().saturating_sub(source.rest().len()),
        wanted: wanted(last),
    }
}

/// How many bytes of room the next step wants, by what a turn ended with.
fn wanted(last: Turn) -> usize
    ensures { result ≡ wanted_by last }
{
    match last {
        Turn::Full(printed) => printed as usize,
        Turn::Went | Turn::Waits | Turn::Asks | Turn::Over(_) => 0,
    }
}

/// The number of what a turn ended with.
fn turn_number(last: Turn) -> u32
    ensures { result ≡ turn_number last }
{
    match last {
        Turn::Went => 0,
        Turn::Waits => WAITS,
        Turn::Full(_) => FULL,
        Turn::Asks => ASKS,
        Turn::Over(fate) => number(fate),
    }
}

/// Makes at most `most` steps: those that need no device as fast as a run does, and each other one by
/// itself. `Went` says that all of them were done.
fn go_on(
    machine: &mut Machine,
    source: &mut GivenSource,
    sink: &mut OverflowSink,
    ended: bool,
    most: u64,
) -> Turn
    requires sink_sound { (sink.old.failures ≡ 0) × (sink.old.behind ≡ None) }
    ensures turned { machine.old.fate ≡ None →
        SomeTurned ended most (stands machine.old source.old sink.old) result
        (stands machine.new source.new sink.new) }
    ensures same_room { sink.new.room.ghost_name ≡ sink.old.room.ghost_name }
    ensures full { (printed : ℕ) → result ≡ Turn.Full printed →
        LacksRoom printed machine.new sink.new }
    ensures waits { result ≡ Turn.Waits → MayGetMore machine.new source.new.slice.bytes }
    ensures fits { sink.new.behind ≡ None }
    ensures settings { KeepsSettings machine.old machine.new }
    ensures over { (fate : Fate) → machine.old.fate ≡ Some fate →
        (result ≡ last_over most fate) × (machine.new ≡ machine.old)
        × (source.new ≡ source.old) × (sink.new.len ≡ sink.old.len) }
{
    let mut done = 0;
    while done < most {
        let progress = machine.advance(most - done);
        done += progress.done;
        if done == most {
            return Turn::Went;
        }
        let part = step_on(machine, progress.next, source, sink, ended);
        if part != Turn::Went {
            return part;
        }
        done += 1;
    }
    Turn::Went
}

/// Makes the next step, which performs `function`, unless it waits for input or for the host's value of a call, or
/// prints more than there is room for.
fn step_on(
    machine: &mut Machine,
    function: Option<Function>,
    source: &mut GivenSource,
    sink: &mut OverflowSink,
    ended: bool,
) -> Turn
    requires limits { KeepsLimits machine.old }
    requires asked { function ≡ next_function machine.old }
    requires sink_sound { (sink.old.failures ≡ 0) × (sink.old.behind ≡ None) }
    ensures turns { machine.old.fate ≡ None →
        TurnsTo ended (stands machine.old source.old sink.old) result
        (stands machine.new source.new sink.new) }
    ensures over { (fate : Fate) → machine.old.fate ≡ Some fate →
        (result ≡ Turn.Over fate) × (machine.new ≡ machine.old)
        × (source.new ≡ source.old) × (sink.new ≡ sink.old) }
    ensures same_room { sink.new.room.ghost_name ≡ sink.old.room.ghost_name }
    ensures full { (printed : ℕ) → result ≡ Turn.Full printed →
        LacksRoom printed machine.new sink.new }
    ensures waits { result ≡ Turn.Waits → MayGetMore machine.new source.new.slice.bytes }
    ensures fits { sink.new.behind ≡ None }
    ensures went { result ≡ Turn.Went → (machine.new.fate ≡ None) × (sink.new.failures ≡ 0) }
    ensures settings { KeepsSettings machine.old machine.new }
{
    if machine.asks() {
        return Turn::Asks;
    }
    if !ended && waits(machine, function, source.rest()) {
        return Turn::Waits;
    }
    if let Some(printed) = machine.prints_past(function, sink.free() as u64) {
        return Turn::Full(printed);
    }
    match machine.step(source, sink) {
        None => Turn::Went,
        Some(fate) => Turn::Over(fate),
    }
}

/// Whether the next step, which performs this function, reads more than these bytes. A string that is
/// longer than the free cells doesn't wait: its step ends the run, since it would need more than the
/// room.
fn waits(machine: &Machine, function: Option<Function>, bytes: &[u8]) -> bool
    requires asked { function ≡ next_function machine.now }
    ensures { result ≡ is_short (awaited (next_function machine.now)) machine.now bytes.now }
{
    match function {
        Some(Function::ReadString) => {
            !has_byte(machine.meta(), bytes)
                && bytes.len() + machine.size() as usize <= machine.room() as usize + 1
        }
        Some(Function::ReadCharacter) => bytes.is_empty(),
        _ => false,
    }
}

/// How many of the last bytes `has_byte` looks at first.
const NEAR: usize = 64;

/// Whether `byte` stands among `bytes`. The last ones are looked at first: a caller that reads up to that byte
/// gives no more behind it than one read does.
fn has_byte(byte: u8, bytes: &[u8]) -> bool
    ensures { result ≡ has_byte byte bytes.now }
{
    let (before, last) = bytes.split_at(bytes.len().saturating_sub(NEAR));
    last.contains(&byte) || before.contains(&byte)
}
