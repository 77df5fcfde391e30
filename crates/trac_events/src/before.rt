//! What you can see of a machine before a step, and the value of a call after it.
ghost use Rattle.std.specs.Prelude.{◌≡◌, false};
ghost use Rattle.trac_core.specs.Session.{awaited, next_function};
ghost use Rattle.trac_core.specs.declared.machine.session.Awaits.TheVariants.{Nothing};
ghost use Rattle.trac_events.specs.Calls.{IsSeen, SeesValue, ends_call, protects, reads, value_behind};
ghost use Rattle.trac_events.specs.Calls.{DepthFollows, depth_in};

use crate::call::{arguments_of, function_of};
use trac_core::{Awaits, CallMark, Machine, ScanningRule};
use trac_language::Function;
use trac_space::Cell;

/// What you can see of a machine before a step.
#[derive(Clone, Copy, Debug, PartialEq, Eq)]
pub struct Before {
    /// The steps done so far.
    pub done: u64,
    /// The rule that the step follows.
    pub rule: ScanningRule,
    /// The cells of both strings and of all forms.
    pub size: u32,
    /// What the step reads.
    pub awaits: Awaits,
    /// The cells of the active string.
    pub active: usize,
    /// The meta character.
    pub meta: u8,
    /// How many characters the step drops, since its left parenthesis has no match.
    pub drops: u32,
    /// The mark of the call that the step performs, if you asked for it or it reads.
    pub call: Option<CallMark>,
}

impl Before {
    /// Looks at a machine before a step. Looks at the call that the step performs only if you ask for it or
    /// it reads.
    #[inline(always)]
    #[tactic(auto, using(crate::proofs::Seen::nothing_awaited, crate::proofs::Seen::nothing_dropped))]
    pub fn new(machine: &Machine, with_call: bool) -> Before
        ensures { IsSeen machine.now with_call result }
    {
        let rule = machine.next_rule();
        let awaits = if ends_call(rule) {
            awaited(machine)
        } else {
            Awaits::Nothing
        };
        let drops = if protects(rule) { machine.drops() } else { 0 };
        let call = if ends_call(rule) && (with_call || reads(awaits)) {
            machine.call_mark(0)
        } else {
            None
        };
        Before {
            done: machine.steps(),
            rule,
            size: machine.size(),
            awaits,
            active: machine.active().len(),
            meta: machine.meta(),
            drops,
            call,
        }
    }

    /// How many calls are open in the machine after the step. `depth` were open before it; if the step was
    /// done, its rule tells what changed.
    pub fn depth_after(&self, machine: &Machine, depth: usize) -> usize
        ensures { result ≡ depth_in self.now machine.now depth }
    {
        if machine.steps() <= self.done {
            return depth;
        }
        match self.rule {
            ScanningRule::Idling => 0,
            ScanningRule::ActiveCall | ScanningRule::NeutralCall => depth.saturating_add(1),
            ScanningRule::EndOfCall => depth.saturating_sub(1),
            _ => depth,
        }
    }

    /// The value of the call that the step performed, taken from the machine after that step, not copied.
    /// Null if `call` is None.
    pub fn value<'m>(&self, machine: &'m Machine) -> &'m [Cell]
        ensures { SeesValue machine.now self.now.call self.now.active result.now }
    {
        match self.call {
            None => &[],
            Some(call) => value_behind(call, self.active, machine.neutral(), machine.active()),
        }
    }
}

/// The value of a call that was performed, by how many cells the active string had before: what stands in
/// front of these cells in the active string or, if nothing does, what stands in the neutral string from the
/// place of the call's mark on.
fn value_behind<'m>(
    call: CallMark,
    before: usize,
    neutral: &'m [Cell],
    active: &'m [Cell],
) -> &'m [Cell]
    ensures { result.now ≡ value_behind call.place before neutral.now active.now }
{
    let added = (active.len() + 1).saturating_sub(before).min(active.len());
    if added > 0 {
        &active[..added]
    } else if call.place < neutral.len() {
        &neutral[call.place..]
    } else {
        &[]
    }
}

// What the next step reads. The machine is asked only if the innermost call reads.
#[inline(always)]
fn awaited(machine: &Machine) -> Awaits
    ensures { result ≡ awaited (next_function machine.now) }
{
    if may_read(machine) {
        machine.awaits()
    } else {
        Awaits::Nothing
    }
}

// Whether the innermost call is one of a function that reads.
#[inline(always)]
fn may_read(machine: &Machine) -> bool
    ensures { result ≡ false → awaited (next_function machine.now) ≡ Nothing }
{
    let neutral = machine.neutral();
    match machine.call_mark(0) {
        Some(mark) => reads_input(function_of(arguments_of(neutral, mark.place))),
        None => false,
    }
}

// Whether a call of this function reads.
fn reads_input(function: Option<Function>) -> bool
    ensures { result ≡ false → awaited function ≡ Nothing }
{
    matches!(
        function,
        Some(Function::ReadString | Function::ReadCharacter)
    )
}

// Whether a step by this rule performs a call, if one is open.
fn ends_call(rule: ScanningRule) -> bool
    ensures { result ≡ ends_call rule }
{
    matches!(rule, ScanningRule::EndOfCall)
}

// Whether a step by this rule takes over a protected text, or drops what stands behind a left parenthesis.
fn protects(rule: ScanningRule) -> bool
    ensures { result ≡ protects rule }
{
    matches!(rule, ScanningRule::Protection)
}

// Whether a step reads.
fn reads(awaits: Awaits) -> bool
    ensures { result ≡ reads awaits }
{
    matches!(awaits, Awaits::Text | Awaits::Byte)
}

/// The rule that a step follows determines how many calls are open after it. Proves this and does
/// nothing.
pub fn depth_follows()
    ensures { DepthFollows }
{}
