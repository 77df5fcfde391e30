//! Calls of no function, before which a machine can stop, and to which its host then gives a value.
ghost use Rattle.std.specs.Prelude.{◌≡◌, ◌≢◌, ℕ, ◌+◌, ◌-◌, ◌<◌, ◌≤◌, [], ◌++◌, length, drop, slice_get};
ghost use Rattle.std.specs.Prelude.{true, false, None, Some, ◌||◌, MatchOption, MatchResult};
ghost use Rattle.trac_language.specs.declared.mode.Mode.{Mode};
ghost use Rattle.trac_language.specs.Text.{Text};
ghost use Rattle.trac_space.specs.Calls.{IsLastCall};
ghost use Rattle.trac_space.specs.Texts.{text_of_cells};
ghost use Rattle.trac_forms.specs.Contents.{IsSound, used};
ghost use Rattle.trac_devices.specs.Devices.{Stream};
ghost use Rattle.trac_functions.specs.Calls.{KeepsRoom};
ghost use Rattle.trac_functions.specs.Flat.{memory_of, mode_at, is_active_mode};
ghost use Rattle.trac_core.specs.StepOutcomes.{function_at, delivered};
ghost use Rattle.trac_core.specs.Answering.{Answered, IsAnswerable, asks_next, is_forced, mode_by};
ghost use Rattle.trac_core.specs.Machine.{Answers, KeepsLimits, KeepsSettings, moment};
ghost use Rattle.trac_core.specs.OpenCalls.{calls_unknown};

use super::Machine;
use super::changing::Refused;
use super::closing::{closed_call, named_at};
use crate::delivery::{is_active_call, move_value};
use crate::outcome::StepOutcome;
use trac_forms::Work;
use trac_language::Fate;

/// Where the value goes that a host gives to a call.
#[derive(Clone, Copy, Debug, PartialEq, Eq)]
pub enum Delivery {
    /// As the language has it: a value is scanned again after `#(`, and not after `##(` (Mooers 1966).
    ByMode,
    /// The value is scanned again, whatever the call.
    Scanned,
    /// The value is never scanned again, whatever the call: for data from outside.
    Unscanned,
}

impl<'a> Machine<'a> {
    /// Says whether turns, as `advance` makes them, stop before a call whose name is no function, so that the
    /// host can give its value by `answer`. A new machine doesn't stop there: such a call has the null value.
    /// This processor's own choice.
    pub fn stop_at_unknown(&mut self, stops: bool)
        ensures after { self.new ≡ record self.old { stops = stops } }
    {
        self.stops = stops;
    }

    /// Whether turns stop before the next step, for `stop_at_unknown` asked for that and the step performs a call
    /// whose name is no function.
    pub fn asks(&self) -> bool
        ensures { result ≡ asks_next self.now }
    {
        if !self.stops {
            return false;
        }
        if self.fate.is_some() {
            return false;
        }
        if self.steps == self.allowance {
            return false;
        }
        unknown_call(&self.work).is_some()
    }

    /// Makes the next step, which performs a call whose name is no function, and gives the call this value
    /// instead of the null one. `how` says where the value goes. The answer is that of `step`: None if the step
    /// was done. The step needs the cells of all strings and forms but one, and one for each byte of the value. If
    /// these are more than the block has, or the allowance is used up, the run ends. `Refused`, with
    /// nothing changed, if the next step performs no such call, and where the run is over. This
    /// processor's own choice.
    pub fn answer(&mut self, value: &[u8], how: Delivery) -> Result<Option<Fate>, Refused>
        ensures answered { MatchResult result
            (λ fate. IsAnswerable self.old × ((source : Stream) (written : Text) →
            Answered how value.now (moment self.old source written) fate
            (moment self.new source written)))
            (λ refused. (IsAnswerable self.old → ⊥) × (self.new ≡ self.old)) }
        // the null value, delivered as the language does, makes the definition's own step
        ensures null { value.now ≡ [] → how ≡ Delivery.ByMode → MatchResult result
            (λ fate. (source : Stream) (written : Text) →
            Answers (moment self.old source written) fate (moment self.new source written))
            (λ refused. self.new ≡ self.old) }
        ensures fate { MatchResult result
            (λ fate. self.new.fate ≡ fate) (λ refused. self.new.fate ≡ self.old.fate) }
        ensures settings { KeepsSettings self.old self.new }
        ensures limits { KeepsLimits self.new }
    {
        if self.fate.is_some() {
            return Err(Refused);
        }
        let Some(place) = unknown_call(&self.work) else {
            return Err(Refused);
        };
        if self.steps == self.allowance {
            self.fate = Some(Fate::Steps);
            return Ok(self.fate);
        }
        let outcome = end_answered(&mut self.work, place, value, how);
        Ok(self.count(outcome))
    }
}

/// Where the mark stands of the call of no function that a step over these contents performs. None if it performs
/// no call, or one of a function.
fn unknown_call(work: &Work) -> Option<u32>
    ensures call { MatchOption result
        ((meta : ℕ) → calls_unknown (memory_of meta work.now) ≡ false)
        (λ place. (slice_get (text_of_cells work.now.active) 0 ≡ Some 41)
        × (IsLastCall work.now.neutral place × (function_at work.now.neutral place ≡ None))) }
    ensures sound { IsSound work.now }
{
    let Some(place) = closed_call(work) else {
        return None;
    };
    if named_at(work, place).0.is_some() {
        return None;
    }
    Some(place)
}

/// Deletes the right parenthesis that ends the innermost call, whose mark stands at the place, and has the call leave
/// with the value. Where the value doesn't fit, nothing is done.
fn end_answered(work: &mut Work, place: u32, value: &[u8], how: Delivery) -> StepOutcome
    requires closes { slice_get (text_of_cells work.old.active) 0 ≡ Some 41 }
    requires innermost { IsLastCall work.old.neutral place }
    requires sound { IsSound work.old }
    ensures ended { let need = used work.old - 1 + length value.now in
        MatchOption result.fate
        ((result.need ≡ need) × (work.new ≡
        delivered (mode_by how (mode_at work.old.neutral place)) (is_forced how) value.now place
        (record work.old { active = drop 1 work.old.active })))
        (λ fate. (fate ≡ Fate.Workspace) × ((work.old.room < need) × (work.new ≡ work.old))) }
    ensures fits { result.need ≤ work.old.room }
    ensures keeps { KeepsRoom work.old work.new }
{
    if value.len() > work.free() as usize + 1 {
        return StepOutcome {
            fate: Some(Fate::Workspace),
            need: 0,
        };
    }
    let scanned = is_scanned(how, is_active_call(work, place));
    let end = work.neutral_len();
    work.drop_active(1);
    let fits = work.push_bytes(value);
    prove!(fits);
    let need = work.used();
    move_value(work, place, end, scanned);
    StepOutcome { fate: None, need }
}

/// Whether the host's value goes before the active string, where `active` says whether the call is an active one.
fn is_scanned(how: Delivery, active: bool) -> bool
    ensures { (mode : Mode) → active ≡ is_active_mode mode →
        result ≡ (is_forced how || is_active_mode (mode_by how mode)) }
{
    match how {
        Delivery::ByMode => active,
        Delivery::Scanned => true,
        Delivery::Unscanned => false,
    }
}
