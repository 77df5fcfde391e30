//! What a caller who drives a machine step by step may look at.
ghost use Rattle.std.specs.Prelude.{◌≡◌, ◌≤◌, All, length};
ghost use Rattle.trac_language.specs.State.{size};
ghost use Rattle.trac_language.specs.Rule.{rule};
ghost use Rattle.trac_space.specs.Texts.{IsByte, text_of_cells};
ghost use Rattle.trac_functions.specs.Flat.{neutral_of};
ghost use Rattle.trac_core.specs.View.{dropped, neutral_in, row_of, stops_before, taken, taken_in_row};
ghost use Rattle.trac_core.specs.View.{steps_before_call};
ghost use Rattle.trac_forms.specs.Contents.{IsSound};

use super::Machine;
use crate::rules::{ScanningRule, is_in, rule_of};
use crate::runs::matching;
use crate::scan::{characters, is_at};
use trac_forms::{Cell, Work};

impl<'a> Machine<'a> {
    /// The cells of the block.
    pub fn room(&self) -> u32
        ensures { result ≡ self.now.room }
    {
        self.work.room()
    }

    /// The cells of both strings and of all forms.
    pub fn size(&self) -> u32
        ensures { result ≡ size self.now.memory }
    {
        self.work.used()
    }

    /// The active string, a cell for each character, the next one first.
    pub fn active(&self) -> &[Cell]
        ensures { text_of_cells result.now ≡ self.now.memory.active }
    {
        characters(&self.work)
    }

    /// The neutral string: the base text, and then for each open call its
    /// mark and its arguments with a comma mark between two, the outermost
    /// call first. The number in a call mark is of no use to a caller.
    pub fn neutral(&self) -> &[Cell]
        ensures { neutral_of result.now ≡ neutral_in self.now.memory }
    {
        self.work.neutral_part(0, self.work.neutral_len())
    }

    /// The rule that the next step follows, unless the run is over or ends before it.
    pub fn next_rule(&self) -> ScanningRule
        ensures { result ≡ row_of (rule self.now.memory.active) }
    {
        rule_of(characters(&self.work))
    }

    /// How many characters the next step takes from the front of the active string: those that open a
    /// call, a text in parentheses with both of them, and else one. All, where it begins with a left
    /// parenthesis that has no match; none, where it is empty. The rules are Mooers' (1966).
    pub fn takes(&self) -> u32
        ensures { let active = self.now.memory.active in
            result ≡ taken (rule active) (length active) }
    {
        taken_from(characters(&self.work)) as u32
    }

    /// How many steps come before the next one that follows the rule of a right parenthesis or that of
    /// an empty active string, at most `most`: none of them performs a call. They are counted as if the
    /// allowance had no end, and nothing is changed. This processor's own choice.
    pub fn steps_to_call(&self, most: u64) -> u64
        ensures { result ≡ steps_before_call most self.now.memory.active }
    {
        steps_before_call(characters(&self.work), most)
    }

    /// How many characters the next step drops: all of the active string, where it begins with a left
    /// parenthesis that has no match there (this processor's own choice), and else none. What other
    /// rules delete, as layout, doesn't count.
    pub fn drops(&self) -> u32
        ensures { let active = self.now.memory.active in
            result ≡ dropped (rule active) (length active) }
    {
        dropped_from(&self.work)
    }

    /// The peak, in cells, which then counts from 0 again:
    /// called after each step it tells what that step needed.
    pub fn take_peak(&mut self) -> u32
        ensures peak { result ≡ self.old.peak }
        ensures after { self.new ≡ record self.old { peak = 0 } }
    {
        let peak = self.peak;
        self.peak = 0;
        peak
    }
}

/// How many characters of the active string a step over these contents drops.
fn dropped_from(work: &Work) -> u32
    requires sound { IsSound work.now }
    ensures { let active = text_of_cells work.now.active in
        result ≡ dropped (rule active) (length active) }
{
    if !is_at(work, 0, b'(') {
        return 0;
    }
    match matching(work.active_part(1, work.active_len())) {
        Some(_) => 0,
        None => work.active_len(),
    }
}

/// How many characters a step takes from the front of an active string.
fn taken_from(active: &[Cell]) -> usize
    requires few { length active.now ≤ 16777216 }
    requires bytes { All IsByte active.now }
    ensures taken { let text = text_of_cells active.now in
        result ≡ taken (rule text) (length text) }
    ensures within { result ≤ length active.now }
{
    if !is_in(active, 0, b'(') {
        return taken_in_row(rule_of(active));
    }
    match matching(&active[1..]) {
        Some(len) => len as usize + 2,
        None => active.len(),
    }
}

/// How many characters a step takes by a rule of a row, where that protects no text.
fn taken_in_row(row: ScanningRule) -> usize
    ensures { result ≡ taken_in_row row }
{
    match row {
        ScanningRule::Idling => 0,
        ScanningRule::ActiveCall => 2,
        ScanningRule::NeutralCall => 3,
        _ => 1,
    }
}

/// How many steps over an active string come before one by the rule of a right parenthesis or of an
/// empty string, at most `most`.
fn steps_before_call(active: &[Cell], most: u64) -> u64
    requires few { length active.now ≤ 16777216 }
    requires bytes { All IsByte active.now }
    ensures { result ≡ steps_before_call most (text_of_cells active.now) }
{
    let mut place = 0;
    let mut steps = 0;
    while steps < most {
        let rest = &active[place..];
        if stops_before(rule_of(rest)) {
            return steps;
        }
        place += taken_from(rest);
        steps += 1;
    }
    steps
}

/// Whether a step by a rule of a row may perform a call, or loads the idling procedure.
fn stops_before(row: ScanningRule) -> bool
    ensures { result ≡ stops_before row }
{
    matches!(row, ScanningRule::EndOfCall | ScanningRule::Idling)
}
