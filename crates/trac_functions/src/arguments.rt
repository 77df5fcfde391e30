//! The arguments of a call, taken one after the other, and the value that is put behind them.
ghost use Rattle.std.specs.Prelude.{◌≡◌, ◌↔◌, ◌+◌, ◌≤◌, ◌++◌, ℕ, true, false, length, drop};
ghost use Rattle.std.specs.Prelude.{IsTrue, IsSome, slice_range};
ghost use Rattle.std.specs.Bool.{OnTrue, OnFalse};
ghost use Rattle.trac_language.specs.Function.{function_named};
ghost use Rattle.trac_language.specs.State.{argument};
ghost use Rattle.trac_space.specs.Texts.{flat_text, text_of_cells};
ghost use Rattle.trac_values.specs.Cells.{IsText};
ghost use Rattle.trac_forms.specs.Arguments.{before_comma};
ghost use Rattle.trac_forms.specs.Contents.{used, part_text, IsTextPart, IsSound};
ghost use Rattle.trac_functions.specs.Calls.{MakesValue, AreArguments, texts};
ghost use Rattle.trac_functions.specs.Taking.{TakesPart};
ghost use Rattle.trac_functions.specs.Calls.{KeepsRoom};

use crate::function::function_before_comma;
use trac_forms::{Cell, Work, before_comma};
use trac_language::{Fate, Function};
use trac_space::Part;

/// The arguments of a call that are left to take: those in the neutral string from place `from` up to
/// place `end`, counted in cells. None is left once `from` is past `end`.
#[derive(Clone, Copy)]
pub struct Arguments {
    pub from: u32,
    pub end: u32,
    /// Whether the value goes to the active string, as that of an active call does.
    pub scanned: bool,
}

/// What a function answers to a call.
#[derive(Clone, Copy, PartialEq, Eq, Debug)]
pub enum CallResult {
    /// There are too few cells for what the call builds. The forms are as they were, and the run ends.
    Full,
    /// The value stands at the end of the neutral string. It is null where nothing was appended.
    AtEnd,
    /// The value, of this many characters, goes to the active string, and stands before it already.
    InFront(u32),
    /// The value of a neutral call, of this many characters, stands before the active string. It moves to
    /// the end of the neutral string when the call leaves.
    Unscanned(u32),
    /// The value is null. The call built this many cells of forms.
    Null(u32),
    /// The run is over, by the language or because a device failed.
    Over(Fate),
}

impl Arguments {
    /// Takes the next argument, and gives the part of the neutral string where it stands: a null part if no
    /// argument is left.
    pub fn next(&mut self, work: &Work) -> Part
        requires { AreArguments work.now self.old }
        ensures part { IsTextPart work.now.neutral result.from result.to }
        ensures text { let text = part_text work.now.neutral result.from result.to in
            text ≡ argument (texts work.now self.old) 0 }
        ensures rest { texts work.now self.new ≡ drop 1 (texts work.now self.old) }
        ensures later { (k : ℕ) →
            argument (texts work.now self.new) k ≡ argument (texts work.now self.old) (k + 1) }
        ensures left { AreArguments work.now self.new }
    {
        let from = self.from;
        if from > self.end {
            return Part {
                from: self.end,
                to: self.end,
            };
        }
        let to = self.end_of_next(work);
        self.from = to + 1;
        Part { from, to }
    }

    // The place where the next argument ends. It is found without a search where no comma mark stands from its
    // beginning on.
    fn end_of_next(&self, work: &Work) -> u32
        requires arguments { AreArguments work.now self.now }
        requires some { self.now.from ≤ self.now.end }
        ensures { let left = slice_range work.now.neutral self.now.from self.now.end in
            result ≡ self.now.from + before_comma left }
    {
        if self.from >= work.no_comma_from() {
            return self.end;
        }
        self.from + before_comma(work.neutral_part(self.from, self.end))
    }

    /// Takes the next argument if it names a function, and gives that function. None if it names none. At
    /// least one argument must be left.
    #[inline]
    pub fn function(&mut self, work: &Work) -> Option<Function>
        requires arguments { AreArguments work.now self.old }
        requires some { self.old.from ≤ self.old.end }
        ensures named { result ≡ function_named (argument (texts work.now self.old) 0) }
        ensures rest { IsSome result → texts work.now self.new ≡ drop 1 (texts work.now self.old) }
        ensures left { AreArguments work.now self.new }
        ensures scanned { self.new.scanned ≡ self.old.scanned }
    {
        let Some(function) = function_before_comma(work.neutral_part(self.from, self.end)) else {
            return None;
        };
        self.from += 3;
        Some(function)
    }

    /// Whether no argument is left.
    pub fn is_empty(&self) -> bool
        ensures { IsTrue result ↔ (self.now.end + 1 ≤ self.now.from) }
    {
        self.from > self.end
    }
}

/// The cells of a part of the neutral string that is a text, not copied.
pub fn text<'a>(work: &'a Work, part: Part) -> &'a [Cell]
    requires { IsTextPart work.now.neutral part.from part.to }
    ensures text { text_of_cells result.now ≡ part_text work.now.neutral part.from part.to }
    ensures is_text { IsText result.now }
{
    prove!(work.used() <= work.room());
    work.neutral_part(part.from, part.to)
}

/// Copies a part of the neutral string that is a text to the end of that string. False, with nothing
/// changed, if the copy doesn't fit.
pub fn put_part(work: &mut Work, part: Part) -> bool
    requires part { IsTextPart work.old.neutral part.from part.to }
    ensures put { let text = part_text work.old.neutral part.from part.to in
        IsTrue result ↔ (used work.old + length text ≤ work.old.room) }
    ensures last { let text = part_text work.old.neutral part.from part.to in
        OnTrue result (work.new ≡ record work.old {
          neutral = work.old.neutral ++ flat_text text;
        }) }
    ensures full { OnFalse result (work.new ≡ work.old) }
    ensures sound { IsSound work.new }
{
    work.copy_neutral(part.from, part.to)
}

/// Copies a part of the neutral string that is a text to the front of the active string. False, with
/// nothing changed, if the copy doesn't fit.
#[inline(always)]
pub fn load_part(work: &mut Work, part: Part) -> bool
    requires part { IsTextPart work.old.neutral part.from part.to }
    ensures loaded { let text = part_text work.old.neutral part.from part.to in
        IsTrue result ↔ (used work.old + length text ≤ work.old.room) }
    ensures first { let text = part_text work.old.neutral part.from part.to in
        OnTrue result (work.new ≡ record work.old {
          active = flat_text text ++ work.old.active;
        }) }
    ensures full { OnFalse result (work.new ≡ work.old) }
    ensures sound { IsSound work.new }
{
    work.load_part(part.from, part.to)
}

/// Gives a part of the neutral string as the value of a call: copies it to the front of the active string if
/// it is `scanned` again, else to the end of the neutral string. `Full`, with no form changed, if the copy
/// doesn't fit.
#[inline(always)]
pub fn give(work: &mut Work, part: Part, scanned: bool) -> CallResult
    requires part { IsTextPart work.old.neutral part.from part.to }
    ensures makes { let text = part_text work.old.neutral part.from part.to in
        MakesValue text scanned work.old result work.new }
    ensures takes { let text = part_text work.old.neutral part.from part.to in
        scanned ≡ true → (k : ℕ) → TakesPart None text k work.old result work.new }
    ensures unmade { result ≡ CallResult.Full → work.new.forms ≡ work.old.forms }
    ensures keeps { KeepsRoom work.old work.new }
{
    if scanned {
        if !load_part(work, part) {
            return CallResult::Full;
        }
        return CallResult::InFront(part.to - part.from);
    }
    if !put_part(work, part) {
        return CallResult::Full;
    }
    CallResult::AtEnd
}
