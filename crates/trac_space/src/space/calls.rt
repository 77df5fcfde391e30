//! The chain of open calls: each call mark knows how far the one before it is.
ghost use Rattle.std.specs.Prelude.{◌≡◌, ◌+◌, ◌-◌, ◌≤◌, ◌<◌, length, take, slice_get, MatchOption};
ghost use Rattle.std.specs.Prelude.{◌==◌, Some, count_by};
ghost use Rattle.trac_space.specs.declared.cell.Cell.{Cell};
ghost use Rattle.trac_space.specs.declared.cell.Cell.TheVariants.{Call};
ghost use Rattle.trac_space.specs.Cells.{IsCallAt, NoCall, is_comma};
ghost use Rattle.trac_space.specs.Calls.{HasCallsUpTo, IsLinked, IsLastCall, up_to};
ghost use Rattle.trac_space.specs.Arguments.{IsCallUpTo, arguments, IsArgument};

use super::Space;
use crate::cell::{Cell, frame_link, is_comma, mode};
use crate::part::Part;
use trac_language::Mode;

impl<'a> Space<'a> {
    /// The place of the last call mark in neutral, that of the innermost open call. None if no call is
    /// open.
    #[inline]
    pub fn last_call(&self) -> Option<u32>
        ensures { MatchOption result
            (NoCall self.now.neutral)
            (λ place. IsLastCall self.now.neutral place) }
    {
        self.top_frame.checked_sub(1)
    }

    /// The place of the last call mark in neutral before the one at `place`, that of the call around. None if
    /// no call is open around it.
    #[inline]
    pub fn call_before(&self, place: u32) -> Option<u32>
        requires { IsCallAt self.now.neutral place }
        ensures { MatchOption result
            (NoCall (take place self.now.neutral))
            (λ before. IsLastCall (take place self.now.neutral) before) }
    {
        let start = self.store as usize;
        let stop = (self.store + self.neutral) as usize;
        up_to_mark(&self.cells[start..stop], place).checked_sub(1)
    }

    /// The mode of the innermost open call, whose mark stands at `place`.
    #[inline]
    pub fn call_mode(&self, place: u32) -> Mode
        requires { IsLastCall self.now.neutral place }
        ensures { slice_get self.now.neutral place ≡ Some (Call result 0) }
    {
        mode(self.cells[(self.store + place) as usize])
    }

    // The place behind the last call mark among the first `end` cells of neutral, 0 if there is none.
    #[inline]
    pub(super) fn frame_before(&self, end: u32) -> u32
        requires { end ≤ length self.now.neutral }
        ensures { HasCallsUpTo (take end self.now.neutral) result }
    {
        let start = self.store as usize;
        let stop = (self.store + self.neutral) as usize;
        top_frame_in(&self.cells[start..stop], self.top_frame, end)
    }

    /// How many arguments stand in neutral from the call mark at `call` up to `end`: one more than
    /// the comma marks there.
    pub fn arguments(&self, call: u32, end: u32) -> u32
        requires { IsCallUpTo self.now.neutral call end }
        ensures { result ≡ arguments self.now.neutral call end }
    {
        let from = (self.store + call + 1) as usize;
        let to = (self.store + end) as usize;
        count_commas(&self.cells[from..to]) + 1
    }

    /// Where argument `k`, from 0, of the call from `call` up to `end` begins and ends. None if the call
    /// has no such argument.
    pub fn argument(&self, call: u32, end: u32, k: u32) -> Option<(u32, u32)>
        requires { IsCallUpTo self.now.neutral call end }
        ensures { MatchOption result
            (arguments self.now.neutral call end ≤ k)
            (λ place. IsArgument self.now.neutral call end k place.0 place.1) }
    {
        let start = self.store as usize;
        let stop = (self.store + self.neutral) as usize;
        match argument_in(&self.cells[start..stop], call, end, k) {
            Some(part) => Some((part.from, part.to)),
            None => None,
        }
    }
}

// The place behind the last call mark among the first `end` cells, 0 if there is none. `behind` is that
// place among all the cells. Mostly only the last call mark is left out, which takes no loop.
#[inline]
fn top_frame_in(neutral: &[Cell], behind: u32, end: u32) -> u32
    requires last { HasCallsUpTo neutral.now behind }
    requires linked { IsLinked neutral.now }
    requires within { end ≤ length neutral.now }
    requires few { length neutral.now ≤ 16777216 }
    ensures { HasCallsUpTo (take end neutral.now) result }
{
    if behind == end + 1 {
        return up_to_mark(neutral, end);
    }
    walk_back(neutral, behind, end)
}

// The place behind the last call mark among the first `end` cells, 0 if there is none. Goes back from
// call mark to call mark, from the place `behind`.
#[inline]
fn walk_back(neutral: &[Cell], behind: u32, end: u32) -> u32
    requires last { HasCallsUpTo neutral.now behind }
    requires linked { IsLinked neutral.now }
    requires within { end ≤ length neutral.now }
    ensures { HasCallsUpTo (take end neutral.now) result }
{
    let mut behind = behind;
    while behind > end {
        let place = behind - 1;
        behind = up_to(place, frame_link(neutral[place as usize]));
    }
    behind
}

// The place behind the call mark before the one at `place`, 0 if there is none.
#[inline]
fn up_to_mark(neutral: &[Cell], place: u32) -> u32
    requires linked { IsLinked neutral.now }
    requires mark { IsCallAt neutral.now place }
    ensures { HasCallsUpTo (take place neutral.now) result }
{
    up_to(place, frame_link(neutral[place as usize]))
}

// The place behind the call mark before the one at `place`, which has this number; 0 if there is none.
#[inline(always)]
fn up_to(place: u32, number: u32) -> u32
    requires within { number ≤ place }
    ensures { result ≡ up_to place number }
{
    if number == 0 { 0 } else { place - (number - 1) }
}

// How many of the cells are comma marks.
fn count_commas(cells: &[Cell]) -> u32
    requires { length cells.now ≤ 16777216 }
    ensures count { result ≡ count_by is_comma cells.now }
    ensures bounded { result ≤ 16777216 }
{
    cells.iter().filter(|cell| is_comma(*cell)).count() as u32
}

// The cells of argument `k`, from 0, of the call from `call` up to `end`. None if the call has no such
// argument.
fn argument_in(neutral: &[Cell], call: u32, end: u32, k: u32) -> Option<Part>
    requires order { call < end }
    requires within { end ≤ length neutral.now }
    ensures { MatchOption result
        (arguments neutral.now call end ≤ k)
        (λ part. IsArgument neutral.now call end k part.from part.to) }
{
    let mut number = 0;
    let mut from = call + 1;
    for to in call + 1..end {
        if is_comma(&neutral[to as usize]) {
            if number == k {
                return Some(Part { from, to });
            }
            number += 1;
            from = to + 1;
        }
    }
    if number == k {
        Some(Part { from, to: end })
    } else {
        None
    }
}
