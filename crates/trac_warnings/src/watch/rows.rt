//! Rows of steps at which nothing is suspicious. They are followed at once, before the machine makes them.
ghost use Rattle.std.specs.Prelude.{◌≡◌, ◌+◌, ◌-◌, ◌^◌, ◌<◌, ◌≤◌, ℕ, IfOk, MatchOption, OnOk, Some, drop, length};
ghost use Rattle.std.specs.Prelude.{reverse, take, true};
ghost use Rattle.std.specs.List.{prefix_len};
ghost use Rattle.trac_language.specs.Protected.{protected};
ghost use Rattle.trac_language.specs.Rule.{rule};
ghost use Rattle.trac_space.specs.Texts.{text_of_cells};
ghost use Rattle.trac_core.specs.View.{row_of, taken_in_row};
ghost use Rattle.trac_warnings.specs.Origins.{first_origin, origin_at};
ghost use Rattle.trac_warnings.specs.Rows.{FollowsRow, FollowsSoFar, Marks, OpenBefore, begins_argument};
ghost use Rattle.trac_warnings.specs.Rows.{begins_call, is_at, is_plain, none_ends, without};

use super::calls::begin_of_argument;
use super::{OpenString, Watch};
use crate::origin::Origin;
use crate::trail::take_run;
use std::alloc::{AllocError, Allocator};
use trac_core::Machine;
use trac_space::{Cell, character_of};

// The match of a left parenthesis is near if at most so many characters stand up to it. A longer text is left to the
// machine, which finds the match faster.
const NEAR: usize = 256;

// How far a row of steps was followed.
#[derive(Clone, Copy)]
struct Row {
    // The steps.
    steps: u64,
    // The characters that they take from the active string.
    place: usize,
    // Those of these characters whose origins were not removed yet.
    pending: usize,
}

// The character behind a row of steps.
#[derive(Clone, Copy)]
struct Front {
    // Where it was written.
    origin: Origin,
    // How many of the characters before it have origins that were not removed yet.
    pending: usize,
}

// How far a row of steps may be followed.
#[derive(Clone, Copy)]
struct Reach {
    // The steps.
    steps: u64,
    // The characters that they may take from the active string.
    place: usize,
}

impl<A: Allocator + Copy> Watch<A> {
    /// Follows the steps that a machine is about to make, at most `most`, up to the next one at which something may
    /// be suspicious, and gives how many they are. They end no call, load no idling procedure and drop nothing, and no
    /// string ends there. The machine must then make them. Fails only if memory runs out.
    #[inline(never)]
    pub fn follow_row(&mut self, machine: &Machine, most: u64) -> Result<u64, AllocError>
        ensures few { IfOk result (λ steps. steps ≤ most) }
        ensures follows { IfOk result (λ steps.
            FollowsRow steps machine.now.memory.active self.old self.new) }
    {
        let active = machine.active();
        let reach = Reach {
            steps: most,
            place: before_end(&self.strings, active.len()),
        };
        let row = self.follow_up_to(active, reach)?;
        if row.steps == 0 {
            return Ok(0);
        }
        self.remove_origins(row.pending)?;
        Ok(row.steps)
    }

    // Removes the origins of the first `count` characters of the active string.
    #[inline]
    fn remove_origins(&mut self, count: usize) -> Result<(), AllocError>
        ensures runs { OnOk result (reverse self.new.runs.items ≡
            without count (reverse self.old.runs.items)) }
        ensures stays { self.new ≡ record self.old { runs = self.new.runs } }
    {
        if count == 0 {
            return Ok(());
        }
        take_run(&mut self.runs, count)
    }

    // Follows a row of steps up to its reach, or to a step at which something may be suspicious.
    #[inline]
    fn follow_up_to(&mut self, active: &[Cell], reach: Reach) -> Result<Row, AllocError>
        requires within { reach.place ≤ length active.now }
        requires open { OpenBefore reach.place (text_of_cells active.now)
            (reverse self.old.strings.items) }
        ensures steps { IfOk result (λ row. row.steps ≤ reach.steps) }
        ensures follows { IfOk result (λ row.
            FollowsSoFar (text_of_cells active.now) row self.old self.new) }
    {
        let mut row = Row {
            steps: 0,
            place: 0,
            pending: 0,
        };
        while row.steps < reach.steps && row.place < reach.place {
            let next = self.follow_next(active, row, reach)?;
            if next.steps <= row.steps {
                return Ok(next);
            }
            row = next;
        }
        Ok(row)
    }

    // Follows the next step of a row, or several that only take a character. The row stays as it is where something may
    // be suspicious in the next step, or the step would go beyond the reach.
    #[inline]
    fn follow_next(&mut self, active: &[Cell], row: Row, reach: Reach) -> Result<Row, AllocError>
        requires steps { row.steps < reach.steps }
        requires place { row.place < reach.place }
        requires pending { row.pending ≤ row.place }
        requires within { reach.place ≤ length active.now }
        ensures steps { IfOk result (λ next. next.steps ≤ reach.steps) }
        ensures place { IfOk result (λ next. next.place ≤ reach.place) }
        ensures pending { IfOk result (λ next. next.pending ≤ next.place) }
        ensures follows { let text = text_of_cells active.now in (first : Watch A) →
            OpenBefore reach.place text (reverse first.strings.items) →
            FollowsSoFar text row first self.old →
            IfOk result (λ next. FollowsSoFar text next first self.new) }
    {
        match mark_at(active, row.place) {
            Mark::Plain => Ok(row.with_steps(plain_steps(active, row, reach))),
            Mark::Comma => self.begin_argument(active, row, reach),
            Mark::Call(count) => self.open_call(active, row, count, reach),
            Mark::Protected(count) if count <= reach.place - row.place => {
                Ok(row.with_mark(row.pending, count))
            }
            Mark::Protected(_) | Mark::Other => Ok(row),
        }
    }

    // Follows a step that opens a call by so many characters, unless it would go beyond the reach.
    #[inline]
    fn open_call(
        &mut self,
        active: &[Cell],
        row: Row,
        count: usize,
        reach: Reach,
    ) -> Result<Row, AllocError>
        requires steps { row.steps < reach.steps }
        requires place { row.place < reach.place }
        requires pending { row.pending ≤ row.place }
        requires within { reach.place ≤ length active.now }
        requires opens { let next = row_of (rule (drop row.place (text_of_cells active.now))) in
            (begins_call next ≡ true) × (count ≡ taken_in_row next) }
        ensures steps { IfOk result (λ next. next.steps ≤ reach.steps) }
        ensures place { IfOk result (λ next. next.place ≤ reach.place) }
        ensures pending { IfOk result (λ next. next.pending ≤ next.place) }
        ensures follows { let text = text_of_cells active.now in (first : Watch A) →
            OpenBefore reach.place text (reverse first.strings.items) →
            FollowsSoFar text row first self.old →
            IfOk result (λ next. FollowsSoFar text next first self.new) }
    {
        if count > reach.place - row.place {
            return Ok(row);
        }
        let front = self.front_behind(row.pending)?;
        self.calls.push(front.origin)?;
        Ok(row.with_mark(front.pending, count))
    }

    // Follows a step that begins an argument.
    #[inline]
    fn begin_argument(&mut self, active: &[Cell], row: Row, reach: Reach) -> Result<Row, AllocError>
        requires steps { row.steps < reach.steps }
        requires place { row.place < reach.place }
        requires pending { row.pending ≤ row.place }
        requires within { reach.place ≤ length active.now }
        requires begins { let next = row_of (rule (drop row.place (text_of_cells active.now))) in
            begins_argument next ≡ true }
        ensures steps { IfOk result (λ next. next.steps ≤ reach.steps) }
        ensures place { IfOk result (λ next. next.place ≤ reach.place) }
        ensures pending { IfOk result (λ next. next.pending ≤ next.place) }
        ensures follows { let text = text_of_cells active.now in (first : Watch A) →
            OpenBefore reach.place text (reverse first.strings.items) →
            FollowsSoFar text row first self.old →
            IfOk result (λ next. FollowsSoFar text next first self.new) }
    {
        let front = self.front_behind(row.pending)?;
        let is_protected = is_at(active, row.place + 1, b'(');
        self.commas
            .push(begin_of_argument(front.origin, is_protected))?;
        Ok(row.with_mark(front.pending, 1))
    }

    // Where the character behind the first `pending` ones of the active string was written. The origins of these are
    // removed only if they are all that the first of the runs has.
    #[inline(always)]
    fn front_behind(&mut self, pending: usize) -> Result<Front, AllocError>
        ensures few { IfOk result (λ front. front.pending ≤ pending) }
        ensures origin { IfOk result (λ front. front.origin ≡
            origin_at self.old.read (first_origin (without pending (reverse self.old.runs.items)))) }
        ensures runs { IfOk result (λ front. without front.pending (reverse self.new.runs.items) ≡
            without pending (reverse self.old.runs.items)) }
        ensures stays { self.new ≡ record self.old { runs = self.new.runs } }
    {
        if let [.., run] = self.runs.as_slice() {
            if pending > 0 && pending < run.len {
                let origin = run.origin.behind(pending);
                return Ok(Front { origin, pending });
            }
        }
        self.remove_origins(pending)?;
        Ok(Front {
            origin: self.origin(),
            pending: 0,
        })
    }
}

impl Row {
    // A row with one step more for each of so many characters.
    fn with_steps(self, count: usize) -> Row
        requires steps { self.steps + count < 2 ^ 64 }
        requires place { self.place + count < 2 ^ 64 }
        requires pending { self.pending + count < 2 ^ 64 }
        ensures { result ≡ record {
          steps = self.steps + count;
          place = self.place + count;
          pending = self.pending + count;
        } }
    {
        Row {
            steps: self.steps + count as u64,
            place: self.place + count,
            pending: self.pending + count,
        }
    }

    // A row with one step more, which takes so many characters. Of those before them `pending` have their origins.
    fn with_mark(self, pending: usize, count: usize) -> Row
        requires steps { self.steps + 1 < 2 ^ 64 }
        requires place { self.place + count < 2 ^ 64 }
        requires pending { pending + count < 2 ^ 64 }
        ensures { result ≡ record {
          steps = self.steps + 1;
          place = self.place + count;
          pending = pending + count;
        } }
    {
        Row {
            steps: self.steps + 1,
            place: self.place + count,
            pending: pending + count,
        }
    }
}

// What stands at a place of an active string.
#[derive(Clone, Copy)]
enum Mark {
    // A character that only leaves the active string: no number sign, parenthesis or comma.
    Plain,
    // A comma.
    Comma,
    // So many characters that open a call.
    Call(usize),
    // So many characters that are a protected text with its parentheses.
    Protected(usize),
    // A number sign that opens no call, a right parenthesis, or a left one whose match isn't near.
    Other,
}

// What stands at a place of an active string.
#[inline]
fn mark_at(active: &[Cell], place: usize) -> Mark
    requires { place < length active.now }
    ensures { Marks result (drop place (text_of_cells active.now)) }
{
    let character = character_of(&active[place]);
    if is_plain(character) {
        return Mark::Plain;
    }
    match character {
        b',' => Mark::Comma,
        b'#' if is_at(active, place + 1, b'(') => Mark::Call(2),
        b'#' if is_at(active, place + 1, b'#') && is_at(active, place + 2, b'(') => Mark::Call(3),
        b'(' => match match_nearby(&active[place + 1..]) {
            Some(len) => Mark::Protected(len + 2),
            None => Mark::Other,
        },
        _ => Mark::Other,
    }
}

// Where the right parenthesis stands that matches a left one before the cells. None if it isn't among the first ones.
#[inline(never)]
fn match_nearby(cells: &[Cell]) -> Option<usize>
    ensures { let text = text_of_cells cells.now in
        MatchOption result (Unit {0}) (λ place. (place < length cells.now)
        × (protected text ≡ Some (take place text, drop (place + 1) text))) }
{
    let mut depth: usize = 0;
    for place in 0..cells.len().min(NEAR) {
        let character = character_of(&cells[place]);
        if character == b'(' {
            depth += 1;
        } else if character == b')' {
            if depth == 0 {
                return Some(place);
            }
            depth -= 1;
        }
    }
    None
}

// Whether a character stands at a place of an active string.
#[inline(always)]
pub(super) fn is_at(active: &[Cell], place: usize, character: u8) -> bool
    ensures { result ≡ is_at (text_of_cells active.now) place character }
{
    match active.get(place) {
        Some(cell) => character_of(cell) == character,
        None => false,
    }
}

// How many steps of a row follow that each only take a character, as far as the reach allows. The first of them does.
#[inline]
fn plain_steps(active: &[Cell], row: Row, reach: Reach) -> usize
    requires steps { row.steps ≤ reach.steps }
    requires place { row.place < reach.place }
    requires within { reach.place ≤ length active.now }
    requires first { 0 < prefix_len is_plain (drop row.place (text_of_cells active.now)) }
    ensures steps { row.steps + result ≤ reach.steps }
    ensures place { row.place + result ≤ reach.place }
    ensures plain { result ≤ prefix_len is_plain (drop row.place (text_of_cells active.now)) }
{
    let behind = plain_in(&active[row.place + 1..reach.place]);
    let count = behind + 1;
    let left = reach.steps - row.steps;
    if (count as u64) < left {
        count
    } else {
        left as usize
    }
}

// How many characters begin the cells that are no number sign, parenthesis or comma.
fn plain_in(cells: &[Cell]) -> usize
    ensures plain { result ≡ prefix_len is_plain (text_of_cells cells.now) }
    ensures few { result ≤ length cells.now }
{
    for (place, cell) in cells.iter().enumerate() {
        if !is_plain(character_of(cell)) {
            return place;
        }
    }
    cells.len()
}

// Whether a character is no number sign, parenthesis or comma.
#[inline]
fn is_plain(character: u8) -> bool
    ensures { result ≡ is_plain character }
{
    character != b'#' && character != b'(' && character != b')' && character != b','
}

// How many characters of an active string may leave it before the last of these strings ends.
fn before_end(strings: &[OpenString], active: usize) -> usize
    ensures within { result ≤ active }
    ensures open { (count : ℕ) → 0 < count → count ≤ result →
        none_ends (reverse strings.now) (active - count) ≡ true }
{
    match strings {
        [.., string] => active.saturating_sub(string.rest).saturating_sub(1),
        [] => active,
    }
}
