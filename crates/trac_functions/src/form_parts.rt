//! The functions that take a part of a form: `cs`, `cc`, `cn`, `in`, and `cr`. If no form has the name N,
//! they change nothing and have a null value, which is this processor's own choice.
ghost use Rattle.std.specs.Prelude.{◌≡◌, ◌↔◌, ◌+◌, ◌-◌, ◌<◌, ◌≤◌, ◌++◌, ℕ, min};
ghost use Rattle.std.specs.Prelude.{take, drop, reverse, length, Some, None, IsTrue, true, false};
ghost use Rattle.std.specs.Bool.{OnTrue};
ghost use Rattle.trac_language.specs.declared.function.Function.TheVariants.{CallSegment};
ghost use Rattle.trac_language.specs.declared.function.Function.TheVariants.{CallCharacter};
ghost use Rattle.trac_language.specs.declared.function.Function.TheVariants.{CallNumber};
ghost use Rattle.trac_language.specs.declared.function.Function.TheVariants.{InitialPart};
ghost use Rattle.trac_language.specs.declared.function.Function.TheVariants.{CallRestore};
ghost use Rattle.trac_language.specs.Text.{Text};
ghost use Rattle.trac_language.specs.Form.{text_of};
ghost use Rattle.trac_language.specs.Part.{first_characters, characters, next_characters};
ghost use Rattle.trac_language.specs.Part.{previous_characters, next_segment, initial_part};
ghost use Rattle.trac_language.specs.Part.{characters_between, part_between};
ghost use Rattle.trac_space.specs.Texts.{flat_text};
ghost use Rattle.trac_values.specs.Digits.{signed};
ghost use Rattle.trac_forms.specs.Contents.{used, body_at, part_text, IsTextPart, IsSound};
ghost use Rattle.trac_forms.specs.Search.{character_at, gap_at};
ghost use Rattle.trac_functions.specs.Calls.{AreArguments, Performs};
ghost use Rattle.trac_functions.specs.Taking.{TakesPart, IsFirstOr, TakesOrDefault};
ghost use Rattle.trac_forms.specs.Contents.{form_place};
ghost use Rattle.trac_functions.specs.Calls.{KeepsRoom};

use crate::arguments::{Arguments, CallResult, give, put_part, text};
use trac_forms::{FormId, Work};
use trac_language::Item;
use trac_space::Part;
use trac_values::{Count, count_of};

/// `cs,N,Z`: the characters from the pointer up to the next gap, or to the end where no gap
/// follows; the pointer goes past that gap (Mooers 1966). With the pointer at the end Z is the
/// value, and goes to the active string whatever the call's mode; a form that isn't defined gives a
/// null value (this processor's own choice).
pub fn call_segment(work: &mut Work, mut arguments: Arguments) -> CallResult
    requires { AreArguments work.old arguments }
    ensures makes { Performs CallSegment work.old arguments result work.new }
    ensures unmade { result ≡ CallResult.Full → work.new.forms ≡ work.old.forms }
    ensures keeps { KeepsRoom work.old work.new }
{
    let name = arguments.next(work);
    let default = arguments.next(work);
    match work.find(name.from, name.to) {
        Some(form) => take_segment(work, form, default),
        None => CallResult::AtEnd,
    }
}

/// Takes the characters up to the next gap.
fn take_segment(work: &mut Work, form: FormId, default: Part) -> CallResult
    requires known { form_place form < length work.old.forms }
    requires part { IsTextPart work.old.neutral default.from default.to }
    requires sound { IsSound work.old }
    ensures takes { TakesOrDefault next_segment (form_place form) default work.old result work.new }
    ensures unmade { result ≡ CallResult.Full → work.new.forms ≡ work.old.forms }
    ensures keeps { KeepsRoom work.old work.new }
{
    let from = work.pointer(form);
    let end = work.body_len(form);
    if from == end {
        return give(work, default, true);
    }
    match work.next_gap(form, from) {
        Some(gap) => take_part(work, form, Part { from, to: gap }, gap + 1),
        None => take_part(work, form, Part { from, to: end }, end),
    }
}

/// `cc,N,Z`: the next character after the pointer, gaps skipped;
/// the pointer goes behind it (Mooers 1966). Z as for `cs`.
pub fn call_character(work: &mut Work, mut arguments: Arguments) -> CallResult
    requires { AreArguments work.old arguments }
    ensures makes { Performs CallCharacter work.old arguments result work.new }
    ensures unmade { result ≡ CallResult.Full → work.new.forms ≡ work.old.forms }
    ensures keeps { KeepsRoom work.old work.new }
{
    let name = arguments.next(work);
    let default = arguments.next(work);
    match work.find(name.from, name.to) {
        Some(form) => take_character(work, form, default),
        None => CallResult::AtEnd,
    }
}

/// Takes the next character after the pointer.
fn take_character(work: &mut Work, form: FormId, default: Part) -> CallResult
    requires known { form_place form < length work.old.forms }
    requires part { IsTextPart work.old.neutral default.from default.to }
    requires sound { IsSound work.old }
    ensures takes { TakesOrDefault (next_characters 1) (form_place form) default
        work.old result work.new }
    ensures unmade { result ≡ CallResult.Full → work.new.forms ≡ work.old.forms }
    ensures keeps { KeepsRoom work.old work.new }
{
    if work.take_character(form) {
        return CallResult::AtEnd;
    }
    take_later_character(work, form, default)
}

/// Takes the next character after the pointer, which may stand behind gaps.
fn take_later_character(work: &mut Work, form: FormId, default: Part) -> CallResult
    requires known { form_place form < length work.old.forms }
    requires part { IsTextPart work.old.neutral default.from default.to }
    requires sound { IsSound work.old }
    ensures takes { TakesOrDefault (next_characters 1) (form_place form) default
        work.old result work.new }
    ensures unmade { result ≡ CallResult.Full → work.new.forms ≡ work.old.forms }
    ensures keeps { KeepsRoom work.old work.new }
{
    let from = work.pointer(form);
    match work.next_char(form, from) {
        Some(place) => take_one(work, form, place),
        None => give(work, default, true),
    }
}

/// Takes the character at a place of the body; the pointer goes behind it.
fn take_one(work: &mut Work, form: FormId, place: u32) -> CallResult
    requires known { form_place form < length work.old.forms }
    requires within { place < length (body_at work.old.forms (form_place form)) }
    requires character { character_at (body_at work.old.forms (form_place form)) place ≡ true }
    requires sound { IsSound work.old }
    ensures takes { (z : Text) →
        let body = body_at work.old.forms (form_place form) in
        let taken = part_between body (place, place + 1) (place + 1) in
        TakesPart (Some taken) z (form_place form) work.old result work.new }
    ensures unmade { result ≡ CallResult.Full → work.new.forms ≡ work.old.forms }
    ensures keeps { KeepsRoom work.old work.new }
{
    if !copy_character(work, form, place) {
        return CallResult::Full;
    }
    work.set_pointer(form, place + 1);
    CallResult::AtEnd
}

/// Puts the character at a place of the body at the end of the neutral string, if there is a cell
/// for it.
fn copy_character(work: &mut Work, form: FormId, place: u32) -> bool
    requires known { form_place form < length work.old.forms }
    requires within { place < length (body_at work.old.forms (form_place form)) }
    requires character { character_at (body_at work.old.forms (form_place form)) place ≡ true }
    requires sound { IsSound work.old }
    ensures put { let body = body_at work.old.forms (form_place form) in
        let text = characters_between body place (place + 1) in
        IsTrue result ↔ (used work.old + length text ≤ work.old.room) }
    ensures last { let body = body_at work.old.forms (form_place form) in
        let text = characters_between body place (place + 1) in
        OnTrue result
        (work.new ≡ record work.old { neutral = work.old.neutral ++ flat_text text }) }
    ensures forms { work.new.forms ≡ work.old.forms }
    ensures keeps { KeepsRoom work.old work.new }
{
    prove!(place < work.body_len(form));
    work.copy_body(form, place, place + 1)
}

/// `cn,N,D,Z`: the next D characters, or the last -D before the pointer where D is negative, gaps
/// skipped; the pointer goes to the other side of them (Mooers 1966). All of them where there are
/// fewer; D has any length; D = 0 gives a null value; Z as for `cs` (this processor's own choice).
pub fn call_number(work: &mut Work, mut arguments: Arguments) -> CallResult
    requires { AreArguments work.old arguments }
    ensures makes { Performs CallNumber work.old arguments result work.new }
    ensures unmade { result ≡ CallResult.Full → work.new.forms ≡ work.old.forms }
    ensures keeps { KeepsRoom work.old work.new }
{
    let name = arguments.next(work);
    let number = arguments.next(work);
    let default = arguments.next(work);
    let count = count_of(text(work, number));
    match work.find(name.from, name.to) {
        Some(form) => take_characters(work, form, count, default),
        None => CallResult::AtEnd,
    }
}

/// Takes `count` characters of a form, forward from its pointer or backward.
fn take_characters(work: &mut Work, form: FormId, count: Count, default: Part) -> CallResult
    requires known { form_place form < length work.old.forms }
    requires part { IsTextPart work.old.neutral default.from default.to }
    requires sound { IsSound work.old }
    ensures takes { let part = characters (signed count.negative count.size) in
        TakesOrDefault part (form_place form) default work.old result work.new }
    ensures unmade { result ≡ CallResult.Full → work.new.forms ≡ work.old.forms }
    ensures keeps { KeepsRoom work.old work.new }
{
    if count.size == 0 {
        let pointer = work.pointer(form);
        let null = Part {
            from: pointer,
            to: pointer,
        };
        take_part(work, form, null, pointer)
    } else if count.negative {
        take_backward(work, form, count.size, default)
    } else {
        take_forward(work, form, count.size, default)
    }
}

/// Takes the next `count` characters after the pointer.
fn take_forward(work: &mut Work, form: FormId, count: u32, default: Part) -> CallResult
    requires known { form_place form < length work.old.forms }
    requires some { 0 < count }
    requires part { IsTextPart work.old.neutral default.from default.to }
    requires sound { IsSound work.old }
    ensures takes { TakesOrDefault (next_characters count) (form_place form) default
        work.old result work.new }
    ensures unmade { result ≡ CallResult.Full → work.new.forms ≡ work.old.forms }
    ensures keeps { KeepsRoom work.old work.new }
{
    let from = work.pointer(form);
    let to = place_after(work, form, from, count);
    if to == from {
        return give(work, default, true);
    }
    take_part(work, form, Part { from, to }, to)
}

/// Takes the last `count` characters before the pointer.
fn take_backward(work: &mut Work, form: FormId, count: u32, default: Part) -> CallResult
    requires known { form_place form < length work.old.forms }
    requires some { 0 < count }
    requires part { IsTextPart work.old.neutral default.from default.to }
    requires sound { IsSound work.old }
    ensures takes { let part = previous_characters count in
        TakesOrDefault part (form_place form) default work.old result work.new }
    ensures unmade { result ≡ CallResult.Full → work.new.forms ≡ work.old.forms }
    ensures keeps { KeepsRoom work.old work.new }
{
    let to = work.pointer(form);
    let from = place_before(work, form, to, count);
    if from == to {
        return give(work, default, true);
    }
    take_part(work, form, Part { from, to }, from)
}

/// The place after the next `count` characters from `from` on, or after all of them if there are fewer.
fn place_after(work: &Work, form: FormId, from: u32, count: u32) -> u32
    requires known { form_place form < length work.now.forms }
    requires within { from ≤ length (body_at work.now.forms (form_place form)) }
    ensures place { let items = drop from (body_at work.now.forms (form_place form)) in
        let least = min count (length (text_of items)) in
        result ≡ from + length (first_characters least items) }
    ensures end { result ≤ length (body_at work.now.forms (form_place form)) }
{
    prove!(from <= work.body_len(form));
    let mut place = from;
    for _taken in 0..count {
        match work.next_char(form, place) {
            Some(character) => place = character + 1,
            None => return place,
        }
    }
    place
}

/// The place of the first of the last `count` characters before `to`, or of the first of all of them if there
/// are fewer.
fn place_before(work: &Work, form: FormId, to: u32, count: u32) -> u32
    requires known { form_place form < length work.now.forms }
    requires within { to ≤ length (body_at work.now.forms (form_place form)) }
    ensures { let items = take to (body_at work.now.forms (form_place form)) in
        let least = min count (length (text_of items)) in
        result + length (first_characters least (reverse items)) ≡ to }
{
    let mut place = to;
    for _taken in 0..count {
        match work.previous_char(form, place) {
            Some(character) => place = character,
            None => return place,
        }
    }
    place
}

/// Takes the characters of a part of the body, and moves the pointer.
fn take_part(work: &mut Work, form: FormId, part: Part, pointer: u32) -> CallResult
    requires known { form_place form < length work.old.forms }
    requires order { part.from ≤ part.to }
    requires within { part.to ≤ length (body_at work.old.forms (form_place form)) }
    requires pointer { pointer ≤ length (body_at work.old.forms (form_place form)) }
    requires sound { IsSound work.old }
    ensures takes { (z : Text) →
        let body = body_at work.old.forms (form_place form) in
        let taken = part_between body (part.from, part.to) pointer in
        TakesPart (Some taken) z (form_place form) work.old result work.new }
    ensures unmade { result ≡ CallResult.Full → work.new.forms ≡ work.old.forms }
    ensures keeps { KeepsRoom work.old work.new }
{
    if !copy_characters(work, form, part.from, part.to) {
        return CallResult::Full;
    }
    work.set_pointer(form, pointer);
    CallResult::AtEnd
}

/// Copies the characters of a form's body from place `from` up to `to` to the end of the neutral string,
/// gaps left out. False if they don't fit; then no form has changed, but some of them may stand there.
pub fn copy_characters(work: &mut Work, form: FormId, from: u32, to: u32) -> bool
    requires known { form_place form < length work.old.forms }
    requires order { from ≤ to }
    requires within { to ≤ length (body_at work.old.forms (form_place form)) }
    requires sound { IsSound work.old }
    ensures put { let body = body_at work.old.forms (form_place form) in
        let text = characters_between body from to in
        IsTrue result ↔ (used work.old + length text ≤ work.old.room) }
    ensures last { let body = body_at work.old.forms (form_place form) in
        let text = characters_between body from to in
        OnTrue result
        (work.new ≡ record work.old { neutral = work.old.neutral ++ flat_text text }) }
    ensures forms { work.new.forms ≡ work.old.forms }
    ensures keeps { KeepsRoom work.old work.new }
{
    prove!(to <= work.body_len(form));
    let mut place = from;
    while place < to {
        let start = character_or(work, form, place, to);
        let end = gap_or(work, form, start, to);
        if !work.copy_body(form, start, end) {
            return false;
        }
        place = end;
    }
    true
}

/// The place of the first character from one place up to another, or that other place.
fn character_or(work: &Work, form: FormId, from: u32, to: u32) -> u32
    requires known { form_place form < length work.now.forms }
    requires order { from ≤ to }
    requires within { to ≤ length (body_at work.now.forms (form_place form)) }
    ensures { IsFirstOr (character_at (body_at work.now.forms (form_place form))) from to result }
{
    match work.next_char(form, from) {
        Some(place) => place.min(to),
        None => to,
    }
}

/// The place of the first gap from one place up to another, or that other place.
fn gap_or(work: &Work, form: FormId, from: u32, to: u32) -> u32
    requires known { form_place form < length work.now.forms }
    requires order { from ≤ to }
    requires within { to ≤ length (body_at work.now.forms (form_place form)) }
    ensures { IsFirstOr (gap_at (body_at work.now.forms (form_place form))) from to result }
{
    prove!(to <= work.body_len(form));
    for place in from..to {
        if let Item::Gap(_) = work.item(form, place) {
            return place;
        }
    }
    to
}

/// `in,N,X,Z`: the characters from the pointer up to the first occurrence of X, which reaches
/// across no gap; the pointer goes past it (Mooers 1966). Z where there is none, and a null value
/// for a null X (this processor's own choice).
pub fn initial_part(work: &mut Work, mut arguments: Arguments) -> CallResult
    requires { AreArguments work.old arguments }
    ensures makes { Performs InitialPart work.old arguments result work.new }
    ensures unmade { result ≡ CallResult.Full → work.new.forms ≡ work.old.forms }
    ensures keeps { KeepsRoom work.old work.new }
{
    let name = arguments.next(work);
    let sought = arguments.next(work);
    let default = arguments.next(work);
    match work.find(name.from, name.to) {
        Some(form) => take_initial(work, form, sought, default),
        None => CallResult::AtEnd,
    }
}

/// Takes the characters up to the first occurrence of a text.
fn take_initial(work: &mut Work, form: FormId, sought: Part, default: Part) -> CallResult
    requires known { form_place form < length work.old.forms }
    requires sought { IsTextPart work.old.neutral sought.from sought.to }
    requires part { IsTextPart work.old.neutral default.from default.to }
    requires sound { IsSound work.old }
    ensures takes { let text = part_text work.old.neutral sought.from sought.to in
        TakesOrDefault (initial_part text) (form_place form) default work.old result work.new }
    ensures unmade { result ≡ CallResult.Full → work.new.forms ≡ work.old.forms }
    ensures keeps { KeepsRoom work.old work.new }
{
    let pointer = work.pointer(form);
    if sought.from == sought.to {
        let null = Part {
            from: pointer,
            to: pointer,
        };
        return take_part(work, form, null, pointer);
    }
    match work.occurrence(form, pointer, (sought.from, sought.to)) {
        Some((begin, end)) => {
            let before = Part {
                from: pointer,
                to: begin,
            };
            take_part(work, form, before, end)
        }
        None => give(work, default, true),
    }
}

/// `cr,N`: the pointer goes back to the start (Mooers 1966).
pub fn call_restore(work: &mut Work, mut arguments: Arguments) -> CallResult
    requires { AreArguments work.old arguments }
    ensures makes { Performs CallRestore work.old arguments result work.new }
    ensures unmade { result ≡ CallResult.Full → work.new.forms ≡ work.old.forms }
    ensures keeps { KeepsRoom work.old work.new }
{
    let name = arguments.next(work);
    if let Some(form) = work.find(name.from, name.to) {
        work.set_pointer(form, 0);
    }
    CallResult::AtEnd
}
