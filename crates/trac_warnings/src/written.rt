//! What is suspicious in how a script is written, before it is run.
ghost use Rattle.std.specs.Prelude.{◌≡◌, ◌<◌, IfOk, IfSome, OnOk, None, true, false, get_or, length};
ghost use Rattle.trac_warnings.specs.Origins.{in_input};
ghost use Rattle.trac_warnings.specs.Performed.{Warns};
ghost use Rattle.trac_warnings.specs.Script.{behind_digits, curly_end, is_numbered, last_seen, numbered_lines};
ghost use Rattle.trac_warnings.specs.Script.{other_meta};
ghost use Rattle.trac_warnings.specs.Script.{script_warnings, spelled, spelled_at, reported_behind};
ghost use Rattle.trac_warnings.specs.Spelling.{spelling_of};
ghost use Rattle.trac_warnings.specs.Watched.{Adds, Kept};

use crate::origin::Origin;
use crate::spelling::{names_function, spelling_of};
use crate::strings::begins_with_mark;
use crate::warning::{Suspicion, Warning};
use std::alloc::{AllocError, Allocator};
use trac_core::is_layout;
use trac_events::{LineEnd, Mark, count_before};

// From this many numbered lines on there is a warning.
const FEW_LINES: usize = 3;

/// Adds what is suspicious in how a script is written. Fails only if memory runs out.
#[inline(never)]
#[tactic(auto, using(crate::proofs::Keeping::keeping))]
pub fn look_at_script<A: Allocator + Copy>(
    warnings: &mut Vec<Warning<A>, A>,
    alloc: A,
    input: &[u8],
) -> Result<(), AllocError>
    ensures kept { Kept warnings.old.items warnings.new.items }
    ensures said { OnOk result (Warns warnings.old.items warnings.new.items
        (script_warnings input.now)) }
{
    if begins_with_mark(input) {
        warn_at(warnings, alloc, Suspicion::Mark, 0, &[])?;
    }
    if let Some((place, byte)) = other_meta(input) {
        warn_at(warnings, alloc, Suspicion::OtherMeta, place, &[byte])?;
    }
    look_at_lines(warnings, alloc, input)?;
    look_at_spelling(warnings, alloc, input)
}

// The byte that seems to end the strings of a script without any apostrophe, and its place: the
// last byte apart from layout and blanks, unless it is a letter, a digit or a right parenthesis, or belongs to a
// typographic apostrophe.
fn other_meta(input: &[u8]) -> Option<(usize, u8)>
    ensures { result ≡ other_meta input.now }
{
    if input.contains(&b'\'') || curly_end(input).is_some() {
        return None;
    }
    let last = last_seen(input);
    match last {
        Some((_, byte)) if byte.is_ascii_alphanumeric() || byte == b')' => None,
        _ => last,
    }
}

// The last byte that is no layout and no blank, and its place.
fn last_seen(text: &[u8]) -> Option<(usize, u8)>
    ensures value { result ≡ last_seen None 0 text.now }
    ensures within { IfSome result (λ last. last.0 < length text.now) }
{
    let mut last = None;
    for (place, byte) in text.iter().enumerate() {
        if !is_layout(*byte) && *byte != b' ' {
            last = Some((place, *byte));
        }
    }
    last
}

/// Where the typographic apostrophe stands, in UTF-8, that a text ends with, apart from layout and blanks.
pub(crate) fn curly_end(text: &[u8]) -> Option<usize>
    ensures { result ≡ curly_end text.now }
{
    let (place, _) = last_seen(text)?;
    if text[..=place].ends_with(b"\xe2\x80\x99") {
        Some(place.saturating_sub(2))
    } else {
        None
    }
}

// Looks for numbers at the heads of lines.
#[inline(never)]
#[tactic(auto, using(crate::proofs::Keeping::keeping))]
fn look_at_lines<A: Allocator + Copy>(
    warnings: &mut Vec<Warning<A>, A>,
    alloc: A,
    input: &[u8],
) -> Result<(), AllocError>
    ensures kept { Kept warnings.old.items warnings.new.items }
    ensures said { OnOk result (Warns warnings.old.items warnings.new.items
        (numbered_lines None 0 true 0 input.now)) }
{
    let mut first = None;
    let mut count: usize = 0;
    let mut place: usize = 0;
    while place < input.len() {
        if is_numbered(&input[place..]) {
            first = first.or(Some(place));
            count = count.saturating_add(1);
        }
        place += count_before(&LineEnd, &input[place..]) + 1;
    }
    match first {
        Some(place) if count >= FEW_LINES => {
            warn_at(warnings, alloc, Suspicion::LineNumbers, place, &[])
        }
        _ => Ok(()),
    }
}

// Whether a line begins with a number and, behind a blank, with a call or a parenthesis.
fn is_numbered(line: &[u8]) -> bool
    ensures { result ≡ is_numbered line.now }
{
    let rest = behind_digits(line);
    rest.len() < line.len() && matches!(rest, [b' ', b'#' | b'(' | b':', ..])
}

// What stands behind the digits at the head of a line.
fn behind_digits(line: &[u8]) -> &[u8]
    ensures { result.now ≡ behind_digits line.now }
{
    for (i, byte) in line.iter().enumerate() {
        if !matches!(byte, b'0'..=b'9') {
            return &line[i..];
        }
    }
    &[]
}

// Looks for what is nearly the beginning of a call. Each parenthesis gets one warning at most.
#[inline(never)]
#[tactic(auto, using(crate::proofs::Keeping::keeping))]
fn look_at_spelling<A: Allocator + Copy>(
    warnings: &mut Vec<Warning<A>, A>,
    alloc: A,
    input: &[u8],
) -> Result<(), AllocError>
    ensures kept { Kept warnings.old.items warnings.new.items }
    ensures said { OnOk result (Warns warnings.old.items warnings.new.items
        (spelled false false 0 input.now)) }
{
    let mut is_reported = false;
    let mut is_behind_sign = false;
    let mut place = count_before(&Mark, input);
    while place < input.len() {
        is_reported = look_at_mark(
            warnings,
            alloc,
            place,
            &input[place..],
            is_reported,
            is_behind_sign,
        )?;
        let unmarked = count_before(&Mark, &input[place + 1..]);
        is_behind_sign = (unmarked == 0) & (input[place] == b'#');
        place += unmarked + 1;
    }
    Ok(())
}

// Looks at the head of a text at a place of the input. `is_reported` says whether the next parenthesis was warned
// of, and `is_behind_sign` whether a number sign stands before the text. Answers whether the next parenthesis
// behind the head was warned of.
#[inline(never)]
#[tactic(auto, using(crate::proofs::Keeping::keeping))]
fn look_at_mark<A: Allocator + Copy>(
    warnings: &mut Vec<Warning<A>, A>,
    alloc: A,
    place: usize,
    text: &[u8],
    is_reported: bool,
    is_behind_sign: bool,
) -> Result<bool, AllocError>
    ensures kept { Kept warnings.old.items warnings.new.items }
    ensures said { OnOk result (Warns warnings.old.items warnings.new.items
        (spelled_at (spelling_of text.now) is_reported is_behind_sign place text.now)) }
    ensures reported { IfOk result (λ reported. reported ≡
        reported_behind (spelling_of text.now) is_reported (get_or text.now 0 0)) }
{
    if let Some(suspicion) = spelling_of(text) {
        warn_at(warnings, alloc, suspicion, place, &[])?;
        return Ok(suspicion != Suspicion::Bracket);
    }
    let [b'(', behind @ ..] = text else {
        return Ok(is_reported);
    };
    if !is_reported && !is_behind_sign && names_function(b',', behind) {
        warn_at(
            warnings,
            alloc,
            Suspicion::NoNumberSign,
            place,
            &behind[..2],
        )?;
    }
    Ok(false)
}

/// Adds a warning of a place of the input. An error means that memory ran out.
#[tactic(auto, using(crate::proofs::Keeping::saying))]
pub(crate) fn warn_at<A: Allocator + Copy>(
    warnings: &mut Vec<Warning<A>, A>,
    alloc: A,
    suspicion: Suspicion,
    place: usize,
    bytes: &[u8],
) -> Result<(), AllocError>
    ensures kept { Kept warnings.old.items warnings.new.items }
    ensures said { OnOk result (Adds warnings.old.items warnings.new.items (record {
      origin = in_input place;
      suspicion = suspicion;
      count = 0;
      text = bytes.now;
    })) }
{
    let mut text = Vec::new(alloc);
    text.extend_from_slice(bytes)?;
    warnings.push(Warning {
        origin: Origin::in_input(place),
        suspicion,
        count: 0,
        text,
    })?;
    Ok(())
}
