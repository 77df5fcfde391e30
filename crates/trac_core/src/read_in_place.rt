//! The string of the idling procedure: it is read where the scanner would move the characters that it begins with.
ghost use Rattle.std.specs.Prelude.{◌≡◌, ◌≢◌, ◌+◌, ◌-◌, ◌<◌, ◌≤◌, ◌^◌, ℕ, All, [], drop, length, None};
ghost use Rattle.trac_language.specs.Store.{cells};
ghost use Rattle.trac_space.specs.Texts.{IsByte, flat_text};
ghost use Rattle.trac_forms.specs.Contents.{IsSound, used};
ghost use Rattle.trac_functions.specs.Calls.{KeepsRoom};
ghost use Rattle.trac_core.specs.StepsInRow.{idling_begun};
ghost use Rattle.trac_core.specs.ReadInPlace.{ReadsInPlace, LeavesFront, behind_string};

use crate::outcome::StepOutcome;
use crate::runs::ordinary_characters;
use crate::streaming::{ReadEnd, read_text};
use trac_devices::Source;
use trac_forms::Work;
use trac_functions::arguments::text;
use trac_language::{Fate, Mode};
use trac_space::{Cell, Part};

/// What the neutral string holds before the string of the idling procedure: the call of `ps`, which prints it.
const BEFORE_STRING: &[Cell] = &[
    Cell::Call(Mode::Active, 0),
    Cell::Byte(b'p'),
    Cell::Byte(b's'),
    Cell::Comma,
];

/// How many cells these are.
pub(crate) const STRING_FROM: u32 = 4;

// What the active string holds while the string is read: a blank for each cell of the call of `rs`, so that no more
// cells are free than before it is performed, and the parenthesis that ends the call of `ps`.
const BEHIND_STRING: &[u8] = b"   )";

const BLANKS: u32 = 3;

/// The active string is empty, and there is room for `begin_idling`. After its steps, performs the call of `rs`, and
/// scans the ordinary characters that its value begins with, at most `most`.
#[inline(never)]
pub(crate) fn read_in_place<I: Source>(
    work: &mut Work,
    most: u64,
    meta: u8,
    source: &mut I,
) -> StepOutcome
    requires counts { I.failure_count source.old < 2 ^ 64 - 1 }
    requires empty { work.old.active ≡ [] }
    requires room { cells work.old.forms + 11 ≤ work.old.room }
    requires sound { IsSound work.old }
    ensures reads { ReadsInPlace I.tells I.stream I.failure_count result most meta (idling_begun work.old)
        source.old work.new source.new }
    ensures fits { result.need ≤ work.old.room }
    ensures keeps { KeepsRoom work.old work.new }
{
    work.set_strings(BEFORE_STRING, BEHIND_STRING);
    match read_text(work, meta, source) {
        ReadEnd::Meta => scan_string(work, most),
        ReadEnd::Ended if work.neutral_len() > STRING_FROM => scan_string(work, most),
        ReadEnd::Ended => StepOutcome {
            fate: Some(Fate::InputEnded),
            need: work.used(),
        },
        ReadEnd::Failed => StepOutcome {
            fate: Some(Fate::InputFailed),
            need: work.used(),
        },
        ReadEnd::Full => StepOutcome {
            fate: Some(Fate::Workspace),
            need: 0,
        },
    }
}

/// The string was read, and the call of `rs` is done: takes the blanks away, and leaves in the neutral string the
/// ordinary characters that the string begins with, at most `most`; the others move to the active string.
fn scan_string(work: &mut Work, most: u64) -> StepOutcome
    requires within { 4 ≤ length work.old.neutral }
    requires bytes { All IsByte (drop 4 work.old.neutral) }
    requires behind { work.old.active ≡ flat_text behind_string }
    requires sound { IsSound work.old }
    ensures outcome { result ≡ record { fate = None; need = used work.old } }
    ensures leaves { (count : ℕ) × LeavesFront most count work.old work.new }
    ensures keeps { KeepsRoom work.old work.new }
{
    let need = work.used();
    work.drop_active(BLANKS);
    let len = work.neutral_len() - STRING_FROM;
    if len > 0 {
        let reach = STRING_FROM + most.min(u64::from(len)) as u32;
        let part = Part {
            from: STRING_FROM,
            to: reach,
        };
        let count = ordinary_characters(text(work, part));
        work.neutral_to_active(STRING_FROM + count);
    }
    StepOutcome { fate: None, need }
}
