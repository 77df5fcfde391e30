//! Segmenting: gaps among the cells of the store (Mooers 1966).
ghost use Rattle.std.specs.Prelude.{◌≡◌, ◌+◌, ◌-◌, ◌≤◌, ◌++◌, length, take, drop};
ghost use Rattle.std.specs.Prelude.{slice_range, MatchOption};
ghost use Rattle.trac_space.specs.Texts.{character_of};
ghost use Rattle.trac_store.specs.Borders.{tagged_text, IsTaggedText};
ghost use Rattle.trac_store.specs.Parts.{IsPart, IsTextPart, part_text};
ghost use Rattle.trac_store.specs.Gaps.{is_byte, text_cells_at, segment_cells, segmented_cells};
ghost use Rattle.trac_store.specs.Search.{NonePasses, IsFirst};

use crate::borders::{first_place, tag_borders};
use trac_space::{Cell, Part, Space};

// Whether `cell` is a character, the one that `byte` holds.
#[inline]
pub(crate) fn is_same_byte(cell: Cell, byte: Cell) -> bool
    ensures { result ≡ is_byte (character_of byte) cell }
{
    let Cell::Byte(b) = cell else { return false };
    match byte {
        Cell::Byte(c) => b == c,
        _ => b == 0,
    }
}

// The first place in a part of the store where the text stands. None if there is none. The borders of the
// text are its tags.
fn next_place(space: &Space, body: Part, text: Part) -> Option<u32>
    requires body { IsPart space.now.store body.from body.to }
    requires text { IsTaggedText space.now.neutral text.from text.to }
    ensures { let bytes = tagged_text (slice_range space.now.neutral text.from text.to) in
        let cells = slice_range space.now.store body.from body.to in
        MatchOption result
        (NonePasses (text_cells_at bytes cells) 0 (length cells))
        (λ place. (body.from ≤ place) × (place + (text.to - text.from) ≤ body.to)
        × IsFirst (text_cells_at bytes cells) 0 (length cells) (place - body.from)) }
{
    // The lists fit in the block.
    prove!(space.used() <= space.room());
    let cells = space.store_part(body.from, body.to);
    match first_place(cells, 0, space.neutral_part(text.from, text.to)) {
        Some(place) => Some(body.from + place),
        None => None,
    }
}

// Replaces each occurrence of the text in a part of the store by a gap, and gives the new end of the
// part. The borders of the text are its tags.
fn make_gaps(space: &mut Space, body: Part, text: Part, ordinal: u32) -> u32
    requires body { IsPart space.old.store body.from body.to }
    requires text { IsTaggedText space.old.neutral text.from text.to }
    ensures after { let bytes = tagged_text (slice_range space.old.neutral text.from text.to) in
        let gapped = segment_cells bytes ordinal 0 (slice_range space.old.store body.from body.to) in
        space.new ≡ record space.old {
          store = take body.from space.old.store ++ gapped ++ drop body.to space.old.store;
        } }
    ensures end { let bytes = tagged_text (slice_range space.old.neutral text.from text.to) in
        let gapped = segment_cells bytes ordinal 0 (slice_range space.old.store body.from body.to) in
        result ≡ body.from + length gapped }
    ensures shorter { result ≤ body.to }
{
    // The lists fit in the block.
    prove!(space.used() <= space.room());
    let to = body.to;
    let mut read = body.from;
    let mut write = body.from;
    while let Some(place) = next_place(space, Part { from: read, to }, text) {
        space.move_in_store(read, place, write);
        write += place - read;
        space.write_store(write, Cell::Gap(ordinal));
        write += 1;
        read = place + (text.to - text.from);
    }
    space.move_in_store(read, to, write);
    write += to - read;
    space.remove_store(write, to);
    write
}

/// Replaces each occurrence of a text, a part of neutral, in a part of the store by a gap of this ordinal,
/// from the left, and gives the new end of the part (Mooers 1966). No occurrence reaches across a gap, and
/// a null text makes none. The cells that become free can be used at once.
pub fn segment_store(space: &mut Space, body: Part, text: Part, ordinal: u32) -> u32
    requires body { IsPart space.old.store body.from body.to }
    requires text_part { IsTextPart space.old.neutral text.from text.to }
    ensures after { let bytes = part_text space.old.neutral text.from text.to in
        let gapped = segmented_cells bytes ordinal (slice_range space.old.store body.from body.to) in
        space.new ≡ record space.old {
          store = take body.from space.old.store ++ gapped ++ drop body.to space.old.store;
        } }
    ensures end { let bytes = part_text space.old.neutral text.from text.to in
        let gapped = segmented_cells bytes ordinal (slice_range space.old.store body.from body.to) in
        result ≡ body.from + length gapped }
    ensures shorter { result ≤ body.to }
{
    if text.from == text.to {
        return body.to;
    }
    tag_borders(space, text);
    let end = make_gaps(space, body, text, ordinal);
    space.clear_neutral_tags(text.from, text.to);
    end
}
