//! The items of a body that stands in an image.
ghost use Rattle.std.specs.Prelude.{◌≡◌, ◌+◌, ◌<◌, ◌≤◌, ◌∷◌, [], length, Decides, true, false};
ghost use Rattle.trac_image.specs.Items.{items_of};
ghost use Rattle.trac_image.specs.Reading.{HasParts, HasRoom, form_in, gap_count, is_gap_behind};
ghost use Rattle.trac_image.specs.Reading.{GapsFit};

use crate::body::ImageBody;
use crate::reading::{behind, byte_at, characters_of, gaps_of, heads_of, number_of};
use trac_forms::Body;
use trac_language::Item;

/// An item and the items behind it.
#[derive(Clone, Copy)]
pub(crate) struct FrontItem<'i> {
    pub item: Item,
    pub rest: ImageBody<'i>,
}

impl<'i> ImageBody<'i> {
    /// The items of the form at the front of a text.
    pub fn of(text: &'i [u8]) -> ImageBody<'i>
        ensures { items_of result ≡ (form_in text.now).body }
    {
        ImageBody {
            left: heads_of(text).body,
            since: 0,
            gaps: gaps_of(text),
            characters: characters_of(text),
        }
    }

    /// The next item, and those behind it. There must be one.
    pub fn split(&self) -> FrontItem<'i>
        requires { 0 < length (items_of self.now) }
        ensures { items_of self.now ≡ result.item ∷ items_of result.rest }
    {
        if self.is_gap() {
            self.split_gap()
        } else {
            self.split_character()
        }
    }

    /// Whether the next item is a gap.
    fn is_gap(&self) -> bool
        ensures { result ≡ is_gap_behind self.now.since self.now.gaps.now }
    {
        !self.gaps.is_empty() && number_of(self.gaps) == self.since
    }

    /// The next item, which is a gap, and those behind it.
    fn split_gap(&self) -> FrontItem<'i>
        requires some { 0 < self.now.left }
        requires gap { is_gap_behind self.now.since self.now.gaps.now ≡ true }
        ensures { items_of self.now ≡ result.item ∷ items_of result.rest }
    {
        FrontItem {
            item: Item::Gap(number_of(behind(self.gaps, 4))),
            rest: ImageBody {
                left: self.left - 1,
                since: 0,
                gaps: behind(self.gaps, 8),
                characters: self.characters,
            },
        }
    }

    /// The next item, which is a character, and those behind it.
    fn split_character(&self) -> FrontItem<'i>
        requires some { 0 < self.now.left }
        requires character { is_gap_behind self.now.since self.now.gaps.now ≡ false }
        ensures { items_of self.now ≡ result.item ∷ items_of result.rest }
    {
        FrontItem {
            item: Item::Byte(byte_at(self.characters, 0)),
            rest: ImageBody {
                left: self.left - 1,
                since: self.since + 1,
                gaps: self.gaps,
                characters: behind(self.characters, 1),
            },
        }
    }
}

impl<'i> Body for ImageBody<'i> {
    ghost use Rattle.trac_image.specs.Items.{items_of};

    ghost items = { items_of };

    fn next_item(&mut self) -> Item {
        let front = self.split();
        *self = front.rest;
        front.item
    }
}

/// Whether a form whose parts are there stands at the front of a text, as its numbers say, and each of its gaps has an
/// ordinal from 1 to 16,777,216.
pub(crate) fn has_items(text: &[u8]) -> bool
    requires { HasRoom text.now }
    ensures { Decides result (HasParts text.now × GapsFit (form_in text.now).body) }
{
    let heads = heads_of(text);
    let mut items = ImageBody::of(text);
    let mut gaps = 0;
    for _ in 0..heads.body {
        let next = items.split();
        if !is_fit(next.item) {
            return false;
        }
        gaps += gap_number(next.item);
        items = next.rest;
    }
    gaps == heads.body - heads.characters
}

/// 1 for a gap, 0 for a character.
fn gap_number(item: Item) -> u32
    ensures { result ≡ gap_count (item ∷ []) }
{
    match item {
        Item::Byte(_) => 0,
        Item::Gap(_) => 1,
    }
}

/// Whether an item is a character, or a gap with an ordinal from 1 to 16,777,216.
fn is_fit(item: Item) -> bool
    ensures { Decides result (GapsFit (item ∷ [])) }
{
    match item {
        Item::Byte(_) => true,
        Item::Gap(ordinal) => 0 < ordinal && ordinal <= 16_777_216,
    }
}
