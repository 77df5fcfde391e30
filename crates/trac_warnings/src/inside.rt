//! Texts of `ss` inside longer words of a form.
ghost use Rattle.std.specs.Char.{is_ascii_lowercase};
ghost use Rattle.std.specs.List.{list_all};
ghost use Rattle.std.specs.Prelude.{◌≡◌, false};
ghost use Rattle.trac_space.specs.Texts.{text_of_cells};
ghost use Rattle.trac_warnings.specs.Gaps.{begins_so, is_joined, is_of_word, stands_in_words, stands_so};

use crate::gaps::begins;
use trac_core::Item;
use trac_space::{Cell, character_of};

/// Whether a text is a word in small letters that stands among these items by itself, and also inside longer words.
pub(crate) fn stands_in_words(text: &[Cell], items: &[Item]) -> bool
    ensures { result ≡ stands_in_words (text_of_cells text.now) items.now }
{
    is_small(text) && stands_so(true, text, items) && stands_so(false, text, items)
}

// Whether all characters are small letters.
fn is_small(text: &[Cell]) -> bool
    ensures { result ≡ list_all is_ascii_lowercase (text_of_cells text.now) }
{
    for cell in text {
        if !character_of(cell).is_ascii_lowercase() {
            return false;
        }
    }
    true
}

// Whether a text, a word, stands among the items: as a part of a longer word if `joined`, else by itself.
fn stands_so(joined: bool, text: &[Cell], items: &[Item]) -> bool
    ensures { result ≡ stands_so joined false (text_of_cells text.now) items.now }
{
    let mut is_behind = false;
    for i in 0..items.len() {
        if begins_so(joined, is_behind, text, &items[i..]) {
            return true;
        }
        is_behind = is_of_word(&items[i]);
    }
    false
}

// Whether a text, a word, stands at the head of the items: as a part of a longer word if `joined`, else by itself.
fn begins_so(joined: bool, is_behind: bool, text: &[Cell], items: &[Item]) -> bool
    ensures { result ≡ begins_so joined is_behind (text_of_cells text.now) items.now }
{
    let is_part = is_joined(is_behind, text.len(), items);
    begins(text, items) && if joined { is_part } else { !is_part }
}

// Whether a text of this length at the head of the items is part of a longer word, where a letter or a digit stands
// before it or doesn't.
fn is_joined(is_behind: bool, len: usize, items: &[Item]) -> bool
    ensures { result ≡ is_joined is_behind len items.now }
{
    match items.get(len) {
        Some(item) => is_behind || is_of_word(item),
        None => is_behind,
    }
}

// Whether an item is a letter or a digit.
fn is_of_word(item: &Item) -> bool
    ensures { result ≡ is_of_word item.now }
{
    match item {
        Item::Byte(byte) => byte.is_ascii_alphanumeric(),
        Item::Gap(_) => false,
    }
}
