//! Texts in capitals and in small letters.
ghost use Rattle.std.specs.Prelude.{◌≡◌, map, IfOk};
ghost use Rattle.trac_space.specs.Texts.{text_of_cells};
ghost use Rattle.trac_warnings.specs.Letters.{differ_by_letters, in_small, is_same_in_small, small_item};
ghost use Rattle.trac_warnings.specs.Letters.{stands_in_letters};

use crate::gaps::stands_in;
use std::alloc::{AllocError, Allocator};
use trac_core::Item;
use trac_events::is_same;
use trac_space::{Cell, character_of};

/// Whether a text, which isn't null, stands among these items in letters of either case. Fails only if memory
/// runs out.
pub(crate) fn stands_in_letters<A: Allocator + Copy>(
    alloc: A,
    text: &[Cell],
    items: &[Item],
) -> Result<bool, AllocError>
    ensures { IfOk result (λ stands. stands ≡ stands_in_letters (text_of_cells text.now) items.now) }
{
    let text = small_cells(alloc, text)?;
    let items = small_items(alloc, items)?;
    Ok(stands_in(&text, &items))
}

// The characters of cells, in small letters. Fails only if memory runs out.
fn small_cells<A: Allocator>(alloc: A, cells: &[Cell]) -> Result<Vec<Cell, A>, AllocError>
    ensures { IfOk result (λ small. text_of_cells small.items ≡ in_small (text_of_cells cells.now)) }
{
    let mut small = Vec::new(alloc);
    for cell in cells {
        small.push(Cell::Byte(character_of(cell).to_ascii_lowercase()))?;
    }
    Ok(small)
}

// The items, whose letters are made small. Fails only if memory runs out.
fn small_items<A: Allocator>(alloc: A, items: &[Item]) -> Result<Vec<Item, A>, AllocError>
    ensures { IfOk result (λ small. small.items ≡ map small_item items.now) }
{
    let mut small = Vec::new(alloc);
    for item in items {
        small.push(small_item(item))?;
    }
    Ok(small)
}

// An item, whose letter is made small.
fn small_item(item: &Item) -> Item
    ensures { result ≡ small_item item.now }
{
    match item {
        Item::Byte(byte) => Item::Byte(byte.to_ascii_lowercase()),
        Item::Gap(ordinal) => Item::Gap(*ordinal),
    }
}

/// Whether two texts differ, and only in capitals and small letters.
pub(crate) fn differ_by_letters(one: &[Cell], other: &[Cell]) -> bool
    ensures { result ≡ differ_by_letters (text_of_cells one.now) (text_of_cells other.now) }
{
    !is_same(one, other) && is_same_in_small(one, other)
}

// Whether two texts are the same in small letters.
fn is_same_in_small(one: &[Cell], other: &[Cell]) -> bool
    ensures { result ≡ is_same_in_small (text_of_cells one.now) (text_of_cells other.now) }
{
    let mut rest = other;
    for cell in one {
        let [first, behind @ ..] = rest else {
            return false;
        };
        if character_of(cell).to_ascii_lowercase() != character_of(first).to_ascii_lowercase() {
            return false;
        }
        rest = behind;
    }
    rest.is_empty()
}
