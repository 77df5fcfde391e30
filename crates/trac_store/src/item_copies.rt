//! Copies bodies of forms to the front of active, with their gaps filled.
ghost use Rattle.std.specs.Prelude.{◌≡◌, ◌+◌, ◌≤◌, ◌<◌, ◌↔◌, ◌++◌};
ghost use Rattle.std.specs.Prelude.{length, map, slice_range, IsTrue, MatchOption};
ghost use Rattle.std.specs.Bool.{OnTrue, OnFalse};
ghost use Rattle.trac_space.specs.Cells.{NoCall};
ghost use Rattle.trac_space.specs.Filled.{HaveCommas, filled};
ghost use Rattle.trac_space.specs.Lists.{used as cells_used};
ghost use Rattle.trac_space.specs.Tags.{untagged};
ghost use Rattle.trac_store.specs.Arguments.{AreParted, filled_cells, LoadsText, LoadsCharacters};
ghost use Rattle.trac_store.specs.Index.{IsKept};

use trac_space::{Part, Space};

/// Copies items of the store to the front of active, each gap k replaced by argument k: the k-th, from 1,
/// of the texts between the comma marks of a part of neutral, or nothing if there is no such text (Mooers
/// 1966). Gives how many characters the copy has. None if it doesn't fit; then at most the index area has been
/// dropped.
#[inline(always)]
pub fn fill_items(space: &mut Space, items: Part, texts: Part) -> Option<u32>
    requires order { items.from ≤ items.to }
    requires within { items.to ≤ length space.old.store }
    requires arguments { AreParted space.old.neutral texts.from texts.to }
    ensures filled { let text = filled_cells space.old items.from items.to texts.from texts.to in
        LoadsText space.old space.new text result }
    ensures kept { IsKept space.old.index_area space.new.index_area }
{
    // A form that is called without arguments mostly has no gaps.
    if texts.to < texts.from {
        let loaded = load_items(space, items);
        if loaded.is_some() {
            return loaded;
        }
    }
    fill_gaps(space, items, texts)
}

// Copies items of the store to the front of active if all of them are characters and fit, and gives how
// many they are. None, with nothing changed, if it didn't copy them.
#[inline(always)]
fn load_items(space: &mut Space, items: Part) -> Option<u32>
    requires order { items.from ≤ items.to }
    requires within { items.to ≤ length space.old.store }
    ensures { LoadsCharacters space.old space.new items.from items.to result }
{
    // The lists fit in the block.
    prove!(space.free_beside_index() <= space.room());
    let size = items.to - items.from;
    if size == 0 {
        return Some(0);
    }
    if space.free_beside_index() < size {
        return load_items_over_index(space, items);
    }
    if space.load_characters(items.from, items.to) {
        Some(size)
    } else {
        None
    }
}

// Does what `load_items` does where the items don't fit beside the index area.
#[inline(never)]
fn load_items_over_index(space: &mut Space, items: Part) -> Option<u32>
    requires order { items.from ≤ items.to }
    requires within { items.to ≤ length space.old.store }
    ensures { LoadsCharacters space.old space.new items.from items.to result }
{
    let size = items.to - items.from;
    if space.characters_from(items.from, items.to) < size || space.free() < size {
        return None;
    }
    space.reserve(size);
    space.load_from_store(items.from, items.to);
    Some(size)
}

// Does what `fill_items` does where gaps may be among the items. Meanwhile the places of the comma marks
// are tags of the texts.
#[inline(never)]
fn fill_gaps(space: &mut Space, items: Part, texts: Part) -> Option<u32>
    requires order { items.from ≤ items.to }
    requires within { items.to ≤ length space.old.store }
    requires arguments { AreParted space.old.neutral texts.from texts.to }
    ensures filled { let text = filled_cells space.old items.from items.to texts.from texts.to in
        LoadsText space.old space.new text result }
    ensures kept { IsKept space.old.index_area space.new.index_area }
{
    let first = texts.from.min(texts.to);
    let commas = space.tag_commas(first, texts.to);
    let given = Part {
        from: first,
        to: texts.to,
    };
    let loaded = load_filled(space, items, given, commas);
    space.clear_neutral_tags(first, first + commas);
    loaded
}

// Copies items of the store to the front of active, each gap k replaced by argument k: the k-th part, from
// 1, of the given cells of neutral, over which the places of their `commas` comma marks lie. Gives how many
// cells the copy has, None if it doesn't fit. Drops the index area if the copy doesn't fit beside it.
#[inline(always)]
fn load_filled(space: &mut Space, items: Part, given: Part, commas: u32) -> Option<u32>
    requires order { items.from ≤ items.to }
    requires within { items.to ≤ length space.old.store }
    requires given_order { given.from ≤ given.to }
    requires given_within { given.to ≤ length space.old.neutral }
    requires commas { HaveCommas (slice_range space.old.neutral given.from given.to) commas }
    ensures filled { let texts = map untagged (slice_range space.old.neutral given.from given.to) in
        let more = filled texts (slice_range space.old.store items.from items.to) in
        MatchOption result
        ((space.new ≡ record space.old { index_area = space.new.index_area })
        × (space.old.room < cells_used space.old + length more))
        (λ n. (length more ≡ n) × (cells_used space.old + n ≤ space.old.room)
        × (space.new ≡ record space.old {
          active = more ++ space.old.active;
          index_area = space.new.index_area;
        })) }
    ensures kept { IsKept space.old.index_area space.new.index_area }
{
    let loaded = space.load_filled(items.from, items.to, given.from, given.to, commas);
    if loaded.is_some() {
        return loaded;
    }
    space.drop_index_area();
    space.load_filled(items.from, items.to, given.from, given.to, commas)
}
