//! A caller's buffers, filled from the front as far as they reach.
ghost use Rattle.std.specs.Prelude.{◌≡◌, [], ◌∷◌};
ghost use Rattle.trac_image.specs.Buffers.{laid_from};

/// Puts an item at a place of a buffer, or nowhere if the buffer ends before that place.
pub fn put<T: Copy>(item: T, place: usize, room: &mut [T])
    ensures { room.new ≡ laid_from place (item ∷ []) room.old }
{
    if place < room.len() {
        room[place] = item;
    }
}
