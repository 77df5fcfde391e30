//! Lists of any number in one block.
ghost use Rattle.std.specs.Prelude.{◌≡◌, ◌<◌, IsErr};

use crate::lent::Lent;
use crate::units::Units;
use bumpalo::Bump;
use std::alloc::AllocError;

/// An allocator for lists of any number, in one block of memory. Of a list that grows or ends, the bytes are used
/// again only if it is the last one.
pub type Arena = Bump<Lent>;

// The units of 16 bytes in a page, by which an arena takes its memory.
const PAGE: usize = 256;

// The bytes of its memory that an arena doesn't give out.
const KEPT: usize = 64;

/// An arena over `count` units of 16 bytes, of which it takes whole pages of 4096 bytes. Fails if there are fewer.
pub fn arena_over(units: Units, count: usize) -> Result<Arena, AllocError>
    requires { count ≡ units.count }
    ensures few { count < 256 → IsErr result }
{
    if count < PAGE {
        return Err(AllocError);
    }
    let bytes = (count / PAGE).saturating_mul(PAGE * 16);
    Bump::try_with_capacity(Lent::new(units, count), bytes.saturating_sub(KEPT))
}
