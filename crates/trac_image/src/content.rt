//! What an image holds between its head and its checksum.
ghost use Rattle.std.specs.Prelude.{ℕ, MatchOption};
ghost use Rattle.trac_language.specs.Text.{Text};
ghost use Rattle.trac_image.specs.Image.{IsContent};

use crate::checksum::checksum_of;
use crate::reading::{behind, byte_at, number_of};

/// What each image begins with: a name, and the version.
pub(crate) const HEAD: &[u8] = b"TRAC\x01";

/// The meta character of an image, how many forms it says that there are, and the bytes of these.
#[derive(Clone, Copy)]
pub(crate) struct Content<'i> {
    pub meta: u8,
    pub count: u32,
    pub forms: &'i [u8],
}

/// The content of an image. None if it has another head or another checksum, or is too short for both.
pub(crate) fn content_of(image: &[u8]) -> Option<Content<'_>>
    ensures { MatchOption result
        ((meta count : ℕ) (forms : Text) → IsContent image.now meta count forms → ⊥)
        (λ c. IsContent image.now c.meta c.count c.forms.now) }
{
    if image.len() < 14 {
        return None;
    }
    let (content, sums) = image.split_at(image.len() - 4);
    if !content.starts_with(HEAD) {
        return None;
    }
    if u64::from(number_of(sums)) != checksum_of(content).number() {
        return None;
    }
    Some(Content {
        meta: byte_at(content, 5),
        count: number_of(behind(content, 6)),
        forms: behind(content, 10),
    })
}
