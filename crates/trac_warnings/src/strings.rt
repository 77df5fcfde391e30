//! What stands at the head of the input and of a string.
ghost use Rattle.std.specs.Prelude.{◌≡◌};
ghost use Rattle.trac_warnings.specs.Strings.{begins_with_mark, layout_len};

use trac_core::is_layout;

/// Whether the input begins with a byte order mark in UTF-8.
pub(crate) fn begins_with_mark(input: &[u8]) -> bool
    ensures { result ≡ begins_with_mark input.now }
{
    input.starts_with(b"\xef\xbb\xbf")
}

/// How many characters of layout stand at the head of a text.
pub(crate) fn layout_len(text: &[u8]) -> usize
    ensures { result ≡ layout_len text.now }
{
    for (i, character) in text.iter().enumerate() {
        if !is_layout(*character) {
            return i;
        }
    }
    text.len()
}
