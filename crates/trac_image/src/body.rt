//! The items of a body that stands in an image, read one by one.
ghost use Rattle.std.specs.Prelude.{◌+◌, ◌≤◌};

/// The items of a body that are still to come, merged from its gaps and its characters.
#[derive(Clone, Copy)]
pub(crate) struct ImageBody<'i> {
    /// How many items there are.
    pub left: u32,
    /// How many characters stand behind the last gap.
    pub since: u32,
    pub gaps: &'i [u8],
    pub characters: &'i [u8],
    ghost few: { since + left ≤ 4294967295 },
}
