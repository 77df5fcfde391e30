//! Reads the parts of an image.
ghost use Rattle.std.specs.Prelude.{◌≡◌, ◌+◌, ◌≤◌, ◌<◌, Decides, get_or, take, drop};
ghost use Rattle.trac_image.specs.Reading.{behind_characters, behind_form, behind_name};
ghost use Rattle.trac_image.specs.Reading.{characters_in, gap_size, gaps_in, heads_in};
ghost use Rattle.trac_image.specs.Reading.{HasRoom, name_in, number_in};

/// The numbers in front of a form: the length of its name, the items of its body and how many of them are
/// characters, and its pointer.
#[derive(Clone, Copy)]
pub(crate) struct Heads {
    pub name: u32,
    pub body: u32,
    pub characters: u32,
    pub pointer: u32,
}

impl Heads {
    /// How many bytes the gaps have.
    fn gap_size(self) -> usize
        ensures { result ≡ gap_size self }
    {
        8 * (self.body.saturating_sub(self.characters) as usize)
    }
}

/// The numbers at the front of a text.
pub(crate) fn heads_of(text: &[u8]) -> Heads
    ensures { result ≡ heads_in text.now }
{
    Heads {
        name: number_of(text),
        body: number_of(behind(text, 4)),
        characters: number_of(behind(text, 8)),
        pointer: number_of(behind(text, 12)),
    }
}

/// The name of the form at the front of a text.
pub(crate) fn name_of(text: &[u8]) -> &[u8]
    ensures { result.now ≡ name_in text.now }
{
    front(behind(text, 16), heads_of(text).name as usize)
}

/// The characters of that form's body, and all that stands behind them.
fn characters_on(text: &[u8]) -> &[u8]
    ensures { result.now ≡ behind_name text.now }
{
    behind(behind(text, 16), heads_of(text).name as usize)
}

/// The gaps of that form's body, and all that stands behind them.
fn gaps_on(text: &[u8]) -> &[u8]
    ensures { result.now ≡ behind_characters text.now }
{
    behind(characters_on(text), heads_of(text).characters as usize)
}

/// The characters of that form's body.
pub(crate) fn characters_of(text: &[u8]) -> &[u8]
    ensures { result.now ≡ characters_in text.now }
{
    front(characters_on(text), heads_of(text).characters as usize)
}

/// The gaps of that form's body.
pub(crate) fn gaps_of(text: &[u8]) -> &[u8]
    ensures { result.now ≡ gaps_in text.now }
{
    front(gaps_on(text), heads_of(text).gap_size())
}

/// What stands behind that form.
pub(crate) fn behind_form(text: &[u8]) -> &[u8]
    ensures { result.now ≡ behind_form text.now }
{
    behind(gaps_on(text), heads_of(text).gap_size())
}

/// Whether the parts of a form at the front of a text are there.
pub(crate) fn has_room(text: &[u8]) -> bool
    ensures { Decides result (HasRoom text.now) }
{
    let heads = heads_of(text);
    heads.characters <= heads.body
        && 16 <= text.len()
        && heads.name as usize <= behind(text, 16).len()
        && heads.characters as usize <= characters_on(text).len()
        && heads.gap_size() <= gaps_on(text).len()
}

/// The number in the first four bytes of a text, the least first.
pub(crate) fn number_of(text: &[u8]) -> u32
    ensures { result ≡ number_in text.now }
{
    u32::from(byte_at(text, 0))
        + 256 * u32::from(byte_at(text, 1))
        + 65_536 * u32::from(byte_at(text, 2))
        + 16_777_216 * u32::from(byte_at(text, 3))
}

/// The byte at a place of a text, 0 behind its end.
pub(crate) fn byte_at(text: &[u8], place: usize) -> u8
    ensures { result ≡ get_or text.now place 0 }
{
    match text.get(place) {
        Some(byte) => *byte,
        None => 0,
    }
}

/// The first bytes of a text, as many of them as there are.
pub(crate) fn front(text: &[u8], count: usize) -> &[u8]
    ensures { result.now ≡ take count text.now }
{
    match text.get(..count) {
        Some(front) => front,
        None => text,
    }
}

/// What stands behind the first bytes of a text.
pub(crate) fn behind(text: &[u8], count: usize) -> &[u8]
    ensures { result.now ≡ drop count text.now }
{
    match text.get(count..) {
        Some(rest) => rest,
        None => &[],
    }
}
