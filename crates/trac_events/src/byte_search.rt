//! Looks for bytes in a text, up to thirty-two at once.
ghost use Rattle.std.specs.Prelude.{◌≡◌, ◌≤◌, ◌<◌, ◌==◌, ℕ, Bool, length, not, slice_index, take, false, slice_index};
ghost use Rattle.std.specs.List.{list_any};
ghost use Rattle.std.specs.Slice.Scan.{digits_from, flag_word};
ghost use Rattle.trac_events.specs.ByteSearch.{Bytes, is_apart, is_mark, len_before};

// The low seven bits of eight bytes, and the high bit of each.
const LOW_BITS: u64 = 0x7f7f_7f7f_7f7f_7f7f;

const HIGH_BITS: u64 = 0x8080_8080_8080_8080;

// How many bytes are looked at eight at a time, before thirty-two are.
const NEAR: usize = 32;

/// The bytes that a search looks for.
pub trait Sought {
    ghost seeks: { Self → ℕ → Bool };

    /// Whether a byte is looked for.
    fn seeks(&self, byte: u8) -> bool
        ensures { result ≡ seeks self.now byte };

    /// Which of the eight bytes of a word aren't looked for: the high bit of each of these, the first byte lowest.
    fn others(&self, word: u64) -> u64
        ensures { (f : ℕ → ℕ) → Bytes f → word ≡ digits_from f 0 8 →
            result ≡ flag_word (λ k. not (seeks self.now (f k))) };
}

/// The number sign.
#[derive(Drop)]
pub struct NumberSign;

impl Sought for NumberSign {
    ghost seeks = { λ _ byte. byte == 35 };

    fn seeks(&self, byte: u8) -> bool {
        byte == b'#'
    }

    fn others(&self, word: u64) -> u64 {
        others(word, b'#')
    }
}

/// The line feed.
#[derive(Drop)]
pub struct LineEnd;

impl Sought for LineEnd {
    ghost seeks = { λ _ byte. byte == 10 };

    fn seeks(&self, byte: u8) -> bool {
        byte == b'\n'
    }

    fn others(&self, word: u64) -> u64 {
        others(word, b'\n')
    }
}

/// A colon, a number sign or a left parenthesis.
#[derive(Drop)]
pub struct Mark;

impl Sought for Mark {
    ghost seeks = { λ _ byte. is_mark byte };

    fn seeks(&self, byte: u8) -> bool {
        byte == b':' || byte == b'#' || byte == b'('
    }

    fn others(&self, word: u64) -> u64 {
        others(word, b':') & others(word, b'#') & others(word, b'(')
    }
}

/// A line feed, or a byte that is no ASCII.
#[derive(Drop)]
pub struct ApartFromColumns;

impl Sought for ApartFromColumns {
    ghost seeks = { λ _ byte. is_apart byte };

    fn seeks(&self, byte: u8) -> bool {
        byte == b'\n' || byte >= 128
    }

    fn others(&self, word: u64) -> u64 {
        others(word, b'\n') & !word
    }
}

/// How many bytes stand before the first one that is looked for; all of them if there is none.
#[inline(always)]
pub fn count_before<S: Sought>(sought: &S, text: &[u8]) -> usize
    ensures value { result ≡ len_before (S.seeks sought.now) text.now }
    ensures within { result ≤ length text.now }
{
    if matches!(text, [first, ..] if sought.seeks(*first)) {
        return 0;
    }
    let done = count_others(sought, text);
    done + count_each(sought, &text[done..])
}

// How many bytes stand at the head in words of eight, and behind the first of these in blocks of thirty-two, of which
// none is looked for.
#[inline(always)]
fn count_others<S: Sought>(sought: &S, text: &[u8]) -> usize
    ensures within { result ≤ length text.now }
    ensures before { list_any (S.seeks sought.now) (take result text.now) ≡ false }
{
    let near = count_words(sought, &text[..text.len().min(NEAR)]);
    if near < NEAR {
        return near;
    }
    near + count_far(sought, &text[near..])
}

// How many bytes stand in the first blocks of thirty-two, and of eight behind these, of which none is looked for.
#[inline(always)]
fn count_far<S: Sought>(sought: &S, text: &[u8]) -> usize
    ensures within { result ≤ length text.now }
    ensures before { list_any (S.seeks sought.now) (take result text.now) ≡ false }
{
    let done = count_blocks(sought, text);
    done + count_words(sought, &text[done..])
}

// How many bytes stand in the first blocks of thirty-two of which none is looked for.
#[inline(always)]
fn count_blocks<S: Sought>(sought: &S, text: &[u8]) -> usize
    ensures within { result ≤ length text.now }
    ensures before { list_any (S.seeks sought.now) (take result text.now) ≡ false }
{
    let mut done = 0;
    while text.len() - done >= 32 && !has_in_block(sought, &text[done..done + 32]) {
        done += 32;
    }
    done
}

// How many bytes stand in the first words of eight of which none is looked for.
#[inline(always)]
fn count_words<S: Sought>(sought: &S, text: &[u8]) -> usize
    ensures within { result ≤ length text.now }
    ensures before { list_any (S.seeks sought.now) (take result text.now) ≡ false }
{
    let mut done = 0;
    while text.len() - done >= 8 && !has_in_word(sought, &text[done..done + 8]) {
        done += 8;
    }
    done
}

// How many bytes stand before the first one that is looked for, looked at one by one; all of them if there is none.
#[inline(always)]
fn count_each<S: Sought>(sought: &S, text: &[u8]) -> usize
    ensures value { result ≡ len_before (S.seeks sought.now) text.now }
    ensures within { result ≤ length text.now }
{
    for (i, byte) in text.iter().enumerate() {
        if sought.seeks(*byte) {
            return i;
        }
    }
    text.len()
}

// Whether one of eight bytes is looked for.
#[inline(always)]
fn has_in_word<S: Sought>(sought: &S, text: &[u8]) -> bool
    requires { length text.now ≡ 8 }
    ensures { result ≡ list_any (S.seeks sought.now) text.now }
{
    sought.others(word(text)) != HIGH_BITS
}

// Whether one of thirty-two bytes is looked for.
#[inline(always)]
fn has_in_block<S: Sought>(sought: &S, text: &[u8]) -> bool
    requires { length text.now ≡ 32 }
    ensures { result ≡ list_any (S.seeks sought.now) text.now }
{
    let first = sought.others(word(&text[..8])) & sought.others(word(&text[8..16]));
    let second = sought.others(word(&text[16..24])) & sought.others(word(&text[24..]));
    first & second != HIGH_BITS
}

// Which of the eight bytes of a word are others than this one, an ASCII character: the high bit of each of these.
#[inline(always)]
fn others(word: u64, byte: u8) -> u64
    requires { byte < 128 }
    ensures { (f : ℕ → ℕ) → Bytes f → word ≡ digits_from f 0 8 → result ≡ flag_word (λ k. not (f k == byte)) }
{
    let differences = word ^ u64::from(byte) * 0x0101_0101_0101_0101;
    (((differences & LOW_BITS) + LOW_BITS) | differences) & HIGH_BITS
}

// Eight bytes as a number, the first one lowest.
#[inline(always)]
fn word(text: &[u8]) -> u64
    requires { length text.now ≡ 8 }
    ensures { result ≡ digits_from (λ k. slice_index text.now k) 0 8 }
{
    match text.first_chunk::<8>() {
        Some(bytes) => u64::from_le_bytes(*bytes),
        None => 0,
    }
}
