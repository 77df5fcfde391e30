//! The checksum of an image: the two sums of Adler-32 (RFC 1950).
ghost use Rattle.std.specs.Prelude.{◌≡◌, ◌+◌, ◌*◌};
ghost use Rattle.trac_image.specs.Image.{no_sums, summed, with_summand};

/// The sum of the bytes and 1, and that of all those sums, modulo 65,521.
#[derive(Clone, Copy)]
pub(crate) struct Checksum {
    pub low: u32,
    pub high: u32,
}

/// The sums of no bytes.
pub(crate) const NO_SUMS: Checksum = Checksum { low: 1, high: 0 };

/// The modulus of the sums: the greatest prime number below 65,536.
const MODULUS: u64 = 65_521;

impl Checksum {
    /// The sums with one byte more.
    pub fn with(self, byte: u8) -> Checksum
        ensures { result ≡ with_summand byte self }
    {
        let low = (u64::from(self.low) + u64::from(byte)) % MODULUS;
        let high = (u64::from(self.high) + low) % MODULUS;
        Checksum {
            low: low as u32,
            high: high as u32,
        }
    }

    /// The sums as one number.
    pub fn number(self) -> u64
        ensures { result ≡ self.low + 65536 * self.high }
    {
        u64::from(self.low) + 65_536 * u64::from(self.high)
    }
}

/// The sums of a text.
pub(crate) fn checksum_of(text: &[u8]) -> Checksum
    ensures { result ≡ summed text.now no_sums }
{
    let mut sums = NO_SUMS;
    for byte in text {
        sums = sums.with(*byte);
    }
    sums
}
