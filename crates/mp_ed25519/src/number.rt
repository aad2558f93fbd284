//! Numbers of 256 bits.

ghost use Rattle.std.specs.Prelude.{◌≡◌, ◌+◌, ◌*◌, ◌^◌, ◌<◌, ◌≤◌, length, take, drop};
ghost use Rattle.mp_ed25519.specs.Ed25519.{little};

use crate::field_element::FieldElement;

/// A number below 2^256 as four words, lowest first.
#[derive(Clone, Copy)]
pub struct Number {
    pub w0: u64,
    pub w1: u64,
    pub w2: u64,
    pub w3: u64,
    ghost fits: { (w0 < 2 ^ 64) × (w1 < 2 ^ 64) × (w2 < 2 ^ 64) × (w3 < 2 ^ 64) },
}

/// The number that four bytes encode.
pub fn half_word(bytes: &[u8], at: usize) -> u64
    requires { at + 4 ≤ length bytes.now }
    ensures value { result ≡ little (take 4 (drop at bytes.now)) }
    ensures below { result < 2 ^ 32 }
{
    bytes[at] as u64
        + bytes[at + 1] as u64 * 0x100
        + bytes[at + 2] as u64 * 0x1_0000
        + bytes[at + 3] as u64 * 0x100_0000
}

// The number that eight bytes encode.
fn word(bytes: &[u8], at: usize) -> u64
    requires { at + 8 ≤ length bytes.now }
    ensures { result ≡ little (take 8 (drop at bytes.now)) }
{
    half_word(bytes, at) + half_word(bytes, at + 4) * 0x1_0000_0000
}

impl Number {
    ghost use Rattle.std.specs.Prelude.{◌%◌, ◌/◌, nat_eq, nat_lt};
    ghost use Rattle.mp_ed25519.specs.Ed25519.{bytes_of};
    ghost use Rattle.mp_ed25519.specs.Field.{prime};
    ghost use Rattle.mp_ed25519.specs.Inside.Limbs.{AreWithin, element, tight};
    ghost use Rattle.mp_ed25519.specs.Inside.Numbers.{number_of};

    /// The number that four words encode.
    pub fn new(w0: u64, w1: u64, w2: u64, w3: u64) -> Number
        ensures { number_of result ≡ w0 + 2 ^ 64 * w1 + 2 ^ 128 * w2 + 2 ^ 192 * w3 }
    {
        Number { w0, w1, w2, w3 }
    }

    /// The number that 32 bytes encode, lowest first.
    pub fn of_bytes(bytes: &[u8; 32]) -> Number
        ensures { number_of result ≡ little bytes.now }
    {
        Number {
            w0: word(bytes, 0),
            w1: word(bytes, 8),
            w2: word(bytes, 16),
            w3: word(bytes, 24),
        }
    }

    /// The number that represents a field element.
    pub fn of_element(x: &FieldElement) -> Number
        requires { AreWithin tight x.now }
        ensures value { number_of result ≡ element x.now }
        ensures below { number_of result < 2 ^ 255 }
    {
        const LIMB: u64 = 1 << 51;
        let q0 = (x.l0 + 19) / LIMB;
        let q1 = (x.l1 + q0) / LIMB;
        let q2 = (x.l2 + q1) / LIMB;
        let q3 = (x.l3 + q2) / LIMB;
        let q = (x.l4 + q3) / LIMB;
        let b0 = x.l0 + 19 * q;
        let b1 = x.l1 + b0 / LIMB;
        let b2 = x.l2 + b1 / LIMB;
        let b3 = x.l3 + b2 / LIMB;
        let b4 = x.l4 + b3 / LIMB;
        let (c0, c1, c2, c3, c4) = (b0 % LIMB, b1 % LIMB, b2 % LIMB, b3 % LIMB, b4 % LIMB);
        Number {
            w0: c0 + c1 % (1 << 13) * LIMB,
            w1: c1 / (1 << 13) + c2 % (1 << 26) * (1 << 38),
            w2: c2 / (1 << 26) + c3 % (1 << 39) * (1 << 25),
            w3: c3 / (1 << 39) + c4 * (1 << 12),
        }
    }

    /// The field element that the lowest 255 bits represent.
    pub fn element(&self) -> FieldElement
        ensures tight { AreWithin tight result }
        ensures element { element result ≡ number_of self.now % 2 ^ 255 % prime }
    {
        const LIMB: u64 = 1 << 51;
        let (w0, w1, w2, w3) = (self.w0, self.w1, self.w2, self.w3);
        FieldElement {
            l0: w0 % LIMB,
            l1: w0 / LIMB + w1 % (1 << 38) * (1 << 13),
            l2: w1 / (1 << 38) + w2 % (1 << 25) * (1 << 26),
            l3: w2 / (1 << 25) + w3 % (1 << 12) * (1 << 39),
            l4: w3 / (1 << 12) % LIMB,
        }
    }

    /// The lowest bit.
    pub fn low_bit(&self) -> u64
        ensures { result ≡ number_of self.now % 2 }
    {
        self.w0 % 2
    }

    /// The highest bit.
    pub fn high_bit(&self) -> u64
        ensures { result ≡ number_of self.now / 2 ^ 255 }
    {
        self.w3 / (1 << 63)
    }

    /// The lowest 255 bits.
    pub fn low_bits(&self) -> Number
        ensures { number_of result ≡ number_of self.now % 2 ^ 255 }
    {
        Number {
            w0: self.w0,
            w1: self.w1,
            w2: self.w2,
            w3: self.w3 % (1 << 63),
        }
    }

    /// Whether two numbers are equal.
    pub fn equals(&self, other: &Number) -> bool
        ensures { result ≡ nat_eq (number_of self.now) (number_of other.now) }
    {
        self.w0 == other.w0 && self.w1 == other.w1 && self.w2 == other.w2 && self.w3 == other.w3
    }

    /// Whether the lowest 255 bits are below the prime.
    pub fn is_canonical(&self) -> bool
        ensures { result ≡ nat_lt (number_of self.now % 2 ^ 255) prime }
    {
        const WORD: u128 = 1 << 64;
        let c0 = (self.w0 as u128 + 19) / WORD;
        let c1 = (self.w1 as u128 + c0) / WORD;
        let c2 = (self.w2 as u128 + c1) / WORD;
        (self.w3 % (1 << 63)) as u128 + c2 < (1 << 63)
    }

    /// The number's bytes, lowest first.
    pub fn bytes(&self) -> [u8; 32]
        ensures { result ≡ bytes_of 32 (number_of self.now) }
    {
        let (a, b, c, d) = (
            self.w0.to_le_bytes(),
            self.w1.to_le_bytes(),
            self.w2.to_le_bytes(),
            self.w3.to_le_bytes(),
        );
        [
            a[0], a[1], a[2], a[3], a[4], a[5], a[6], a[7], b[0], b[1], b[2], b[3], b[4], b[5],
            b[6], b[7], c[0], c[1], c[2], c[3], c[4], c[5], c[6], c[7], d[0], d[1], d[2], d[3],
            d[4], d[5], d[6], d[7],
        ]
    }
}
