//! Numbers modulo the order of the base point.

ghost use Rattle.std.specs.Prelude.{◌≡◌, ◌+◌, ◌*◌, ◌%◌, ◌^◌, ◌<◌, nat_lt};
ghost use Rattle.mp_ed25519.specs.Ed25519.{little, order};
ghost use Rattle.mp_ed25519.specs.Inside.Numbers.{number_of};

use crate::number::{Number, half_word};

// The order is 2^252 + LOW + 2^64 * HIGH.
const LOW: u128 = 0x5812_631a_5cf5_d3ed;

const HIGH: u128 = 0x14de_f9de_a2f7_9cd6;

const WORD: u128 = 1 << 64;

/// A number below the order.
#[derive(Clone, Copy)]
pub struct Scalar {
    pub number: Number,
    ghost reduced: { number_of number < order },
}

#[derive(Clone, Copy)]
struct Difference {
    number: Number,
    carry: u64,
}

// The number plus 2^256 minus the order, and its bit at 2^256.
fn minus_order(x: &Number) -> Difference
    ensures sum { number_of result.number + 2 ^ 256 * result.carry + order
        ≡ number_of x.now + 2 ^ 256 }
    ensures bit { result.carry < 2 }
{
    let s0 = x.w0 as u128 + 0xa7ed_9ce5_a30a_2c13;
    let s1 = x.w1 as u128 + 0xeb21_0621_5d08_6329 + s0 / WORD;
    let s2 = x.w2 as u128 + 0xffff_ffff_ffff_ffff + s1 / WORD;
    let s3 = x.w3 as u128 + 0xefff_ffff_ffff_ffff + s2 / WORD;
    Difference {
        number: Number {
            w0: (s0 % WORD) as u64,
            w1: (s1 % WORD) as u64,
            w2: (s2 % WORD) as u64,
            w3: (s3 % WORD) as u64,
        },
        carry: (s3 / WORD) as u64,
    }
}

/// Whether the number is below the order.
pub fn is_reduced(x: &Number) -> bool
    ensures { result ≡ nat_lt (number_of x.now) order }
{
    minus_order(x).carry == 0
}

fn reduced_once(x: &Number) -> Scalar
    requires { number_of x.now < 2 * order }
    ensures { number_of result.number ≡ number_of x.now % order }
{
    let difference = minus_order(x);
    let number = if difference.carry == 0 {
        *x
    } else {
        difference.number
    };
    Scalar { number }
}

// 2^32 times the number, plus four more bytes.
fn shifted(scalar: &Scalar, next: u64) -> Scalar
    requires { next < 2 ^ 32 }
    ensures { number_of result.number ≡ (2 ^ 32 * number_of scalar.now.number + next) % order }
{
    const HALF: u64 = 1 << 32;
    let r = scalar.number;
    let t0 = r.w0 % HALF * HALF + next;
    let t1 = r.w1 % HALF * HALF + r.w0 / HALF;
    let t2 = r.w2 % HALF * HALF + r.w1 / HALF;
    let t3 = r.w3 % HALF * HALF + r.w2 / HALF;
    let q = (r.w3 / HALF * 16 + t3 / (1 << 60)) as u128;
    let x0 = t0 as u128 + LOW + (1 << 100) - q * LOW;
    let x1 = t1 as u128 + HIGH + (1 << 100) - (1 << 36) + x0 / WORD - q * HIGH;
    let x2 = t2 as u128 + (1 << 100) - (1 << 36) + x1 / WORD;
    let x3 = (t3 % (1 << 60)) as u128 + (1 << 60) + x2 / WORD - (1 << 36);
    reduced_once(&Number {
        w0: (x0 % WORD) as u64,
        w1: (x1 % WORD) as u64,
        w2: (x2 % WORD) as u64,
        w3: (x3 % WORD) as u64,
    })
}

fn zero() -> Scalar
    ensures { number_of result.number ≡ 0 }
{
    Scalar {
        number: Number::new(0, 0, 0, 0),
    }
}

/// The number that 64 bytes encode, lowest first, modulo the order.
pub fn reduced(bytes: &[u8; 64]) -> Scalar
    ensures { number_of result.number ≡ little bytes.now % order }
{
    let mut scalar = zero();
    for i in (0..16).rev() {
        scalar = shifted(&scalar, half_word(bytes, 4 * i));
    }
    scalar
}
