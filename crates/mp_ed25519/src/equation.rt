//! The checks of a signature that is given in two halves.

ghost use Rattle.std.specs.Prelude.{◌≡◌, length};
ghost use Rattle.mp_ed25519.specs.Ed25519.{accepts_halves as halves_are_good, base as the_base, challenge, equation_holds as holds};
ghost use Rattle.mp_ed25519.specs.Inside.Numbers.{number_of};
ghost use Rattle.mp_ed25519.specs.Inside.Points.{IsTable, point_of};

use crate::decoding::{decoded, encoded};
use crate::multiples::{combined, short_table};
use crate::number::Number;
use crate::point::{CachedPoint, ExtendedPoint};
use crate::scalar::{Scalar, is_reduced, reduced};
use crate::small_order::has_small_order;
use sha2::{Digest, Sha512};

fn challenge_of(r: &[u8; 32], key: &[u8; 32], message: &[u8]) -> Scalar
    ensures { number_of result.number ≡ challenge r.now key.now message.now }
{
    let mut hasher = Sha512::new();
    hasher.update(r);
    hasher.update(key);
    hasher.update(message);
    reduced(&hasher.finalize())
}

#[tactic(auto, unfolding(crate::specs::Ed25519::equation_holds))]
fn equation_holds(
    base: &[CachedPoint],
    key: &Option<ExtendedPoint>,
    s: &[u8; 32],
    k: &Number,
    r: &Number,
) -> bool
    requires length { length base.now ≡ 256 }
    requires multiples { IsTable base.now the_base 256 }
    ensures { result ≡ holds (point_of key.now) s.now (number_of k.now) (number_of r.now) }
{
    match key {
        None => false,
        Some(key) => {
            let table = short_table(&key.negated());
            encoded(&combined(base, &table, s, &k.bytes())).equals(r)
        }
    }
}

/// Whether the signature with these halves is good.
#[tactic(auto, unfolding(crate::specs::Ed25519::accepts_halves))]
pub fn accepts_halves(
    base: &[CachedPoint],
    key: &[u8; 32],
    message: &[u8],
    r: &[u8; 32],
    s: &[u8; 32],
) -> bool
    requires length { length base.now ≡ 256 }
    requires multiples { IsTable base.now the_base 256 }
    ensures { result ≡ halves_are_good key.now message.now r.now s.now }
{
    if !is_reduced(&Number::of_bytes(s)) {
        return false;
    }
    let r_number = Number::of_bytes(r);
    if has_small_order(&r_number) {
        return false;
    }
    let key_number = Number::of_bytes(key);
    if has_small_order(&key_number) {
        return false;
    }
    let k = challenge_of(r, key, message);
    equation_holds(base, &decoded(&key_number), s, &k.number, &r_number)
}
