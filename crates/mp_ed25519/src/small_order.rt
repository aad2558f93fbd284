//! Encodings of points of small order.

ghost use Rattle.std.specs.Prelude.{◌≡◌, nat_eq};
ghost use Rattle.std.specs.List.{list_any};
ghost use Rattle.mp_ed25519.specs.Ed25519.{has_small_order as has_order_of_at_most_8};
ghost use Rattle.mp_ed25519.specs.Inside.Numbers.{number_of};

use crate::number::Number;

// The y of these points, and 0 and 1 with the prime added.
const SMALL_ORDERS: [Number; 7] = [
    Number {
        w0: 0,
        w1: 0,
        w2: 0,
        w3: 0,
    },
    Number {
        w0: 1,
        w1: 0,
        w2: 0,
        w3: 0,
    },
    Number {
        w0: 0xffff_ffff_ffff_ffec,
        w1: 0xffff_ffff_ffff_ffff,
        w2: 0xffff_ffff_ffff_ffff,
        w3: 0x7fff_ffff_ffff_ffff,
    },
    Number {
        w0: 0xffff_ffff_ffff_ffed,
        w1: 0xffff_ffff_ffff_ffff,
        w2: 0xffff_ffff_ffff_ffff,
        w3: 0x7fff_ffff_ffff_ffff,
    },
    Number {
        w0: 0xffff_ffff_ffff_ffee,
        w1: 0xffff_ffff_ffff_ffff,
        w2: 0xffff_ffff_ffff_ffff,
        w3: 0x7fff_ffff_ffff_ffff,
    },
    Number {
        w0: 0xb027_b2c2_8f95_e826,
        w1: 0xf098_eff2_89f4_c345,
        w2: 0x3933_c6d3_05ac_dfd5,
        w3: 0x05fc_536d_8802_38b1,
    },
    Number {
        w0: 0x4fd8_4d3d_706a_17c7,
        w1: 0x0f67_100d_760b_3cba,
        w2: 0xc6cc_392c_fa53_202a,
        w3: 0x7a03_ac92_77fd_c74e,
    },
];

fn is_among(numbers: &[Number], n: &Number) -> bool
    ensures { result ≡ list_any (λ m. nat_eq (number_of m) (number_of n.now)) numbers.now }
{
    numbers.iter().any(|number| number.equals(n))
}

/// Whether the 256 bits encode a point of small order.
pub fn has_small_order(n: &Number) -> bool
    ensures { result ≡ has_order_of_at_most_8 (number_of n.now) }
{
    is_among(&SMALL_ORDERS, &n.low_bits())
}
