//! Products of field elements before their carries.

ghost use Rattle.std.specs.Prelude.{◌≡◌, ◌<◌, ◌≤◌, ◌^◌, ◌*◌, ◌/◌, ◌%◌};

use crate::field_element::FieldElement;

const LIMB: u64 = 1 << 51;

const WIDE_LIMB: u128 = 1 << 51;

/// Five limbs before their carries. What is at 2^255 and above has been folded into them.
#[derive(Clone, Copy)]
pub struct WideElement {
    pub l0: u128,
    pub l1: u128,
    pub l2: u128,
    pub l3: u128,
    pub l4: u128,
    ghost room: { (l0 < 77 * 2 ^ 108) × (l1 < 77 * 2 ^ 108) × (l2 < 77 * 2 ^ 108)
        × (l3 < 77 * 2 ^ 108) × (l4 < 5 * 2 ^ 108) },
}

// The product of two limbs. The second bound shows that no sum of such products overflows.
#[inline(always)]
fn wide(a: u64, b: u64) -> u128
    requires left { a < 2 ^ 54 }
    requires right { b < 2 ^ 60 }
    ensures product { result ≡ a * b }
    ensures below { result ≤ 2 ^ 54 * b }
{
    a as u128 * b as u128
}

// The lowest 51 bits.
#[inline(always)]
fn low_part(limb: u128) -> u64
    ensures { result ≡ limb % 2 ^ 51 }
{
    (limb % WIDE_LIMB) as u64
}

// The other bits, which fit into a word.
#[inline(always)]
fn high_part(limb: u128) -> u64
    requires { limb < 2 ^ 115 }
    ensures { result ≡ limb / 2 ^ 51 }
{
    (limb / WIDE_LIMB) as u64
}

impl WideElement {
    ghost use Rattle.mp_ed25519.specs.Field.{prime, mul as product_of};
    ghost use Rattle.mp_ed25519.specs.Inside.Limbs.{AreWithin, tight, element, wide_value};

    #[inline(always)]
    pub fn product(a: &FieldElement, b: &FieldElement) -> WideElement
        ensures { wide_value result % prime ≡ product_of (element a.now) (element b.now) }
    {
        let (a0, a1, a2, a3, a4) = (a.l0, a.l1, a.l2, a.l3, a.l4);
        let (b0, b1, b2, b3, b4) = (b.l0, b.l1, b.l2, b.l3, b.l4);
        let (c1, c2, c3, c4) = (b1 * 19, b2 * 19, b3 * 19, b4 * 19);
        WideElement {
            l0: wide(a0, b0) + wide(a4, c1) + wide(a3, c2) + wide(a2, c3) + wide(a1, c4),
            l1: wide(a1, b0) + wide(a0, b1) + wide(a4, c2) + wide(a3, c3) + wide(a2, c4),
            l2: wide(a2, b0) + wide(a1, b1) + wide(a0, b2) + wide(a4, c3) + wide(a3, c4),
            l3: wide(a3, b0) + wide(a2, b1) + wide(a1, b2) + wide(a0, b3) + wide(a4, c4),
            l4: wide(a4, b0) + wide(a3, b1) + wide(a2, b2) + wide(a1, b3) + wide(a0, b4),
        }
    }

    #[inline(always)]
    pub fn square(a: &FieldElement) -> WideElement
        ensures { wide_value result % prime ≡ product_of (element a.now) (element a.now) }
    {
        let (a0, a1, a2, a3, a4) = (a.l0, a.l1, a.l2, a.l3, a.l4);
        let (b3, b4, c3, c4) = (a3 * 19, a4 * 19, a3 * 38, a4 * 38);
        WideElement {
            l0: wide(a0, a0) + wide(a1, c4) + wide(a2, c3),
            l1: wide(a0, a1 * 2) + wide(a2, c4) + wide(a3, b3),
            l2: wide(a1, a1) + wide(a0, a2 * 2) + wide(a3, c4),
            l3: wide(a0, a3 * 2) + wide(a1, a2 * 2) + wide(a4, b4),
            l4: wide(a2, a2) + wide(a0, a4 * 2) + wide(a1, a3 * 2),
        }
    }

    /// The same element with its limbs carried. Two chains of carries, from the first limb and from the third, are faster than
    /// one.
    #[inline(always)]
    pub fn carried(self) -> FieldElement
        ensures tight { AreWithin tight result }
        ensures element { element result ≡ wide_value self % prime }
    {
        let d1 = self.l1 + high_part(self.l0) as u128;
        let e2 = low_part(self.l2) + high_part(d1);
        let d3 = self.l3 + high_part(self.l2) as u128;
        let d4 = self.l4 + high_part(d3) as u128;
        let e0 = low_part(self.l0) + 19 * high_part(d4);
        FieldElement {
            l0: e0 % LIMB,
            l1: low_part(d1) + e0 / LIMB,
            l2: e2 % LIMB,
            l3: low_part(d3) + e2 / LIMB,
            l4: low_part(d4),
        }
    }
}
