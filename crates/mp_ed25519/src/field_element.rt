//! Arithmetic modulo 2^255 - 19.

ghost use Rattle.std.specs.Prelude.{◌<◌, ◌^◌};

use crate::wide_element::WideElement;

/// A field element as five limbs of 51 bits, lowest first. Each limb has room for three more bits.
#[derive(Clone, Copy)]
pub struct FieldElement {
    pub l0: u64,
    pub l1: u64,
    pub l2: u64,
    pub l3: u64,
    pub l4: u64,
    ghost room: { (l0 < 2 ^ 54) × (l1 < 2 ^ 54) × (l2 < 2 ^ 54) × (l3 < 2 ^ 54) × (l4 < 2 ^ 54) },
}

impl FieldElement {
    ghost use Rattle.std.specs.Prelude.{◌≡◌, ◌*◌};
    ghost use Rattle.mp_ed25519.specs.Field.{add as sum_of, mul as product_of, sub as difference_of};
    ghost use Rattle.mp_ed25519.specs.Inside.Limbs.{AreWithin, tight, element};

    pub fn zero() -> FieldElement
        ensures tight { AreWithin tight result }
        ensures element { element result ≡ 0 }
    {
        FieldElement {
            l0: 0,
            l1: 0,
            l2: 0,
            l3: 0,
            l4: 0,
        }
    }

    pub fn one() -> FieldElement
        ensures tight { AreWithin tight result }
        ensures element { element result ≡ 1 }
    {
        FieldElement {
            l0: 1,
            l1: 0,
            l2: 0,
            l3: 0,
            l4: 0,
        }
    }

    /// The product.
    #[inline(always)]
    pub fn mul(&self, other: &FieldElement) -> FieldElement
        ensures tight { AreWithin tight result }
        ensures element { element result ≡ product_of (element self.now) (element other.now) }
    {
        WideElement::product(self, other).carried()
    }

    /// The square.
    #[inline(always)]
    pub fn square(&self) -> FieldElement
        ensures tight { AreWithin tight result }
        ensures element { element result ≡ product_of (element self.now) (element self.now) }
    {
        WideElement::square(self).carried()
    }

    /// The sum, without carries.
    #[inline(always)]
    pub fn add(&self, other: &FieldElement) -> FieldElement
        requires left { AreWithin (2 * tight) self.now }
        requires right { AreWithin (4 * tight) other.now }
        ensures tight { AreWithin tight self.now → AreWithin tight other.now →
            AreWithin (2 * tight) result }
        ensures element { element result ≡ sum_of (element self.now) (element other.now) }
    {
        FieldElement {
            l0: self.l0 + other.l0,
            l1: self.l1 + other.l1,
            l2: self.l2 + other.l2,
            l3: self.l3 + other.l3,
            l4: self.l4 + other.l4,
        }
    }

    /// The difference, without carries. Twice the prime is added, so that no limb is negative.
    #[inline(always)]
    pub fn sub(&self, other: &FieldElement) -> FieldElement
        requires left { AreWithin (2 * tight) self.now }
        requires right { AreWithin tight other.now }
        ensures tight { AreWithin (4 * tight) result }
        ensures element { element result ≡ difference_of (element self.now) (element other.now) }
    {
        FieldElement {
            l0: self.l0 + 0x000f_ffff_ffff_ffda - other.l0,
            l1: self.l1 + 0x000f_ffff_ffff_fffe - other.l1,
            l2: self.l2 + 0x000f_ffff_ffff_fffe - other.l2,
            l3: self.l3 + 0x000f_ffff_ffff_fffe - other.l3,
            l4: self.l4 + 0x000f_ffff_ffff_fffe - other.l4,
        }
    }

    /// The same element with its limbs carried.
    pub fn carried(&self) -> FieldElement
        ensures tight { AreWithin tight result }
        ensures element { element result ≡ element self.now }
    {
        let wide = WideElement {
            l0: self.l0 as u128,
            l1: self.l1 as u128,
            l2: self.l2 as u128,
            l3: self.l3 as u128,
            l4: self.l4 as u128,
        };
        wide.carried()
    }
}
