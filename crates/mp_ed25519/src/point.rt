//! Points of the curve: addition and doubling.

ghost use Rattle.std.specs.Prelude.{◌*◌, ◌<◌, ◌^◌};
ghost use Rattle.mp_ed25519.specs.Inside.Limbs.{AreWithin, tight};

use crate::field_element::FieldElement;

/// A point in extended coordinates.
#[derive(Clone, Copy)]
pub struct ExtendedPoint {
    pub x: FieldElement,
    pub y: FieldElement,
    pub z: FieldElement,
    pub t: FieldElement,
    ghost x_tight: { AreWithin tight x },
    ghost y_tight: { AreWithin tight y },
    ghost z_tight: { AreWithin tight z },
    ghost t_tight: { AreWithin tight t },
}

/// A point without its last coordinate, which a doubling doesn't need.
#[derive(Clone, Copy)]
pub struct ProjectivePoint {
    pub x: FieldElement,
    pub y: FieldElement,
    pub z: FieldElement,
    ghost x_tight: { AreWithin tight x },
    ghost y_tight: { AreWithin tight y },
    ghost z_tight: { AreWithin tight z },
}

/// A point prepared for several additions.
#[derive(Clone, Copy)]
pub struct CachedPoint {
    pub sum: FieldElement,
    pub difference: FieldElement,
    pub double: FieldElement,
    pub product: FieldElement,
}

/// A sum before its last products.
#[derive(Clone, Copy)]
pub struct CompletedPoint {
    pub e: FieldElement,
    pub f: FieldElement,
    pub g: FieldElement,
    pub h: FieldElement,
}

/// The curve's constant, -121665 / 121666.
pub const D: FieldElement = FieldElement {
    l0: 929955233495203,
    l1: 466365720129213,
    l2: 1662059464998953,
    l3: 2033849074728123,
    l4: 1442794654840575,
};

const TWICE_D: FieldElement = FieldElement {
    l0: 1859910466990425,
    l1: 932731440258426,
    l2: 1072319116312658,
    l3: 1815898335770999,
    l4: 633789495995903,
};

impl ExtendedPoint {
    ghost use Rattle.std.specs.Prelude.{◌≡◌};
    ghost use Rattle.mp_ed25519.specs.Curve.{Point, neutral, negated, sum};
    ghost use Rattle.mp_ed25519.specs.Inside.Points.{IsCached, IsProjective, completed, point};

    /// The neutral point.
    pub fn neutral() -> ExtendedPoint
        ensures { point result ≡ neutral }
    {
        ExtendedPoint {
            x: FieldElement::zero(),
            y: FieldElement::one(),
            z: FieldElement::one(),
            t: FieldElement::zero(),
        }
    }

    /// The negated point.
    pub fn negated(&self) -> ExtendedPoint
        ensures { point result ≡ negated (point self.now) }
    {
        ExtendedPoint {
            x: FieldElement::zero().sub(&self.x).carried(),
            y: self.y,
            z: self.z,
            t: FieldElement::zero().sub(&self.t).carried(),
        }
    }

    /// The point, prepared for doubling.
    #[inline(always)]
    pub fn projective(&self) -> ProjectivePoint
        ensures { IsProjective result (point self.now) }
    {
        ProjectivePoint {
            x: self.x,
            y: self.y,
            z: self.z,
        }
    }

    /// The point, prepared for several additions.
    pub fn cached(&self) -> CachedPoint
        ensures { IsCached result (point self.now) }
    {
        CachedPoint {
            sum: self.y.add(&self.x),
            difference: self.y.sub(&self.x),
            double: self.z.add(&self.z),
            product: TWICE_D.mul(&self.t),
        }
    }

    /// The sum of two points.
    #[tactic(auto, unfolding(crate::specs::Curve::sum))]
    pub fn add(&self, other: &CachedPoint) -> CompletedPoint
        ensures { (q : Point) → IsCached other.now q → completed result ≡ sum (point self.now) q }
    {
        let a = self.y.sub(&self.x).mul(&other.difference);
        let b = self.y.add(&self.x).mul(&other.sum);
        let c = self.t.mul(&other.product);
        let k = self.z.mul(&other.double);
        CompletedPoint {
            e: b.sub(&a),
            f: k.sub(&c),
            g: k.add(&c),
            h: b.add(&a),
        }
    }
}

impl ProjectivePoint {
    ghost use Rattle.std.specs.Prelude.{◌≡◌};
    ghost use Rattle.mp_ed25519.specs.Curve.{Point, twice};
    ghost use Rattle.mp_ed25519.specs.Inside.Points.{IsProjective, completed};

    /// The point added to itself.
    #[tactic(auto, unfolding(crate::specs::Curve::twice))]
    pub fn doubled(&self) -> CompletedPoint
        ensures { (p : Point) → IsProjective self.now p → completed result ≡ twice p }
    {
        let a = self.x.square();
        let b = self.y.square();
        let zz = self.z.square();
        let c = zz.add(&zz);
        let h = a.add(&b);
        let g = a.sub(&b);
        let s = self.x.add(&self.y).square();
        CompletedPoint {
            e: h.sub(&s),
            f: c.add(&g),
            g,
            h,
        }
    }
}

#[tactic(auto, unfolding(crate::specs::Curve::joined))]
impl CompletedPoint {
    ghost use Rattle.std.specs.Prelude.{◌≡◌};
    ghost use Rattle.mp_ed25519.specs.Inside.Points.{IsProjective, completed, point};

    /// The point, prepared for doubling.
    #[inline(always)]
    pub fn projective(&self) -> ProjectivePoint
        ensures { IsProjective result (completed self.now) }
    {
        ProjectivePoint {
            x: self.e.mul(&self.f),
            y: self.g.mul(&self.h),
            z: self.f.mul(&self.g),
        }
    }

    /// The point.
    #[inline(always)]
    pub fn extended(&self) -> ExtendedPoint
        ensures { point result ≡ completed self.now }
    {
        ExtendedPoint {
            x: self.e.mul(&self.f),
            y: self.g.mul(&self.h),
            z: self.f.mul(&self.g),
            t: self.e.mul(&self.h),
        }
    }
}
