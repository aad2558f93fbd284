//! Decoding and encoding points.

ghost use Rattle.std.specs.Prelude.{◌≡◌, ◌+◌, ◌-◌, ◌*◌, ◌/◌, ◌%◌, ◌<◌, ◌^◌, nat_eq, Option};
ghost use Rattle.mp_ed25519.specs.Curve.{Point, d};
ghost use Rattle.mp_ed25519.specs.Ed25519.{decoded as decoding_of, encoded as encoding_of, root_of as the_root, root_of_minus_one as the_root_of_minus_one, signed as the_signed, point_at as the_point_at};
ghost use Rattle.mp_ed25519.specs.Inside.Limbs.{AreWithin, IsTight, element, element_of, tight};
ghost use Rattle.mp_ed25519.specs.Inside.Numbers.{number_of};
ghost use Rattle.mp_ed25519.specs.Inside.Points.{IsProjective, point_of};

use crate::field_element::FieldElement;
use crate::number::Number;
use crate::point::{D, ExtendedPoint, ProjectivePoint};

#[tactic(auto, unfolding(crate::specs::Inside::Limbs::element))]
fn curve_constant() -> FieldElement
    ensures element { element result ≡ d }
    ensures tight { AreWithin tight result }
{
    D
}

#[tactic(auto, unfolding(crate::specs::Inside::Limbs::element))]
fn root_of_minus_one() -> FieldElement
    ensures { element result ≡ the_root_of_minus_one }
{
    FieldElement {
        l0: 1718705420411056,
        l1: 234908883556509,
        l2: 2233514472574048,
        l3: 2117202627021982,
        l4: 765476049583133,
    }
}

fn are_equal(a: &FieldElement, b: &FieldElement) -> bool
    requires left { AreWithin tight a.now }
    requires right { AreWithin tight b.now }
    ensures { result ≡ nat_eq (element a.now) (element b.now) }
{
    Number::of_element(a).equals(&Number::of_element(b))
}

// A square root of u / v, if there is one.
#[tactic(auto, unfolding(crate::specs::Ed25519::root_of))]
fn root_of(u: &FieldElement, v: &FieldElement) -> Option<FieldElement>
    requires left { AreWithin tight u.now }
    requires right { AreWithin tight v.now }
    ensures root { element_of result ≡ the_root (element u.now) (element v.now) }
    ensures tight { IsTight result }
{
    let v3 = v.square().mul(v);
    let v7 = v3.square().mul(v);
    let r = u.mul(&v3).mul(&u.mul(&v7).root_power());
    let check = v.mul(&r.square());
    if are_equal(&check, u) {
        Some(r)
    } else if are_equal(&check.add(u).carried(), &FieldElement::zero()) {
        Some(r.mul(&root_of_minus_one()))
    } else {
        None
    }
}

// The root or its negative: the one whose lowest bit is the sign.
#[tactic(auto, unfolding(crate::specs::Ed25519::signed))]
fn signed(sign: u64, root: Option<FieldElement>) -> Option<FieldElement>
    requires { IsTight root }
    ensures root { element_of result ≡ the_signed sign (element_of root) }
    ensures tight { IsTight result }
{
    let r = root?;
    let number = Number::of_element(&r);
    if number.low_bit() == sign {
        Some(r)
    } else if number.equals(&Number::new(0, 0, 0, 0)) {
        None
    } else {
        Some(FieldElement::zero().sub(&r).carried())
    }
}

#[tactic(auto, unfolding(crate::specs::Ed25519::point_at))]
fn point_at(y: &FieldElement, x: Option<FieldElement>) -> Option<ExtendedPoint>
    requires left { AreWithin tight y.now }
    requires right { IsTight x }
    ensures { point_of result ≡ the_point_at (element y.now) (element_of x) }
{
    let x = x?;
    Some(ExtendedPoint {
        x,
        y: *y,
        z: FieldElement::one(),
        t: x.mul(y),
    })
}

/// The point that 256 bits encode, if there is one.
#[tactic(auto, unfolding(crate::specs::Ed25519::decoded))]
pub fn decoded(n: &Number) -> Option<ExtendedPoint>
    ensures { point_of result ≡ decoding_of (number_of n.now) }
{
    if !n.is_canonical() {
        return None;
    }
    let y = n.element();
    let yy = y.square();
    let u = yy.sub(&FieldElement::one()).carried();
    let v = curve_constant()
        .mul(&yy)
        .add(&FieldElement::one())
        .carried();
    point_at(&y, signed(n.high_bit(), root_of(&u, &v)))
}

/// The 256 bits that encode a point.
#[tactic(auto, unfolding(crate::specs::Ed25519::encoded))]
pub fn encoded(p: &ProjectivePoint) -> Number
    ensures { (q : Point) → IsProjective p.now q → number_of result ≡ encoding_of q }
{
    let inverse = p.z.inverted();
    let x = Number::of_element(&p.x.mul(&inverse));
    let y = Number::of_element(&p.y.mul(&inverse));
    Number {
        w0: y.w0,
        w1: y.w1,
        w2: y.w2,
        w3: y.w3 % (1 << 63) + x.low_bit() * (1 << 63),
    }
}
