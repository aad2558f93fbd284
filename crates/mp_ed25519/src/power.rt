//! Powers of field elements.

ghost use Rattle.std.specs.Prelude.{◌≡◌, ◌^◌, ℕ, ◌*◌, ◌-◌};
ghost use Rattle.mp_ed25519.specs.Field.{pow};
ghost use Rattle.mp_ed25519.specs.Inside.Limbs.{AreWithin, element, tight};

use crate::field_element::FieldElement;

// Squares `times` times.
fn squared(x: &FieldElement, times: u32) -> FieldElement
    requires { AreWithin tight x.now }
    ensures tight { AreWithin tight result }
    ensures element { (z e : ℕ) → element x.now ≡ pow z e → element result ≡ pow z (e * 2 ^ times) }
{
    let mut power = *x;
    for _i in 0..times {
        power = power.square();
    }
    power
}

// The powers 11 and 2^250 - 1.
#[derive(Clone, Copy)]
struct Powers {
    eleventh: FieldElement,
    long: FieldElement,
}

fn first_powers(z: &FieldElement) -> Powers
    requires { AreWithin tight z.now }
    ensures eleventh { element result.eleventh ≡ pow (element z.now) 11 }
    ensures long { element result.long ≡ pow (element z.now) (2 ^ 250 - 1) }
    ensures eleventh_tight { AreWithin tight result.eleventh }
    ensures long_tight { AreWithin tight result.long }
{
    let z2 = z.square();
    let z9 = z.mul(&squared(&z2, 2));
    let z11 = z2.mul(&z9);
    let z_5 = z9.mul(&z11.square());
    let z_10 = squared(&z_5, 5).mul(&z_5);
    let z_20 = squared(&z_10, 10).mul(&z_10);
    let z_40 = squared(&z_20, 20).mul(&z_20);
    let z_50 = squared(&z_40, 10).mul(&z_10);
    let z_100 = squared(&z_50, 50).mul(&z_50);
    let z_200 = squared(&z_100, 100).mul(&z_100);
    let z_250 = squared(&z_200, 50).mul(&z_50);
    Powers {
        eleventh: z11,
        long: z_250,
    }
}

impl FieldElement {
    /// The inverse, which is the power p - 2.
    pub fn inverted(&self) -> FieldElement
        requires { AreWithin tight self.now }
        ensures tight { AreWithin tight result }
        ensures element { element result ≡ pow (element self.now) (2 ^ 255 - 21) }
    {
        let powers = first_powers(self);
        squared(&powers.long, 5).mul(&powers.eleventh)
    }

    /// The power (p - 5) / 8.
    pub fn root_power(&self) -> FieldElement
        requires { AreWithin tight self.now }
        ensures tight { AreWithin tight result }
        ensures element { element result ≡ pow (element self.now) (2 ^ 252 - 3) }
    {
        let powers = first_powers(self);
        squared(&powers.long, 2).mul(self)
    }
}
