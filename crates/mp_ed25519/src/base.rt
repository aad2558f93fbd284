//! The base point, with whose multiples signatures are verified.

ghost use Rattle.std.specs.Prelude.{◌≡◌, length, take, drop};
ghost use Rattle.mp_ed25519.specs.Ed25519.{accepts, base as the_base};
ghost use Rattle.mp_ed25519.specs.Inside.Points.{IsTable, point};

use crate::equation::accepts_halves;
use crate::field_element::FieldElement;
use crate::multiples::long_table;
use crate::point::{CachedPoint, ExtendedPoint};
use mp_memory::{Memory, NoMemory};

#[tactic(auto, unfolding(crate::specs::Inside::Limbs::element))]
fn base_point() -> ExtendedPoint
    ensures { point result ≡ the_base }
{
    ExtendedPoint {
        x: FieldElement {
            l0: 1738742601995546,
            l1: 1146398526822698,
            l2: 2070867633025821,
            l3: 562264141797630,
            l4: 587772402128613,
        },
        y: FieldElement {
            l0: 1801439850948184,
            l1: 1351079888211148,
            l2: 450359962737049,
            l3: 900719925474099,
            l4: 1801439850948198,
        },
        z: FieldElement::one(),
        t: FieldElement {
            l0: 1841354044333475,
            l1: 16398895984059,
            l2: 755974180946558,
            l3: 900171276175154,
            l4: 1821297809914039,
        },
    }
}

fn first_half(signature: &[u8; 64]) -> [u8; 32]
    ensures { result ≡ take 32 signature.now }
{
    let mut half = [0; 32];
    half.copy_from_slice(&signature[..32]);
    half
}

fn second_half(signature: &[u8; 64]) -> [u8; 32]
    ensures { result ≡ drop 32 signature.now }
{
    let mut half = [0; 32];
    half.copy_from_slice(&signature[32..]);
    half
}

/// The multiples of the base point that a verification needs: 40 KB, computed once.
#[derive(Drop)]
pub struct Base {
    table: Vec<CachedPoint, Memory>,
    ghost length: { length table.items ≡ 256 },
    ghost multiples: { IsTable table.items the_base 256 },
}

impl Base {
    /// Computes the multiples.
    pub fn new(memory: Memory) -> Result<Base, NoMemory> {
        let table = long_table(memory, &base_point())?;
        Ok(Base { table })
    }

    /// Whether this is a good signature of the message by the key.
    pub fn verify(&self, key: &[u8; 32], message: &[u8], signature: &[u8; 64]) -> bool
        ensures { result ≡ accepts key.now message.now signature.now }
    {
        let r = first_half(signature);
        let s = second_half(signature);
        accepts_halves(&self.table, key, message, &r, &s)
    }
}
