//! Tables of multiples of points, and sums of multiples.

ghost use Rattle.std.specs.Prelude.{◌≡◌, ◌/◌, ◌%◌, ◌<◌, length, IfOk};
ghost use Rattle.mp_ed25519.specs.Curve.{Point, combined as the_combination, shifted_sum as the_shifted_sum};
ghost use Rattle.mp_ed25519.specs.Inside.Points.{IsProjective, IsTable, completed, point};

use crate::point::{CachedPoint, CompletedPoint, ExtendedPoint, ProjectivePoint};
use mp_memory::{Memory, NoMemory};

/// The multiples of a point from 0 to 15.
pub fn short_table(p: &ExtendedPoint) -> [CachedPoint; 16]
    ensures { IsTable result (point p.now) 16 }
{
    let one = p.cached();
    let mut multiple = ExtendedPoint::neutral();
    let mut table = [one; 16];
    for j in 0..16 {
        table[j] = multiple.cached();
        multiple = multiple.add(&one).extended();
    }
    table
}

/// The multiples of a point from 0 to 255.
pub fn long_table(memory: Memory, p: &ExtendedPoint) -> Result<Vec<CachedPoint, Memory>, NoMemory>
    ensures length { IfOk result (λ t. length t.items ≡ 256) }
    ensures multiples { IfOk result (λ t. IsTable t.items (point p.now) 256) }
{
    let one = p.cached();
    let mut multiple = ExtendedPoint::neutral();
    let mut table = Vec::new(memory);
    for _i in 0..256u64 {
        table.push(multiple.cached())?;
        multiple = multiple.add(&one).extended();
    }
    Ok(table)
}

// 16 times a point plus `times` times the point of the table.
fn shifted_sum(p: &ProjectivePoint, table: &[CachedPoint; 16], times: usize) -> CompletedPoint
    requires { times < 16 }
    ensures { (q r : Point) → IsProjective p.now q → IsTable table.now r 16 →
        completed result ≡ the_shifted_sum q r times }
{
    let twice = p.doubled().projective();
    let four_times = twice.doubled().projective();
    let eight_times = four_times.doubled().projective();
    eight_times.doubled().extended().add(&table[times])
}

/// S times the point of the first table plus k times that of the second, given the bytes of S and k, lowest first.
pub fn combined(
    long: &[CachedPoint],
    short: &[CachedPoint; 16],
    s: &[u8; 32],
    k: &[u8; 32],
) -> ProjectivePoint
    requires { length long.now ≡ 256 }
    ensures { (b a : Point) → IsTable long.now b 256 → IsTable short.now a 16 →
        IsProjective result (the_combination b a s.now k.now) }
{
    let mut sum = ExtendedPoint::neutral().projective();
    for i in (0..32).rev() {
        let high = shifted_sum(&sum, short, (k[i] / 16) as usize).projective();
        let low = shifted_sum(&high, short, (k[i] % 16) as usize).extended();
        sum = low.add(&long[s[i] as usize]).projective();
    }
    sum
}
