// The corner of a place j: the lattice point of z[i] = floor((x[i] - x[j]) / W), from the splits.
ghost use Rattle.std.specs.Prelude.{◌≡◌, ◌<◌, cond, ltb, pos, ◌-ℤ◌, ◌*ℤ◌, length};
ghost use Rattle.whole.specs.Lists.{at};
ghost use Rattle.lattice.specs.Limits.{most_coords};
ghost use Rattle.simplex.specs.Inner.{Parts, coordinate, StepsFrom, Span, CornerFrom};

use crate::split::{Split, Splits, minus};
use lattice::limits::MOST_COORDS;

// The sum of the floors of the differences from one place, and the greatest of the remainders.
#[derive(Clone, Copy)]
struct Steps {
    total: i32,
    spread: u32,
}

// What a corner is made of beside its floors: their sum, the remainder that its coordinates leave, and
// its weight.
#[derive(Clone, Copy)]
pub struct Corner {
    pub total: i32,
    pub slot: usize,
    pub weight: u32,
}

// One difference a turn: place i from place j. The floors are left in z, where the point is made from
// them: an array handed back would be copied. A loop by number: a split stands in two arrays.
fn steps_from(splits: &Splits, n: usize, w: u32, j: usize, z: &mut [i32; MOST_COORDS]) -> Steps
    requires parts { Parts w n splits.now.floors splits.now.rests }
    requires j_lt_n { j < n }
    requires z_len { length z.old ≡ most_coords }
    ensures { let x = coordinate w splits.now.floors splits.now.rests in
        StepsFrom w n x j z.new result.total (pos result.spread) }
{
    let base = Split {
        floor: splits.floors[j],
        rest: splits.rests[j],
    };
    let mut total = 0;
    let mut spread: u32 = 0;
    for i in 0..n {
        let here = Split {
            floor: splits.floors[i],
            rest: splits.rests[i],
        };
        let s = minus(here, base, w);
        z[i] = s.floor;
        total += s.floor;
        spread = spread.max(s.rest as u32);
    }
    Steps { total, spread }
}

// The corner of place j, with its floors in z. Its weight is W less the greatest remainder of the
// differences from j, since those are its residuals up to a constant.
pub fn corner_of(splits: &Splits, n: usize, w: u32, j: usize, z: &mut [i32; MOST_COORDS]) -> Corner
    requires parts { Parts w n splits.now.floors splits.now.rests }
    requires j_lt_n { j < n }
    requires z_len { length z.old ≡ most_coords }
    ensures { let x = coordinate w splits.now.floors splits.now.rests in
        CornerFrom w n x j z.new result.total result.slot result.weight }
{
    let s = steps_from(splits, n, w, j, z);
    let k = whole::division::remainder_of(-s.total, n as u32);
    Corner {
        total: s.total,
        slot: k as usize,
        weight: w - s.spread,
    }
}

// The coordinate at place i of the point n * z[i] - total; what a point of n coordinates does not use
// of six places is 0.
pub fn point_at(z: &[i32], total: i32, n: usize, i: usize) -> i32
    requires { Span n z.now total }
    ensures { result ≡ cond (ltb i n) (pos n *ℤ at z.now i -ℤ total) (pos 0) }
{
    if i < n { (n as i32) * z[i] - total } else { 0 }
}
