// The points of a table: each key and pair, and the sum of the masses.
ghost use Rattle.std.specs.Prelude.{◌≡◌, suc, ◌*◌, ◌≤◌};
ghost use Rattle.lattice.specs.Limits.{most_d, most_S, most_readings};
ghost use Rattle.lattice.specs.Weight.{W};
ghost use Rattle.soundness.specs.Inner.{light_pair, light_row, good_rows, Rows};

use crate::points::good_key;
use lattice::limits::MOST_VALUE;

// W times the number of readings, which the masses come to.
pub fn total_of(d: usize, fineness: u32, readings: usize) -> u32
    requires { (d ≤ most_d) × (fineness ≤ most_S) × (readings ≤ most_readings) }
    ensures { result ≡ W d fineness * readings }
{
    ((d + 1) as u32) * fineness * (readings as u32)
}

// Mass and value sum of a point, where all masses come to `total`: none is more than all of them,
// which is tested before anything is multiplied.
fn good_pair(mass: i64, value: i64, total: u32) -> bool
    ensures { result ≡ light_pair total mass value }
{
    if !(1..=i64::from(total)).contains(&mass) {
        return false;
    }
    let far = i64::from(MOST_VALUE) * mass;
    (-far..=far).contains(&value)
}

// The key and the pair of point i.
fn good_row(keys: &[i32], sums: &[i64], d: usize, total: u32, i: usize) -> bool
    requires { Rows d (suc i) keys.now sums.now }
    ensures { result ≡ light_row total d keys.now sums.now i }
{
    let a = d * i;
    let b = a + d;
    good_key(&keys[a..b]) && good_pair(sums[2 * i], sums[2 * i + 1], total)
}

// All of them, and that their masses come to `total`. Each mass is at most that, so their sum fits. A
// loop by number: a point's key and its pair stand in two slices, in parts of two widths.
pub fn rows_are_good(keys: &[i32], sums: &[i64], d: usize, points: usize, total: u32) -> bool
    requires { Rows d points keys.now sums.now }
    ensures { result ≡ good_rows total d points keys.now sums.now }
{
    let mut masses = 0i64;
    for i in 0..points {
        if !good_row(keys, sums, d, total, i) {
            return false;
        }
        masses += sums[2 * i];
    }
    masses == i64::from(total)
}
