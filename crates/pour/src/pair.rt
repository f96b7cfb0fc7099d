// A point's pair in the lent sums: its mass, then its value sum.
ghost use Rattle.std.specs.Prelude.{◌≡◌, ◌+◌, ◌*◌, ◌<◌, ◌+ℤ◌, length};
ghost use Rattle.whole.specs.Lists.{at};
ghost use Rattle.table.specs.Pour.{set_pair};
ghost use Rattle.pour.specs.Inner.{Raisable};

// Mass and value sum of a point, whatever stood there.
pub fn set_pair(sums: &mut [i64], point: usize, mass: i64, value: i64)
    requires { 2 * point + 1 < length sums.old }
    ensures { sums.new ≡ set_pair sums.old point mass value }
{
    let a = 2 * point;
    sums[a] = mass;
    sums[a + 1] = value;
}

// Mass and value are added to what the point has.
pub fn raise_pair(sums: &mut [i64], point: usize, mass: i64, value: i64)
    requires { Raisable sums.old point mass value }
    ensures { sums.new ≡ set_pair sums.old point (at sums.old (2 * point) +ℤ mass) (at sums.old (2 * point + 1) +ℤ value) }
{
    let a = 2 * point;
    sums[a] += mass;
    sums[a + 1] += value;
}
