// The step of a pass, and the keys of the two neighbours of a point along it.
ghost use Rattle.std.specs.Prelude.{◌≡◌, cond, ◌≤◌, ◌+ℤ◌, ◌-ℤ◌, length};
ghost use Rattle.whole.specs.Size.{Abs≤};
ghost use Rattle.lattice.specs.Limits.{most_d, farthest_point};
ghost use Rattle.blur.specs.Blur.{step};
ghost use Rattle.blur.specs.Inner.{Movable, neighbour_of};

// The step of pass k at place i: -d at place k and 1 elsewhere.
fn step_at(d: usize, k: usize, i: usize) -> i32
    requires { d ≤ most_d }
    ensures { result ≡ step d k i }
{
    if i == k {
        return -(d as i32);
    }
    1
}

// A coordinate and one of the step, added or subtracted: a sign, told by one bit down to here.
fn moved(x: i32, by: i32, plus: bool) -> i32
    requires abs { Abs≤ x farthest_point }
    requires abs_2 { Abs≤ by most_d }
    ensures { result ≡ cond plus (x +ℤ by) (x -ℤ by) }
{
    if plus { x + by } else { x - by }
}

// The key of point plus step, or of point minus step. It is written where the search reads it, since
// an array handed back would be copied.
pub fn put_neighbour(key: &[i32], k: usize, plus: bool, neighbour: &mut [i32])
    requires movable { Movable key.now }
    requires neighbour_len { length neighbour.old ≡ length key.now }
    ensures { neighbour.new ≡ neighbour_of plus (length key.now) k key.now }
{
    for (i, x) in key.iter().enumerate() {
        neighbour[i] = moved(*x, step_at(key.len(), k, i), plus);
    }
}
