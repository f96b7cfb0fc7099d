// Points that leave the table. The index is left as it is: it is made afresh when all have left, so
// points are found by their keys alone.
ghost use Rattle.std.specs.Prelude.{◌≡◌, suc, ◌+◌, ◌*◌, ◌≤◌, ◌<◌, pos, length, replicate, IfSome};
ghost use Rattle.whole.specs.Lists.{at, splice};
ghost use Rattle.lattice.specs.Limits.{most_d, most_C};
ghost use Rattle.index.specs.Keys.{key_at};
ghost use Rattle.table.specs.Pour.{set_pair};
ghost use Rattle.table.specs.Heads.{settings};
ghost use Rattle.shares.specs.Slots.{slot_keys, keys_to, Arrays};
ghost use Rattle.book.specs.Withdraw.{point_of};
ghost use Rattle.withdraw.specs.Inner.{counted, unindexed, PointsIn, leave_keys};

use index::keys::same_key;
use pour::pair::set_pair;
use simplex::Simplex;
use table::Head;

// The point that has the key.
fn point_of(keys: &[i32], d: usize, points: usize, key: &[i32]) -> Option<usize>
    requires { (d ≤ most_d) × (points ≤ most_C) × (d * points ≤ length keys.now) }
    ensures which { counted result ≡ point_of points (key_at d keys.now) key.now }
    ensures inside { IfSome result (λ i. i < points) }
{
    // A loop: the closure of a `find` from the back would not know that its stretch is inside the keys.
    for i in (0..points).rev() {
        let start = d * i;
        let end = start + d;
        if same_key(&keys[start..end], key) {
            return Some(i);
        }
    }
    None
}

// The key of the last point goes to the place of point i, and 0 to its own.
fn vacate_key(keys: &mut [i32], d: usize, i: usize, last: usize)
    requires { (d ≤ most_d) × (last < most_C) × (i ≤ last) × (d * last + d ≤ length keys.old) }
    ensures { keys.new ≡ splice (splice keys.old (d * i) (key_at d keys.old last)) (d * last) (replicate d (pos 0)) }
{
    let start = d * last;
    let end = start + d;
    keys.copy_within(start..end, d * i);
    keys[start..end].fill(0);
}

// The pair of the last point goes to point i, and 0 to its own.
fn vacate_pair(sums: &mut [i64], i: usize, last: usize)
    requires { (last < most_C) × (i ≤ last) × (2 * last + 1 < length sums.old) }
    ensures { sums.new ≡ set_pair (set_pair sums.old i (at sums.old (2 * last)) (at sums.old (2 * last + 1))) last (pos 0) (pos 0) }
{
    let a = 2 * last;
    let b = a + 1;
    let mass = sums[a];
    let value = sums[b];
    set_pair(sums, i, mass, value);
    set_pair(sums, last, 0, 0);
}

// The point of a slot leaves where its mass is 0, and the last point takes its number. Answers how
// many points are left.
fn leave_slot(
    head: Head,
    points: usize,
    keys: &mut [i32],
    sums: &mut [i64],
    simplex: &Simplex,
    slot: usize,
) -> usize
    requires points_in { PointsIn (settings head) (unindexed points keys.old sums.old) }
    requires arrays { Arrays simplex.now.weights simplex.now.coords }
    requires slot_bound { slot < suc head.d }
    ensures { let t = unindexed points keys.old sums.old in
        unindexed result keys.new sums.new ≡ leave_keys (settings head) t (slot_keys head.d simplex.now.weights simplex.now.coords slot) }
{
    let d = head.d;
    let Some(key) = simplex.key(d, slot) else {
        return points;
    };
    let Some(i) = point_of(keys, d, points, key) else {
        return points;
    };
    let mass = sums[2 * i];
    if mass != 0 {
        return points;
    }
    let last = points - 1;
    vacate_key(keys, d, i, last);
    vacate_pair(sums, i, last);
    last
}

// All slots, in ascending remainder; answers how many points are left.
pub fn leave_all(head: Head, keys: &mut [i32], sums: &mut [i64], simplex: &Simplex) -> usize
    requires points_in { PointsIn (settings head) (unindexed head.points keys.old sums.old) }
    requires arrays { Arrays simplex.now.weights simplex.now.coords }
    ensures { let t = unindexed head.points keys.old sums.old in
        unindexed result keys.new sums.new ≡ leave_keys (settings head) t (keys_to head.d simplex.now.weights simplex.now.coords (suc head.d)) }
{
    let n = head.d + 1;
    let mut points = head.points;
    for slot in 0..n {
        points = leave_slot(head, points, keys, sums, simplex, slot);
    }
    points
}
