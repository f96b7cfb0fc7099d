// One pass: every stored point's new pair, from the pairs before the pass.
ghost use Rattle.std.specs.Prelude.{◌≡◌, ◌*◌, ◌<◌, pos, ◌+ℤ◌, ◌*ℤ◌, length};
ghost use Rattle.whole.specs.Size.{Abs≤};
ghost use Rattle.index.specs.Keys.{key_at};
ghost use Rattle.table.specs.Heads.{settings, table};
ghost use Rattle.blur.specs.Inner.{most_blurred, neighbour_of, NumbersAre, Passable, NewPair, NewPairs};

use crate::pair::{Pair, pair_of};
use crate::step::put_neighbour;
use lattice::limits::MOST_D;
use table::Head;

// A new number: the old one twice, and those of the two neighbours.
fn blend(old: i64, plus: i64, minus: i64) -> i64
    requires abs { Abs≤ old most_blurred }
    requires abs_2 { Abs≤ plus most_blurred }
    requires abs_3 { Abs≤ minus most_blurred }
    ensures { result ≡ pos 2 *ℤ old +ℤ plus +ℤ minus }
{
    old + old + plus + minus
}

// The pair of the neighbour of a point, on one side: two times 0 where it is not stored.
fn neighbour_pair(
    head: Head,
    keys: &[i32],
    index: &[u16],
    sheet: &[i64],
    point: usize,
    k: usize,
    plus: bool,
) -> Pair
    requires passable { Passable (settings head) (table head keys.now sheet.now index.now) }
    requires point_lt_points { point < head.points }
    ensures { let t = table head keys.now sheet.now index.now in
        NumbersAre (settings head) t (neighbour_of plus head.d k (key_at head.d keys.now point)) result.mass result.value }
{
    let start = head.d * point;
    let end = start + head.d;
    let mut room = [0i32; MOST_D];
    let neighbour = &mut room[..head.d];
    put_neighbour(&keys[start..end], k, plus, neighbour);
    pair_of(head, keys, index, sheet, neighbour).unwrap_or(Pair { mass: 0, value: 0 })
}

// The new pair of a stored point in pass k.
fn new_pair(head: Head, keys: &[i32], index: &[u16], sheet: &[i64], point: usize, k: usize) -> Pair
    requires passable { Passable (settings head) (table head keys.now sheet.now index.now) }
    requires point_lt_points { point < head.points }
    ensures { let t = table head keys.now sheet.now index.now in
        NewPair (settings head) t k (key_at head.d keys.now point) result.mass result.value }
{
    let a = 2 * point;
    let b = a + 1;
    let plus = neighbour_pair(head, keys, index, sheet, point, k, true);
    let minus = neighbour_pair(head, keys, index, sheet, point, k, false);
    Pair {
        mass: blend(sheet[a], plus.mass, minus.mass),
        value: blend(sheet[b], plus.value, minus.value),
    }
}

// Pass k over all stored points: it reads one sheet and writes the other, so that no point reads a
// neighbour's new pair.
pub fn pass(head: Head, keys: &[i32], index: &[u16], from: &[i64], to: &mut [i64], k: usize)
    requires passable { Passable (settings head) (table head keys.now from.now index.now) }
    requires to_len { length to.old ≡ 2 * head.capacity }
    ensures { let t = table head keys.now from.now index.now in
        NewPairs (settings head) t k head.points to.new }
{
    let m = head.points;
    for i in 0..m {
        let pair = new_pair(head, keys, index, from, i, k);
        pour::pair::set_pair(to, i, pair.mass, pair.value);
    }
}
