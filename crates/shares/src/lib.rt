// What a reading adds to a table: the points of its enclosing simplex, slot by slot, which is in
// ascending remainder.
#![tactic(auto)]

ghost use Rattle.std.specs.Prelude.{◌≡◌, suc, ◌≤◌, ◌<◌, pos, nat_abs, ◌*ℤ◌};
ghost use Rattle.lattice.specs.Limits.{most_W, most_value};
ghost use Rattle.table.specs.Pour.{pour, news_in};
ghost use Rattle.table.specs.Heads.{settings, table_with, table_with_in, table, table_in, HoldsIn};
ghost use Rattle.shares.specs.Slots.{slot_rows, rows_to, slot_keys, keys_to, SharesToPour, Counting};

use pour::{add_row, is_new};
use simplex::Simplex;
use table::Head;

// How many points more the slot takes: 1 where it has a point that is not stored yet.
fn new_in_slot(head: Head, keys: &[i32], index: &[u16], simplex: &Simplex, slot: usize) -> usize
    requires counting { Counting head.d head.capacity keys.now index.now simplex.now.weights simplex.now.coords }
    requires slot_bound { slot < suc head.d }
    ensures { result ≡ news_in (settings head) keys.now index.now (slot_keys head.d simplex.now.weights simplex.now.coords slot) }
{
    let Some(key) = simplex.key(head.d, slot) else {
        return 0;
    };
    is_new(head, keys, index, key)
}

// Only the points that are new count.
pub fn new_in_slots(head: Head, keys: &[i32], index: &[u16], simplex: &Simplex) -> usize
    requires { Counting head.d head.capacity keys.now index.now simplex.now.weights simplex.now.coords }
    ensures { result ≡ news_in (settings head) keys.now index.now (keys_to head.d simplex.now.weights simplex.now.coords (suc head.d)) }
{
    let n = head.d + 1;
    let mut count = 0;
    for slot in 0..n {
        count += new_in_slot(head, keys, index, simplex, slot);
    }
    count
}

// A weight times a value, in 64 bits.
pub fn times(weight: u32, value: i32) -> i64
    requires weight_le_most_w { weight ≤ most_W }
    requires value_bound { nat_abs value ≤ most_value }
    ensures { result ≡ pos weight *ℤ value }
{
    i64::from(weight) * i64::from(value)
}

// A slot of weight 0 has no point: nothing is stored for it.
fn pour_slot(
    head: Head,
    points: usize,
    keys: &mut [i32],
    sums: &mut [i64],
    index: &mut [u16],
    simplex: &Simplex,
    value: i32,
    slot: usize,
) -> usize
    requires fact { let t = table_with head points keys.old sums.old index.old in
        SharesToPour (settings head) t simplex.now.weights simplex.now.coords value (slot_rows head.d simplex.now.weights simplex.now.coords value slot) }
    requires slot_bound { slot < suc head.d }
    ensures { let t = table_with_in head points keys sums index in
        let rs = slot_rows head.d simplex.now.weights simplex.now.coords value slot in
        HoldsIn (pour (settings head) t rs) result keys sums index }
{
    let Some(key) = simplex.key(head.d, slot) else {
        return points;
    };
    let weight = simplex.weights[slot];
    let mass = i64::from(weight);
    let sum = times(weight, value);
    add_row(head, points, keys, sums, index, key, mass, sum)
}

// All slots, one after the other; answers how many points are stored then.
pub fn pour_shares(
    head: Head,
    keys: &mut [i32],
    sums: &mut [i64],
    index: &mut [u16],
    simplex: &Simplex,
    value: i32,
) -> usize
    requires { let t = table head keys.old sums.old index.old in
        SharesToPour (settings head) t simplex.now.weights simplex.now.coords value (rows_to head.d simplex.now.weights simplex.now.coords value (suc head.d)) }
    ensures { let t = table_in head keys sums index in
        let rs = rows_to head.d simplex.now.weights simplex.now.coords value (suc head.d) in
        HoldsIn (pour (settings head) t rs) result keys sums index }
{
    let n = head.d + 1;
    let mut points = head.points;
    for slot in 0..n {
        points = pour_slot(head, points, keys, sums, index, simplex, value, slot);
    }
    points
}
