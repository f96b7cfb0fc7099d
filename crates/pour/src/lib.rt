// Rows added to a table in lent memory, which is what entering a reading and merging a table do:
// "A point not yet stored is appended after the last, starting from 0."
#![tactic(auto)]

ghost use Rattle.std.specs.Prelude.{◌≡◌, length};
ghost use Rattle.index.specs.Search.{Searchable};
ghost use Rattle.table.specs.Table.{Row};
ghost use Rattle.table.specs.Heads.{settings, table_with, table_with_in, HoldsIn};
ghost use Rattle.table.specs.Inner.{Addable};
ghost use Rattle.table.specs.Pour.{add, one_if_new};
ghost use Rattle.pour.specs.Inner.{Appendable, Appends};

pub mod pair;
pub mod stretch;

use crate::pair::{raise_pair, set_pair};
use crate::stretch::store_key;

// A new point after the last, at an empty index place: its key, its pair, and the place that names it.
fn append_row(
    points: usize,
    keys: &mut [i32],
    sums: &mut [i64],
    index: &mut [u16],
    place: usize,
    key: &[i32],
    mass: i64,
    value: i64,
) -> usize
    requires { Appendable points keys.old sums.old index.old place key.now }
    ensures { (let row : Row = record { key = key.entry.now; mass = mass; value = value } in
        Appends points keys.old sums.old index.old place row result keys.new sums.new index.new) }
{
    let next = points + 1;
    store_key(keys, key, points);
    set_pair(sums, points, mass, value);
    index[place] = next as u16;
    next
}

// A row added to the point that has its key, or else appended. The answer is the number of points.
pub fn add_row(
    head: table::Head,
    points: usize,
    keys: &mut [i32],
    sums: &mut [i64],
    index: &mut [u16],
    key: &[i32],
    mass: i64,
    value: i64,
) -> usize
    requires { (let t = table_with head points keys.old sums.old index.old in
        let row : Row = record { key = key.now; mass = mass; value = value } in
        Addable (settings head) t row) }
    ensures { (let t = table_with_in head points keys sums index in
        let row : Row = record { key = key.entry.now; mass = mass; value = value } in
        HoldsIn (add (settings head) t row) result keys sums index) }
{
    let place = index::search::search(keys, index, head.capacity, key);
    let entry = index[place];
    if entry == 0 {
        return append_row(points, keys, sums, index, place, key, mass, value);
    }
    raise_pair(sums, usize::from(entry) - 1, mass, value);
    points
}

// 1 where the key is not stored, else 0: what it adds to the number of points that are new.
pub fn is_new(head: table::Head, keys: &[i32], index: &[u16], key: &[i32]) -> usize
    requires searchable { Searchable head.d head.capacity keys.now index.now }
    requires key_len { length key.now ≡ head.d }
    ensures { result ≡ one_if_new (settings head) keys.now index.now key.now }
{
    let place = index::search::search(keys, index, head.capacity, key);
    usize::from(index[place] == 0)
}
