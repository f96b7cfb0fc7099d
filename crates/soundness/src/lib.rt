// Whether a table is sound, on lent memory that may hold anything: nothing wraps and nothing is read
// out of range. What soundness adds for the book is tested after it.
#![tactic(auto)]

ghost use Rattle.std.specs.Prelude.{◌≡◌};
ghost use Rattle.table.specs.Sound.{sound, Ranged, Shape};
ghost use Rattle.table.specs.Heads.{settings, table};

mod places;
mod points;
mod rows;

use crate::places::{finds_all, index_is_sparse};
use crate::rows::{rows_are_good, total_of};
use lattice::limits::MOST_READINGS;

// One pass over the index, one search a key and one pass over the points. The counts come first, then
// the index entries: only then does each name a stretch of the keys, and only then can a search end.
pub fn is_sound(head: table::Head, keys: &[i32], sums: &[i64], index: &[u16]) -> bool
    requires ranged { Ranged (settings head) }
    requires shape { Shape (settings head) (table head keys.now sums.now index.now) }
    ensures { let t = table head keys.now sums.now index.now in
        result ≡ sound (settings head) t }
{
    let d = head.d;
    let capacity = head.capacity;
    let readings = head.readings;
    let points = head.points;
    if capacity < points {
        return false;
    }
    if MOST_READINGS < readings {
        return false;
    }
    if !index_is_sparse(index, points) {
        return false;
    }
    if !finds_all(keys, index, d, capacity, points) {
        return false;
    }
    let total = total_of(d, head.fineness, readings);
    rows_are_good(keys, sums, d, points, total)
}
