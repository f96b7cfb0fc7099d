// A reading taken back from table and book.
ghost use Rattle.std.specs.Prelude.{◌≡◌, ◌<◌};
ghost use Rattle.table.specs.Reading.{reading_of, shares};
ghost use Rattle.table.specs.Heads.{settings, table, table_with};
ghost use Rattle.book.specs.Withdraw.{lowered, leave, without};
ghost use Rattle.book.specs.Theorems.{FineBook};
ghost use Rattle.book.specs.Heads.{booked, booked_in, HoldsBook};
ghost use Rattle.withdraw.specs.Inner.{Lowerable};

use crate::closing::close_up;
use crate::leaving::leave_all;
use crate::lowering::lower;
use crate::naming::name_afresh;
use simplex::enclose;
use table::Head;

// The weights of a reading, of d + 2 numbers, are subtracted; then its points leave that have no mass.
// Answers how many are left. The index is not made afresh yet.
fn unpour(head: Head, keys: &mut [i32], sums: &mut [i64], index: &[u16], reading: &[i32]) -> usize
    requires { Lowerable (settings head) (table head keys.old sums.old index.now) reading.now }
    ensures { let c = settings head in
        let t = table head keys.old sums.old index.now in
        let rs = shares head.d head.fineness (reading_of head.d reading.now) in
        table_with head result keys.new sums.new index.now ≡ leave c (lowered c t rs) rs }
{
    lower(head, keys, sums, index, reading);
    let d = head.d;
    let n = d + 1;
    let simplex = enclose(&reading[0..n], d, head.fineness);
    leave_all(head, keys, sums, &simplex)
}

// Entry j leaves table and book; answers how many points are left. The numbers of an entry behind its
// first are a reading's own: position, then value.
pub fn take_back(
    head: Head,
    keys: &mut [i32],
    sums: &mut [i64],
    index: &mut [u16],
    book: &mut [i32],
    j: usize,
) -> usize
    requires fine_book { FineBook (settings head) (booked head keys.old sums.old index.old book.old) }
    requires j_lt_readings { j < head.readings }
    ensures { let b = without (settings head) (booked_in head keys sums index book) j in
        HoldsBook b result keys.new sums.new index.new book.new }
{
    let d = head.d;
    let width = d + 3;
    let entry = width * j;
    let start = entry + 1;
    let end = entry + width;
    let points = unpour(head, keys, sums, index, &book[start..end]);
    name_afresh(keys, index, d, head.capacity, points);
    close_up(book, d, head.readings, j);
    points
}
