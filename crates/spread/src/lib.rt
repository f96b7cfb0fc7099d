// Whether the sums of a table are those of its book's readings: every reading is spread over the
// points that are stored, on a sheet of the function's own, and the sheet is compared with the sums.
#![tactic(auto)]

ghost use Rattle.std.specs.Prelude.{◌≡◌, ◌*◌, pos, replicate};
ghost use Rattle.table.specs.Reading.{reading_of, shares};
ghost use Rattle.table.specs.Heads.{settings, table};
ghost use Rattle.book.specs.Book.{entry_of, sums_theirs};
ghost use Rattle.spread.specs.Spreading.{LiftsIn, ToSpread, Comparable};
ghost use Rattle.spread.specs.Inner.{shares_to, BookToSpread};

mod lifting;

use crate::lifting::lift_shares;
use lattice::limits::MOST_CAPACITY;
use simplex::enclose;
use table::Head;

// One reading, of d + 2 numbers, spread on the sheet: each point of its enclosing simplex that is
// stored gets its share. Answers how many of its points are missing.
pub fn spread_reading(
    head: Head,
    keys: &[i32],
    index: &[u16],
    sheet: &mut [i64],
    reading: &[i32],
) -> usize
    requires { ToSpread (settings head) keys.now index.now sheet.old reading.now }
    ensures { LiftsIn (settings head) keys index sheet (shares head.d head.fineness (reading_of head.d reading.now)) result }
{
    let d = head.d;
    let n = d + 1;
    let simplex = enclose(&reading[0..n], d, head.fineness);
    let value = reading[n];
    lift_shares(head, keys, index, sheet, &simplex, value)
}

// All readings of the book, one after the other; answers how many of their points are missing. The
// numbers of an entry behind its first are a reading's own: position, then value.
fn spread_book(head: Head, keys: &[i32], index: &[u16], sheet: &mut [i64], book: &[i32]) -> usize
    requires { BookToSpread (settings head) head.readings keys.now index.now sheet.old book.now }
    ensures { LiftsIn (settings head) keys index sheet (shares_to head.d head.fineness book.now head.readings) result }
{
    let width = head.d + 3;
    let mut missing = 0;
    for entry in book[..width * head.readings].chunks_exact(width) {
        missing += spread_reading(head, keys, index, sheet, &entry[1..]);
    }
    missing
}

// On a sheet that is 0 the readings leave what they give to each point. A point that is missing
// has no pair there, so the numbers alone do not decide.
fn on_sheet(
    head: Head,
    keys: &[i32],
    sums: &[i64],
    index: &[u16],
    sheet: &mut [i64],
    book: &[i32],
) -> bool
    requires comparable { Comparable (settings head) (table head keys.now sums.now index.now) book.now }
    requires sheet_value { sheet.old ≡ replicate (2 * head.capacity) (pos 0) }
    ensures { result ≡ sums_theirs (settings head) (table head keys.now sums.now index.now) (λ j. (entry_of head.d book.now j).reading) }
{
    if spread_book(head, keys, index, sheet, book) != 0 {
        return false;
    }
    let places = 2 * head.points;
    sums[..places] == sheet[..places]
}

// The lent sums are read only, so the sheet is an array of this function: room for the pairs of
// as many points as a table has at most.
pub fn sums_are_theirs(head: Head, keys: &[i32], sums: &[i64], index: &[u16], book: &[i32]) -> bool
    requires { Comparable (settings head) (table head keys.now sums.now index.now) book.now }
    ensures { result ≡ sums_theirs (settings head) (table head keys.now sums.now index.now) (λ j. (entry_of head.d book.now j).reading) }
{
    let mut sheet = [0i64; 2 * MOST_CAPACITY];
    let places = 2 * head.capacity;
    on_sheet(head, keys, sums, index, &mut sheet[0..places], book)
}
