// The filter: a table's pairs blurred, and the smoothed value at each queried position. What the
// answers are stands in specs/; that they lie between the values entered and depend on the table's
// map alone, in proofs/.
#![tactic(auto)]

ghost use Rattle.std.specs.Prelude.{◌≡◌};
ghost use Rattle.lattice.specs.Refusals.{told};
ghost use Rattle.table.specs.Heads.{settings};
ghost use Rattle.book.specs.Heads.{booked};
ghost use Rattle.filter.specs.Filter.{FiltersIn};
ghost use Rattle.filter.specs.Inner.{lent_fits_ranged};

pub mod reply;
mod weigh;

use crate::reply::reply_all;
use blur::blur;
use carried::refusal_of;
use lattice::limits::{MOST_CAPACITY, MOST_D};
use lattice::refusals::Refusal;
use table::Head;

// Whether two sheets of 2·C numbers are lent, whole queries of d + 1 numbers, and a value and a code
// for each. Settings out of range, which are refused before, make no sum and no product.
fn lent_fits(
    d: usize,
    capacity: usize,
    first: usize,
    second: usize,
    queries: usize,
    values: usize,
    codes: usize,
) -> bool
    ensures { result ≡ lent_fits_ranged d capacity first second queries values codes }
{
    let in_range = d <= MOST_D && capacity <= MOST_CAPACITY;
    in_range
        && first == 2 * capacity
        && second == 2 * capacity
        && queries % (d + 1) == 0
        && values == queries / (d + 1)
        && codes == queries / (d + 1)
}

// Filter: 1, 2 or 3 for the call, which then changes nothing; else each query's value and code, where
// a query is refused with 4, 5, 10 or 11 and the value 0. Afterwards the first 2·m numbers of the first
// sheet hold the blurred pairs in stored order, and every other number of both sheets is 0. Table and
// book are only read.
pub fn filter(
    head: Head,
    keys: &[i32],
    sums: &[i64],
    index: &[u16],
    book: &[i32],
    first: &mut [i64],
    second: &mut [i64],
    queries: &[i32],
    values: &mut [i32],
    codes: &mut [u8],
) -> Result<(), Refusal>
    ensures { let b = booked head keys.now sums.now index.now book.now in
        FiltersIn (settings head) b queries.now (told result) first second values codes }
{
    let more = lent_fits(
        head.d,
        head.capacity,
        first.len(),
        second.len(),
        queries.len(),
        values.len(),
        codes.len(),
    );
    refusal_of(head, keys, sums, index, book, more)?;
    blur(head, keys, sums, index, first, second);
    reply_all(head, keys, index, first, queries, values, codes);
    Ok(())
}
