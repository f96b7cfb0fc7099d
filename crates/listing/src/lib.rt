// The listing: the point numbers of a table in the order of their keys. What a listing is, and what
// the call leaves, stands in specs/; that there is one listing of a table, in proofs/.
#![tactic(auto)]

ghost use Rattle.lattice.specs.Refusals.{told};
ghost use Rattle.table.specs.Heads.{settings};
ghost use Rattle.book.specs.Heads.{booked};
ghost use Rattle.listing.specs.Listing.{ListsIn};

mod compare;
pub mod fill;
mod merge;
mod sort;

use crate::fill::fill;
use carried::refusal_of;
use lattice::refusals::Refusal;
use table::Head;

// List: refusals 1, 2, 3. Accepted, the list has the point numbers ordered by coordinate 0, then 1 and
// so on, ascending, then 0 in the rest; refused, it is left as it was. Table and book are only read.
pub fn list(
    head: Head,
    keys: &[i32],
    sums: &[i64],
    index: &[u16],
    book: &[i32],
    list: &mut [u16],
) -> Result<(), Refusal>
    ensures { let b = booked head keys.now sums.now index.now book.now in
        ListsIn (settings head) b (told result) list }
{
    let more = list.len() == head.capacity;
    refusal_of(head, keys, sums, index, book, more)?;
    fill(keys, head.d, head.points, list);
    Ok(())
}
