// Making a fresh table with its book in lent memory.
ghost use Rattle.table.specs.Table.{Settings};
ghost use Rattle.table.specs.Heads.{head_of, head_told, told_beside};
ghost use Rattle.book.specs.Calls.{fresh_refusal, after_fresh};
ghost use Rattle.book.specs.Heads.{lent_in, AnswersBookIn};

use crate::settings::{in_range, lengths_fit};
use lattice::refusals::Refusal;
use table::{Head, Refused};

// The head of these settings with no reading and no point, refused or not; the slices are filled with 0
// where it is not.
pub fn fresh(
    d: usize,
    fineness: u32,
    capacity: usize,
    room: usize,
    keys: &mut [i32],
    sums: &mut [i64],
    index: &mut [u16],
    book: &mut [i32],
) -> Result<Head, Refused>
    ensures { (let c : Settings = record { d = d; S = fineness; C = capacity } in
        let b = lent_in room keys sums index book in
        AnswersBookIn (head_of c room) (fresh_refusal c b) (after_fresh c b) (told_beside result) (head_told result) keys sums index book) }
{
    let head = Head {
        d,
        fineness,
        capacity,
        room,
        readings: 0,
        points: 0,
    };
    if !in_range(d, fineness, capacity, room) {
        return Err(Refused {
            refusal: Refusal::SettingsOutOfRange,
            head,
        });
    }
    if !lengths_fit(
        d,
        capacity,
        room,
        keys.len(),
        sums.len(),
        index.len(),
        book.len(),
    ) {
        return Err(Refused {
            refusal: Refusal::OtherLength,
            head,
        });
    }
    keys.fill(0);
    sums.fill(0);
    index.fill(0);
    book.fill(0);
    Ok(head)
}
