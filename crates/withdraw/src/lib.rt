// Withdrawing: one reading is taken back, by its number, from a table with its book in lent memory.
// Nothing is written before table and book are judged and the number is found.
#![tactic(auto)]

ghost use Rattle.table.specs.Heads.{settings, head_told, told_beside};
ghost use Rattle.book.specs.Calls.{withdraw_refusal, after_withdraw};
ghost use Rattle.book.specs.Heads.{booked_in, AnswersBookIn};

mod closing;
mod entries;
mod leaving;
mod lowering;
mod naming;
mod taking;

use crate::entries::entry_with;
use crate::taking::take_back;
use carried::refusal_of;
use lattice::refusals::Refusal;
use table::{Head, Refused, with_counts};

// The head with one reading less and the points that are left, or the first refusal that is met, 1, 2, 3
// or 19, with the head as given.
pub fn withdraw(
    head: Head,
    keys: &mut [i32],
    sums: &mut [i64],
    index: &mut [u16],
    book: &mut [i32],
    number: i32,
) -> Result<Head, Refused>
    ensures { let c = settings head in
        let b = booked_in head keys sums index book in
        AnswersBookIn head (withdraw_refusal c b number) (after_withdraw c b number) (told_beside result) (head_told result) keys sums index book }
{
    if let Err(refusal) = refusal_of(head, keys, sums, index, book, true) {
        return Err(Refused { refusal, head });
    }
    let Some(j) = entry_with(book, head.d, head.readings, number) else {
        return Err(Refused {
            refusal: Refusal::NumberNotHeld,
            head,
        });
    };
    let points = take_back(head, keys, sums, index, book, j);
    Ok(with_counts(head, head.readings - 1, points))
}
